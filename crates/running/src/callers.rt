//! The peers that say that they are members.

ghost use Rattle.std.specs.Prelude.{ℕ, ◌≡◌, Some, IfSome};
ghost use Rattle.std.specs.Int.{w16, w64, to_be_bytes};
ghost use Rattle.terms_prelude.specs.Terms.{Size};
ghost use Rattle.wire.specs.Texts.{frame_bytes, version_byte};
ghost use Rattle.wire.specs.declared.message.Message.TheVariants as message;
ghost use Rattle.wire.specs.declared.message.Version.{Version};
ghost use Rattle.running.specs.Callers.{claim_bytes, claim_from, Differs, Fits, is_size};
ghost use Rattle.running.specs.Hosts.{MaySpeak};
ghost use Rattle.running.specs.declared.callers.Claim.{Claim};

use crate::hosts::{Peers, may_speak};
use crate::life::Life;
use std::fmt;
use std::net::IpAddr;
use terms::Header;

/// The claim of a Hello, which may be of any cluster, size and version.
#[derive(Clone, Copy, Drop)]
pub(crate) struct Claim {
    pub(crate) version: u8,
    pub(crate) cluster: u64,
    pub(crate) n: u8,
    pub(crate) t: u8,
    pub(crate) questions: u16,
    pub(crate) from: u8,
    pub(crate) to: u8,
}

impl Claim {
    /// Returns what these bytes say, if they are a Hello. It may be one that no member of this
    /// cluster would send.
    pub(crate) fn read(bytes: &[u8]) -> Option<Claim>
        ensures some { IfSome result (λ claim. bytes.now ≡ claim_bytes claim) }
        ensures exact { (claim : Claim) → Fits claim → bytes.now ≡ claim_bytes claim →
            result ≡ Some claim }
        ensures hello { (version : Version) (cluster : ℕ) (size : Size) (from to : ℕ) →
            Fits (claim_from (version_byte version) cluster size from to) →
            bytes.now ≡ frame_bytes (message.Hello version cluster size from to) →
            result ≡ Some (claim_from (version_byte version) cluster size from to) }
    {
        let [
            0,
            16,
            1,
            version,
            c0,
            c1,
            c2,
            c3,
            c4,
            c5,
            c6,
            c7,
            n,
            t,
            q0,
            q1,
            from,
            to,
        ] = *bytes
        else {
            return None;
        };
        Some(Claim {
            version,
            cluster: number(&[c0, c1, c2, c3, c4, c5, c6, c7]),
            n,
            t,
            questions: short(&[q0, q1]),
            from,
            to,
        })
    }

    /// In what it differs from what the header's member, with these peers, expects from that host.
    fn difference<J: Life>(
        &self,
        header: &Header,
        peers: &Peers<J>,
        host: IpAddr,
    ) -> Option<Difference>
        ensures { Differs self.now header.now
            (MaySpeak J.addresses J.hosts self.now.from host) result }
    {
        if self.version != 1 && self.version != 2 {
            return Some(Difference::Version(self.version));
        }
        if self.cluster != header.cluster() {
            return Some(Difference::Cluster(self.cluster));
        }
        if !self.has_size_of(header) {
            return Some(Difference::Size {
                n: self.n,
                t: self.t,
                questions: self.questions,
            });
        }
        if self.to != header.me() {
            return Some(Difference::To(self.to));
        }
        if !may_speak(peers, self.from, host) {
            return Some(Difference::Host);
        }
        None
    }

    fn has_size_of(&self, header: &Header) -> bool
        ensures { result ≡ is_size self.now header.now.size }
    {
        let size = header.size();
        self.n == size.n() && self.t == size.t() && self.questions == size.questions()
    }
}

/// The number that these bytes are, the highest first.
fn number(bytes: &[u8; 8]) -> u64
    ensures { to_be_bytes w64 result ≡ bytes.now }
{
    u64::from_be_bytes(*bytes)
}

/// The same of two.
fn short(bytes: &[u8; 2]) -> u16
    ensures { to_be_bytes w16 result ≡ bytes.now }
{
    u16::from_be_bytes(*bytes)
}

/// In what a Hello differs from what the member expects to which it comes. The text of each is
/// behind `member M` in a line of a log.
#[derive(Clone, Copy, Debug, PartialEq, Eq)]
pub enum Difference {
    /// The Hello is of a version that this member doesn't know.
    Version(u8),
    /// The Hello is of that cluster.
    Cluster(u64),
    /// The Hello is of a cluster of that size.
    Size {
        /// The number of its members.
        n: u8,
        /// The most of them that may lie.
        t: u8,
        /// The number of its questions.
        questions: u16,
    },
    /// The Hello is meant for that member.
    To(u8),
    /// The Hello comes from a host that may not speak for its member.
    Host,
}

impl fmt::Display for Difference {
    ghost use Rattle.std.specs.Prelude.{Some};
    ghost use Rattle.running.specs.Callers.{difference_text};

    ghost output = { λ difference. Some (difference_text difference) };

    fn fmt<W: fmt::Write>(&self, f: &mut fmt::Formatter<W>) -> fmt::Result {
        match *self {
            Difference::Version(version) => write!(f, " of version {version}"),
            Difference::Cluster(cluster) => write!(f, " of cluster {cluster}"),
            Difference::Size { n, t, questions } => {
                write!(f, " of n {n} t {t} questions {questions}")
            }
            Difference::To(member) => write!(f, " to member {member}"),
            Difference::Host => f.write_str(" from another host"),
        }
    }
}

/// The member that a peer said it was, in a Hello.
#[derive(Clone, Copy, Debug, PartialEq, Eq)]
pub struct Caller {
    /// The member's number.
    pub member: u8,
    /// In what the Hello differs from one that would be taken; none where it doesn't.
    pub differs: Option<Difference>,
}

impl Caller {
    /// Returns who that is, to the header's member with these peers, from that host.
    pub(crate) fn of<J: Life>(
        claim: &Claim,
        header: &Header,
        peers: &Peers<J>,
        host: IpAddr,
    ) -> Caller
        ensures member { result.member ≡ claim.now.from }
        ensures differs { Differs claim.now header.now
            (MaySpeak J.addresses J.hosts claim.now.from host) result.differs }
    {
        Caller {
            member: claim.from,
            differs: claim.difference(header, peers, host),
        }
    }
}

impl fmt::Display for Caller {
    ghost use Rattle.std.specs.Prelude.{Some};
    ghost use Rattle.running.specs.Callers.{caller_text};

    ghost output = { λ caller. Some (caller_text caller) };

    fn fmt<W: fmt::Write>(&self, f: &mut fmt::Formatter<W>) -> fmt::Result {
        match self.differs {
            Some(difference) => write!(f, ": member {}{difference}", self.member),
            None => write!(f, ": member {}", self.member),
        }
    }
}
