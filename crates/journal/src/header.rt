//! A header in bytes.
ghost use Rattle.std.specs.Prelude.{◌≡◌, ◌↔◌, ◌∷◌, ◌++◌, [], take, drop, codes, IsTrue, IfSome, IsNone};
ghost use Rattle.std.specs.Int.{w64, to_be_bytes};
ghost use Rattle.terms_prelude.specs.Terms.{Header};
ghost use Rattle.journal.specs.Texts.{header_text};
ghost use Rattle.journal.specs.WellFormed.{IsHeader};

use terms::{Header, Size};

/// The number of bytes of a header.
pub(crate) const HEADER: usize = 24;

/// The first bytes of each header.
const MARK: [u8; 8] = *b"BRACHAJ2";

/// The first bytes of each header of version 1.
const OLD_MARK: [u8; 8] = *b"BRACHAJ1";

/// The last bytes of each header.
const ZEROS: [u8; 3] = [0; 3];

/// The file of a journal that has no records: the header, and a closed gate.
#[tactic(auto, unfolding(crate::specs::Texts::header_text))]
pub(crate) fn new_file(header: &Header) -> [u8; 25]
    ensures lawful { IsHeader header.now }
    ensures text { result ≡ header_text header.now ++ 0 ∷ [] }
{
    let size = header.size();
    let [c0, c1, c2, c3, c4, c5, c6, c7] = header.cluster().to_be_bytes();
    let [high, low] = size.questions().to_be_bytes();
    let (n, t, me) = (size.n(), size.t(), header.me());
    [
        b'B', b'R', b'A', b'C', b'H', b'A', b'J', b'2', c0, c1, c2, c3, c4, c5, c6, c7, n, t, high,
        low, me, 0, 0, 0, 0,
    ]
}

/// The header of these bytes, if they are one.
pub fn header_of(bytes: &[u8; 24]) -> Option<Header>
    ensures some { IfSome result (λ header. IsHeader header × (bytes.now ≡ header_text header)) }
    ensures none { IsNone result → (header : Header) → IsHeader header →
        bytes.now ≡ header_text header → ⊥ }
{
    if !is_marked(bytes) {
        return None;
    }
    let questions = u16::from_be_bytes([bytes[18], bytes[19]]);
    match Size::new(bytes[16], bytes[17], questions) {
        Ok(size) => {
            size.recall();
            Header::new(cluster_of(bytes), size, bytes[20])
        }
        Err(_) => None,
    }
}

/// Returns `true` if they begin and end as each header does.
fn is_marked(bytes: &[u8; 24]) -> bool
    ensures { IsTrue result ↔ (take 8 bytes.now ≡ codes "BRACHAJ2")
        × (take 3 (drop 21 bytes.now) ≡ 0 ∷ 0 ∷ 0 ∷ []) }
{
    bytes[..8] == MARK[..] && bytes[21..] == ZEROS[..]
}

/// Returns `true` if they begin as each header of version 1 does.
pub(crate) fn is_old(bytes: &[u8; 24]) -> bool
    ensures { IsTrue result ↔ (take 8 bytes.now ≡ codes "BRACHAJ1") }
{
    bytes[..8] == OLD_MARK[..]
}

/// The cluster's number.
fn cluster_of(bytes: &[u8; 24]) -> u64
    ensures { to_be_bytes w64 result ≡ take 8 (drop 8 bytes.now) }
{
    let mut number = [0; 8];
    number.copy_from_slice(&bytes[8..16]);
    u64::from_be_bytes(number)
}
