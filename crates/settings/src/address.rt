//! The address at which a peer or a desk listens: a text `HOST:PORT`.

ghost use Rattle.std.specs.Prelude.{ℕ, List, ◌≡◌, ◌<◌, ◌∷◌, ◌++◌, [], IfSome, MatchOption, Some};
ghost use Rattle.settings.specs.Addresses.{IsOctet, IsPort, IsHost, AreDotted};
ghost use Rattle.settings.specs.Marks.{LacksMark};

use numerals::{number8, number16};

/// A host of the internet and a port of it.
#[derive(Clone, Copy, Debug, PartialEq, Eq)]
pub struct Address {
    /// The four numbers of the host.
    pub octets: [u8; 4],
    /// The port.
    pub port: u16,
}

impl Address {
    ghost use Rattle.std.specs.Prelude.{ℕ, List, ◌≡◌, IfSome, Some};
    ghost use Rattle.settings.specs.Addresses.{IsAddress};
    ghost use Rattle.settings.specs.declared.address.Address.{Address};

    /// The address that the text `HOST:PORT` names, or none where it isn't one. HOST is
    /// `localhost`, which is 127.0.0.1, or four numbers 0 to 255 with points between them; PORT is
    /// 1 to 65535. The numbers are decimal digits alone; leading zeros are taken.
    pub fn parse(text: &str) -> Option<Address>
        ensures some { IfSome result (IsAddress text.now) }
        ensures exact { (address : Address) → IsAddress text.now address → result ≡ Some address }
    {
        let (host, port_digits) = split(text, ':')?;
        Some(Address {
            octets: octets(host)?,
            port: port(port_digits)?,
        })
    }
}

/// The port, 1 to 65535, that these decimal digits write. Leading zeros are taken.
fn port(digits: &str) -> Option<u16>
    ensures some { IfSome result (IsPort digits.now) }
    ensures exact { (port : ℕ) → IsPort digits.now port → result ≡ Some port }
{
    match number16(digits.as_bytes()) {
        Some(port) if port > 0 => Some(port),
        _ => None,
    }
}

/// The four octets of the host: those of `localhost`, or the ones that are written.
pub(crate) fn octets(host: &str) -> Option<[u8; 4]>
    ensures some { IfSome result (IsHost host.now) }
    ensures exact { (octets : List ℕ) → IsHost host.now octets → result ≡ Some octets }
{
    if host == "localhost" {
        Some([127, 0, 0, 1])
    } else {
        dotted(host)
    }
}

/// The four octets, with points between them.
fn dotted(text: &str) -> Option<[u8; 4]>
    ensures some { IfSome result (AreDotted text.now) }
    ensures four { IfSome result
        (λ octets. (a : ℕ) × (b : ℕ) × (c : ℕ) × (d : ℕ) × (octets ≡ a ∷ b ∷ c ∷ d ∷ [])) }
    ensures exact { (a b c d : ℕ) → AreDotted text.now (a ∷ b ∷ c ∷ d ∷ []) →
        result ≡ Some (a ∷ b ∷ c ∷ d ∷ []) }
{
    let (first, rest) = octet_before(text)?;
    let (second, rest) = octet_before(rest)?;
    let (third, rest) = octet_before(rest)?;
    Some([first, second, third, octet(rest)?])
}

/// The octet before the first point, and the text behind that.
fn octet_before(text: &str) -> Option<(u8, &str)>
    ensures some { IfSome result
        (λ parts. (digits : List ℕ) × (text.now ≡ digits ++ 46 ∷ parts.1.now)
        × IsOctet digits parts.0) }
    ensures exact { (octet : ℕ) (digits rest : List ℕ) → text.now ≡ digits ++ 46 ∷ rest →
        IsOctet digits octet → MatchOption result ⊥
        (λ parts. (parts.0 ≡ octet) × (parts.1.now ≡ rest)) }
{
    let (digits, rest) = split(text, '.')?;
    Some((octet(digits)?, rest))
}

/// The number of one byte that these decimal digits write. Leading zeros are taken.
fn octet(digits: &str) -> Option<u8>
    ensures some { IfSome result (IsOctet digits.now) }
    ensures exact { (octet : ℕ) → IsOctet digits.now octet → result ≡ Some octet }
{
    number8(digits.as_bytes())
}

/// The text before the first such mark, and the text behind that.
fn split(text: &str, mark: char) -> Option<(&str, &str)>
    requires { mark < 128 }
    ensures parts { IfSome result (λ parts. text.now ≡ parts.0.now ++ mark ∷ parts.1.now) }
    ensures exact { (front behind : List ℕ) → text.now ≡ front ++ mark ∷ behind →
        LacksMark mark front → MatchOption result ⊥
        (λ parts. (parts.0.now ≡ front) × (parts.1.now ≡ behind)) }
{
    text.split_once(mark)
}
