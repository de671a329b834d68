//! Lines of other protocols.

ghost use Rattle.std.specs.Prelude.{IsTrue, ◌↔◌};
ghost use Rattle.desk.specs.Lines.{IsHandshake, IsOfBrowser, IsRequest};

use crate::line::trimmed;
use numerals::is;

/// The number of bytes of ` HTTP/1.` and the one behind it.
const VERSION: usize = 9;

/// Returns `true` if a browser sends the line, before any that a page or a server chose: the first
/// one of a request of HTTP, or of a handshake of TLS.
pub(crate) fn is_of_browser(line: &[u8]) -> bool
    ensures { IsTrue result ↔ IsOfBrowser line.now }
{
    is_request(line) || is_handshake(line)
}

/// Returns `true` if the line begins a handshake of TLS.
fn is_handshake(line: &[u8]) -> bool
    ensures { IsTrue result ↔ IsHandshake line.now }
{
    matches!(line, [22, 3, ..])
}

/// Returns `true` if the line is the first one of a request of HTTP.
fn is_request(line: &[u8]) -> bool
    ensures { IsTrue result ↔ IsRequest line.now }
{
    let text = trimmed(line);
    if text.len() < VERSION {
        return false;
    }
    let version = text.len() - VERSION;
    is(&text[version..text.len() - 1], " HTTP/1.")
}
