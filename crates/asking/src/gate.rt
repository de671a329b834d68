//! The command `gateway`: a cluster over HTTP. Begin at `run_gateway`.

ghost use Rattle.std.specs.Prelude.{ℕ, List, [], ◌≡◌, ◌↔◌, ◌∷◌, ◌++◌, IfErr, IfOk, IfSome, IsNone, IsOkAnd, IsSomeAnd, IsTrue, Ok, codes};
ghost use Rattle.settings.specs.Addresses.{IsAddress};
ghost use Rattle.settings.specs.declared.address.Address.{Address};
ghost use Rattle.asking.specs.Gates.{HasToken, IsLineOf, IsToken, IsTokenByte, IsUnopened, Opens, is_open_mode};
ghost use Rattle.troubles.specs.Troubles.{IsNamed};
ghost use Rattle.troubles.specs.declared.fault.Fault.TheVariants as ends;

use crate::callers::Caller;
use crate::clients::read_client;
use crate::sockets::{socket_address, socket_addresses};
use machine::RunFault;
use portal::{Opening, OpeningFault, Portal, open};
use process::{blocks_signals, is_called_off};
use settings::{Address, ClientSettings};
use std::alloc::Global;
use std::fs::{self, File};
use std::hash::RandomState;
use std::io::{self, Read};
use std::net::SocketAddr;
use std::os::unix::fs::MetadataExt;
use std::random::RandomSource;
use std::thread;
use std::time::Duration;
use troubles::{Failure, Fault, Whereabouts};

/// The address at which a gateway listens if none is given.
const LISTEN: Address = Address {
    octets: [127, 0, 0, 1],
    port: 7180,
};

/// The form of an address to listen at, as a failure tells it.
const LISTEN_WORDS: &str =
    "--listen wants HOST:PORT: `localhost` or four numbers with points between them, and a port from 1 on; no host names, no IPv6";

/// The fewest characters of a token.
const SHORTEST: usize = 16;

/// The most characters of a token.
const LONGEST: usize = 256;

/// The form of a token, as a failure tells it.
const TOKEN_WORDS: &str =
    "a token is one line of 16 to 256 printable characters without blanks: `openssl rand -hex 32` makes one";

/// The words for a token that isn't a secret.
const OPEN_WORDS: &str =
    "others may read or change this token: make another, and `chmod 600` its file";

/// The words for a gateway that takes no proposals.
const CLOSED: &str =
    "bracha: no proposals are taken, since the address isn't a loopback one and there is no --token";

/// A request for a gateway.
#[derive(Clone, Copy, Debug, PartialEq, Eq)]
pub struct Gate<'a> {
    /// The path of the client's settings.
    pub file: &'a str,
    /// The address to listen at, if one is given.
    pub listen: Option<&'a str>,
    /// The path of the token's file, if one is given.
    pub token: Option<&'a str>,
}

/// Serves the cluster of the client's settings over HTTP until SIGTERM or SIGINT comes, and prints
/// a line once it listens. The status is 0. A signal that isn't blocked ends the process at once.
///
/// # Errors
///
/// - [`Fault::File`] if the settings or the token can't be read, or the system draws no random
///   bytes;
/// - [`Fault::Settings`] if the settings aren't a client's;
/// - [`Fault::Address`] if the address to listen at isn't one;
/// - [`Fault::Token`] if others may read or write the token's file, or it holds no token;
/// - [`Fault::Run`] if the address can't be listened at;
/// - [`Fault::Memory`] if memory or a thread was refused;
/// - [`Fault::Stream`] if the line can't be printed.
pub fn run_gateway<R: Caller>(rt: &R, host: &HostRuntime, gate: &Gate<'_>) -> Result<u8, Failure> {
    let alloc = host.alloc();
    let client = read_client(host, gate.file)?;
    let listen = socket_address(&listen_address(alloc, gate.listen)?);
    let token = token_of(host, gate.token)?;
    let is_closed = token.is_empty() && !listen.ip().is_loopback();
    let address = format!(in alloc; "{listen}").map_err(|_| Fault::Memory)?;
    let opening = opening_of(host, &client, listen, token)?;
    let portal = match open(rt, alloc, opening) {
        Ok(portal) => portal,
        Err(fault) => return Err(unopened(alloc, address.as_str(), fault)),
    };
    warn_of_closed(host, is_closed);
    serve_on(rt, host, address.as_str(), &client, portal)
}

/// Returns the address to listen at.
///
/// # Errors
///
/// [`Fault::Address`] if the text isn't one.
fn listen_address(alloc: Global, text: Option<&str>) -> Result<Address, Failure>
    ensures fault { IfErr result (λ failure. failure.fault ≡ ends.Address) }
    ensures unsaid { IsNone text.entry → IsOkAnd result
        (λ address. (address.octets ≡ 127 ∷ 0 ∷ 0 ∷ 1 ∷ []) × (address.port ≡ 7180)) }
    ensures said { IfSome text.entry (λ said. IfOk result (IsAddress said.now)) }
    ensures exact { (address : Address) → IsSomeAnd text.entry
        (λ said. IsAddress said.now address) → result ≡ Ok address }
{
    let Some(text) = text else {
        return Ok(LISTEN);
    };
    match Address::parse(text) {
        Some(address) => Ok(address),
        None => {
            let fault = Fault::Address;
            Err(Failure::at(alloc, fault, text, Whereabouts::Whole, &LISTEN_WORDS))
        }
    }
}

/// Returns the token that proposals must show; an empty one if none is needed.
fn token_of(host: &HostRuntime, path: Option<&str>) -> Result<Vec<u8>, Failure> {
    match path {
        Some(path) => read_token(host, path),
        None => Ok(Vec::new(host.alloc())),
    }
}

/// Returns the token of the file at the path.
///
/// # Errors
///
/// [`Fault::File`] if the file can't be read; [`Fault::Token`] if others may read or write it, or
/// if it holds no token.
fn read_token(host: &HostRuntime, path: &str) -> Result<Vec<u8>, Failure>
    ensures { IfErr result (IsNamed path.now) }
{
    let alloc = host.alloc();
    let (bytes, is_open) = match read_secret(host, path) {
        Ok(read) => read,
        Err(error) => {
            let fault = Fault::File;
            return Err(Failure::of_system(alloc, fault, path, Whereabouts::Read, error));
        }
    };
    if is_open {
        return Err(Failure::at(alloc, Fault::Token, path, Whereabouts::Whole, &OPEN_WORDS));
    }
    match token_in(&bytes) {
        Some(token) => owned(alloc, path, token),
        None => Err(Failure::at(alloc, Fault::Token, path, Whereabouts::Whole, &TOKEN_WORDS)),
    }
}

/// Returns the first bytes of the file, and if others may read or write it.
fn read_secret(host: &HostRuntime, path: &str) -> io::Result<(Vec<u8>, bool)> {
    let is_open = is_open_mode(fs::metadata(host, path)?.mode());
    let file = File::open(host, path)?;
    let mut bytes = Vec::new(host.alloc());
    file.take(LONGEST as u64 + 2).read_to_end(&mut bytes)?;
    Ok((bytes, is_open))
}

/// Returns `true` if a file of this mode may be read or written by others than its owner and its
/// group.
fn is_open_mode(mode: u32) -> bool
    ensures { result ≡ is_open_mode mode }
{
    mode & 0o006 != 0
}

/// Returns the token of a text that is one line.
fn token_in(text: &[u8]) -> Option<&[u8]>
    ensures some { IfSome result (λ token. HasToken text.now token.now) }
    ensures none { IsNone result → (token : List ℕ) → HasToken text.now token → ⊥ }
{
    let line = without_end(text);
    if is_token(line) { Some(line) } else { None }
}

/// Returns the text without the end of its line.
fn without_end(text: &[u8]) -> &[u8]
    ensures line { IsLineOf text.now result.now }
    ensures end { (line : List ℕ) → text.now ≡ line ++ codes "\n" → result.now ≡ line }
{
    match text.strip_suffix(b"\n") {
        Some(line) => line,
        None => text,
    }
}

/// Returns `true` if the bytes are a token.
fn is_token(bytes: &[u8]) -> bool
    ensures { IsTrue result ↔ IsToken bytes.now }
{
    bytes.len() >= SHORTEST
        && bytes.len() <= LONGEST
        && bytes.iter().all(|byte| is_token_byte(*byte))
}

/// Returns `true` if a token may have the byte: a printable character of ASCII that isn't a blank.
fn is_token_byte(byte: u8) -> bool
    ensures { IsTrue result ↔ IsTokenByte byte }
{
    byte > 32 && byte < 127
}

/// Returns a copy of the token of the file at the path.
fn owned(alloc: Global, path: &str, token: &[u8]) -> Result<Vec<u8>, Failure>
    ensures { IfErr result (IsNamed path.now) }
{
    let mut copy = Vec::new(alloc);
    match copy.extend_from_slice(token) {
        Ok(()) => Ok(copy),
        Err(_) => Err(Failure::about(alloc, Fault::Memory, path)),
    }
}

/// Returns the settings of a gateway of this cluster.
fn opening_of(
    host: &HostRuntime,
    client: &ClientSettings,
    listen: SocketAddr,
    token: Vec<u8>,
) -> Result<Opening, Failure>
    ensures { IfOk result (Opens client.now listen token.items) }
{
    let desks = socket_addresses(host.alloc(), &client.desks).map_err(|_| Fault::Memory)?;
    Ok(Opening {
        cluster: client.cluster,
        size: client.size,
        chain: client.chain,
        desks,
        listen,
        token,
        life: drawn_number(host)?,
        keys: drawn_keys(host)?,
    })
}

/// Returns a number that the system draws.
fn drawn_number(host: &HostRuntime) -> Result<u64, Failure> {
    let mut bytes = [0; 8];
    match host.fill_bytes(&mut bytes) {
        Ok(()) => Ok(u64::from_le_bytes(bytes)),
        Err(error) => Err(no_chance(host.alloc(), error)),
    }
}

/// Returns keys that the system draws.
fn drawn_keys(host: &HostRuntime) -> Result<RandomState, Failure> {
    match RandomState::new(host) {
        Ok(keys) => Ok(keys),
        Err(error) => Err(no_chance(host.alloc(), error)),
    }
}

/// Returns the failure of the system's random bytes.
fn no_chance(alloc: Global, error: io::Error) -> Failure {
    let thing = "the system's random bytes";
    Failure::of_system(alloc, Fault::File, thing, Whereabouts::Read, error)
}

/// Returns the failure of a gateway that doesn't start at this address.
fn unopened(alloc: Global, address: &str, fault: OpeningFault) -> Failure
    ensures { IsUnopened fault result.fault }
{
    match fault {
        OpeningFault::Listen(error) => {
            let fault = Fault::Run(RunFault::Listen);
            Failure::of_system(alloc, fault, address, Whereabouts::Listen, error)
        }
        OpeningFault::Memory => Failure::from(Fault::Memory),
        OpeningFault::Thread => {
            let words = "the system refused one: see `ulimit -u`";
            Failure::at(alloc, Fault::Memory, "threads", Whereabouts::Whole, &words)
        }
    }
}

/// Says on standard error that no proposals are taken, if that is so.
fn warn_of_closed(host: &HostRuntime, is_closed: bool) {
    if is_closed {
        let _unsaid = eprintln!(host; "{CLOSED}");
    }
}

/// Serves until a signal comes, and ends the gateway's threads.
fn serve_on<R: Caller>(
    rt: &R,
    host: &HostRuntime,
    address: &str,
    client: &ClientSettings,
    portal: Portal,
) -> Result<u8, Failure> {
    let printed = print_ready(host, address, client);
    if printed.is_ok() {
        wait_for_signal(rt, host);
    }
    portal.end();
    printed?;
    Ok(0)
}

/// Prints that the gateway of this cluster listens at the address.
fn print_ready(host: &HostRuntime, address: &str, client: &ClientSettings) -> Result<(), Failure> {
    let (cluster, n) = (client.cluster, client.size.n());
    match println!(host; "gateway {address} cluster {cluster} members {n}") {
        Ok(()) => Ok(()),
        Err(error) => Err(Failure::from(Fault::from(error))),
    }
}

/// Returns once SIGTERM or SIGINT waits, at most half a second late. Where neither is blocked, one
/// ends the process.
fn wait_for_signal<R: Caller>(rt: &R, host: &HostRuntime) {
    let blocked = blocks_signals(host);
    for _ in 0..u64::MAX {
        if blocked && is_called_off(host) {
            return;
        }
        thread::sleep(rt, Duration::from_millis(500));
    }
}
