//! The text of settings, as `new-cluster` writes it.

ghost use Rattle.std.specs.Prelude.{◌≡◌, ◌↔◌, IfErr, IfOk, IsTrue, List, option_map, string_bytes};
ghost use Rattle.std.specs.List.{flat_map};
ghost use Rattle.toml.specs.Parse.{parse_document};
ghost use Rattle.settings.specs.Settings.{IsSettings};
ghost use Rattle.settings.specs.declared.keys.Key.TheVariants.{Listen};
ghost use Rattle.settings.specs.Texts.{IsLike, IsUnwritten, address_text, head_text, number_line, option_line, options_text, own_text, peer_entry, sized_text, text_line, toml_text};

use crate::address::Address;
use crate::document::Settings;
use crate::fault::SettingsFault;
use crate::keys::Key;
use hex::encode;
use std::alloc::{AllocError, Global};
use terms::{Header, Size};

/// The text of an address, `HOST:PORT`.
pub fn address_text(alloc: Global, address: &Address) -> Result<String, AllocError>
    ensures { IfOk result (λ text. string_bytes text ≡ address_text address.now) }
{
    let octets = &address.octets;
    format!(in alloc;
        "{}.{}.{}.{}:{}",
        octets[0], octets[1], octets[2], octets[3], address.port
    )
}

/// The lines of the peers, in order.
pub(crate) fn peer_entries(alloc: Global, peers: &[Address]) -> Result<String, AllocError>
    ensures { IfOk result (λ text. string_bytes text ≡ flat_map peer_entry peers.now) }
{
    let mut text = String::new(alloc);
    for peer in peers {
        text.push_str(peer_entry(alloc, peer)?.as_str())?;
    }
    Ok(text)
}

/// The line of a peer.
fn peer_entry(alloc: Global, peer: &Address) -> Result<String, AllocError>
    ensures { IfOk result (λ text. string_bytes text ≡ peer_entry peer.now) }
{
    format!(in alloc; "    \"{}\",\n", address_text(alloc, peer)?)
}

/// The lines of a cluster's number and its size.
pub(crate) fn sized_text(alloc: Global, cluster: u64, size: Size) -> Result<String, AllocError>
    ensures { IfOk result (λ text. string_bytes text ≡ sized_text cluster size) }
{
    let mut text = number_line(alloc, Key::Cluster, cluster)?;
    text.push_str(number_line(alloc, Key::N, u64::from(size.n()))?.as_str())?;
    text.push_str(number_line(alloc, Key::T, u64::from(size.t()))?.as_str())?;
    text.push_str(number_line(alloc, Key::Questions, u64::from(size.questions()))?.as_str())?;
    Ok(text)
}

impl Settings {
    /// The settings as a text of TOML, a line for each key, which [`Settings::parse`] reads as
    /// these settings.
    ///
    /// [`SettingsFault::Text`]: it would be read as others, as where the journal's path has a
    /// quotation mark or where there are not n peers. [`SettingsFault::Memory`]: memory was
    /// refused.
    pub fn to_text(&self, alloc: Global) -> Result<String, SettingsFault>
        ensures text { IfOk result (λ text. string_bytes text ≡ toml_text self.now) }
        ensures read { IfOk result
            (λ text. IsSettings (parse_document (string_bytes text)) self.now) }
        ensures fault { IfErr result (IsUnwritten (parse_document (toml_text self.now)) self.now) }
    {
        let text = toml_text(alloc, self)?;
        let read = Settings::parse(alloc, text.as_str())?;
        if is_like(&read, self) {
            Ok(text)
        } else {
            Err(SettingsFault::Text)
        }
    }
}

/// The text of the settings, of which nothing is known to be read as it stands.
fn toml_text(alloc: Global, settings: &Settings) -> Result<String, AllocError>
    ensures { IfOk result (λ text. string_bytes text ≡ toml_text settings.now) }
{
    let head = head_text(alloc, &settings.header)?;
    let journal = text_line(alloc, Key::Journal, settings.journal.as_str())?;
    let peers = peer_entries(alloc, &settings.peers)?;
    let options = options_text(alloc, settings)?;
    let own = own_text(alloc, settings)?;
    format!(in alloc; "{head}{journal}peers = [\n{peers}]\n{options}{own}")
}

/// The lines of the header.
fn head_text(alloc: Global, header: &Header) -> Result<String, AllocError>
    ensures { IfOk result (λ text. string_bytes text ≡ head_text header.now) }
{
    let mut text = sized_text(alloc, header.cluster(), header.size())?;
    text.push_str(number_line(alloc, Key::Me, u64::from(header.me()))?.as_str())?;
    Ok(text)
}

/// The line of a key with a number.
fn number_line(alloc: Global, key: Key, number: u64) -> Result<String, AllocError>
    ensures { IfOk result (λ text. string_bytes text ≡ number_line key number) }
{
    format!(in alloc; "{} = {}\n", key.text(), number)
}

/// The lines of the keys that may be left out.
fn options_text(alloc: Global, settings: &Settings) -> Result<String, AllocError>
    ensures { IfOk result (λ text. string_bytes text ≡ options_text settings.now) }
{
    let listen = listen_line(alloc, &settings.listen)?;
    let socket = path_line(alloc, Key::DeskSocket, &settings.desk_socket)?;
    let epochs = path_line(alloc, Key::Epochs, &settings.epochs)?;
    format!(in alloc; "{listen}{socket}{epochs}")
}

/// The line of the address that is listened at, if there is one.
fn listen_line(alloc: Global, listen: &Option<Address>) -> Result<String, AllocError>
    ensures { IfOk result
        (λ text. string_bytes text ≡ option_line Listen (option_map address_text listen.now)) }
{
    match listen {
        Some(address) => text_line(alloc, Key::Listen, address_text(alloc, address)?.as_str()),
        None => Ok(String::new(alloc)),
    }
}

/// The line of the path at a key, if there is one.
fn path_line(alloc: Global, key: Key, path: &Option<String>) -> Result<String, AllocError>
    ensures { IfOk result
        (λ text. string_bytes text ≡ option_line key (option_map string_bytes path.now)) }
{
    match path {
        Some(path) => text_line(alloc, key, path.as_str()),
        None => Ok(String::new(alloc)),
    }
}

/// The lines of the desk and the seed.
fn own_text(alloc: Global, settings: &Settings) -> Result<String, AllocError>
    ensures { IfOk result (λ text. string_bytes text ≡ own_text settings.now) }
{
    let desk = text_line(
        alloc,
        Key::Desk,
        address_text(alloc, &settings.desk)?.as_str(),
    )?;
    let seed = text_line(alloc, Key::Seed, encode(alloc, settings.seed)?.as_str())?;
    format!(in alloc;
        "{desk}# Keep it secret: whoever knows the seed knows the member's coins.\n{seed}"
    )
}

/// The line of a key with a text.
fn text_line(alloc: Global, key: Key, value: &str) -> Result<String, AllocError>
    ensures { IfOk result (λ text. string_bytes text ≡ text_line key value.now) }
{
    format!(in alloc; "{} = \"{}\"\n", key.text(), value)
}

/// Returns `true` if what was read is what was to be written.
fn is_like(read: &Settings, settings: &Settings) -> bool
    ensures yes { IsTrue result → IsLike read.now settings.now }
    ensures no { IsLike read.now settings.now → IsTrue result }
{
    has_same_values(read, settings)
        && has_same_lists(read, settings)
        && has_same_options(read, settings)
}

/// Returns `true` if the two have the same header, desk and seed.
fn has_same_values(read: &Settings, settings: &Settings) -> bool
    ensures header { IsTrue result → read.now.header ≡ settings.now.header }
    ensures desk { IsTrue result → read.now.desk ≡ settings.now.desk }
    ensures seed { IsTrue result → read.now.seed ≡ settings.now.seed }
    ensures all { read.now.header ≡ settings.now.header → read.now.desk ≡ settings.now.desk →
        read.now.seed ≡ settings.now.seed → IsTrue result }
{
    read.header == settings.header && read.desk == settings.desk && read.seed == settings.seed
}

/// Returns `true` if the two have the same journal and the same peers.
fn has_same_lists(read: &Settings, settings: &Settings) -> bool
    ensures journal { IsTrue result →
        string_bytes read.now.journal ≡ string_bytes settings.now.journal }
    ensures peers { IsTrue result → read.now.peers.items ≡ settings.now.peers.items }
    ensures all { string_bytes read.now.journal ≡ string_bytes settings.now.journal →
        read.now.peers.items ≡ settings.now.peers.items → IsTrue result }
{
    read.journal.as_str() == settings.journal.as_str()
        && read.peers.as_slice() == settings.peers.as_slice()
}

/// Returns `true` if the two have the same values of the keys that may be left out.
fn has_same_options(read: &Settings, settings: &Settings) -> bool
    ensures listen { IsTrue result → read.now.listen ≡ settings.now.listen }
    ensures desk_socket { IsTrue result →
        option_map string_bytes read.now.desk_socket
        ≡ option_map string_bytes settings.now.desk_socket }
    ensures epochs { IsTrue result →
        option_map string_bytes read.now.epochs ≡ option_map string_bytes settings.now.epochs }
    ensures all { read.now.listen ≡ settings.now.listen →
        option_map string_bytes read.now.desk_socket
        ≡ option_map string_bytes settings.now.desk_socket →
        option_map string_bytes read.now.epochs ≡ option_map string_bytes settings.now.epochs →
        IsTrue result }
{
    is_same_address(&read.listen, &settings.listen)
        && is_same_path(&read.desk_socket, &settings.desk_socket)
        && is_same_path(&read.epochs, &settings.epochs)
}

/// Returns `true` if the two addresses are the same, or both are missing.
fn is_same_address(read: &Option<Address>, address: &Option<Address>) -> bool
    ensures { IsTrue result ↔ (read.now ≡ address.now) }
{
    match (read, address) {
        (None, None) => true,
        (Some(read), Some(address)) => *read == *address,
        _ => false,
    }
}

/// Returns `true` if the two paths are the same, or both are missing.
fn is_same_path(read: &Option<String>, path: &Option<String>) -> bool
    ensures { IsTrue result
        ↔ (option_map string_bytes read.now ≡ option_map string_bytes path.now) }
{
    match (read, path) {
        (None, None) => true,
        (Some(read), Some(path)) => read.as_str() == path.as_str(),
        _ => false,
    }
}
