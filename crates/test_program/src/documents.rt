//! Settings as they are read, and the journal that `init` makes for them.
//!
//! `line NAME TEXT` has the document's line of that name be that text, behind those before it;
//! `line NAME` leaves it out. `keep` has what then stands be the usual lines, and `usual` goes back
//! to these. `read` reads the document, and answers the cluster, the size and the member, or the
//! fault; `journal`, `peers`, `desk`, `seed`, `listen`, `desk-socket` and `epochs` answer its other
//! values, or `none`. `client` reads it as a client's, and answers the cluster, the size and the
//! desks, and `chain` behind them if its members run one, or the fault. `address TEXT` answers the
//! four numbers and the port, or `none`.
//!
//! `empty` is a new disk, and `fuse CALLS` one that lets so many calls pass. `init` makes the
//! journal, and answers `0` or the fault; `file` are its bytes.

use crate::lists::add;
use crate::works::ending;
use commands::init_disk;
use disk::{Disk, MemDisk};
use settings::{Address, ClientSettings, Settings, SettingsFault};
use std::alloc::Global;
use test_words::header_text;

/// A document, the settings that were read of it, and a disk.
#[derive(Drop)]
pub struct Document {
    alloc: Global,
    lines: Vec<Line>,
    settings: Option<Settings>,
    disk: MemDisk,
}

impl Document {
    /// Of no line.
    pub fn new(alloc: Global) -> Document {
        Document {
            alloc,
            lines: Vec::new(alloc),
            settings: None,
            disk: MemDisk::new(alloc),
        }
    }

    /// Plays a row.
    pub fn told(&mut self, action: &str) -> Option<String> {
        match action.split_once(' ') {
            Some((word, rest)) => self.given(word, rest),
            None => self.plain(action),
        }
    }

    /// Plays a row of a word and what stands behind it.
    fn given(&mut self, word: &str, rest: &str) -> Option<String> {
        match word {
            "address" => address_or_none(self.alloc, Address::parse(rest)),
            "line" => {
                let (name, text) = rest.split_once(' ').unwrap_or((rest, ""));
                self.put(name, text)
            }
            "fuse" => self.fuse(rest.parse().ok()?),
            _ => None,
        }
    }

    /// Sets the text of the line of that name.
    fn put(&mut self, name: &str, text: &str) -> Option<String> {
        let place = self
            .lines
            .iter()
            .position(|line| line.name.as_str() == name);
        let place = match place {
            Some(place) => place,
            None => self.add(name)?,
        };
        let line = self.lines.get_mut(place)?;
        line.text = String::from_str(self.alloc, text).ok()?;
        Some(String::new(self.alloc))
    }

    /// Adds a line of that name without text, and returns its place.
    fn add(&mut self, name: &str) -> Option<usize> {
        let place = self.lines.len();
        let name = String::from_str(self.alloc, name).ok()?;
        let (usual, text) = (String::new(self.alloc), String::new(self.alloc));
        self.lines.push(Line { name, usual, text }).ok()?;
        Some(place)
    }

    /// Puts in a disk that lets so many calls pass.
    fn fuse(&mut self, calls: u64) -> Option<String> {
        self.disk = MemDisk::new(self.alloc);
        self.disk.fuse(Some(calls));
        Some(String::new(self.alloc))
    }

    /// Plays a row of one word.
    fn plain(&mut self, word: &str) -> Option<String> {
        match word {
            "keep" => self.keep(),
            "usual" => self.restore(),
            "read" => self.read(),
            "client" => self.client(),
            "init" => self.init(),
            "empty" => self.clear(),
            "file" => bytes_on(self.alloc, &mut self.disk),
            key => value_text(self.alloc, self.settings.as_ref()?, key),
        }
    }

    /// Keeps what stands as the usual lines.
    fn keep(&mut self) -> Option<String> {
        for line in self.lines.iter_mut() {
            line.usual = String::from_str(self.alloc, line.text.as_str()).ok()?;
        }
        Some(String::new(self.alloc))
    }

    /// Goes back to the usual lines.
    fn restore(&mut self) -> Option<String> {
        for line in self.lines.iter_mut() {
            line.text = String::from_str(self.alloc, line.usual.as_str()).ok()?;
        }
        Some(String::new(self.alloc))
    }

    /// Reads it.
    fn read(&mut self) -> Option<String> {
        self.settings = None;
        match self.settings()? {
            Ok(settings) => {
                let text = header_text(self.alloc, &settings.header);
                self.settings = Some(settings);
                text
            }
            Err(fault) => format!(in self.alloc; "{fault}").ok(),
        }
    }

    /// The settings of the document, or the fault.
    fn settings(&self) -> Option<Result<Settings, SettingsFault>> {
        let text = self.text()?;
        Some(Settings::parse(self.alloc, text.as_str()))
    }

    /// Reads it as a client's settings.
    fn client(&self) -> Option<String> {
        match self.client_settings()? {
            Ok(client) => client_text(self.alloc, &client),
            Err(fault) => format!(in self.alloc; "{fault}").ok(),
        }
    }

    /// The client's settings of the document, or the fault.
    fn client_settings(&self) -> Option<Result<ClientSettings, SettingsFault>> {
        let text = self.text()?;
        Some(ClientSettings::parse(self.alloc, text.as_str()))
    }

    /// The document.
    fn text(&self) -> Option<String> {
        let mut text = String::new(self.alloc);
        for line in &self.lines {
            add_line(&mut text, line.text.as_str())?;
        }
        Some(text)
    }

    /// Makes the journal.
    fn init(&mut self) -> Option<String> {
        let settings = self.settings.as_ref()?;
        ending(self.alloc, init_disk(&mut self.disk, settings))
    }

    /// Puts in a new disk.
    fn clear(&mut self) -> Option<String> {
        self.disk = MemDisk::new(self.alloc);
        Some(String::new(self.alloc))
    }
}

/// A line of a document, and its name.
#[derive(Drop)]
struct Line {
    name: String,
    usual: String,
    text: String,
}

/// Adds a line to a document unless it is left out.
fn add_line(text: &mut String, line: &str) -> Option<()> {
    if line.is_empty() {
        return Some(());
    }
    text.push_str(line).ok()?;
    text.push('\n').ok()
}

/// The bytes of a disk.
fn bytes_on(alloc: Global, disk: &mut MemDisk) -> Option<String> {
    let len = disk.len().ok()?;
    let mut bytes = vec![in alloc; 0; len].ok()?;
    match disk.read_at(0, &mut bytes) {
        Ok(()) => hex::encode(alloc, &bytes).ok(),
        Err(_) => None,
    }
}

/// A value of the settings.
fn value_text(alloc: Global, settings: &Settings, key: &str) -> Option<String> {
    match key {
        "journal" => String::from_str(alloc, settings.journal.as_str()).ok(),
        "desk" => address_text(alloc, settings.desk),
        "seed" => hex::encode(alloc, &settings.seed).ok(),
        "peers" => addresses_text(alloc, &settings.peers),
        "listen" => address_or_none(alloc, settings.listen),
        "desk-socket" => path_or_none(alloc, &settings.desk_socket),
        "epochs" => path_or_none(alloc, &settings.epochs),
        _ => None,
    }
}

/// A path, or `none`.
fn path_or_none(alloc: Global, path: &Option<String>) -> Option<String> {
    match path {
        Some(path) => String::from_str(alloc, path.as_str()).ok(),
        None => format!(in alloc; "none").ok(),
    }
}

/// Returns what is said of an address, or `none`.
fn address_or_none(alloc: Global, address: Option<Address>) -> Option<String> {
    match address {
        Some(address) => address_text(alloc, address),
        None => format!(in alloc; "none").ok(),
    }
}

/// Returns what is said of a client's settings.
fn client_text(alloc: Global, client: &ClientSettings) -> Option<String> {
    let desks = addresses_text(alloc, &client.desks)?;
    let cluster = client.cluster;
    let size = client.size;
    let (n, t, questions) = (size.n(), size.t(), size.questions());
    let chain = if client.chain { " chain" } else { "" };
    format!(in alloc; "{cluster} {n} {t} {questions} {desks}{chain}").ok()
}

/// Returns what is said of addresses, one after another.
fn addresses_text(alloc: Global, addresses: &[Address]) -> Option<String> {
    let mut text = String::new(alloc);
    for address in addresses {
        let item = address_text(alloc, *address)?;
        add(&mut text, " ", item.as_str())?;
    }
    Some(text)
}

/// Returns what is said of an address.
fn address_text(alloc: Global, address: Address) -> Option<String> {
    let [a, b, c, d] = address.octets;
    format!(in alloc; "{a}.{b}.{c}.{d}:{}", address.port).ok()
}
