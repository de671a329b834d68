//! The command `new-cluster`: the settings of each member of a new cluster, and a client's.

ghost use Rattle.troubles.specs.Faults.{IsMeant};
ghost use Rattle.troubles.specs.declared.fault.Fault.TheVariants as ends;
ghost use Rattle.std.specs.Prelude.{◌≡◌, IfErr};

use crate::apart::is_any;
use settings::{
    Address, ClientSettings, Key, Settings, SettingsFault, address_text, addresses_from, desk_base,
    new_settings,
};
use std::alloc::Global;
use std::fs::{self, File, OpenOptions};
use std::io::{self, Write};
use std::os::unix::fs::OpenOptionsExt;
use std::path::Path;
use std::random::RandomSource;
use terms::{Header, Size};
use troubles::{Failure, Fault, Whereabouts};

/// The first port of the links if none is asked for.
const FIRST_PORT: u16 = 7100;

/// A request for a new cluster.
#[derive(Clone, Copy, Debug, PartialEq, Eq)]
pub struct NewCluster<'a> {
    /// The numbers of members, of those that may lie, and of questions.
    pub size: Size,
    /// Its number.
    pub cluster: u64,
    /// The path of the folder for the files.
    pub folder: &'a str,
    /// The hosts of the members, with commas between them; this machine for all where none are
    /// given.
    pub hosts: Option<&'a str>,
    /// The port of the first member's links; 7100 where none is given.
    pub port: Option<u16>,
    /// The host of all desks, or `links`: each desk at the host of its member's links; 127.0.0.1
    /// where none is given.
    pub desk: Option<&'a str>,
    /// Each member runs a chain of epochs, whose journals are in `member-M.epochs`.
    pub epochs: bool,
}

/// The form of each host.
const HOST_WORDS: &str =
    "each must be `localhost` or four numbers with points between them: no host names, no IPv6, and not 0.0.0.0, where no member finds it";

/// The failure of hosts that aren't any.
fn bad_hosts(alloc: Global, wanted: &NewCluster<'_>, count: usize) -> Failure {
    let hosts = wanted.hosts.unwrap_or("");
    let n = wanted.size.n();
    if count == usize::from(n) {
        return Failure::at(alloc, Fault::Hosts, hosts, Whereabouts::Whole, &HOST_WORDS);
    }
    match format!(in alloc; "there are {count} hosts, and must be {n}") {
        Ok(words) => Failure::at(alloc, Fault::Hosts, hosts, Whereabouts::Whole, &words),
        Err(_) => Failure::from(Fault::Hosts),
    }
}

/// The text that is printed after the files.
const NEXT: &str =
    "Each member wants its own file alone, which has its seed. For each, where its file is:
  bracha init member-0.toml
  bracha run member-0.toml
";

/// The text behind it if one host reaches all desks.
const TOGETHER: &str =
    "Once they run, where client.toml is, and where DESK is one of the addresses in it:
  bracha propose --all client.toml 0 1
  bracha ask --wait DESK 0
";

/// The text behind it if each desk is at 127.0.0.1 of another host.
const APART: &str =
    "Each desk is at 127.0.0.1 of its member's own host, so no host reaches all that client.toml
names: see --desk. Once they run, on each host, where DESK is the desk of its settings:
  bracha propose DESK 0 1
  bracha ask --wait DESK 0
";

/// Writes the settings of each member of a new cluster into `member-M.toml` of the folder, which
/// their owner alone can read, and those of its clients into `client.toml`, and says what to do
/// next. A folder that is missing is made, one level of it. The status is 0. After a fault but
/// [`Fault::Stream`] none of the files is left, and no file that was there was changed.
///
/// [`Fault::Hosts`]: the hosts aren't any, or not n, or the ports aren't enough. [`Fault::File`]: a
/// file is there, or can't be made; or the system draws no random bytes. [`Fault::Stream`]: all
/// files are made, but the output couldn't be written.
pub fn new_cluster(rt: &HostRuntime, wanted: &NewCluster<'_>) -> Result<u8, Failure> {
    let places = places_of(rt.alloc(), wanted)?;
    let files = files_of(rt, wanted, &places)?;
    make_folder(rt, wanted.folder)?;
    write_all(rt, files.as_slice())?;
    print_next(rt, wanted, &places)?;
    Ok(0)
}

/// Returns the addresses at which the members listen. [`Fault::Hosts`]: there aren't n hosts, or
/// one isn't any, or there aren't ports enough.
fn places_of(alloc: Global, wanted: &NewCluster<'_>) -> Result<Places, Failure> {
    let first = wanted.port.unwrap_or(FIRST_PORT);
    let n = wanted.size.n();
    let Some(base) = desk_base(first, n) else {
        return Err(bad_port(alloc, first, n));
    };
    let links = links_of(alloc, wanted, first)?;
    let desks = desks_of(alloc, wanted, base)?;
    Ok(Places { links, desks })
}

/// The failure of a first port from which there aren't ports enough.
fn bad_port(alloc: Global, first: u16, n: u8) -> Failure {
    let thing = match format!(in alloc; "--port {first}") {
        Ok(thing) => thing,
        Err(_) => return Failure::from(Fault::Hosts),
    };
    match format!(in alloc;
        "must be from 1 on, and so low that the ports of {n} members, links and desks, are 65535 at most"
    ) {
        Ok(words) => Failure::at(
            alloc,
            Fault::Hosts,
            thing.as_str(),
            Whereabouts::Whole,
            &words,
        ),
        Err(_) => Failure::from(Fault::Hosts),
    }
}

/// Returns the addresses at which the members listen to one another, from this port on.
/// [`Fault::Hosts`]: there aren't n hosts, or one isn't any.
fn links_of(alloc: Global, wanted: &NewCluster<'_>, first: u16) -> Result<Vec<Address>, Failure> {
    let hosts = hosts_of(alloc, wanted)?;
    if hosts.len() != usize::from(wanted.size.n()) {
        return Err(bad_hosts(alloc, wanted, hosts.len()));
    }
    match addresses_from(alloc, hosts.as_slice(), first).map_err(|_| Fault::Memory)? {
        Some(links) if !links.iter().any(is_any) => Ok(links),
        _ => Err(bad_hosts(alloc, wanted, hosts.len())),
    }
}

/// Returns the addresses at which the members listen to their clients, from this port on.
/// [`Fault::Hosts`]: the host isn't any.
fn desks_of(alloc: Global, wanted: &NewCluster<'_>, first: u16) -> Result<Vec<Address>, Failure> {
    let hosts = desk_hosts_of(alloc, wanted)?;
    match addresses_from(alloc, hosts.as_slice(), first).map_err(|_| Fault::Memory)? {
        Some(desks) if !desks.iter().any(is_any) => Ok(desks),
        _ => {
            let host = wanted.desk.unwrap_or("");
            let words =
                "must be `links`, `localhost` or four numbers with points between them: no host names, no IPv6, and not 0.0.0.0, where no client finds it";
            Err(Failure::at(alloc, Fault::Hosts, host, Whereabouts::Whole, &words))
        }
    }
}

/// The host of each member's desk.
fn desk_hosts_of<'a>(alloc: Global, wanted: &NewCluster<'a>) -> Result<Vec<&'a str>, Fault> {
    match wanted.desk {
        Some("links") => hosts_of(alloc, wanted),
        Some(host) => one_host(alloc, host, wanted.size.n()),
        None => one_host(alloc, "127.0.0.1", wanted.size.n()),
    }
}

/// The host of each member's links.
fn hosts_of<'a>(alloc: Global, wanted: &NewCluster<'a>) -> Result<Vec<&'a str>, Fault> {
    match wanted.hosts {
        Some(hosts) => Ok(hosts.split(',').collect(alloc)?),
        None => one_host(alloc, "127.0.0.1", wanted.size.n()),
    }
}

/// The same host for each member.
fn one_host<'a>(alloc: Global, host: &'a str, n: u8) -> Result<Vec<&'a str>, Fault> {
    let mut hosts = Vec::new(alloc);
    for _ in 0..n {
        hosts.push(host)?;
    }
    Ok(hosts)
}

/// The files of the members, in their order, and that of the clients.
fn files_of(
    rt: &HostRuntime,
    wanted: &NewCluster<'_>,
    places: &Places,
) -> Result<Vec<NewFile>, Failure> {
    let mut files = Vec::new(rt.alloc());
    for me in 0..wanted.size.n() {
        let file = member_file(rt, wanted, me, places)?;
        files.push(file).map_err(|_| Fault::Memory)?;
    }
    let file = client_file(rt.alloc(), wanted, places)?;
    files.push(file).map_err(|_| Fault::Memory)?;
    Ok(files)
}

/// The file of a member, which its owner alone can read and write.
fn member_file(
    rt: &HostRuntime,
    wanted: &NewCluster<'_>,
    me: u8,
    places: &Places,
) -> Result<NewFile, Failure> {
    let text = text_for(rt, wanted, me, places)?;
    let path = settings_path(rt.alloc(), wanted.folder, me)?;
    Ok(NewFile {
        path,
        text,
        mode: 0o600,
    })
}

/// The text of the settings of a member, with a seed that nobody knows.
fn text_for(
    rt: &HostRuntime,
    wanted: &NewCluster<'_>,
    me: u8,
    places: &Places,
) -> Result<String, Failure> {
    let alloc = rt.alloc();
    let seed = new_seed(rt)?;
    let Some(header) = Header::new(wanted.cluster, wanted.size, me) else {
        return Err(Failure::from(Fault::Settings(SettingsFault::Key(Key::Me))));
    };
    let settings = new_settings(alloc, header, &places.links, &places.desks, seed).map_err(
        |fault| of_writing(fault),
    )?;
    let settings = Settings {
        epochs: epochs_of(alloc, wanted, me)?,
        ..settings
    };
    Ok(settings.to_text(alloc).map_err(|fault| of_writing(fault))?)
}

/// A seed that the system draws.
fn new_seed(rt: &HostRuntime) -> Result<[u8; 32], Failure> {
    let mut seed = [0; 32];
    match rt.fill_bytes(&mut seed) {
        Ok(()) => Ok(seed),
        Err(error) => Err(Failure::of_system(
            rt.alloc(),
            Fault::File,
            "the system's random bytes",
            Whereabouts::Read,
            error,
        )),
    }
}

/// The folder of a member's epochs, if the cluster is a chain.
fn epochs_of(alloc: Global, wanted: &NewCluster<'_>, me: u8) -> Result<Option<String>, Fault> {
    if !wanted.epochs {
        return Ok(None);
    }
    Ok(Some(format!(in alloc; "member-{me}.epochs")?))
}

/// The path of a member's settings in the folder.
fn settings_path(alloc: Global, folder: &str, member: u8) -> Result<String, Fault>
    ensures { IfErr result (λ fault. fault ≡ ends.Memory) }
{
    Ok(format!(in alloc; "{folder}/member-{member}.toml")?)
}

/// The file of the clients, in which there is no secret.
fn client_file(alloc: Global, wanted: &NewCluster<'_>, places: &Places) -> Result<NewFile, Fault> {
    let text = client_text(alloc, wanted, &places.desks)?;
    let path = client_path(alloc, wanted.folder)?;
    Ok(NewFile {
        path,
        text,
        mode: 0o644,
    })
}

/// The text of a client's settings.
fn client_text(alloc: Global, wanted: &NewCluster<'_>, desks: &[Address]) -> Result<String, Fault> {
    let mut copy = Vec::new(alloc);
    copy.extend_from_slice(desks)?;
    let client = ClientSettings {
        cluster: wanted.cluster,
        size: wanted.size,
        desks: copy,
        chain: wanted.epochs,
    };
    Ok(client.to_text(alloc).map_err(|fault| of_writing(fault))?)
}

/// The fault of settings that can't be written.
fn of_writing(fault: SettingsFault) -> Fault {
    match fault {
        SettingsFault::Memory => Fault::Memory,
        other => Fault::Settings(other),
    }
}

/// Makes all files, or none.
fn write_all(rt: &HostRuntime, files: &[NewFile]) -> Result<(), Failure>
    ensures { IfErr result (λ failure. IsMeant ends.File failure.fault) }
{
    keep_free(rt, files)?;
    for (place, file) in files.iter().enumerate() {
        write_one(rt, &files[..place], file)?;
    }
    Ok(())
}

/// Refuses files of which one is there, before any is made. [`Fault::File`]: one is there.
fn keep_free(rt: &HostRuntime, files: &[NewFile]) -> Result<(), Failure>
    ensures { IfErr result (λ failure. IsMeant ends.File failure.fault) }
{
    for file in files {
        if fs::symlink_metadata(rt, file.path.as_str()).is_ok() {
            let words = "there is such a file, and nothing was written";
            return Err(Failure::at(
                rt.alloc(),
                Fault::File,
                file.path.as_str(),
                Whereabouts::Write,
                &words,
            ));
        }
    }
    Ok(())
}

/// Makes one file, behind the ones that are made. After a fault neither it nor they are left.
fn write_one(rt: &HostRuntime, made: &[NewFile], file: &NewFile) -> Result<(), Failure>
    ensures { IfErr result (λ failure. IsMeant ends.File failure.fault) }
{
    let mut open = match new_file(rt, file.path.as_str(), file.mode) {
        Ok(open) => open,
        Err(error) => return Err(undone(rt, made, file.path.as_str(), error)),
    };
    match open.write_all(file.text.as_bytes()) {
        Ok(()) => Ok(()),
        Err(error) => {
            let _left = fs::remove_file(rt, file.path.as_str()).is_err();
            Err(undone(rt, made, file.path.as_str(), error))
        }
    }
}

/// A new file at the path, of this mode.
fn new_file(rt: &HostRuntime, path: &str, mode: u32) -> io::Result<File> {
    let mut options = OpenOptions::new();
    options
        .write(true)
        .create_new(true)
        .mode(mode)
        .open(rt, path)
}

/// The failure of a file that couldn't be made or written, once these files are gone.
fn undone(rt: &HostRuntime, files: &[NewFile], path: &str, error: io::Error) -> Failure
    ensures { IsMeant ends.File result.fault }
{
    unmake(rt, files);
    Failure::of_system(rt.alloc(), Fault::File, path, Whereabouts::Write, error)
}

/// Removes these files.
fn unmake(rt: &HostRuntime, files: &[NewFile]) {
    for file in files {
        let _left = fs::remove_file(rt, file.path.as_str()).is_err();
    }
}

/// A file that is to be made.
#[derive(Drop)]
struct NewFile {
    path: String,
    text: String,
    /// The mode: who may read and write it.
    mode: u32,
}

/// Returns what is to be done next, in words: the files, and the commands for one member.
fn print_next(rt: &HostRuntime, wanted: &NewCluster<'_>, places: &Places) -> Result<(), Fault> {
    let alloc = rt.alloc();
    let mut output = io::writer(rt);
    for (member, link) in places.links.iter().enumerate() {
        let listens = address_text(alloc, link)?;
        let folder = wanted.folder;
        let line = format!(in alloc;
            "{folder}/member-{member}.toml: member {member} at {listens}\n"
        )?;
        output.write_all(line.as_bytes())?;
    }
    let path = client_path(alloc, wanted.folder)?;
    let line = format!(in alloc; "{path}: the members' desks, for `propose --all`\n")?;
    output.write_all(line.as_bytes())?;
    output.write_all(NEXT.as_bytes())?;
    let asks = if wanted.desk.is_none() && are_hosts_apart(&places.links) {
        APART
    } else {
        TOGETHER
    };
    output.write_all(asks.as_bytes())?;
    output.flush()?;
    Ok(())
}

/// Returns `true` if these addresses are of more than one host.
fn are_hosts_apart(links: &[Address]) -> bool {
    match links.first() {
        Some(first) => links.iter().any(|link| link.octets != first.octets),
        None => false,
    }
}

/// The addresses at which the members of a new cluster listen, in the order of the members.
#[derive(Drop)]
struct Places {
    links: Vec<Address>,
    desks: Vec<Address>,
}

/// The path of a client's settings in the folder.
fn client_path(alloc: Global, folder: &str) -> Result<String, Fault>
    ensures { IfErr result (λ fault. fault ≡ ends.Memory) }
{
    Ok(format!(in alloc; "{folder}/client.toml")?)
}

/// Makes the folder, if it is missing: one level of it. [`Fault::File`]: it can't be made.
pub(crate) fn make_folder(rt: &HostRuntime, folder: &str) -> Result<(), Failure>
    ensures { IfErr result (λ failure. IsMeant ends.File failure.fault) }
{
    if fs::metadata(rt, folder).is_ok() {
        return Ok(());
    }
    match fs::create_dir(rt, folder) {
        Ok(()) => {
            keep_name(rt, folder);
            Ok(())
        }
        Err(error) => Err(Failure::of_system(
            rt.alloc(),
            Fault::File,
            folder,
            Whereabouts::Write,
            error,
        )),
    }
}

/// Syncs the parent of a new folder: a crash then keeps the folder's name. A system that can't is
/// let be: a journal's disk syncs its folder too, and tells.
fn keep_name(rt: &HostRuntime, folder: &str) {
    let Ok(whole) = fs::canonicalize(rt, folder) else {
        return;
    };
    let Some(above) = Path::new(whole.as_str()).parent() else {
        return;
    };
    if let Ok(above) = File::open(rt, above) {
        let _kept = above.sync_all().is_ok();
    }
}
