//! A disk over files of which one call fails, or is interrupted, and which move few bytes a call.
ghost use Rattle.std.specs.Prelude.{◌≡◌, ◌≤◌, length};

use crate::DeviceFault;
use crate::account::{Account, SystemCall};
use crate::file::folder_of;
use crate::named::{NamedFile, SystemFile};
use ghost_record::GhostRecord;
use std::io::{self, ErrorKind};

/// No file of these tests is longer.
const ROOM: usize = 8;

/// A file in memory. It counts its calls, of which one fails.
#[derive(Drop)]
struct Faulty {
    bytes: [u8; ROOM],
    length: usize,
    /// The most bytes of a read or write.
    most: usize,
    calls: u32,
    fails_at: u32,
    kind: ErrorKind,
    syncs: u32,
    account: GhostRecord<Account>,
}

/// Copies as many bytes as there are in both, at most so many, and answers how many.
fn copy(from: &[u8], to: &mut [u8], most: usize) -> usize
    ensures source { result ≤ length from.now }
    ensures target { result ≤ length to.new }
{
    let count = from.len().min(to.len()).min(most);
    to[..count].copy_from_slice(&from[..count]);
    count
}

impl Faulty {
    /// An empty file, whose call of that number fails so. 0 is none.
    fn new(most: usize, fails_at: u32, kind: ErrorKind) -> Faulty {
        Faulty {
            bytes: [0; ROOM],
            length: 0,
            most,
            calls: 0,
            fails_at,
            kind,
            syncs: 0,
            account: GhostRecord::new(),
        }
    }

    /// Counts a call, which may be the one that fails.
    fn call(&mut self) -> io::Result<()>
        ensures { self.new.account ≡ self.old.account }
    {
        self.calls = self.calls.saturating_add(1);
        if self.calls == self.fails_at {
            return Err(io::Error::from(self.kind));
        }
        Ok(())
    }
}

impl SystemFile for Faulty {
    ghost done = { λ faulty. faulty.account.value };

    fn len(&mut self) -> io::Result<usize> {
        self.call()?;
        self.account = self.account.then(&SystemCall::Told(self.length));
        Ok(self.length)
    }

    fn read_at(&mut self, at: usize, buf: &mut [u8]) -> io::Result<usize> {
        self.call()?;
        let rest = self.bytes.get(at..self.length).unwrap_or(&[]);
        let count = copy(rest, buf, self.most);
        self.account = self.account.then(&SystemCall::Read(at, &buf[..count]));
        Ok(count)
    }

    fn write_at(&mut self, at: usize, bytes: &[u8]) -> io::Result<usize> {
        self.call()?;
        let count = match self.bytes.get_mut(at..) {
            Some(room) => copy(bytes, room, self.most),
            None => 0,
        };
        self.length = self.length.max(at.saturating_add(count));
        self.account = self.account.then(&SystemCall::Wrote(at, &bytes[..count]));
        Ok(count)
    }

    fn sync(&mut self) -> io::Result<()> {
        self.call()?;
        self.syncs = self.syncs.saturating_add(1);
        self.account = self.account.then(&SystemCall::Synced);
        Ok(())
    }
}

/// A new file in a new folder.
fn open(file: Faulty, folder: Faulty) -> NamedFile<Faulty> {
    NamedFile::new(file, folder)
}

/// A folder that doesn't fail.
fn sound() -> Faulty {
    Faulty::new(ROOM, 0, ErrorKind::Other)
}

/// Writes, syncs, measures and reads. Which of the four calls passed.
fn session(disk: &mut NamedFile<Faulty>) -> [bool; 4] {
    let mut buf = [0u8; 4];
    [
        disk.write_at(1, b"abcd") == Ok(()),
        disk.sync() == Ok(()),
        disk.len() == Ok(5),
        disk.read_at(1, &mut buf) == Ok(()) && buf == *b"abcd",
    ]
}

#[test]
fn parts_are_moved_until_all_is(rt: HostRuntime) {
    for most in 1..=ROOM {
        let mut disk = open(Faulty::new(most, 0, ErrorKind::Other), sound());
        assert!(&rt; session(&mut disk) == [true; 4], "at {most}");
        assert!(&rt; disk.file.bytes == *b"\0abcd\0\0\0");
    }
    let mut stuck = open(Faulty::new(0, 0, ErrorKind::Other), sound());
    assert!(&rt; stuck.write_at(0, b"ab") == Err(DeviceFault));
}

#[test]
fn a_call_that_fails_is_a_fault(rt: HostRuntime) {
    // Four writes of a byte, a sync, a length, four reads of a byte.
    let calls = [0, 0, 0, 0, 1, 2, 3, 3, 3, 3];
    for (at, call) in calls.iter().enumerate() {
        let number = at as u32 + 1;
        let mut disk = open(Faulty::new(1, number, ErrorKind::Other), sound());
        let passed = session(&mut disk);
        assert!(&rt; !passed[*call], "call {number}");
        // What was written in part is as long as that.
        let others = passed.iter().filter(|passed| **passed).count();
        assert!(&rt; others == if number < 5 { 1 } else { 3 }, "call {number}");
        let mut disk = open(Faulty::new(1, number, ErrorKind::Interrupted), sound());
        assert!(&rt;
            session(&mut disk) == [true; 4],
            "interrupted call {number}"
        );
    }
}

/// Which folder that is, and that it is synced until that once succeeds.
#[test]
fn the_folder_of_a_file_is_synced(rt: HostRuntime) {
    for (path, folder) in [("a/b", "a"), ("b", "."), ("/b", "/"), ("a/b/c", "a/b")] {
        assert!(&rt; folder_of(path).to_str() == Some(folder), "at {path:?}");
    }
    let folder = Faulty::new(ROOM, 1, ErrorKind::Other);
    let mut disk = open(Faulty::new(ROOM, 3, ErrorKind::Other), folder);
    // The folder fails, then none, then the file, then none.
    for (passes, file, folder) in [(false, 1, 0), (true, 2, 1), (false, 2, 1), (true, 3, 1)] {
        assert!(&rt; disk.sync().is_ok() == passes);
        assert!(&rt; disk.file.syncs == file && disk.folder.syncs == folder);
    }
}

/// A file of which one call fails keeps the system's error there, and none that comes later.
#[test]
fn the_first_error_is_kept(rt: HostRuntime) {
    let mut disk = open(Faulty::new(0, 2, ErrorKind::PermissionDenied), sound());
    let Ok(first) = disk.keep_first_error(rt.alloc()) else {
        return assert!(&rt; false);
    };
    assert!(&rt; disk.len() == Ok(0) && first.get().is_none());
    assert!(&rt; disk.write_at(0, b"ab") == Err(DeviceFault));
    assert!(&rt; disk.write_at(0, b"ab") == Err(DeviceFault));
    assert!(&rt; matches!(first.get(), Some(error) if error.kind() == ErrorKind::PermissionDenied));
}
