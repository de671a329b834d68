//! Files of the system as disks: what was written is read, what is no open file is refused, and a
//! file has one disk at a time.

use disk::{DeviceFault, Disk, FileDisk};
use std::fs;
use std::fs::Permissions;
use std::marker::Brand;
use std::os::unix::fs::PermissionsExt;
use std::test::Fail;

const FOLDER: &str = "disk_tests";

const PATH: &str = "disk_tests/file";

const BARE: &str = "disk_tests_file";

/// The seven bytes that the tests write.
const WRITTEN: [u8; 7] = *b"AbcdXYZ";

const CLOSED: &str = "disk_tests_closed";

const CLOSED_FILE: &str = "disk_tests_closed/file";

#[test]
fn a_disk_is_a_file(rt: HostRuntime) -> Result<(), Fail> {
    assert!(rt; keeps_what_was_written(&rt)?, "what was written");
    assert!(rt; refuses_what_is_no_file(&rt)?, "what is no file");
    assert!(rt; has_one_disk_at_a_time(&rt)?, "one disk at a time");
    assert!(rt; ends_where_it_ends(&rt)?, "past the end");
    Ok(())
}

/// Whether a file keeps what was written, in a folder of its own and in the working one.
fn keeps_what_was_written(rt: &HostRuntime) -> Result<bool, Fail> {
    clean(rt);
    fs::create_dir(rt, FOLDER)?;
    for path in [PATH, BARE] {
        if !stays_missing(rt, path) || !is_kept(rt, path)? {
            return Ok(false);
        }
    }
    clean(rt);
    Ok(true)
}

/// Takes away what an earlier run left.
fn clean(rt: &HostRuntime) {
    let _ = fs::remove_file(rt, BARE);
    let _ = fs::remove_file(rt, PATH);
    let _ = fs::remove_dir(rt, FOLDER);
}

/// Returns `true` if there is no file of that name, and a disk that isn't to make one makes none.
fn stays_missing(rt: &HostRuntime, path: &str) -> bool {
    FileDisk::<Brand>::open(rt, path, false).is_err() && fs::metadata(rt, path).is_err()
}

/// Whether a new file has what is written to it, also where it is opened again.
fn is_kept(rt: &HostRuntime, path: &str) -> Result<bool, Fail> {
    let mut made = FileDisk::<Brand>::open(rt, path, true)?;
    let is_made = fill(&mut made) && has_written(&mut made)?;
    drop(made);
    let is_found = has_written(&mut FileDisk::<Brand>::open(rt, path, false)?)?;
    Ok(is_made && is_found && has_written(&mut FileDisk::<Brand>::open(rt, path, true)?)?)
}

/// Writes to a new file. The length after each call is as wanted.
fn fill(disk: &mut FileDisk<Brand>) -> bool {
    [
        (Step::Measure, 0),
        (Step::Write(0, b"abcdef"), 6),
        (Step::Write(4, b"XYZ"), 7),
        (Step::Sync, 7),
        (Step::Write(0, b"A"), 7),
        (Step::Sync, 7),
    ]
    .iter()
    .all(|(step, length)| device(disk, *step).is_ok() && disk.len() == Ok(*length))
}

/// Makes one call, or two where a write is not at the start of the file.
fn device(disk: &mut FileDisk<Brand>, step: Step) -> Result<(), DeviceFault> {
    match step {
        Step::Measure => disk.len().map(|_| ()),
        Step::Write(0, bytes) => disk.write_at(0, bytes),
        Step::Write(at, bytes) => {
            if disk.len()? < at {
                return Err(DeviceFault);
            }
            disk.write_at(at, bytes)
        }
        Step::Sync => disk.sync(),
    }
}

/// A call of a disk.
#[derive(Clone, Copy)]
enum Step {
    Measure,
    Write(usize, &'static [u8]),
    Sync,
}

/// Whether the disk has the bytes that were written, from the first on and from a later one, and no
/// more.
fn has_written(disk: &mut FileDisk<Brand>) -> Result<bool, DeviceFault> {
    let mut all = [0; 7];
    let mut some = [0; 3];
    disk.read_at(0, &mut all)?;
    disk.read_at(3, &mut some)?;
    Ok(disk.len()? == 7 && all == WRITTEN && some == *b"dXY")
}

/// Whether what is no open file is refused.
fn refuses_what_is_no_file(rt: &HostRuntime) -> Result<bool, Fail> {
    let _ = fs::remove_file(rt, CLOSED_FILE);
    let _ = fs::remove_dir(rt, CLOSED);
    fs::create_dir(rt, CLOSED)?;
    let are_refused = is_refused(rt, CLOSED) && is_refused(rt, "disk_tests_none/file");
    let all = are_refused && is_refused_without_leave(rt)?;
    fs::remove_dir(rt, CLOSED)?;
    Ok(all)
}

/// Takes away all leave to open the file. Permissions don't hold for the superuser.
fn is_refused_without_leave(rt: &HostRuntime) -> Result<bool, Fail> {
    drop(FileDisk::<Brand>::open(rt, CLOSED_FILE, true)?);
    fs::set_permissions(rt, CLOSED_FILE, Permissions::from_mode(0))?;
    let is_superuser = fs::open(rt, CLOSED_FILE).is_ok();
    let is_refused = FileDisk::<Brand>::open(rt, CLOSED_FILE, false).is_err();
    fs::remove_file(rt, CLOSED_FILE)?;
    Ok(is_superuser || is_refused)
}

/// Whether a file has one disk at a time.
fn has_one_disk_at_a_time(rt: &HostRuntime) -> Result<bool, Fail> {
    let path = "disk_tests_locked";
    let _ = fs::remove_file(rt, path);
    let are_two = lengths(rt, path)? == [2, 2];
    fs::remove_file(rt, path)?;
    Ok(are_two)
}

/// The length of a file at whose disk two others were refused, and its length as another disk then
/// has it.
fn lengths(rt: &HostRuntime, path: &str) -> Result<[usize; 2], Fail> {
    let mut first = FileDisk::<Brand>::open(rt, path, true)?;
    first.write_at(0, b"ab")?;
    if !is_refused(rt, path) {
        return Err("a second disk")?;
    }
    let length = first.len()?;
    drop(first);
    Ok([length, FileDisk::<Brand>::open(rt, path, false)?.len()?])
}

/// Returns `true` if no disk is had at the path, whether it is to be made or not.
fn is_refused(rt: &HostRuntime, path: &str) -> bool {
    FileDisk::<Brand>::open(rt, path, false).is_err()
        && FileDisk::<Brand>::open(rt, path, true).is_err()
}

/// Whether a read past the end of a file fails.
fn ends_where_it_ends(rt: &HostRuntime) -> Result<bool, Fail> {
    let path = "disk_tests_short";
    let _ = fs::remove_file(rt, path);
    let mut disk = FileDisk::<Brand>::open(rt, path, true)?;
    disk.write_at(0, b"ab")?;
    let past = disk.read_at(1, &mut [0; 2]);
    let within = disk.read_at(1, &mut [0; 1]);
    fs::remove_file(rt, path)?;
    Ok((past, within) == (Err(DeviceFault), Ok(())))
}
