//! Standard streams that were closed when the program was started.

use std::fs::File;
use std::io;
use std::os::fd::AsRawFd;

/// A file for each standard stream that was closed: a write to it fails, and a read is at its end.
/// To be kept as long as the program runs. Who does a command's work asks for it, so that none is
/// done without.
#[derive(Drop)]
pub struct HeldStreams {
    files: Vec<File>,
}

/// Holds each standard stream that is closed. Else the next files that are opened would get the
/// numbers of these streams, and what is printed would be written into them. Where all streams are
/// open it holds none, whatever devices there are.
pub fn hold_streams(rt: &HostRuntime) -> io::Result<HeldStreams> {
    let mut files = Vec::new(rt.alloc());
    for _ in 0..3u8 {
        let file = holder(rt)?;
        if file.as_raw_fd() > 2 {
            break;
        }
        files.push(file)?;
    }
    Ok(HeldStreams { files })
}

/// A file that is read to its end at once, and can't be written: the null device, or the root
/// folder where there is none, of which a read fails.
fn holder(rt: &HostRuntime) -> io::Result<File> {
    match File::open(rt, "/dev/null") {
        Ok(file) => Ok(file),
        Err(_) => File::open(rt, "/"),
    }
}
