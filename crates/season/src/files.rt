// Reading files.
use std::fs::File;
use std::io::Read;
use std::{fmt, io, str};

// One byte more than a file may have. No more of it is read, so that a file without end is refused like any other.
const BYTES_READ: u64 = 60_001;

// Why a file cannot be read.
#[derive(Drop)]
pub(crate) struct Unread(io::Error);

impl fmt::Display for Unread {
    fn fmt<W: fmt::Write>(&self, f: &mut fmt::Formatter<W>) -> fmt::Result {
        let reason = &self.0;
        write!(f, "the file cannot be read: {reason}")
    }
}

fn read_named(rt: &HostRuntime, name: &[u8]) -> io::Result<Vec<u8>> {
    let name = str::from_utf8(name).map_err(|_| io::ErrorKind::InvalidInput)?;
    let mut bytes = Vec::new(rt.alloc());
    File::open(rt, name)?
        .take(BYTES_READ)
        .read_to_end(&mut bytes)?;
    Ok(bytes)
}

// The bytes of a file, or so many of them that it is seen to be too large.
pub(crate) fn read_front(rt: &HostRuntime, name: &[u8]) -> Result<Vec<u8>, Unread> {
    read_named(rt, name).map_err(Unread)
}
