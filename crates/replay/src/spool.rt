// Standard input, kept in a file without a name: it is read twice, is longer than a small stack has room for, and may be a pipe.
ghost use Rattle.std.specs.Prelude.{◌≤◌, IfOk};
ghost use Rattle.std.specs.Str.{IsUtf8};

use crate::stop::Stop;
use header::fields;
use std::fs::{File, OpenOptions};
use std::io::{ErrorKind, Read, Write};
use std::os::fd::AsRawFd;
use std::os::unix::fs::{FileExt, OpenOptionsExt};
use std::random::RandomSource;
use std::{fs, io};

// The most bytes that are taken. One more is read, which shows that the input is longer.
pub(crate) const LIMIT: usize = 1048576;

// How many names are tried for the file.
const TRIES: u32 = 1024;

// Where the number stands in the file's name.
const NUMBER: usize = 12;

// The file, and how many bytes it has.
#[derive(Drop)]
pub(crate) struct Spool {
    file: File,
    pub(crate) size: usize,
}

// All of standard input. Never inlined: the block that is copied is off the stack before calls are made.
#[inline(never)]
pub(crate) fn input(rt: &HostRuntime) -> Result<Spool, Stop> {
    let file = unnamed(rt).map_err(|_| Stop::NoFile)?;
    if file.as_raw_fd() < 2 {
        return Err(Stop::Closed);
    }
    copied(rt, file)
}

// A file that is made anew, under a name that no file has.
fn unnamed(rt: &HostRuntime) -> io::Result<File> {
    for _ in 0..TRIES {
        match made(rt) {
            Err(e) if e.kind() == ErrorKind::AlreadyExists => {}
            file => return file,
        }
    }
    Err(io::Error::from(ErrorKind::AlreadyExists))
}

// A file of a random name, which is taken away at once.
fn made(rt: &HostRuntime) -> io::Result<File> {
    let mut number = [0u8; 4];
    rt.fill_bytes(&mut number)?;
    let bytes = name_of(fields::quad(&number, 0));
    let Ok(name) = str::from_utf8(&bytes) else {
        unreachable!()
    };
    let file = OpenOptions::new()
        .read(true)
        .write(true)
        .create_new(true)
        .mode(0o600)
        .open(rt, name)?;
    let _ = fs::remove_file(rt, name);
    Ok(file)
}

// The bytes of the file's name, with a number in it.
fn name_of(number: u32) -> [u8; 20]
    ensures { IsUtf8 result }
{
    let mut bytes = *b"/tmp/replay-00000000";
    text::put_hexadecimal(number, &mut bytes, NUMBER);
    bytes
}

// Copies standard input, block by block.
fn copied(rt: &HostRuntime, mut file: File) -> Result<Spool, Stop> {
    let mut size: usize = 0;
    while size <= LIMIT {
        let count = copy_block(rt, &mut file)?;
        if count == 0 {
            break;
        }
        size += count;
    }
    Ok(Spool { file, size })
}

// Copies what one read gives: no bytes where the input ends.
fn copy_block(rt: &HostRuntime, file: &mut File) -> Result<usize, Stop>
    ensures { IfOk result (λ n. n ≤ 65536) }
{
    let mut bytes = [0u8; 65536];
    let count = rt.stdin().read(&mut bytes).map_err(|_| Stop::Input)?;
    file.write_all(&bytes[..count])
        .map_err(|_| Stop::FileUnwritten)?;
    Ok(count)
}

impl Spool {
    // Reads the bytes from an index on, as many as fit or there are, and counts them.
    pub(crate) fn read(&self, at: usize, buf: &mut [u8]) -> Result<usize, Stop> {
        if LIMIT < at {
            return Ok(0);
        }
        let count = self.file.read_at(buf, at as u64).unwrap_or(0);
        if count < buf.len().min(self.size.saturating_sub(at)) {
            return Err(Stop::FileUnread);
        }
        Ok(count)
    }
}
