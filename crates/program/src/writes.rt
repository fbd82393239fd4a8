// Where a program writes, and writing all of some bytes.
use std::fmt::InlineText;
use std::fs::OpenOptions;
use std::io;
use std::io::Write;

// Standard output or standard error.
#[derive(Clone, Copy)]
pub enum Stream {
    Output,
    Error,
}

impl Stream {
    // Writes all of the bytes, or stops at the first write that fails or takes nothing. A write that a signal came between is tried again.
    pub fn write(self, rt: &HostRuntime, bytes: &[u8]) -> io::Result<()> {
        match self {
            Stream::Output => rt.stdout().write_all(bytes),
            Stream::Error => rt.stderr().write_all(bytes),
        }
    }
}

// Writes all of the bytes to what is open under a number. Under a number of no standard stream it is opened anew, to be written at its end; and to be
// read, since a pipe that nobody reads any more would else be waited for.
#[inline(never)]
pub(crate) fn write_numbered(rt: &HostRuntime, number: u16, bytes: &[u8]) -> io::Result<()> {
    match number {
        0 => Ok(()),
        1 => Stream::Output.write(rt, bytes),
        2 => Stream::Error.write(rt, bytes),
        _ => {
            let path = InlineText::<16>::of(format_args!("/dev/fd/{number}"));
            OpenOptions::new()
                .read(true)
                .append(true)
                .open(rt, path.as_str())?
                .write_all(bytes)
        }
    }
}
