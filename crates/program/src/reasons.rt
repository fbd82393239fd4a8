// Why a file could not be read, in words.
use std::io;
use std::io::ErrorKind;

// The numbers, as Linux has them, of errors that have no kind of their own.
const EIO: i32 = 5;

pub const EBADF: i32 = 9;

const EACCES: i32 = 13;

pub const EILSEQ: i32 = 84;

pub(crate) fn reason(error: io::Error) -> &'static str {
    match error.kind() {
        ErrorKind::NotFound => "there is no such file",
        ErrorKind::IsADirectory => "it is a folder",
        ErrorKind::NotADirectory => "a part of its path is no folder",
        ErrorKind::InvalidFilename => "its name is too long",
        ErrorKind::WouldBlock => "it does not wait for its bytes, and not all are there",
        _ => reason_of_number(error.raw_os_error()),
    }
}

fn reason_of_number(number: Option<i32>) -> &'static str {
    match number {
        Some(EACCES) => "permission is denied",
        Some(EBADF) => "it is closed",
        Some(EIO) => "the device failed",
        Some(EILSEQ) => "its path is no text in UTF-8",
        _ => "the system refused it",
    }
}
