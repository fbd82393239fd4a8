// What the programs that run a script share: the script's file, which their argument names, and the line of its reply.
#![tactic(auto)]

ghost use Rattle.std.specs.Prelude.{◌≡◌, ◌≤◌, ◌↔◌, length, IfOk, IsNone};

use program::{EBADF, EILSEQ, End, Program, Stop};
use rewriting::Progress;
use std::fs::File;
use std::os::fd::AsRawFd;
use std::{fs, io};

// The most bytes that a script file may have, and room for one more, to see that it is longer.
pub const MOST_BYTES: usize = 262144;

pub const ROOM: usize = MOST_BYTES + 1;

// What is wrong with a script that is longer.
pub const TOO_LONG: &str = "the script is longer than 262144 bytes";

// Opens a file. The library opens paths that are text alone.
fn open_read(program: Program<'_>, path: &[u8]) -> io::Result<File> {
    match str::from_utf8(path) {
        Ok(name) => fs::open(program.rt(), name),
        Err(_) => Err(io::Error::from_raw_os_error(EILSEQ)),
    }
}

// Reads the script that the program's argument names whole to the start of the buffer. A file that was opened under one of the first three numbers
// stands where a standard one should. Not inlined, so that the room of the path is off the stack when the script runs.
#[inline(never)]
pub fn read_script(program: Program<'_>, buffer: &mut [u8]) -> Result<usize, Stop>
    ensures { IfOk result (λ n. n ≤ length buffer.new) }
{
    let mut word = [0u8; program::LONGEST];
    let len = program.argument(&mut word);
    let mut file = open_read(program, &word[..len]).map_err(Stop::ScriptUnread)?;
    match file.as_raw_fd() {
        0 => return Err(Stop::Unread(io::Error::from_raw_os_error(EBADF))),
        1 | 2 => return Err(Stop::Unwritten),
        _ => {}
    }
    let read = program::read_whole(&mut file, buffer).map_err(Stop::ScriptUnread)?;
    if MOST_BYTES < read {
        return Err(Stop::Wrong);
    }
    Ok(read)
}

// Says on standard error what a script replied, and how the program ends.
pub fn reply(program: Program<'_>, progress: Progress) -> Result<End, Stop>
    ensures { IfOk result (λ end. (end ≡ End.Accepted) ↔ IsNone progress.refusal) }
{
    let Progress {
        taken,
        used,
        refusal,
    } = progress;
    match refusal {
        None => {
            program.eprintln(format_args!("taken {taken} length {used}"))?;
            Ok(End::Accepted)
        }
        Some(refusal) => {
            program.eprintln(format_args!("taken {taken} {refusal} length {used}"))?;
            Ok(End::Refused)
        }
    }
}
