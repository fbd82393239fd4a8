// Reading a file to its end. The end of the input is told from a read that failed.
ghost use Rattle.std.specs.Prelude.{◌≤◌, length, IfOk};

use std::io;
use std::io::{ErrorKind, Read};

// Reads until the room is full or the input ends, and answers how many bytes were read. A read that a signal came between is tried again.
// A proved loop has to end, so it counts its turns up to a number that no run reaches.
pub fn read_whole<R: Read>(from: &mut R, room: &mut [u8]) -> io::Result<usize>
    ensures { IfOk result (λ n. n ≤ length room.new) }
{
    let mut done = 0;
    for _ in 0..u64::MAX {
        if room.len() <= done {
            return Ok(done);
        }
        match from.read(&mut room[done..]) {
            Ok(0) => return Ok(done),
            Ok(n) => done += n,
            Err(error) if error.kind() == ErrorKind::Interrupted => {}
            Err(error) => return Err(error),
        }
    }
    Err(io::Error::from(ErrorKind::Interrupted))
}
