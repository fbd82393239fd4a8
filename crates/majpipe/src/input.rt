// What a request is read by. Nothing here reads a byte past the one that is asked for.
ghost use Rattle.std.specs.Prelude.{◌≤◌, length, IfOk};

use crate::operation::Operation;
use majority::Counts;
use program::{Program, Stop, read_whole};
use rules::Step;

// Why a request cannot be answered: the input ends inside it, no operation has this number, a part is longer or places are more than is allowed, or
// the program's input or output failed.
#[derive(Clone, Copy)]
pub enum Fault {
    Cut,
    NoOperation(u8),
    TooLong(u32),
    TooMany(u32),
    Stopped(Stop),
}

impl From<Stop> for Fault {
    fn from(stop: Stop) -> Fault {
        Fault::Stopped(stop)
    }
}

// Reads until the room is full or the input ends, and answers how many bytes were read.
fn read_up_to(program: Program<'_>, room: &mut [u8]) -> Result<usize, Fault> {
    Ok(read_whole(&mut program.rt().stdin(), room).map_err(Stop::Unread)?)
}

// Fills the room.
pub fn fill(program: Program<'_>, room: &mut [u8]) -> Result<(), Fault> {
    if read_up_to(program, room)? < room.len() {
        return Err(Fault::Cut);
    }
    Ok(())
}

// One byte, the operation; none where the input ends, which is the normal end.
pub fn read_operation(program: Program<'_>) -> Result<Option<Operation>, Fault> {
    let mut byte = [0u8; 1];
    if read_up_to(program, &mut byte)? < 1 {
        return Ok(None);
    }
    Ok(Some(Operation::try_from(byte[0])?))
}

// Four bytes, the low one first.
pub fn read_number(program: Program<'_>) -> Result<u32, Fault> {
    let mut bytes = [0u8; 4];
    fill(program, &mut bytes)?;
    Ok(u32::from_le_bytes(bytes))
}

// The four numbers of a step, of two bytes each, the low one first.
pub fn read_step(program: Program<'_>) -> Result<Step, Fault> {
    let mut bytes = [0u8; 8];
    fill(program, &mut bytes)?;
    let [r0, r1, g0, g1, a0, a1, b0, b1] = bytes;
    Ok(Step {
        rule: u16::from_le_bytes([r0, r1]),
        gate: u16::from_le_bytes([g0, g1]),
        a: u16::from_le_bytes([a0, a1]),
        b: u16::from_le_bytes([b0, b1]),
    })
}

// The three counts of a reading.
pub fn read_counts(program: Program<'_>) -> Result<Counts, Fault> {
    Ok(Counts {
        inputs: read_number(program)? as usize,
        gates: read_number(program)? as usize,
        outputs: read_number(program)? as usize,
    })
}

// A length, and then so many bytes, which go to the start of the buffer. A part may be as long as the buffer.
pub fn read_part<'a>(program: Program<'_>, buffer: &'a mut [u8]) -> Result<&'a mut [u8], Fault>
    ensures { IfOk result (λ part. length part.now ≤ length buffer.old) }
{
    let length = read_number(program)?;
    let part = buffer
        .get_mut(..length as usize)
        .ok_or(Fault::TooLong(length))?;
    fill(program, part)?;
    Ok(part)
}

// A table's used length, and then the buffer that is lent for it.
pub fn read_table<'a>(
    program: Program<'_>,
    buffer: &'a mut [u8],
) -> Result<(usize, &'a mut [u8]), Fault> {
    let used = read_number(program)? as usize;
    let table = read_part(program, buffer)?;
    Ok((used, table))
}
