// A reply: its numbers are gathered and written at once.
ghost use Rattle.std.specs.Prelude.{◌≡◌};
ghost use Rattle.text.specs.Shown.{with_word, four_bytes};

use crate::input::Fault;
use majority::Counts;
use program::{Program, Stop, Stream};
use questions::Size;
use refusals::Refusal;
use rewriting::Progress;
use text::Line;

// Writes all of the bytes to standard output.
pub fn write(program: Program<'_>, bytes: &[u8]) -> Result<(), Fault> {
    Stream::Output
        .write(program.rt(), bytes)
        .or(Err(Fault::Stopped(Stop::Unwritten)))
}

// The bytes so far, which a line holds as it would a text.
#[derive(Clone, Copy)]
pub struct Reply {
    line: Line,
}

impl Reply {
    // The three numbers that begin a reply: the refusal's number, the record that it carries, and which edge of it, all 0 for none.
    fn begun(end: Option<Refusal>) -> Reply {
        let nothing = Reply {
            line: Line::empty(),
        };
        match end {
            Some(refusal) => nothing
                .number(refusal.number() as usize)
                .number(refusal.record())
                .number(refusal.edge() as usize),
            None => nothing.number(0).number(0).number(0),
        }
    }

    // The reply with a number after it, low byte first. No number of a reply has more than 32 bits: buffers have at most 65,536 bytes.
    fn number(self, n: usize) -> Reply
        ensures { result.line ≡ with_word self.line (four_bytes n) }
    {
        Reply {
            line: self.line.four_bytes(n),
        }
    }

    // Writes the reply.
    pub fn write(self, program: Program<'_>) -> Result<(), Fault> {
        write(program, self.line.as_bytes())
    }

    // Writes the reply, and then every byte of a buffer.
    pub fn write_with(self, program: Program<'_>, buffer: &[u8]) -> Result<(), Fault> {
        self.write(program)?;
        write(program, buffer)
    }
}

// The counts.
impl From<Result<Counts, Refusal>> for Reply {
    fn from(answer: Result<Counts, Refusal>) -> Reply {
        let counts = answer.unwrap_or(Counts {
            inputs: 0,
            gates: 0,
            outputs: 0,
        });
        Reply::begun(answer.err())
            .number(counts.inputs)
            .number(counts.gates)
            .number(counts.outputs)
    }
}

// The outputs' number.
impl From<Result<u32, Refusal>> for Reply {
    fn from(answer: Result<u32, Refusal>) -> Reply {
        Reply::begun(answer.err()).number(answer.unwrap_or(0) as usize)
    }
}

// Size and depth.
impl From<Result<Size, Refusal>> for Reply {
    fn from(answer: Result<Size, Refusal>) -> Reply {
        let size = answer.unwrap_or(Size { gates: 0, depth: 0 });
        Reply::begun(answer.err())
            .number(size.gates)
            .number(size.depth)
    }
}

// A length, or how many places were written.
impl From<Result<usize, Refusal>> for Reply {
    fn from(answer: Result<usize, Refusal>) -> Reply {
        Reply::begun(answer.err()).number(answer.unwrap_or(0))
    }
}

// The steps taken and the used length, also where the script was stopped.
impl From<Progress> for Reply {
    fn from(progress: Progress) -> Reply {
        Reply::begun(progress.refusal)
            .number(progress.taken)
            .number(progress.used)
    }
}
