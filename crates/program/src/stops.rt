// What keeps a program from its answer.
ghost use Rattle.std.specs.Prelude.{◌≡◌};
ghost use Rattle.program.specs.declared.stops.Stop.TheVariants.{Refused};

use refusals::Refusal;
use std::io;

// An argument is missing, one too many, or another than the program takes; standard input or the script that the argument names could not be read;
// the output could not be written whole; standard input has more bytes than a table may have; or the library refused what was asked.
#[derive(Clone, Copy)]
pub enum Stop {
    Missing,
    Superfluous,
    Wrong,
    Unread(io::Error),
    ScriptUnread(io::Error),
    Unwritten,
    TooLong,
    Refused(Refusal),
}

impl From<Refusal> for Stop {
    ghost from_gives = { λ refusal stop. stop ≡ Refused refusal };

    fn from(refusal: Refusal) -> Stop {
        Stop::Refused(refusal)
    }
}
