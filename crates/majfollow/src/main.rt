// Runs the script in the file that its argument names on the table on standard input, and says where each gate of that table stands then: a line a
// gate on standard output, and what the script replied on standard error.
#![tactic(auto)]

use majority::MOST_GATES;
use program::{About, End, NO_ARGUMENT, Program, Stop, Work};
use std::fmt;
use std::fmt::{Display, Formatter};

const ABOUT: About<'static> = About {
    name: "majfollow",
    usage: "majfollow SCRIPT < TABLE",
    fewest: 1,
    most: 1,
    missing: "the script's file is missing",
    superfluous: "it takes one argument, the script's file",
    wrong: scripts::TOO_LONG,
    help: "Follows the gates of the majority table on standard input, of at most 8704 bytes, through a script of rewriting steps.\nArgument: the path of the script, of at most 262144 bytes.\nWrites a line a gate: `g4 now g7` or `g4 now !g7`, the edge that has its first value after the script, or `g4 gone`, where it\nwas swept away; none where the table or the script's length is refused; or `too long`. On standard error `taken T length L`, or\n`taken T refused N at R E length L`.\n",
    ..NO_ARGUMENT
};

// What a place holds that the call did not write: the inverse of the constant, which stands for no gate.
const UNWRITTEN: u16 = 1;

// The gate that was this node at first, and the edge that stands for it now.
#[derive(Clone, Copy)]
struct Followed {
    gate: usize,
    edge: u16,
}

impl Display for Followed {
    fn fmt<W: fmt::Write>(&self, f: &mut Formatter<W>) -> fmt::Result {
        let Followed { gate, edge } = *self;
        if edge == 0 {
            return write!(f, "g{gate} gone");
        }
        let sign = if majority::inverted(edge) { "!" } else { "" };
        write!(f, "g{gate} now {sign}g{}", majority::node(edge))
    }
}

// Follows the gates of the table on standard input through the steps of a script. Not inlined, so that the table's room comes after that of the script's path.
#[inline(never)]
fn follow(program: Program<'_>, steps: &[u8]) -> Result<End, Stop> {
    let mut table = [0u8; program::MOST_BYTES];
    let used = program.read_table(&mut table)?;
    let inputs = tables::check(&table, used).map_or(0, |counts| counts.inputs);
    let mut places = [UNWRITTEN; MOST_GATES];
    let progress = rewriting::follow(&mut table, used, steps, &mut places);
    for (i, edge) in places.iter().enumerate() {
        if *edge == UNWRITTEN {
            break;
        }
        program.println(Followed {
            gate: inputs + i + 1,
            edge: *edge,
        })?;
    }
    scripts::reply(program, progress)
}

#[derive(Clone, Copy)]
struct Answer;

impl Work for Answer {
    fn answer(self, program: Program<'_>) -> Result<End, Stop> {
        let mut buffer = [0u8; scripts::ROOM];
        let script = scripts::read_script(program, &mut buffer)?;
        follow(program, &buffer[..script])
    }
}

fn main(rt: HostRuntime) {
    program::run_work(&rt, ABOUT, Answer);
}
