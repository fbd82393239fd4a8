// Writes the bytes of the RM3 table of the table on standard input to standard output, with one helper per inverse or, where its argument says
// so, each made anew. Where it cannot, says why on standard error.
#![tactic(auto)]

use program::{About, End, NO_ARGUMENT, Program, Stop, Stream, Work};
use translation::Mode;

const ABOUT: About<'static> = About {
    name: "rm3table",
    usage: "rm3table [anew] < TABLE > RM3",
    most: 1,
    superfluous: "it takes one argument at most, anew",
    wrong: "the argument is not anew",
    refusals: Stream::Error,
    help: "Writes the RM3 table of the majority table on standard input, of at most 8704 bytes, with one helper per inverse.\nArgument: none, or `anew`: each helper is made anew, as rm3list lists them.\nWrites the bytes of the RM3 table; or, on standard error, `refused N at R E`, or `too long`.\n",
    ..NO_ARGUMENT
};

// The mode that its argument asks for.
fn mode(program: Program<'_>) -> Result<Mode, Stop> {
    if program.arguments() == 0 {
        return Ok(Mode::Once);
    }
    let mut word = [0u8; 5];
    let len = program.argument(&mut word);
    if &word[..len] == b"anew".as_slice() {
        return Ok(Mode::Anew);
    }
    Err(Stop::Wrong)
}

#[derive(Clone, Copy)]
struct Answer;

impl Work for Answer {
    fn answer(self, program: Program<'_>) -> Result<End, Stop> {
        let mode = mode(program)?;
        let mut table = [0u8; program::MOST_BYTES];
        let used = program.read_table(&mut table)?;
        let mut out = [0u8; rm3::MOST_BYTES];
        let length = rm3::translate(mode, &table, used, &mut out)?;
        program.write_first(length, &out)?;
        Ok(End::Accepted)
    }
}

fn main(rt: HostRuntime) {
    program::run_work(&rt, ABOUT, Answer);
}
