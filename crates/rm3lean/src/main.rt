// Lists the RM3 table of the table on standard input, with one helper per inverse, or prints the refusal that it meets.
#![tactic(auto)]

use program::{About, End, NO_ARGUMENT, Program, Stop, Work};
use translation::Mode;

const ABOUT: About<'static> = About {
    name: "rm3lean",
    usage: "rm3lean < TABLE",
    help: "Lists the RM3 table of the majority table on standard input, of at most 8704 bytes, with one helper per inverse.\nArguments: none.\nWrites `inputs N ops P outputs O depth D`, a line an operation, its number and three operands, and a line an output,\n`out` and its operand; or `refused N at R E`, or `too long`.\n",
    ..NO_ARGUMENT
};

#[derive(Clone, Copy)]
struct Answer;

impl Work for Answer {
    fn answer(self, program: Program<'_>) -> Result<End, Stop> {
        listing::answer(program, Mode::Once)
    }
}

fn main(rt: HostRuntime) {
    program::run_work(&rt, ABOUT, Answer);
}
