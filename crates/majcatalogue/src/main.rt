// Writes the bytes of the table of the catalogue that computes the function of three inputs with the number that its argument gives.
#![tactic(auto)]

use program::{About, End, NO_ARGUMENT, Program, Stop, Work};

const ABOUT: About<'static> = About {
    name: "majcatalogue",
    usage: "majcatalogue NUMBER > TABLE",
    fewest: 1,
    most: 1,
    missing: "the number is missing",
    superfluous: "it takes one argument, the number",
    wrong: "the number is no decimal number from 0 to 255",
    help: "Writes a majority table that computes a function of three inputs: three inputs, at most seven gates and one output.\nArgument: the function's number, a decimal number from 0 to 255, bit k of which is its value under the assignment k.\nReads nothing; writes the bytes of the table.\n",
    ..NO_ARGUMENT
};

// There is room for any table, so that nothing but a number that is no function's is refused.
#[derive(Clone, Copy)]
struct Answer;

impl Work for Answer {
    fn answer(self, program: Program<'_>) -> Result<End, Stop> {
        let number = program.number()?;
        let mut out = [0u8; catalogue::MOST_BYTES];
        let length = catalogue::catalogue(number, &mut out).or(Err(Stop::Wrong))?;
        program.write_first(length, &out)?;
        Ok(End::Accepted)
    }
}

fn main(rt: HostRuntime) {
    program::run_work(&rt, ABOUT, Answer);
}
