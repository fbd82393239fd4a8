// Works out the outputs of the table on standard input under the assignment that its argument gives: prints the outputs' number,
// or the refusal that the table or the assignment meets.
#![tactic(auto)]

use program::{About, End, NO_ARGUMENT, Program, Stop, Work};

const ABOUT: About<'static> = About {
    name: "majvalue",
    usage: "majvalue ASSIGNMENT < TABLE",
    fewest: 1,
    most: 1,
    missing: "the assignment is missing",
    superfluous: "it takes one argument, the assignment",
    wrong: "the assignment is no decimal number from 0 to 4294967295",
    help: "Works out the outputs of the majority table on standard input, of at most 8704 bytes.\nArgument: the assignment, a decimal number from 0 to 4294967295, bit i-1 of which is input i.\nWrites `outputs V`, bit j-1 of V being output j; or `refused N at R E`, or `too long`.\n",
    ..NO_ARGUMENT
};

#[derive(Clone, Copy)]
struct Answer;

impl Work for Answer {
    fn answer(self, program: Program<'_>) -> Result<End, Stop> {
        let assignment = program.number()?;
        let mut table = [0u8; program::MOST_BYTES];
        let used = program.read_table(&mut table)?;
        let outputs = questions::evaluate(&table, used, assignment)?;
        program.println(format_args!("outputs {outputs}"))?;
        Ok(End::Accepted)
    }
}

fn main(rt: HostRuntime) {
    program::run_work(&rt, ABOUT, Answer);
}
