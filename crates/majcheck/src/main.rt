// Checks the table on standard input: prints its counts, or the refusal that it meets.
#![tactic(auto)]

use program::{About, End, NO_ARGUMENT, Program, Stop, Work};

const ABOUT: About<'static> = About {
    name: "majcheck",
    usage: "majcheck < TABLE",
    help: "Checks the majority table on standard input, of at most 8704 bytes.\nArguments: none.\nWrites `inputs N gates M outputs O`; or `refused N at R E`, or `too long`.\n",
    ..NO_ARGUMENT
};

#[derive(Clone, Copy)]
struct Answer;

impl Work for Answer {
    fn answer(self, program: Program<'_>) -> Result<End, Stop> {
        let mut table = [0u8; program::MOST_BYTES];
        let used = program.read_table(&mut table)?;
        let counts = tables::check(&table, used)?;
        program.println(format_args!(
            "inputs {} gates {} outputs {}",
            counts.inputs, counts.gates, counts.outputs
        ))?;
        Ok(End::Accepted)
    }
}

fn main(rt: HostRuntime) {
    program::run_work(&rt, ABOUT, Answer);
}
