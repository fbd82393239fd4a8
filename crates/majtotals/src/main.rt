// Counts over all assignments of the table on standard input: prints a line an output, how many make it true, or the refusal that the table meets.
#![tactic(auto)]

use majority::MOST_OUTPUTS;
use program::{About, End, NO_ARGUMENT, Program, Stop, Work};
use tables::SoundTable;

const ABOUT: About<'static> = About {
    name: "majtotals",
    usage: "majtotals < TABLE",
    help: "Counts over all assignments of the majority table on standard input, of at most 8704 bytes and 16 inputs.\nArguments: none.\nWrites a line an output, `output J true T of A`: of all A assignments, T make output J true, counted from 1; or\n`refused N at R E`, or `too long`.\n",
    ..NO_ARGUMENT
};

#[derive(Clone, Copy)]
struct Answer;

impl Work for Answer {
    fn answer(self, program: Program<'_>) -> Result<End, Stop> {
        let mut table = [0u8; program::MOST_BYTES];
        let used = program.read_table(&mut table)?;
        let inputs = SoundTable::checked(&table, used)?.counts().inputs;
        let mut totals = [0u64; MOST_OUTPUTS];
        let outputs = words::totals(&table, used, &mut totals)?;
        let assignments = 1u64 << inputs;
        for (j, total) in totals.iter().take(outputs).enumerate() {
            program.println(format_args!("output {} true {total} of {assignments}", j + 1))?;
        }
        Ok(End::Accepted)
    }
}

fn main(rt: HostRuntime) {
    program::run_work(&rt, ABOUT, Answer);
}
