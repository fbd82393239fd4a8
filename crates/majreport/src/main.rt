// Reports on the table on standard input: prints its size and its depth, or the refusal that it meets.
#![tactic(auto)]

use program::{About, End, NO_ARGUMENT, Program, Stop, Work};

const ABOUT: About<'static> = About {
    name: "majreport",
    usage: "majreport < TABLE",
    help: "Reports on the majority table on standard input, of at most 8704 bytes.\nArguments: none.\nWrites `size S depth D`; or `refused N at R E`, or `too long`.\n",
    ..NO_ARGUMENT
};

#[derive(Clone, Copy)]
struct Answer;

impl Work for Answer {
    fn answer(self, program: Program<'_>) -> Result<End, Stop> {
        let mut table = [0u8; program::MOST_BYTES];
        let used = program.read_table(&mut table)?;
        let size = questions::report(&table, used)?;
        program.println(format_args!("size {} depth {}", size.gates, size.depth))?;
        Ok(End::Accepted)
    }
}

fn main(rt: HostRuntime) {
    program::run_work(&rt, ABOUT, Answer);
}
