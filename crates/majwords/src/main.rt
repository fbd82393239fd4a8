// Works out the outputs of the table on standard input under sixty-four assignments, of which its argument is the first: prints a line an output, its
// word, or the refusal that the table or the assignment meets.
#![tactic(auto)]

use majority::MOST_OUTPUTS;
use program::{About, End, NO_ARGUMENT, Program, Stop, Stream, Work};
use text::Line;

const ABOUT: About<'static> = About {
    name: "majwords",
    usage: "majwords FIRST < TABLE",
    fewest: 1,
    most: 1,
    missing: "the first assignment is missing",
    superfluous: "it takes one argument, the first assignment",
    wrong: "the first assignment is no decimal number from 0 to 4294967295",
    help: "Works out the outputs of the majority table on standard input, of at most 8704 bytes and 16 inputs, under sixty-four\nassignments.\nArgument: the first assignment, a decimal number that is a multiple of 64 and an assignment of the table.\nWrites a line an output, its word in 16 hexadecimal digits: bit k is its value under the assignment FIRST + k, and 0 where the\ntable has no such assignment; or `refused N at R E`, or `too long`.\n",
    ..NO_ARGUMENT
};

#[derive(Clone, Copy)]
struct Answer;

impl Work for Answer {
    fn answer(self, program: Program<'_>) -> Result<End, Stop> {
        let first = program.number()?;
        let mut table = [0u8; program::MOST_BYTES];
        let used = program.read_table(&mut table)?;
        let mut words = [0u64; MOST_OUTPUTS];
        let outputs = words::words(&table, used, first, &mut words)?;
        for word in words.iter().take(outputs) {
            program.put(Stream::Output, Line::empty().hexadecimal(*word))?;
        }
        Ok(End::Accepted)
    }
}

fn main(rt: HostRuntime) {
    program::run_work(&rt, ABOUT, Answer);
}
