// Runs the script in the file that its argument names on the table on standard input: writes the table as the script left it to
// standard output, and what the script replied to standard error.
#![tactic(auto)]

use program::{About, End, NO_ARGUMENT, Program, Stop, Stream, Work};

const ABOUT: About<'static> = About {
    name: "majscript",
    usage: "majscript SCRIPT < TABLE > NEW",
    fewest: 1,
    most: 1,
    missing: "the script's file is missing",
    superfluous: "it takes one argument, the script's file",
    wrong: scripts::TOO_LONG,
    refusals: Stream::Error,
    help: "Runs a script of rewriting steps on the majority table on standard input, of at most 8704 bytes.\nArgument: the path of the script, of at most 262144 bytes.\nWrites the bytes of the table as the script left it; and on standard error `taken T length L`, or\n`taken T refused N at R E length L`, or `too long`. NEW must be another file than TABLE.\n",
    ..NO_ARGUMENT
};

// Runs the steps of a script on the table on standard input. Not inlined, so that the table's room comes after that of the script's path.
#[inline(never)]
fn run(program: Program<'_>, steps: &[u8]) -> Result<End, Stop> {
    let mut table = [0u8; program::MOST_BYTES];
    let used = program.read_table(&mut table)?;
    let progress = rewriting::script(&mut table, used, steps);
    program.write_first(progress.used, &table)?;
    scripts::reply(program, progress)
}

#[derive(Clone, Copy)]
struct Answer;

impl Work for Answer {
    fn answer(self, program: Program<'_>) -> Result<End, Stop> {
        let mut buffer = [0u8; scripts::ROOM];
        let script = scripts::read_script(program, &mut buffer)?;
        run(program, &buffer[..script])
    }
}

fn main(rt: HostRuntime) {
    program::run_work(&rt, ABOUT, Answer);
}
