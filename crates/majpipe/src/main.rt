// Answers requests on standard input with replies on standard output, until the input ends: the library for every other language.
#![tactic(auto)]

mod input;
mod operation;
mod places;
mod reply;

use input::{Fault, read_operation};
use program::{About, End, NO_ARGUMENT, Program, Stop, Work};

const ABOUT: About<'static> = About {
    name: "majpipe",
    usage: "majpipe < REQUESTS > REPLIES",
    help: "Answers requests until its input ends: the library for every other language (docs/SPEC.md, 9.1).\nArguments: none.\nReads requests, each a byte, the operation, and its parts; writes one reply a request, all numbers.\n",
    ..NO_ARGUMENT
};

// A proved loop has to end, and nothing says that the input does: it counts its turns up to a number that no run reaches.
fn serve(program: Program<'_>) -> Result<End, Fault> {
    let mut buffer = io::large_buffer();
    for _ in 0..u64::MAX {
        match read_operation(program)? {
            Some(operation) => operation.answer(program, &mut buffer)?,
            None => return Ok(End::Accepted),
        }
    }
    Ok(End::Failed)
}

// Says why a request cannot be answered.
fn say(program: Program<'_>, fault: Fault) -> Result<End, Stop> {
    match fault {
        Fault::Cut => Ok(program.failed("the input ended inside a request")),
        Fault::NoOperation(number) => {
            Ok(program.failed(format_args!("there is no operation {number}")))
        }
        Fault::TooLong(length) => Ok(program.failed(format_args!(
            "a part of {length} bytes is longer than 65536, the most that is allowed"
        ))),
        Fault::TooMany(count) => Ok(program.failed(format_args!(
            "{count} places are more than 8192, the most that are allowed"
        ))),
        Fault::Stopped(stop) => Err(stop),
    }
}

#[derive(Clone, Copy)]
struct Answer;

impl Work for Answer {
    fn answer(self, program: Program<'_>) -> Result<End, Stop> {
        serve(program).or_else(|fault| say(program, fault))
    }
}

fn main(rt: HostRuntime) {
    program::run_work(&rt, ABOUT, Answer);
}
