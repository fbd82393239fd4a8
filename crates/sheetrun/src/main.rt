// Runs the limits of the sheet of small tables: makes each table, asks the library, and prints what was asked and answered, a line each.
#![tactic(auto)]

ghost use Rattle.std.specs.Prelude.{◌≤◌};

use majority::{Counts, Record};
use program::{About, End, NO_ARGUMENT, Program, Stop, Work};
use refusals::Refusal;
use rules::Step;
use std::fmt;
use std::fmt::{Display, Formatter};

const ABOUT: About<'static> = About {
    name: "sheetrun",
    usage: "sheetrun",
    superfluous: "it takes no argument and no input",
    help: "Runs the limits of the sheet of small tables (docs/SPEC.md, 8).\nArguments and input: none.\nWrites a line a table: what was asked, and what the library answers.\n",
    ..NO_ARGUMENT
};

const INPUT: Record = Record {
    kind: majority::INPUT,
    ..Record::BLANK
};

// The output that is false.
const OUTPUT: Record = Record {
    kind: majority::OUTPUT,
    ..Record::BLANK
};

// What the check answers.
#[derive(Clone, Copy)]
struct Checked(Result<Counts, Refusal>);

// What a step answers: the length of the table then.
#[derive(Clone, Copy)]
struct Stepped(Result<usize, Refusal>);

impl Display for Checked {
    fn fmt<W: fmt::Write>(&self, f: &mut Formatter<W>) -> fmt::Result {
        match self.0 {
            Ok(counts) => write!(
                f,
                "accepted, inputs {} gates {} outputs {}",
                counts.inputs, counts.gates, counts.outputs
            ),
            Err(refusal) => write!(f, "{refusal}"),
        }
    }
}

impl Display for Stepped {
    fn fmt<W: fmt::Write>(&self, f: &mut Formatter<W>) -> fmt::Result {
        match self.0 {
            Ok(length) => write!(f, "accepted, length {length}"),
            Err(refusal) => write!(f, "{refusal}"),
        }
    }
}

// The gate M(x1, 0, edge), of block 0.
fn gate(edge: u16) -> Record {
    Record {
        kind: majority::GATE,
        e1: 2,
        e3: edge,
        ..Record::BLANK
    }
}

// Makes a table of so many inputs, so many gates that read the edge, and one output, and answers its length.
fn make(table: &mut [u8; program::MOST_BYTES], inputs: u16, gates: u16, edge: u16) -> usize {
    let inputs = inputs as usize;
    let nodes = inputs + gates as usize;
    for i in 0..inputs {
        tables::put_record(table, i, INPUT);
    }
    for i in inputs..nodes {
        tables::put_record(table, i, gate(edge));
    }
    tables::put_record(table, nodes, OUTPUT);
    8 * (nodes + 1)
}

// A table of inputs alone.
fn inputs(program: Program<'_>, count: u16) -> Result<(), Stop> {
    let mut table = [0u8; program::MOST_BYTES];
    let used = make(&mut table, count, 0, 0);
    let checked = Checked(tables::check(&table, used));
    program.println(format_args!("inputs {count}: {checked}"))
}

// A table of two inputs and so many gates.
fn gates(program: Program<'_>, count: u16) -> Result<(), Stop> {
    let mut table = [0u8; program::MOST_BYTES];
    let used = make(&mut table, 2, count, 4);
    let checked = Checked(tables::check(&table, used));
    program.println(format_args!("gates {count}: {checked}"))
}

// A table of two inputs and one gate, node 3, which reads the edge.
fn gate_3(program: Program<'_>, edge: u16) -> Result<(), Stop> {
    let mut table = [0u8; program::MOST_BYTES];
    let used = make(&mut table, 2, 1, edge);
    let checked = Checked(tables::check(&table, used));
    program.println(format_args!("gate 3 reads edge {edge}: {checked}"))
}

// A table of two inputs and so many gates, the last of which reads the first, node 3; and rule 3 on the last.
fn rule_3(program: Program<'_>, count: u16) -> Result<(), Stop>
    requires { count ≤ 1024 }
{
    let mut table = [0u8; program::MOST_BYTES];
    let used = make(&mut table, 2, count, 4);
    tables::put_record(&mut table, count as usize + 1, gate(6));
    let step = Step {
        rule: 3,
        gate: count + 2,
        a: 0,
        b: 0,
    };
    let stepped = Stepped(rewriting::step(&mut table, used, step));
    program.println(format_args!("rule 3 at {count} gates: {stepped}"))
}

#[derive(Clone, Copy)]
struct Answer;

impl Work for Answer {
    fn answer(self, program: Program<'_>) -> Result<End, Stop> {
        inputs(program, 32)?;
        inputs(program, 33)?;
        gates(program, 1024)?;
        gates(program, 1025)?;
        rule_3(program, 1024)?;
        rule_3(program, 1023)?;
        gate_3(program, 6)?;
        gate_3(program, 5)?;
        Ok(End::Accepted)
    }
}

fn main(rt: HostRuntime) {
    program::run_work(&rt, ABOUT, Answer);
}
