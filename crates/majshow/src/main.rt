// Shows the table on standard input in words, one line a record, or prints the refusal that it meets.
#![tactic(auto)]

use majority::Record;
use program::{About, End, NO_ARGUMENT, Program, Stop, Work};
use std::fmt;
use std::fmt::{Display, Formatter};

const ABOUT: About<'static> = About {
    name: "majshow",
    usage: "majshow < TABLE",
    help: "Shows the majority table on standard input, of at most 8704 bytes, in words.\nArguments: none.\nWrites a line a record: `x1` an input, `g4 = M(x1, !x2, 1)` a gate, the majority of three edges, with ` block B` after it\nwhere its block B is not 0, `out !g6` an output; or `refused N at R E`, or `too long`.\n",
    ..NO_ARGUMENT
};

// A node of a table of so many inputs: x and its number for an input, g and its number for a gate.
#[derive(Clone, Copy)]
struct Node {
    number: usize,
    inputs: usize,
}

// An edge: 0 or 1 for a constant, otherwise its node, behind a ! where the edge is inverted.
#[derive(Clone, Copy)]
struct Edge {
    edge: u16,
    inputs: usize,
}

// A record, and the node that it is where it is one.
#[derive(Clone, Copy)]
struct Shown {
    record: Record,
    node: Node,
}

impl Display for Node {
    fn fmt<W: fmt::Write>(&self, f: &mut Formatter<W>) -> fmt::Result {
        let letter = if self.number <= self.inputs { "x" } else { "g" };
        write!(f, "{letter}{}", self.number)
    }
}

impl Display for Edge {
    fn fmt<W: fmt::Write>(&self, f: &mut Formatter<W>) -> fmt::Result {
        if self.edge < 2 {
            return write!(f, "{}", self.edge);
        }
        let sign = if majority::inverted(self.edge) {
            "!"
        } else {
            ""
        };
        let node = Node {
            number: majority::node(self.edge) as usize,
            inputs: self.inputs,
        };
        write!(f, "{sign}{node}")
    }
}

impl Shown {
    fn edge(self, edge: u16) -> Edge {
        Edge {
            edge,
            inputs: self.node.inputs,
        }
    }
}

impl Display for Shown {
    fn fmt<W: fmt::Write>(&self, f: &mut Formatter<W>) -> fmt::Result {
        let Shown { record, node } = *self;
        let first = self.edge(record.e1);
        match record.kind {
            majority::OUTPUT => write!(f, "out {first}"),
            majority::GATE => {
                let second = self.edge(record.e2);
                let third = self.edge(record.e3);
                write!(f, "{node} = M({first}, {second}, {third})")?;
                if record.block != 0 {
                    write!(f, " block {}", record.block)?;
                }
                Ok(())
            }
            _ => write!(f, "{node}"),
        }
    }
}

#[derive(Clone, Copy)]
struct Answer;

impl Work for Answer {
    fn answer(self, program: Program<'_>) -> Result<End, Stop> {
        let mut table = [0u8; program::MOST_BYTES];
        let used = program.read_table(&mut table)?;
        let counts = tables::check(&table, used)?;
        for i in 0..used / 8 {
            program.println(Shown {
                record: tables::record_at(&table, i),
                node: Node {
                    number: i + 1,
                    inputs: counts.inputs,
                },
            })?;
        }
        Ok(End::Accepted)
    }
}

fn main(rt: HostRuntime) {
    program::run_work(&rt, ABOUT, Answer);
}
