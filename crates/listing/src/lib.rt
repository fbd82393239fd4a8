// The listing of an RM3 table: a line with its counts and depth, one an operation and one an output.
#![tactic(auto)]

use majority::Record;
use program::{End, Program, Stop};
use std::fmt;
use std::fmt::{Display, Formatter};
use translation::Mode;

// An operation, and the operand that it is; or an output.
#[derive(Clone, Copy)]
struct Listed {
    record: Record,
    operand: usize,
}

impl Display for Listed {
    fn fmt<W: fmt::Write>(&self, f: &mut Formatter<W>) -> fmt::Result {
        let Record {
            kind,
            e1,
            e2,
            e3,
            ..
        } = self.record;
        if kind == majority::OUTPUT {
            return write!(f, "out {e1}");
        }
        write!(f, "{} {e1} {e2} {e3}", self.operand)
    }
}

// Lists the RM3 table, in this mode, of the table on standard input. Where the check accepts that, no later call refuses it: the buffer holds any RM3
// table. What each would say is said all the same.
#[tactic(auto, using(rm3::proofs::Replies::reply_counts))]
pub fn answer(program: Program<'_>, mode: Mode) -> Result<End, Stop> {
    let mut table = [0u8; program::MOST_BYTES];
    let used = program.read_table(&mut table)?;
    let counts = tables::check(&table, used)?;
    let mut out = [0u8; rm3::MOST_BYTES];
    let length = rm3::translate(mode, &table, used, &mut out)?;
    let depth = rm3::rm3_depth(&table, used)?;
    let records = length / 8;
    program.println(format_args!(
        "inputs {} ops {} outputs {} depth {depth}",
        counts.inputs,
        records - (counts.inputs + counts.outputs),
        counts.outputs
    ))?;
    for i in counts.inputs..records {
        program.println(Listed {
            record: tables::record_at(&out, i),
            operand: i + 2,
        })?;
    }
    Ok(End::Accepted)
}
