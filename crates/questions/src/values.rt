// The values of a table's nodes under an assignment, and its outputs' number.
ghost use Rattle.std.specs.Prelude.{◌≡◌, ◌+◌, ◌<◌, ◌≤◌, false};
ghost use Rattle.majority.specs.Edge.{node_of};
ghost use Rattle.majority.specs.Table.{Below};
ghost use Rattle.majority.specs.Value.{bit_past, values as values_of, output_number};
ghost use Rattle.tables.specs.Sound.{Fresh};
ghost use Rattle.questions.specs.Calls.{value_of};
ghost use Rattle.questions.specs.inner.Worths.{Holds, HoldsInputs, edge_value, gate_value};

use majority::{Counts, Record, inverted, majority, node};
use refusals::Refusal;
use tables::{SoundTable, read};

// A bit is set at position n or above.
fn bit_past(assignment: u32, n: usize) -> bool
    requires { n ≤ 32 }
    ensures { result ≡ bit_past assignment n }
{
    (assignment as u64) >> n != 0
}

// Sets the values of the inputs, all values being false.
#[tactic(auto, using(crate::proofs::Worths::input_more))]
fn set_inputs(values: &mut [bool; 1057], inputs: usize, assignment: u32)
    requires { (inputs ≤ 32) × Fresh false values.old }
    ensures { HoldsInputs assignment inputs values.new }
{
    for i in 0..inputs {
        values[i + 1] = (assignment >> i) % 2 == 1;
    }
}

// The value of an edge.
fn edge_value(values: &[bool; 1057], edge: u16) -> bool
    requires { node_of edge < 1057 }
    ensures { result ≡ edge_value values.now edge }
{
    let value = values[node(edge) as usize];
    if inverted(edge) {
        return !value;
    }
    value
}

// The value of a gate.
fn gate_value(values: &[bool; 1057], gate: Record) -> bool
    requires { Below 1057 gate }
    ensures { result ≡ gate_value values.now gate }
{
    majority(
        edge_value(values, gate.e1),
        edge_value(values, gate.e2),
        edge_value(values, gate.e3),
    )
}

// Sets the values of the gates, those of the inputs being set.
#[tactic(auto, using(crate::proofs::Worths::values_begin, crate::proofs::Worths::gate_value_lem, crate::proofs::Worths::holds_more))]
fn set_gates(values: &mut [bool; 1057], table: &SoundTable<'_>, assignment: u32)
    requires { HoldsInputs assignment table.now.counts.inputs values.old }
    ensures { Holds (values_of assignment) table.now.records (table.now.counts.inputs + table.now.counts.gates) values.new }
{
    let inputs = table.counts().inputs;
    for (i, bytes) in table.gates().iter().enumerate() {
        values[inputs + i + 1] = gate_value(values, read(bytes));
    }
}

// The outputs' number, the values of all nodes being set.
#[tactic(auto, using(majority::proofs::Numbers::number_room, crate::proofs::Worths::output_value_lem, majority::proofs::Numbers::number_set, majority::proofs::Numbers::number_clear), unfolding(majority::specs::Value::number, majority::specs::Value::output_number))]
fn output_number(values: &[bool; 1057], table: &SoundTable<'_>, assignment: u32) -> u32
    requires { Holds (values_of assignment) table.now.records (table.now.counts.inputs + table.now.counts.gates) values.now }
    ensures { result ≡ output_number assignment table.now.counts.inputs table.now.counts.gates table.now.counts.outputs table.now.records }
{
    let mut number: u32 = 0;
    for j in 0..table.counts().outputs {
        if edge_value(values, table.output(j)) {
            number += 1u32 << j;
        }
    }
    number
}

// The outputs' number of an accepted table.
#[tactic(auto, using(tables::proofs::Sound::fresh))]
pub(crate) fn value(table: &SoundTable<'_>, assignment: u32) -> Result<u32, Refusal>
    ensures { result ≡ value_of assignment table.now.records table.now.counts }
{
    let inputs = table.counts().inputs;
    if bit_past(assignment, inputs) {
        return Err(Refusal::Assignment);
    }
    let mut values = [false; 1057];
    set_inputs(&mut values, inputs, assignment);
    set_gates(&mut values, table, assignment);
    Ok(output_number(&values, table, assignment))
}
