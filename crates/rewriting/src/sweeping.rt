// Sweep: the gates that no output reaches are dropped, and the rest closes up and is renumbered.
ghost use Rattle.std.specs.Prelude.{◌≡◌, ◌+◌, ◌<◌, ◌≤◌, true, false, slice_set};
ghost use Rattle.majority.specs.Edge.{node_of};
ghost use Rattle.majority.specs.Table.{Below};
ghost use Rattle.majority.specs.Edit.{edges};
ghost use Rattle.rules.specs.Sweep.{reached};
ghost use Rattle.tables.specs.Sound.{Sound, table_in, Fresh};
ghost use Rattle.rewriting.specs.inner.Marks.{reached_by, Marked, mark_names};
ghost use Rattle.rewriting.specs.inner.ClosedUp.{new_number, Lower, Numbered, renumber_by, Closed, ClosedUp, Movable, Moved};
ghost use Rattle.rewriting.specs.inner.Places.{number_left};
ghost use Rattle.rewriting.specs.inner.Swept.{Swept};

use editing::clear;
use majority::{Counts, Record, node};
use tables::{SoundTable, put_record, record_at};

// Marks the node that an edge names.
fn mark(marks: &mut [bool; 1057], edge: u16)
    requires { node_of edge < 1057 }
    ensures { marks.new ≡ slice_set marks.old (node_of edge) true }
{
    marks[node(edge) as usize] = true;
}

// Marks the nodes that a gate names.
fn mark_names(marks: &mut [bool; 1057], gate: Record)
    requires { Below 1057 gate }
    ensures { marks.new ≡ mark_names marks.old gate }
{
    mark(marks, gate.e1);
    mark(marks, gate.e2);
    mark(marks, gate.e3);
}

// Marks the nodes that outputs name.
fn mark_outputs(marks: &mut [bool; 1057], table: &SoundTable<'_>)
    requires { Fresh false marks.old }
    ensures { Marked (reached_by table.now.records (table.now.counts.inputs + table.now.counts.gates)) marks.new }
{
    for j in 0..table.counts().outputs {
        mark(marks, table.output(j));
    }
}

// Marks the nodes that marked gates name, from the last gate down: node k is the gate of record k - 1.
fn mark_gates(marks: &mut [bool; 1057], table: &SoundTable<'_>)
    requires { Marked (reached_by table.now.records (table.now.counts.inputs + table.now.counts.gates)) marks.old }
    ensures { Marked (reached table.now.records) marks.new }
{
    let Counts { inputs, gates, .. } = table.counts();
    for done in 0..gates {
        let k = inputs + gates - done;
        if marks[k] {
            mark_names(marks, table.record(k - 1));
        }
    }
}

// Marks the nodes that outputs reach.
fn mark_reached(marks: &mut [bool; 1057], table: &SoundTable<'_>)
    requires { Fresh false marks.old }
    ensures { Marked (reached table.now.records) marks.new }
{
    mark_outputs(marks, table);
    mark_gates(marks, table);
}

// An input keeps its number.
fn number_inputs(numbers: &mut [u16; 1057], inputs: usize)
    requires few { inputs ≤ 32 }
    requires fresh { Fresh 0 numbers.old }
    ensures { Numbered (λ k. k) inputs numbers.new }
{
    for i in 0..inputs {
        numbers[i + 1] = (i + 1) as u16;
    }
}

// The edge with its node's new number.
#[tactic(auto, unfolding(crate::specs::inner::ClosedUp::renumber_by))]
pub(crate) fn renumbered(numbers: &[u16; 1057], edge: u16) -> u16
    requires named { node_of edge < 1057 }
    requires lower { Lower numbers.now }
    ensures { result ≡ renumber_by numbers.now edge }
{
    2 * numbers[node(edge) as usize] + edge % 2
}

// The record with its edges renumbered.
fn renumbered_record(numbers: &[u16; 1057], r: Record) -> Record
    requires named { Below 1057 r }
    requires lower { Lower numbers.now }
    ensures { result ≡ edges (renumber_by numbers.now) r }
{
    Record {
        e1: renumbered(numbers, r.e1),
        e2: renumbered(numbers, r.e2),
        e3: renumbered(numbers, r.e3),
        ..r
    }
}

// Closes up the marked gates and numbers all of them; answers where the outputs go.
fn close_gates(
    s: &mut [u8],
    counts: Counts,
    marks: &[bool; 1057],
    numbers: &mut [u16; 1057],
) -> usize
    requires sound { Sound s.old counts }
    requires marked { Marked (reached (table_in s.old counts)) marks.now }
    requires numbered { Numbered (λ k. k) counts.inputs numbers.old }
    ensures { ClosedUp s.old counts (counts.inputs + counts.gates) result s.new numbers.new }
{
    let mut place = counts.inputs;
    for i in counts.inputs..counts.inputs + counts.gates {
        if marks[i + 1] {
            let r = record_at(s, i);
            put_record(s, place, renumbered_record(numbers, r));
            place += 1;
        }
        numbers[i + 1] = place as u16;
    }
    place
}

// Moves the outputs down to a place, renumbered.
fn close_outputs(s: &mut [u8], counts: Counts, place: usize, numbers: &[u16; 1057])
    requires { Movable s.old counts place numbers.now }
    ensures { Moved (renumber_by numbers.now) (counts.inputs + counts.gates) place counts.outputs s.old s.new }
{
    let nodes = counts.inputs + counts.gates;
    for j in 0..counts.outputs {
        let r = record_at(s, nodes + j);
        put_record(s, place + j, renumbered_record(numbers, r));
    }
}

// Drops the gates that are not marked and closes up; answers where the outputs begin.
#[tactic(auto, using(crate::proofs::MovedOutputs::movable))]
fn close_up(s: &mut [u8], counts: Counts, marks: &[bool; 1057]) -> usize
    requires sound { Sound s.old counts }
    requires marked { Marked (reached (table_in s.old counts)) marks.now }
    ensures place { result ≡ new_number (table_in s.old counts) (counts.inputs + counts.gates) }
    ensures closed { Closed s.old counts (counts.inputs + counts.gates + counts.outputs) s.new }
{
    let mut numbers = [0u16; 1057];
    number_inputs(&mut numbers, counts.inputs);
    let place = close_gates(s, counts, marks, &mut numbers);
    close_outputs(s, counts, place, &numbers);
    place
}

// Numbers the nodes that sweep leaves, as they close up, with 0 for each gate that it drops.
#[tactic(auto, using(crate::proofs::NewNumbers::number_lower))]
pub(crate) fn number_left(numbers: &mut [u16; 1057], table: &SoundTable<'_>)
    requires { Fresh 0 numbers.old }
    ensures { Numbered (number_left table.now.records) (table.now.counts.inputs + table.now.counts.gates) numbers.new }
{
    let Counts { inputs, gates, .. } = table.counts();
    let mut marks = [false; 1057];
    mark_reached(&mut marks, table);
    number_inputs(numbers, inputs);
    let mut last = inputs;
    for i in inputs..inputs + gates {
        let stays = marks[i + 1];
        let mut number = 0;
        if stays {
            last += 1;
            number = last as u16;
        }
        numbers[i + 1] = number;
    }
}

// Drops every gate that no output reaches, closes up and clears what is freed; answers how many gates are left.
pub(crate) fn sweep(s: &mut [u8], counts: Counts) -> usize
    requires { Sound s.old counts }
    ensures { Swept s.old counts result s.new }
{
    let mut marks = [false; 1057];
    mark_reached(&mut marks, &SoundTable { bytes: s, counts });
    let place = close_up(s, counts, &marks);
    let end = counts.inputs + counts.gates + counts.outputs;
    clear(s, place + counts.outputs, end);
    place - counts.inputs
}
