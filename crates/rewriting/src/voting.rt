// Error voters (rule 9) on a table that was checked.
ghost use Rattle.std.specs.Prelude.{◌≡◌, ◌+◌, ◌<◌, ◌≤◌, max, nat_le};
ghost use Rattle.majority.specs.Edit.{edges};
ghost use Rattle.majority.specs.Level.{level as level_of};
ghost use Rattle.rules.specs.Voter.{edge_to, pair_in, has_pair, pair_gate, voter_form, in_block, voter as voter_rule};
ghost use Rattle.tables.specs.Bytes.{holding};
ghost use Rattle.tables.specs.Sound.{table_in};
ghost use Rattle.rewriting.specs.inner.Fitting.{AtGate, Votable};
ghost use Rattle.rewriting.specs.inner.Copied.{copying_of, replaced_by, rise_by, copied_by, Copyable, Copied};

use crate::nodes::{node_record, plain, records};
use editing::{make_room, names};
use majority::{Counts, GATE, Record, flipped};
use questions::set_levels;
use rules::both_among;
use tables::{SoundTable, put_record, record_at};

// The edge to a node, inverted or not.
fn edge_to(inverted: bool, k: u16) -> u16
    requires { k ≤ 1057 }
    ensures { result ≡ edge_to inverted k }
{
    if inverted {
        return flipped(plain(k));
    }
    plain(k)
}

// Nodes a and b are among the record's edges, both inverted or both not.
#[tactic(auto, unfolding(rules::specs::Voter::pair_in))]
fn pair_in(inverted: bool, a: u16, b: u16, r: Record) -> bool
    requires a { a ≤ 1057 }
    requires b { b ≤ 1057 }
    ensures { result ≡ pair_in inverted a b r }
{
    both_among(edge_to(inverted, a), edge_to(inverted, b), r)
}

// Nodes a and b are among the record's edges in the same polarity. Few records name a at all.
#[tactic(auto, using(crate::proofs::PairSearch::unnamed_pair), unfolding(rules::specs::Voter::has_pair))]
fn has_pair(a: u16, b: u16, r: Record) -> bool
    requires a { a ≤ 1057 }
    requires b { b ≤ 1057 }
    ensures { result ≡ has_pair a b r }
{
    if !names(a, r) {
        return false;
    }
    pair_in(true, a, b, r) | pair_in(false, a, b, r)
}

// The first node that is a gate and may read node a.
fn first_above(inputs: usize, a: u16) -> usize
    requires { inputs ≤ 32 }
    ensures { result ≡ max inputs a + 1 }
{
    inputs.max(usize::from(a)) + 1
}

// The lowest gate, at most the given one, that has the pair; one more than the given one where none has.
fn pair_gate(table: &SoundTable<'_>, gate: u16, a: u16, b: u16) -> u16
    requires from { table.now.counts.inputs < gate }
    requires upto { gate ≤ table.now.counts.inputs + table.now.counts.gates }
    requires order { a < b }
    requires below { b < gate }
    ensures { result ≡ pair_gate table.now.counts.inputs gate a b table.now.records }
{
    for c in first_above(table.counts().inputs, a)..gate as usize + 1 {
        if has_pair(a, b, table.record(c - 1)) {
            return c as u16;
        }
    }
    gate + 1
}

// The level of node a is not above that of node b.
fn levels_fit(table: &SoundTable<'_>, a: u16, b: u16) -> bool
    requires order { a < b }
    requires upto { b ≤ table.now.counts.inputs + table.now.counts.gates }
    ensures { result ≡ nat_le (level_of table.now.records a) (level_of table.now.records b) }
{
    let mut levels = [0u16; 1057];
    set_levels(&mut levels, table.bytes, table.counts().inputs, b as usize);
    levels[a as usize] <= levels[b as usize]
}

// The form that a voter asks for.
#[tactic(auto, unfolding(rules::specs::Voter::voter_form))]
pub(crate) fn voter_form(table: &SoundTable<'_>, gate: u16, a: u16, b: u16) -> bool
    requires from { table.now.counts.inputs < gate }
    requires upto { gate ≤ table.now.counts.inputs + table.now.counts.gates }
    requires order { a < b }
    requires below { b < gate }
    ensures { result ≡ voter_form table.now.counts.inputs gate a b table.now.records }
{
    pair_gate(table, gate, a, b) <= gate && levels_fit(table, a, b)
}

// How a copy changes edges: both edges to the node that it replaces, and what stands for each; the first edge that names a gate, and by how
// much such an edge rises.
#[derive(Clone, Copy)]
struct Copying {
    plain: u16,
    inverted: u16,
    to: u16,
    other: u16,
    first: u16,
    rise: u16,
}

impl Copying {
    // The copy of the gates up to the given one, after `before` inserted gates, in which the node is redirected to the edge.
    fn new(inputs: usize, gate: u16, before: usize, from: u16, to: u16) -> Copying
        requires some { inputs < gate }
        requires small { gate + before ≤ 5000 }
        requires known { from ≤ 5000 }
        ensures { result ≡ copying_of inputs gate before from to }
    {
        Copying {
            plain: 2 * from,
            inverted: 2 * from + 1,
            to,
            other: flipped(to),
            first: 2 * (inputs as u16 + 1),
            rise: 2 * (gate as usize + before - inputs - 1) as u16,
        }
    }

    // An edge with what stands for it in the copy.
    #[tactic(auto, unfolding(crate::specs::inner::Copied::replaced_by))]
    fn replaced(self, edge: u16) -> u16
        ensures { result ≡ replaced_by self edge }
    {
        if edge == self.plain {
            return self.to;
        }
        if edge == self.inverted {
            return self.other;
        }
        edge
    }

    // By how much an edge rises in the copy: not at all where it names no gate.
    #[tactic(auto, unfolding(crate::specs::inner::Copied::rise_by))]
    fn risen(self, edge: u16) -> u16
        ensures { result ≡ rise_by self edge }
    {
        if edge < self.first { 0 } else { self.rise }
    }

    // An edge in the copy: what stands for it, and where that names a gate, the copy's own.
    #[tactic(auto, unfolding(crate::specs::inner::Copied::copied_by))]
    fn edge(self, edge: u16) -> u16
        ensures { result ≡ copied_by self edge }
    {
        let e = self.replaced(edge);
        e.wrapping_add(self.risen(e))
    }

    // A record as it stands in the copy, in a block.
    fn record(self, block: u8, r: Record) -> Record
        ensures { result ≡ in_block block (edges (copied_by self) r) }
    {
        Record {
            block,
            e1: self.edge(r.e1),
            e2: self.edge(r.e2),
            e3: self.edge(r.e3),
            ..r
        }
    }
}

// Copies the gates up to the given one, from the last down, to the places after `before` inserted gates, all into one block.
fn copy_gates(s: &mut [u8], inputs: usize, gate: u16, before: usize, from: u16, to: u16, block: u8)
    requires { Copyable inputs gate before from s.old }
    ensures { Copied inputs gate before from to block s.old s.new }
{
    let up = gate as usize + before - inputs - 1;
    // never so, but now the compiler knows it, and drops the tests in the loop
    if s.len() / 8 < gate as usize + up {
        return;
    }
    let copy = Copying::new(inputs, gate, before, from, to);
    for done in 0..gate as usize - inputs {
        let i = gate as usize - 1 - done;
        let r = record_at(s, i);
        put_record(s, i + up, copy.record(block, r));
    }
}

// The copies of a voter are put before the gate, which becomes the majority of their roots. They are made from the last down, so that
// the gate itself is copied before its place is taken.
#[tactic(auto, using(crate::proofs::VoterBytes::can_copy, crate::proofs::VoterBytes::found, crate::proofs::VoterBytes::small_copy))]
pub(crate) fn vote(s: &mut [u8], counts: Counts, gate: u16, a: u16, b: u16)
    requires { Votable s.old counts gate a b }
    ensures { s.new ≡ holding (voter_rule counts.inputs gate a b (table_in s.old counts)) s.old }
{
    let inputs = counts.inputs;
    let table = SoundTable { bytes: s, counts };
    let block = node_record(&table, gate).block;
    let c = pair_gate(&table, gate, a, b);
    let inverted = pair_in(true, a, b, node_record(&table, c));
    let to_a = edge_to(inverted, a);
    let to_b = edge_to(inverted, b);
    let not_a = edge_to(true, a);
    let k = gate as usize - inputs;
    make_room(s, records(counts), gate, 3 * k);
    copy_gates(s, inputs, gate, 2 * k, c, to_b, block);
    copy_gates(s, inputs, gate, k, c, to_a, block);
    copy_gates(s, inputs, gate, 0, b, not_a, block);
    let own = plain(gate);
    let first = Copying::new(inputs, gate, 0, b, not_a).edge(own);
    let second = Copying::new(inputs, gate, k, c, to_a).edge(own);
    let third = Copying::new(inputs, gate, 2 * k, c, to_b).edge(own);
    put_record(
        s,
        gate as usize - 1 + 3 * k,
        Record {
            kind: GATE,
            block,
            e1: first,
            e2: second,
            e3: third,
        },
    );
}
