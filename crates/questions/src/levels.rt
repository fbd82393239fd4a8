// The levels of a table's nodes, and its depth.
ghost use Rattle.std.specs.Prelude.{◌≡◌, ◌+◌, Ok};
ghost use Rattle.majority.specs.Edge.{node_of};
ghost use Rattle.majority.specs.Level.{levels as levels_of, depth as depth_of};
ghost use Rattle.tables.specs.Bytes.{records_of};
ghost use Rattle.questions.specs.Calls.{size_of};
ghost use Rattle.questions.specs.Levelled.{level_at, gate_level, levelled};
ghost use Rattle.questions.specs.inner.Worths.{Holds};

use crate::Size;
use majority::{Counts, Record, higher, node};
use std::num::wrapping_add_u16;
use tables::{SoundTable, record_at};

fn wide(level: u16) -> usize
    ensures { result ≡ level }
{
    level as usize
}

// The level of the node that an edge names, 0 where the array has no place for it.
#[tactic(auto, unfolding(crate::specs::Levelled::level_at))]
fn edge_level(levels: &[u16; 1057], edge: u16) -> u16
    ensures { result ≡ level_at levels.now (node_of edge) }
{
    let k = node(edge) as usize;
    if k < 1057 {
        return levels[k];
    }
    0
}

// The level of a gate.
#[tactic(auto, using(majority::proofs::Levels::above_by), unfolding(crate::specs::Levelled::gate_level))]
fn gate_level(levels: &[u16; 1057], gate: Record) -> u16
    ensures { result ≡ gate_level levels.now gate }
{
    let first = edge_level(levels, gate.e1);
    let second = edge_level(levels, gate.e2);
    let third = edge_level(levels, gate.e3);
    wrapping_add_u16(higher(first, higher(second, third)), 1)
}

// Sets the levels of the gates that are the records of s from `first` on, up to n, each from those of lower nodes.
// Where the array has no place for them nothing is set.
#[tactic(auto, using(crate::proofs::Levelled::levelled_next, crate::proofs::Levelled::levelled_end))]
pub fn set_levels(levels: &mut [u16; 1057], s: &[u8], first: usize, n: usize)
    ensures { levels.new ≡ levelled (records_of s.now) first n levels.old }
{
    if 1056 < n {
        return;
    }
    for i in first..n {
        levels[i + 1] = gate_level(levels, record_at(s, i));
    }
}

// The highest level of the nodes that outputs name, the levels of all nodes being set.
#[tactic(auto, using(crate::proofs::Worths::output_level_lem, majority::proofs::Levels::highest_more), unfolding(majority::specs::Level::highest, majority::specs::Level::depth))]
fn depth(levels: &[u16; 1057], table: &SoundTable<'_>) -> u16
    requires { Holds levels_of table.now.records (table.now.counts.inputs + table.now.counts.gates) levels.now }
    ensures { result ≡ depth_of table.now.counts.inputs table.now.counts.gates table.now.counts.outputs table.now.records }
{
    let mut highest: u16 = 0;
    for j in 0..table.counts().outputs {
        highest = higher(highest, edge_level(levels, table.output(j)));
    }
    highest
}

// The size and depth of an accepted table.
#[tactic(auto, using(crate::proofs::Levelled::levels_all, tables::proofs::Sound::fresh))]
pub(crate) fn size(table: &SoundTable<'_>) -> Size
    ensures { result ≡ size_of table.now.records table.now.counts }
{
    let Counts { inputs, gates, .. } = table.counts();
    let mut levels = [0u16; 1057];
    set_levels(&mut levels, table.bytes, inputs, inputs + gates);
    Size {
        gates,
        depth: wide(depth(&levels, table)),
    }
}
