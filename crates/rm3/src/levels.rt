// The depth of the RM3 table, without writing it.
ghost use Rattle.std.specs.Prelude.{◌≡◌, ◌+◌, ◌≤◌, ◌<◌, if◌then◌else◌};
ghost use Rattle.majority.specs.Edge.{node_of};
ghost use Rattle.majority.specs.Table.{Below};
ghost use Rattle.translation.specs.Level3.{gate_level};
ghost use Rattle.tables.specs.Sound.{Fresh};
ghost use Rattle.rm3.specs.Calls.{depth_in};
ghost use Rattle.rm3.specs.inner.Levelled.{level_in, Levelled};

use majority::{Record, higher, node};
use tables::SoundTable;
use translation::{output_helped, pattern_of};

// The level of an edge's operand: that of its node's, and one more where the edge has a helper.
fn edge_level(levels: &[u16; 1057], edge: u16, helped: bool) -> u16
    requires { (node_of edge < 1057) × (level_in levels.now (node_of edge) + (if helped then 1 else 0) ≤ 4000) }
    ensures { result ≡ level_in levels.now (node_of edge) + (if helped then 1 else 0) }
{
    levels[node(edge) as usize] + helped as u16
}

// The level of a gate's operation.
#[tactic(auto, using(crate::proofs::LevelPass::edges_below, majority::proofs::Levels::above_by), unfolding(translation::specs::Patterns::pattern_by, translation::specs::Level3::gate_level))]
fn gate_level(levels: &[u16; 1057], gate: Record) -> u16
    requires { Below 1057 gate × (gate_level (level_in levels.now) gate ≤ 4000) }
    ensures { result ≡ gate_level (level_in levels.now) gate }
{
    let p = pattern_of(gate);
    let first = edge_level(levels, gate.e1, p.first);
    let second = edge_level(levels, gate.e2, p.second);
    let third = edge_level(levels, gate.e3, p.third);
    higher(first, higher(second, third)) + 1
}

// Sets the levels of the gates' operations, all levels being 0.
#[tactic(auto, using(crate::proofs::LevelPass::levelled_start, crate::proofs::LevelPass::level_small))]
fn set_levels(levels: &mut [u16; 1057], table: &SoundTable<'_>)
    requires { Fresh 0 levels.old }
    ensures { Levelled table.now.counts table.now.records (table.now.counts.inputs + table.now.counts.gates) levels.new }
{
    let counts = table.counts();
    for i in counts.inputs..counts.inputs + counts.gates {
        levels[i + 1] = gate_level(levels, table.record(i));
    }
}

// The highest level of the operands that outputs name, the levels of all nodes' operands being set.
#[tactic(auto, using(crate::proofs::LevelPass::output_small, crate::proofs::LevelPass::output_found, majority::proofs::Levels::highest_more), unfolding(majority::specs::Level::highest, translation::specs::Rm3::depth3))]
fn output_depth(levels: &[u16; 1057], table: &SoundTable<'_>) -> u16
    requires { Levelled table.now.counts table.now.records (table.now.counts.inputs + table.now.counts.gates) levels.now }
    ensures { result ≡ depth_in table.now.records table.now.counts }
{
    let mut highest: u16 = 0;
    for j in 0..table.counts().outputs {
        let edge = table.output(j);
        highest = higher(highest, edge_level(levels, edge, output_helped(edge)));
    }
    highest
}

// The depth of the RM3 table.
pub(crate) fn depth(table: &SoundTable<'_>) -> u16
    ensures { result ≡ depth_in table.now.records table.now.counts }
{
    let mut levels = [0u16; 1057];
    set_levels(&mut levels, table);
    output_depth(&levels, table)
}
