// The records of the nodes of an accepted table.
ghost use Rattle.std.specs.Prelude.{◌≡◌, ◌+◌, ◌-◌, ◌≤◌};
ghost use Rattle.majority.specs.Edit.{node_record};
ghost use Rattle.rules.specs.Rules.{named, plain as plain_edge};

use majority::{Counts, Record, node};
use tables::SoundTable;

// Where a node's record stands. The constant has none; its place is that of the first.
pub(crate) fn place(k: u16) -> usize
    ensures { result ≡ k - 1 }
{
    usize::from(k).saturating_sub(1)
}

// The record of a node.
pub(crate) fn node_record(table: &SoundTable<'_>, k: u16) -> Record
    ensures { result ≡ node_record table.now.records k }
{
    table.record(place(k))
}

// The record of the node that an edge names.
pub(crate) fn named_record(table: &SoundTable<'_>, edge: u16) -> Record
    ensures { result ≡ named table.now.records edge }
{
    node_record(table, node(edge))
}

// The uninverted edge to a node.
pub(crate) fn plain(k: u16) -> u16
    requires { k ≤ 1057 }
    ensures { result ≡ plain_edge k }
{
    2 * k
}

// How many records a table has.
pub(crate) fn records(counts: Counts) -> usize
    requires { counts.inputs + counts.gates + counts.outputs ≤ 1088 }
    ensures { result ≡ counts.inputs + counts.gates + counts.outputs }
{
    counts.inputs + counts.gates + counts.outputs
}
