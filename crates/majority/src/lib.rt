// What a table means: its record and its edges, by value. The definitions that the contracts cite are in specs/.
#![tactic(auto)]

ghost use Rattle.std.specs.Prelude.{◌≡◌, max};
ghost use Rattle.majority.specs.Edge.{node_of, is_inverted, flip, redirect};
ghost use Rattle.majority.specs.Value.{majority_of};

// A record of a table: its kind, its block and its three fields.
#[derive(Clone, Copy, Debug, PartialEq, Eq)]
pub struct Record {
    pub kind: u8,
    pub block: u8,
    pub e1: u16,
    pub e2: u16,
    pub e3: u16,
}

impl Record {
    // A record of no kind, which stands for what is past the end of a table.
    pub const BLANK: Record = Record {
        kind: 0,
        block: 0,
        e1: 0,
        e2: 0,
        e3: 0,
    };
}

// How many inputs, gates and outputs a table has.
#[derive(Clone, Copy, Debug, PartialEq, Eq)]
pub struct Counts {
    pub inputs: usize,
    pub gates: usize,
    pub outputs: usize,
}

// The kinds of records.
pub const INPUT: u8 = 1;

pub const GATE: u8 = 2;

pub const OUTPUT: u8 = 3;

// The most inputs, gates and outputs that a table may have, and the most nodes: the constant, the inputs and the gates.
pub const MOST_INPUTS: usize = 32;

pub const MOST_GATES: usize = 1024;

pub const MOST_OUTPUTS: usize = 32;

pub const MOST_NODES: usize = 1057;

// The node that an edge names.
pub fn node(edge: u16) -> u16
    ensures { result ≡ node_of edge }
{
    edge / 2
}

pub fn inverted(edge: u16) -> bool
    ensures { result ≡ is_inverted edge }
{
    edge % 2 == 1
}

// The edge to the same node, inverted where the given one is not.
#[tactic(auto, unfolding(crate::specs::Edge::flip))]
pub fn flipped(edge: u16) -> u16
    ensures { result ≡ flip edge }
{
    2 * (edge / 2) + (1 - edge % 2)
}

// What an edge becomes where the node from is redirected to the edge to.
#[tactic(auto, unfolding(crate::specs::Edge::redirect))]
pub fn redirected(from: u16, to: u16, edge: u16) -> u16
    ensures { result ≡ redirect from to edge }
{
    if node(edge) == from {
        if inverted(edge) {
            return flipped(to);
        }
        return to;
    }
    edge
}

// A gate's value.
#[tactic(auto, unfolding(crate::specs::Value::majority_of))]
pub fn majority(a: bool, b: bool, c: bool) -> bool
    ensures { result ≡ majority_of a b c }
{
    (a & b) | (a & c) | (b & c)
}

// The higher of two levels.
pub fn higher(a: u16, b: u16) -> u16
    ensures { result ≡ max a b }
{
    if a < b { b } else { a }
}
