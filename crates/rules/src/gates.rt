// The gates and edges that the rules make of a gate r and of what its edges name. Each has r's block.
ghost use Rattle.std.specs.Prelude.{◌≡◌};
ghost use Rattle.majority.specs.Edge.{flip};
ghost use Rattle.majority.specs.Table.{gate};
ghost use Rattle.majority.specs.Edit.{edges};
ghost use Rattle.rules.specs.Rules.{exchanged as exchanged_gate};

use majority::{GATE, Record, flipped};

fn gate_of(block: u8, x: u16, y: u16, z: u16) -> Record
    ensures { result ≡ gate block x y z }
{
    Record {
        kind: GATE,
        block,
        e1: x,
        e2: y,
        e3: z,
    }
}

// The gate with its first edge exchanged with the second, where a is 1, or with the third.
pub fn exchanged(a: u16, r: Record) -> Record
    ensures { result ≡ exchanged_gate a r }
{
    if a == 1 {
        return gate_of(r.block, r.e2, r.e1, r.e3);
    }
    gate_of(r.block, r.e3, r.e2, r.e1)
}

// Associativity, r being (x, u, h) and h being (y, u, z): the gate (y, u, x) that is inserted.
pub fn associativity_new(r: Record, h: Record) -> Record
    ensures { result ≡ gate r.block h.e1 r.e2 r.e1 }
{
    gate_of(r.block, h.e1, r.e2, r.e1)
}

// And the gate (z, u, new) that r becomes.
pub fn associativity_gate(r: Record, h: Record, new: u16) -> Record
    ensures { result ≡ gate r.block h.e3 r.e2 new }
{
    gate_of(r.block, h.e3, r.e2, new)
}

// Distributivity outward, r being (x, y, h) and h being (u, v, z): the gate p = (x, y, u) that is inserted first.
pub fn outward_first(r: Record, h: Record) -> Record
    ensures { result ≡ gate r.block r.e1 r.e2 h.e1 }
{
    gate_of(r.block, r.e1, r.e2, h.e1)
}

// The gate q = (x, y, v) that is inserted second.
pub fn outward_second(r: Record, h: Record) -> Record
    ensures { result ≡ gate r.block r.e1 r.e2 h.e2 }
{
    gate_of(r.block, r.e1, r.e2, h.e2)
}

// And the gate (p, q, z) that r becomes.
pub fn outward_gate(r: Record, p: u16, q: u16, h: Record) -> Record
    ensures { result ≡ gate r.block p q h.e3 }
{
    gate_of(r.block, p, q, h.e3)
}

// Distributivity inward, r being (p, q, z), p being (x, y, u) and q being (x, y, v): the gate (u, v, z) that is inserted.
pub fn inward_new(r: Record, p: Record, q: Record) -> Record
    ensures { result ≡ gate r.block p.e3 q.e3 r.e3 }
{
    gate_of(r.block, p.e3, q.e3, r.e3)
}

// And the gate (x, y, new) that r becomes.
pub fn inward_gate(r: Record, p: Record, new: u16) -> Record
    ensures { result ≡ gate r.block p.e1 p.e2 new }
{
    gate_of(r.block, p.e1, p.e2, new)
}

// The gate with its three edges inverted.
pub fn inverted_gate(r: Record) -> Record
    ensures { result ≡ edges flip r }
{
    Record {
        e1: flipped(r.e1),
        e2: flipped(r.e2),
        e3: flipped(r.e3),
        ..r
    }
}
