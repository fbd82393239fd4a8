// The form that each rule asks of its gate r. The rules that ask for none are exchange, inversion and sweep.
ghost use Rattle.std.specs.Prelude.{◌≡◌, ◌&&◌};
ghost use Rattle.rules.specs.Rules.{plain_gate, majority_form, associativity_form, outward_form, inward_form, share_form, opposite_form};
ghost use Rattle.rules.specs.Voter.{among};

use majority::{Record, flipped, inverted, node};

// Among so many inputs, the edge names a gate and is not inverted.
pub fn plain_gate(inputs: usize, edge: u16) -> bool
    ensures { result ≡ plain_gate inputs edge }
{
    !inverted(edge) & (inputs < usize::from(node(edge)))
}

#[tactic(auto, unfolding(crate::specs::Rules::majority_form))]
pub fn majority_form(r: Record) -> bool
    ensures { result ≡ majority_form r }
{
    r.e2 == r.e1
}

// h is what the third edge names.
#[tactic(auto, unfolding(crate::specs::Rules::associativity_form))]
pub fn associativity_form(inputs: usize, r: Record, h: Record) -> bool
    ensures { result ≡ associativity_form inputs r h }
{
    plain_gate(inputs, r.e3) & (h.e2 == r.e2)
}

#[tactic(auto, unfolding(crate::specs::Rules::outward_form))]
pub fn outward_form(inputs: usize, r: Record) -> bool
    ensures { result ≡ outward_form inputs r }
{
    plain_gate(inputs, r.e3)
}

// p and q are what the first two edges name.
#[tactic(auto, unfolding(crate::specs::Rules::inward_form))]
pub fn inward_form(inputs: usize, r: Record, p: Record, q: Record) -> bool
    ensures { result ≡ inward_form inputs r p q }
{
    plain_gate(inputs, r.e1) & plain_gate(inputs, r.e2) & (q.e1 == p.e1) & (q.e2 == p.e2)
}

#[tactic(auto, unfolding(crate::specs::Rules::share_form))]
pub fn share_form(r: Record, other: Record) -> bool
    ensures { result ≡ share_form r other }
{
    (other.block == r.block) & (other.e1 == r.e1) & (other.e2 == r.e2) & (other.e3 == r.e3)
}

#[tactic(auto, unfolding(crate::specs::Rules::opposite_form))]
pub fn opposite_form(r: Record) -> bool
    ensures { result ≡ opposite_form r }
{
    r.e2 == flipped(r.e1)
}

// Both edges are among the record's.
#[tactic(auto, unfolding(crate::specs::Voter::among))]
pub fn both_among(x: u16, y: u16, r: Record) -> bool
    ensures { result ≡ (among x r && among y r) }
{
    let first = (r.e1 == x) | (r.e2 == x) | (r.e3 == x);
    let second = (r.e1 == y) | (r.e2 == y) | (r.e3 == y);
    first & second
}
