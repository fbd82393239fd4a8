// The fields that a step's rule allows.
ghost use Rattle.std.specs.Prelude.{◌≡◌, ◌-◌, ◌*◌};
ghost use Rattle.rules.specs.Step.{is_gate, gate_fits, asked_of, pair_fits, fields_fit, inserted_of, inserted as inserted_by};

use crate::Rule;
use majority::Counts;

// What a rule may ask of the fields a and b: a to be 0, 1 or 2, or a gate below the gate field, and b 0; or a and b to be nodes in rising order
// below the gate field.
#[derive(Clone, Copy)]
pub enum Asked {
    Zero,
    OneOrTwo,
    LowerGate,
    LowerPair,
}

impl Asked {
    fn by(rule: Rule) -> Asked
        ensures { result ≡ asked_of rule }
    {
        match rule {
            Rule::Exchange => Asked::OneOrTwo,
            Rule::Share => Asked::LowerGate,
            Rule::Voter => Asked::LowerPair,
            _ => Asked::Zero,
        }
    }

    // The fields a and b are what is asked.
    fn fits(self, counts: Counts, gate: u16, a: u16, b: u16) -> bool
        ensures { result ≡ pair_fits counts.inputs counts.gates self gate a b }
    {
        match self {
            Asked::Zero => (a == 0) & (b == 0),
            Asked::OneOrTwo => ((a == 1) | (a == 2)) & (b == 0),
            Asked::LowerGate => is_gate(counts, a) & (a < gate) & (b == 0),
            Asked::LowerPair => (0 < a) & (a < b) & (b < gate),
        }
    }
}

// Node k is a gate of a table with these counts.
fn is_gate(counts: Counts, k: u16) -> bool
    ensures { result ≡ is_gate counts.inputs counts.gates k }
{
    let node = usize::from(k);
    counts.inputs < node && node - counts.inputs <= counts.gates
}

// The gate field is a gate, for sweep 0.
fn gate_fits(counts: Counts, rule: Rule, gate: u16) -> bool
    ensures { result ≡ gate_fits counts.inputs counts.gates rule gate }
{
    if rule.is_sweep() {
        return gate == 0;
    }
    is_gate(counts, gate)
}

// The fields are those that the rule allows.
#[tactic(auto, unfolding(crate::specs::Step::fields_fit))]
pub fn fields_fit(counts: Counts, rule: Rule, gate: u16, a: u16, b: u16) -> bool
    ensures { result ≡ fields_fit counts.inputs counts.gates rule gate a b }
{
    gate_fits(counts, rule, gate) & Asked::by(rule).fits(counts, gate, a, b)
}

// Thrice the gates from the first up to a node, among so many inputs.
fn thrice_upto(inputs: usize, node: u16) -> usize
    ensures { result ≡ 3 * (node - inputs) }
{
    3 * usize::from(node).saturating_sub(inputs)
}

// How many gates the rule inserts, where `copied` is thrice the gates from the first up to its own.
fn inserted_of(rule: Rule, copied: usize) -> usize
    ensures { result ≡ inserted_of rule copied }
{
    match rule {
        Rule::Associativity | Rule::Inward => 1,
        Rule::Outward => 2,
        Rule::Voter => copied,
        _ => 0,
    }
}

// How many gates the rule inserts before a gate, among so many inputs.
pub fn inserted(inputs: usize, rule: Rule, gate: u16) -> usize
    ensures { result ≡ inserted_by inputs rule gate }
{
    inserted_of(rule, thrice_upto(inputs, gate))
}
