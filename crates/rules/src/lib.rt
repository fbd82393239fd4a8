// What a rule asks for and makes, by value: the fields that a step may have, the form of its gate, and the gates and edges that it makes.
#![tactic(auto)]

mod fields;
mod forms;
mod gates;

ghost use Rattle.std.specs.Prelude.{◌≡◌};
ghost use Rattle.rules.specs.Step.{rule_of, is_sweep, is_inversion};

pub use fields::{Asked, fields_fit, inserted};
pub use forms::{
    associativity_form, both_among, inward_form, majority_form, opposite_form, outward_form,
    plain_gate, share_form,
};
pub use gates::{
    associativity_gate, associativity_new, exchanged, inverted_gate, inward_gate, inward_new,
    outward_first, outward_gate, outward_second,
};
use refusals::Refusal;

// A step: the number of its rule, and its three fields.
#[derive(Clone, Copy, Debug, PartialEq, Eq)]
pub struct Step {
    pub rule: u16,
    pub gate: u16,
    pub a: u16,
    pub b: u16,
}

// The rules, in the order of their numbers.
#[derive(Clone, Copy, Debug, PartialEq, Eq)]
pub enum Rule {
    Exchange,
    Majority,
    Associativity,
    Outward,
    Inward,
    Inversion,
    Share,
    Sweep,
    Voter,
    Opposite,
}

// The rule that has a number.
#[tactic(auto, unfolding(crate::specs::Step::rule_of))]
impl TryFrom<u16> for Rule {
    type Error = Refusal;

    ghost try_from_gives = { λ number result. result ≡ rule_of number };

    fn try_from(number: u16) -> Result<Self, Refusal> {
        match number {
            1 => Ok(Rule::Exchange),
            2 => Ok(Rule::Majority),
            3 => Ok(Rule::Associativity),
            4 => Ok(Rule::Outward),
            5 => Ok(Rule::Inward),
            6 => Ok(Rule::Inversion),
            7 => Ok(Rule::Share),
            8 => Ok(Rule::Sweep),
            9 => Ok(Rule::Voter),
            10 => Ok(Rule::Opposite),
            _ => Err(Refusal::Rule),
        }
    }
}

impl Rule {
    // The one rule that names no gate.
    pub fn is_sweep(self) -> bool
        ensures { result ≡ is_sweep self }
    {
        self == Rule::Sweep
    }

    // The one rule that inverts a gate.
    pub fn is_inversion(self) -> bool
        ensures { result ≡ is_inversion self }
    {
        self == Rule::Inversion
    }
}
