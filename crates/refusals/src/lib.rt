// Why a call is refused.
#![tactic(auto)]

ghost use Rattle.std.specs.Prelude.{◌≡◌, Some};
ghost use Rattle.refusals.specs.Why.{refusal_number, refusal_record, refusal_edge};
ghost use Rattle.refusals.specs.Shown.{shown};

use std::error::Error;
use std::fmt;

// The refusals, in the order of their numbers. What one holds is the number of a record, counted from 0, and the last also which of its edges, counted from 1.
#[derive(Clone, Copy, Debug, PartialEq, Eq)]
pub enum Refusal {
    Length,
    Kind(usize),
    Count,
    NotZero(usize),
    Edge(usize, u32),
    Assignment,
    Rule,
    Field,
    Form,
    Gates,
    Room,
    Script,
    Inputs,
    Function,
}

impl Refusal {
    pub fn number(self) -> u32
        ensures { result ≡ refusal_number self }
    {
        match self {
            Refusal::Length => 1,
            Refusal::Kind(_) => 2,
            Refusal::Count => 3,
            Refusal::NotZero(_) => 4,
            Refusal::Edge(_, _) => 5,
            Refusal::Assignment => 6,
            Refusal::Rule => 7,
            Refusal::Field => 8,
            Refusal::Form => 9,
            Refusal::Gates => 10,
            Refusal::Room => 11,
            Refusal::Script => 12,
            Refusal::Inputs => 15,
            Refusal::Function => 17,
        }
    }

    // The record that a refusal carries, 0 where it carries none.
    pub fn record(self) -> usize
        ensures { result ≡ refusal_record self }
    {
        match self {
            Refusal::Kind(i) | Refusal::NotZero(i) | Refusal::Edge(i, _) => i,
            _ => 0,
        }
    }

    // The edge of that record that a refusal carries, 0 where it carries none.
    pub fn edge(self) -> u32
        ensures { result ≡ refusal_edge self }
    {
        match self {
            Refusal::Edge(_, edge) => edge,
            _ => 0,
        }
    }
}

// A refusal as people read it: its number, the record that it carries, and which edge of it.
impl fmt::Display for Refusal {
    ghost output = { λ r. Some (shown r) };

    fn fmt<W: fmt::Write>(&self, f: &mut fmt::Formatter<W>) -> fmt::Result {
        write!(
            f,
            "refused {} at {} {}",
            self.number(),
            self.record(),
            self.edge()
        )
    }
}

impl Error for Refusal {}
