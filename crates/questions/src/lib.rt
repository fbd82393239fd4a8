// What a table in lent bytes answers: its outputs' number under an assignment, its size and its depth.
#![tactic(auto)]

mod levels;
mod values;

ghost use Rattle.std.specs.Prelude.{◌≡◌};
ghost use Rattle.questions.specs.Calls.{evaluate_of, report_of};
ghost use Rattle.questions.specs.Claimed.{claimed_evaluate, claimed_report};

pub use levels::set_levels;
use levels::size;
use majority::Counts;
use refusals::Refusal;
use tables::SoundTable;
use values::value;

// A table's size, the number of its gates, and its depth.
#[derive(Clone, Copy, Debug, PartialEq, Eq)]
pub struct Size {
    pub gates: usize,
    pub depth: usize,
}

// The outputs' number of the table in the first used bytes, under an assignment: bit j is output j, counted from 0.
#[tactic(auto, unfolding(crate::specs::Calls::evaluate_of))]
pub fn evaluate(s: &[u8], used: usize, assignment: u32) -> Result<u32, Refusal>
    ensures { result ≡ evaluate_of s.now used assignment }
{
    value(&SoundTable::checked(s, used)?, assignment)
}

// Its size and depth.
#[tactic(auto, unfolding(crate::specs::Calls::report_of))]
pub fn report(s: &[u8], used: usize) -> Result<Size, Refusal>
    ensures { result ≡ report_of s.now used }
{
    Ok(size(&SoundTable::checked(s, used)?))
}

// The same of all bytes, whose counts are claimed.
#[tactic(auto, unfolding(crate::specs::Claimed::claimed_evaluate))]
pub fn evaluate_as(s: &[u8], claim: Counts, assignment: u32) -> Result<u32, Refusal>
    ensures { result ≡ claimed_evaluate s.now claim assignment }
{
    value(&SoundTable::claimed(s, claim)?, assignment)
}

#[tactic(auto, unfolding(crate::specs::Claimed::claimed_report))]
pub fn report_as(s: &[u8], claim: Counts) -> Result<Size, Refusal>
    ensures { result ≡ claimed_report s.now claim }
{
    Ok(size(&SoundTable::claimed(s, claim)?))
}
