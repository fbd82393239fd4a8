// One step on a table that was checked.
ghost use Rattle.std.specs.Prelude.{◌≡◌, ◌+◌, ◌*◌, ◌≤◌};
ghost use Rattle.tables.specs.Sound.{Sound};
ghost use Rattle.rewriting.specs.inner.Fitting.{Fitting};
ghost use Rattle.rewriting.specs.inner.Applied.{used_by, change_of, Rewritten, change_in, length_of};
ghost use Rattle.rewriting.specs.Calls.{after_reply, step_of, step_bytes};

use crate::changing::edit;
use crate::forms::has_form;
use crate::sweeping::sweep;
use majority::{Counts, MOST_GATES};
use refusals::Refusal;
use rules::{Rule, Step, fields_fit, inserted};
use tables::SoundTable;

// A step of a known rule.
#[derive(Clone, Copy, Debug, PartialEq, Eq)]
pub(crate) struct Change {
    pub(crate) rule: Rule,
    pub(crate) gate: u16,
    pub(crate) a: u16,
    pub(crate) b: u16,
}

#[tactic(auto, unfolding(crate::specs::inner::Applied::change_of))]
impl TryFrom<Step> for Change {
    type Error = Refusal;

    ghost try_from_gives = { λ step result. result ≡ change_of step };

    fn try_from(step: Step) -> Result<Self, Refusal> {
        let Step { rule, gate, a, b } = step;
        let rule = Rule::try_from(rule)?;
        Ok(Change { rule, gate, a, b })
    }
}

// The used length of a table that has the inputs and outputs of these counts, and so many gates.
fn used_length(counts: Counts, gates: usize) -> usize
    requires inputs { counts.inputs ≤ 32 }
    requires gates { gates ≤ 1024 }
    requires outputs { counts.outputs ≤ 32 }
    ensures { result ≡ 8 * (counts.inputs + gates + counts.outputs) }
{
    8 * (counts.inputs + gates + counts.outputs)
}

// Rewrites by a change that fits; answers the new used length.
#[tactic(auto, using(tables::proofs::Sound::sound_limits))]
fn rewrite(s: &mut [u8], counts: Counts, change: Change) -> usize
    requires { Fitting s.old counts change }
    ensures { Rewritten s.old counts change result s.new }
{
    if change.rule.is_sweep() {
        return used_length(counts, sweep(s, counts));
    }
    edit(s, counts, change);
    let more = inserted(counts.inputs, change.rule, change.gate);
    used_length(counts, counts.gates + more)
}

// Applies a change: refusals 8 to 11 in their order, or its edit; answers the new used length.
#[tactic(auto, using(crate::proofs::CheckedStep::refuse_8, crate::proofs::CheckedStep::refuse_9, crate::proofs::CheckedStep::refuse_10, tables::proofs::Decoded::length_table, crate::proofs::CheckedStep::refuse_11))]
fn apply(s: &mut [u8], counts: Counts, change: Change) -> Result<usize, Refusal>
    requires { Sound s.old counts }
    ensures reply { result ≡ length_of (change_in s.old counts change) }
    ensures bytes { s.new ≡ after_reply (change_in s.old counts change) (used_by counts) s.old }
{
    let Change { rule, gate, a, b } = change;
    if !fields_fit(counts, rule, gate, a, b) {
        return Err(Refusal::Field);
    }
    if !has_form(&SoundTable { bytes: s, counts }, change) {
        return Err(Refusal::Form);
    }
    let more = inserted(counts.inputs, rule, gate);
    if MOST_GATES < counts.gates + more {
        return Err(Refusal::Gates);
    }
    if s.len() < 8 * (counts.inputs + counts.gates + counts.outputs + more) {
        return Err(Refusal::Room);
    }
    Ok(rewrite(s, counts, change))
}

// Takes one step on a table that was checked; answers the new used length, or the refusal.
#[tactic(auto, using(crate::proofs::Replies::known_replies, crate::proofs::Replies::known_leaves, crate::proofs::Replies::unknown_replies, crate::proofs::Replies::unknown_leaves))]
pub(crate) fn take(s: &mut [u8], counts: Counts, step: Step) -> Result<usize, Refusal>
    requires { Sound s.old counts }
    ensures reply { result ≡ step_of s.old (used_by counts) step }
    ensures bytes { s.new ≡ step_bytes s.old (used_by counts) step }
{
    apply(s, counts, Change::try_from(step)?)
}
