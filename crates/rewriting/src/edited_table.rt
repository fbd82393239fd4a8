// An accepted table in lent bytes, on which steps are taken: it stays accepted.
ghost use Rattle.std.specs.Prelude.{◌≡◌, true, false, length, Ok};
ghost use Rattle.rules.specs.Step.{rule_of, is_sweep};
ghost use Rattle.tables.specs.Sound.{Sound, held};
ghost use Rattle.rewriting.specs.Script.{counts_at, counts_after};
ghost use Rattle.rewriting.specs.inner.Applied.{used_by};
ghost use Rattle.rewriting.specs.inner.Places.{Places, past_step};
ghost use Rattle.rewriting.specs.inner.Stepped.{Stepped};

use crate::applying::take;
use crate::following::{edit_places, sweep_places};
use crate::sweeping::number_left;
use majority::Counts;
use refusals::Refusal;
use rules::{Rule, Step, inserted};
use tables::SoundTable;

// The counts of a table of this used length, with the inputs and outputs of these.
fn counts_at(counts: Counts, used: usize) -> Counts
    ensures { result ≡ counts_at counts used }
{
    let nodes = (used / 8).saturating_sub(counts.inputs);
    Counts {
        gates: nodes.saturating_sub(counts.outputs),
        ..counts
    }
}

// The counts after a step that replied so.
fn counts_after(counts: Counts, reply: Result<usize, Refusal>) -> Counts
    ensures { result ≡ counts_after counts reply }
{
    match reply {
        Ok(used) => counts_at(counts, used),
        Err(_) => counts,
    }
}

// The table of these counts in lent bytes, which the check accepts after each step as before the first.
#[derive(Drop)]
pub(crate) struct EditedTable<'a> {
    bytes: &'a mut [u8],
    counts: Counts,
    ghost sound: { Sound bytes.now counts },
}

impl<'a> EditedTable<'a> {
    // Holds a table that was checked.
    pub(crate) fn hold(bytes: &'a mut [u8], counts: Counts) -> EditedTable<'a>
        requires { Sound bytes.old counts }
        ensures same_reference { result.bytes.ghost_name ≡ bytes.entry.ghost_name }
        ensures bytes { result.bytes.now ≡ bytes.old }
        ensures counts { result.counts ≡ counts }
    {
        EditedTable { bytes, counts }
    }

    pub(crate) fn used(&self) -> usize
        ensures { result ≡ used_by self.now.counts }
    {
        8 * (self.counts.inputs + self.counts.gates + self.counts.outputs)
    }

    fn table(&self) -> SoundTable<'_>
        ensures { result ≡ held self.now.bytes.now self.now.counts }
    {
        SoundTable {
            bytes: self.bytes,
            counts: self.counts,
        }
    }

    // Takes a step; replies the new used length, or the refusal.
    #[tactic(auto, using(crate::proofs::SoundAfterStep::sound_after))]
    pub(crate) fn take(&mut self, step: Step) -> Result<usize, Refusal>
        ensures same_reference { self.new.bytes.ghost_name ≡ self.old.bytes.ghost_name }
        ensures stepped { Stepped self.old.bytes.now self.old.counts step result self.new.bytes.now self.new.counts }
    {
        let reply = take(self.bytes, self.counts, step);
        self.counts = counts_after(self.counts, reply);
        reply
    }

    // Takes a step of a rule that is not sweep, and with it the places.
    #[tactic(auto, using(crate::proofs::FollowedPlaces::few_inserted, crate::proofs::FollowedPlaces::past_refused))]
    fn take_edit(&mut self, step: Step, rule: Rule, places: &mut [u16]) -> Result<usize, Refusal>
        requires within { Places self.old.counts.inputs self.old.counts.gates (length places.old) places.old }
        requires known { rule_of step.rule ≡ Ok rule }
        requires other { is_sweep rule ≡ false }
        ensures same_reference { self.new.bytes.ghost_name ≡ self.old.bytes.ghost_name }
        ensures stepped { Stepped self.old.bytes.now self.old.counts step result self.new.bytes.now self.new.counts }
        ensures places { places.new ≡ past_step self.old.bytes.now self.old.counts step (length places.old) places.old }
    {
        let more = inserted(self.counts.inputs, rule, step.gate);
        let used = self.take(step)?;
        edit_places(places, step.gate, more as u16, rule.is_inversion());
        Ok(used)
    }

    // Takes a step of sweep. The gates' new numbers are worked out before, of the table that is swept.
    #[tactic(auto, using(crate::proofs::FollowedPlaces::past_refused))]
    fn take_sweep(&mut self, step: Step, rule: Rule, places: &mut [u16]) -> Result<usize, Refusal>
        requires within { Places self.old.counts.inputs self.old.counts.gates (length places.old) places.old }
        requires known { rule_of step.rule ≡ Ok rule }
        requires sweep { is_sweep rule ≡ true }
        ensures same_reference { self.new.bytes.ghost_name ≡ self.old.bytes.ghost_name }
        ensures stepped { Stepped self.old.bytes.now self.old.counts step result self.new.bytes.now self.new.counts }
        ensures places { places.new ≡ past_step self.old.bytes.now self.old.counts step (length places.old) places.old }
    {
        let mut numbers = [0u16; 1057];
        number_left(&mut numbers, &self.table());
        let used = self.take(step)?;
        sweep_places(places, &numbers);
        Ok(used)
    }

    // Takes a step, and with it the places, where it is taken.
    #[tactic(auto, using(crate::proofs::FollowedPlaces::past_none, crate::proofs::FollowedPlaces::no_rule, crate::proofs::FollowedPlaces::no_rule_past))]
    pub(crate) fn take_followed(&mut self, step: Step, places: &mut [u16]) -> Result<usize, Refusal>
        requires { Places self.old.counts.inputs self.old.counts.gates (length places.old) places.old }
        ensures same_reference { self.new.bytes.ghost_name ≡ self.old.bytes.ghost_name }
        ensures stepped { Stepped self.old.bytes.now self.old.counts step result self.new.bytes.now self.new.counts }
        ensures places { places.new ≡ past_step self.old.bytes.now self.old.counts step (length places.old) places.old }
    {
        if places.is_empty() {
            return self.take(step);
        }
        let rule = Rule::try_from(step.rule)?;
        if rule.is_sweep() {
            return self.take_sweep(step, rule, places);
        }
        self.take_edit(step, rule, places)
    }
}
