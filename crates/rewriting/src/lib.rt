// Steps and scripts on a table in a lent slice.
#![tactic(auto)]

mod applying;
mod changing;
mod edited_table;
mod following;
mod forms;
mod nodes;
mod running;
mod sweeping;
mod voting;

ghost use Rattle.std.specs.Prelude.{◌≡◌, ◌<◌, length};
ghost use Rattle.rewriting.specs.Calls.{step_of, step_bytes};
ghost use Rattle.rewriting.specs.Script.{stopped_by, progress_after, run_of, script_run};
ghost use Rattle.rewriting.specs.Follow.{follow_run, places_after};

use edited_table::EditedTable;
use following::start;
use refusals::Refusal;
use rules::Step;
use running::{ask_follow, ask_script, run};
use tables::check;

// How far a script has come: the steps taken, the used length, and the refusal that stopped it, if one did.
#[derive(Clone, Copy, Debug, PartialEq, Eq)]
pub struct Progress {
    pub taken: usize,
    pub used: usize,
    pub refusal: Option<Refusal>,
}

impl Progress {
    // The progress of a script of which no step was taken.
    fn stopped(used: usize, by: Refusal) -> Progress
        ensures { result ≡ stopped_by used by }
    {
        Progress {
            taken: 0,
            used,
            refusal: Some(by),
        }
    }

    // The progress after one step more: its count and used length, or its refusal.
    pub(crate) fn after(self, outcome: Result<usize, Refusal>) -> Progress
        requires { self.taken < 18446744073709551615 }
        ensures { result ≡ progress_after self outcome }
    {
        match outcome {
            Ok(used) => Progress {
                taken: self.taken + 1,
                used,
                refusal: None,
            },
            Err(refusal) => Progress {
                refusal: Some(refusal),
                ..self
            },
        }
    }
}

// Applies one step to the table in the first used bytes of s, and replies the new used length.
#[tactic(auto, using(crate::proofs::Replies::accepted_replies, crate::proofs::Replies::accepted_leaves, crate::proofs::Replies::refused_replies, crate::proofs::Replies::refused_leaves))]
pub fn step(s: &mut [u8], used: usize, step: Step) -> Result<usize, Refusal>
    ensures reply { result ≡ step_of s.old used step }
    ensures bytes { s.new ≡ step_bytes s.old used step }
{
    let counts = check(s, used)?;
    EditedTable::hold(s, counts).take(step)
}

// Takes the steps of a script in order until one is refused. The table is checked once.
#[tactic(auto, using(crate::proofs::Scripts::script_runs, crate::proofs::Scripts::script_refused))]
pub fn script(s: &mut [u8], used: usize, steps: &[u8]) -> Progress
    ensures { run_of result s.new ≡ script_run s.old used steps.now }
{
    match ask_script(s, used, steps) {
        Ok(counts) => {
            let mut none = [0u16; 0];
            run(&mut EditedTable::hold(s, counts), steps, &mut none)
        }
        Err(refusal) => Progress::stopped(used, refusal),
    }
}

// Takes the steps of a script as `script` does, and leaves in the place of each gate of the first table the edge that has its first value then, or 0
// where it was swept away.
#[tactic(auto, using(crate::proofs::Follows::follow_runs, crate::proofs::Follows::follow_refused))]
pub fn follow(s: &mut [u8], used: usize, steps: &[u8], places: &mut [u16]) -> Progress
    ensures run { run_of result s.new ≡ follow_run s.old used steps.now (length places.old) }
    ensures places { places.new ≡ places_after s.old used steps.now places.old }
{
    match ask_follow(s, used, steps, places.len()) {
        Ok(counts) => {
            let followed = &mut places[..counts.gates];
            start(followed, counts.inputs);
            run(&mut EditedTable::hold(s, counts), steps, followed)
        }
        Err(why) => Progress::stopped(used, why),
    }
}
