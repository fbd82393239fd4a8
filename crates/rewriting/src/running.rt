// A script on a table that was checked.
ghost use Rattle.std.specs.Prelude.{◌≡◌, ◌≤◌, length, IfOk};
ghost use Rattle.tables.specs.Sound.{Sound};
ghost use Rattle.rewriting.specs.inner.Applied.{used_by};
ghost use Rattle.rewriting.specs.inner.Asked.{asked_script, asked_follow};
ghost use Rattle.rewriting.specs.inner.Places.{Places};
ghost use Rattle.rewriting.specs.Through.{through_steps};
ghost use Rattle.rewriting.specs.Follow.{followed_places};
ghost use Rattle.rewriting.specs.Script.{step_at, steps_of, run_from, run_of};

use crate::Progress;
use crate::edited_table::EditedTable;
use majority::Counts;
use refusals::Refusal;
use rules::Step;
use tables::{check, field_of};

// The counts of the table in the first used bytes, where a script of these steps may begin on it.
#[tactic(auto, unfolding(crate::specs::inner::Asked::asked_script))]
pub(crate) fn ask_script(s: &[u8], used: usize, steps: &[u8]) -> Result<Counts, Refusal>
    ensures reply { result ≡ asked_script s.now used steps.now }
    ensures sound { IfOk result (λ c. Sound s.now c) }
{
    let counts = check(s, used)?;
    if steps.len() % 8 != 0 {
        return Err(Refusal::Script);
    }
    Ok(counts)
}

// The same where so many places are lent for its gates.
#[tactic(auto, unfolding(crate::specs::inner::Asked::asked_follow))]
pub(crate) fn ask_follow(
    s: &[u8],
    used: usize,
    steps: &[u8],
    places: usize,
) -> Result<Counts, Refusal>
    ensures reply { result ≡ asked_follow s.now used steps.now places }
    ensures sound { IfOk result (λ c. Sound s.now c) }
    ensures room { IfOk result (λ c. c.gates ≤ places) }
{
    let counts = ask_script(s, used, steps)?;
    if places < counts.gates {
        return Err(Refusal::Room);
    }
    Ok(counts)
}

// Step i of a script.
fn step_at(steps: &[u8], i: usize) -> Step
    ensures { result ≡ step_at steps.now i }
{
    Step {
        rule: field_of(steps, i, 0),
        gate: field_of(steps, i, 1),
        a: field_of(steps, i, 2),
        b: field_of(steps, i, 3),
    }
}

// Takes the steps until one is refused, and with each the places.
#[tactic(auto, using(crate::proofs::ScriptTurns::steps_end, crate::proofs::ThroughSteps::through_end))]
pub(crate) fn run(table: &mut EditedTable<'_>, steps: &[u8], places: &mut [u16]) -> Progress
    requires { Places table.old.counts.inputs table.old.counts.gates (length places.old) places.old }
    ensures same_reference { table.new.bytes.ghost_name ≡ table.old.bytes.ghost_name }
    ensures reply { run_of result table.new.bytes.now ≡ run_from 0 table.old.bytes.now (used_by table.old.counts) (steps_of steps.now) }
    ensures places { places.new ≡ through_steps (followed_places table.old.counts.inputs (length places.old)) table.old.bytes.now (used_by table.old.counts) (steps_of steps.now) places.old }
{
    let mut progress = Progress {
        taken: 0,
        used: table.used(),
        refusal: None,
    };
    let n = steps.len() / 8;
    let mut i = 0;
    let done = loop {
        if n <= i {
            break progress;
        }
        let reply = table.take_followed(step_at(steps, i), places);
        progress = progress.after(reply);
        if progress.refusal.is_some() {
            break progress;
        }
        i += 1;
    };
    done
}
