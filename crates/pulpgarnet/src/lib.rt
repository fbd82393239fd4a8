// Every call as C has it (include/pulpgarnet.h). The crate pulpgarnet_c makes the archive of them.
#![tactic(auto)]

mod replies;

ghost use Rattle.std.specs.Prelude.{◌≡◌, length};
ghost use Rattle.tables.specs.Calls.{check_of};
ghost use Rattle.questions.specs.Calls.{evaluate_of, report_of};
ghost use Rattle.questions.specs.Claimed.{claimed_evaluate, claimed_report};
ghost use Rattle.reading.specs.Held.{claim};
ghost use Rattle.rules.specs.Step.{step_with};
ghost use Rattle.rewriting.specs.Calls.{step_of, step_bytes};
ghost use Rattle.rewriting.specs.Script.{script_run};
ghost use Rattle.rewriting.specs.Follow.{follow_run, places_after};
ghost use Rattle.translation.specs.declared.Mode.TheVariants.{Anew, Once};
ghost use Rattle.rm3.specs.Calls.{translate_of, translate_bytes, depth_of};
ghost use Rattle.catalogue.specs.Calls.{catalogue_of, catalogue_bytes};
ghost use Rattle.words.specs.Calls.{words_of, words_places, totals_of, totals_places};
ghost use Rattle.pulpgarnet.specs.Replies.{checked_reply, valued_reply, reported_reply, placed_reply, stepped_reply, ran_reply, written_reply, deep_reply};

use majority::Counts;
use reading::Reading;
pub use replies::{Checked, Deep, Placed, Ran, Reported, Stepped, Valued, Written};
use rules::Step;
use translation::Mode;

// Whether the first used bytes hold a table: its counts.
#[unsafe(no_mangle)]
pub extern "C" fn pulpgarnet_check(table: &[u8], used: usize) -> Checked
    ensures { result ≡ checked_reply (check_of table.now used) }
{
    Checked::from(tables::check(table, used))
}

// The outputs' number under an assignment.
#[unsafe(no_mangle)]
pub extern "C" fn pulpgarnet_evaluate(table: &[u8], used: usize, assignment: u32) -> Valued
    ensures { result ≡ valued_reply (evaluate_of table.now used assignment) }
{
    Valued::from(questions::evaluate(table, used, assignment))
}

// Size and depth.
#[unsafe(no_mangle)]
pub extern "C" fn pulpgarnet_report(table: &[u8], used: usize) -> Reported
    ensures { result ≡ reported_reply (report_of table.now used) }
{
    Reported::from(questions::report(table, used))
}

// The outputs' words from the assignment `first` on, to the first places: how many were written.
#[unsafe(no_mangle)]
pub extern "C" fn pulpgarnet_words(
    table: &[u8],
    used: usize,
    first: u32,
    places: &mut [u64],
) -> Placed
    ensures reply { result ≡ placed_reply (words_of table.now used first (length places.old)) }
    ensures places { places.new ≡ words_places table.now used first places.old }
{
    Placed::from(words::words(table, used, first, places))
}

// The outputs' totals over all assignments, to the first places: how many were written.
#[unsafe(no_mangle)]
pub extern "C" fn pulpgarnet_totals(table: &[u8], used: usize, places: &mut [u64]) -> Placed
    ensures reply { result ≡ placed_reply (totals_of table.now used (length places.old)) }
    ensures places { places.new ≡ totals_places table.now used places.old }
{
    Placed::from(words::totals(table, used, places))
}

// One step: the new used length.
#[unsafe(no_mangle)]
pub extern "C" fn pulpgarnet_step(
    table: &mut [u8],
    used: usize,
    rule: u16,
    gate: u16,
    a: u16,
    b: u16,
) -> Stepped
    ensures reply { result ≡ stepped_reply (step_of table.old used (step_with rule gate a b)) }
    ensures bytes { table.new ≡ step_bytes table.old used (step_with rule gate a b) }
{
    Stepped::from(rewriting::step(table, used, Step { rule, gate, a, b }))
}

// A script: the steps taken and the used length, also where it was stopped.
#[unsafe(no_mangle)]
pub extern "C" fn pulpgarnet_script(table: &mut [u8], used: usize, steps: &[u8]) -> Ran
    ensures reply { result ≡ ran_reply (script_run table.old used steps.now) }
    ensures bytes { table.new ≡ (script_run table.old used steps.now).bytes }
{
    Ran::from(rewriting::script(table, used, steps))
}

// The same, and in the place of each gate of the first table the edge that has its first value then, or 0.
#[unsafe(no_mangle)]
pub extern "C" fn pulpgarnet_follow(
    table: &mut [u8],
    used: usize,
    steps: &[u8],
    places: &mut [u16],
) -> Ran
    ensures reply { result ≡ ran_reply (follow_run table.old used steps.now (length places.old)) }
    ensures bytes { table.new ≡ (follow_run table.old used steps.now (length places.old)).bytes }
    ensures places { places.new ≡ places_after table.old used steps.now places.old }
{
    Ran::from(rewriting::follow(table, used, steps, places))
}

// The RM3 table, with each node's helper made once, to the beginning of out: its length.
#[unsafe(no_mangle)]
pub extern "C" fn pulpgarnet_translate(table: &[u8], used: usize, out: &mut [u8]) -> Written
    ensures reply { result ≡ written_reply (translate_of Once table.now used (length out.old)) }
    ensures bytes { out.new ≡ translate_bytes Once table.now used out.old }
{
    Written::from(rm3::translate(Mode::Once, table, used, out))
}

// The same, with helpers made anew at each need.
#[unsafe(no_mangle)]
pub extern "C" fn pulpgarnet_translate_anew(table: &[u8], used: usize, out: &mut [u8]) -> Written
    ensures reply { result ≡ written_reply (translate_of Anew table.now used (length out.old)) }
    ensures bytes { out.new ≡ translate_bytes Anew table.now used out.old }
{
    Written::from(rm3::translate(Mode::Anew, table, used, out))
}

// The depth of the RM3 table.
#[unsafe(no_mangle)]
pub extern "C" fn pulpgarnet_rm3_depth(table: &[u8], used: usize) -> Deep
    ensures { result ≡ deep_reply (depth_of table.now used) }
{
    Deep::from(rm3::rm3_depth(table, used))
}

// The network of the function with this number, to the beginning of out: its length.
#[unsafe(no_mangle)]
pub extern "C" fn pulpgarnet_catalogue(number: u32, out: &mut [u8]) -> Written
    ensures reply { result ≡ written_reply (catalogue_of number (length out.old)) }
    ensures bytes { out.new ≡ catalogue_bytes number out.old }
{
    Written::from(catalogue::catalogue(number, out))
}

// The outputs' number under an assignment, through a reading of the records with these counts.
#[unsafe(no_mangle)]
pub extern "C" fn pulpgarnet_reading_evaluate(
    records: &[u8],
    inputs: usize,
    gates: usize,
    outputs: usize,
    assignment: u32,
) -> Valued
    ensures { result ≡ valued_reply (claimed_evaluate records.now (claim inputs gates outputs) assignment) }
{
    let counts = Counts {
        inputs,
        gates,
        outputs,
    };
    Valued::from(Reading::hold(records, counts).evaluate(assignment))
}

// Size and depth, through a reading.
#[unsafe(no_mangle)]
pub extern "C" fn pulpgarnet_reading_report(
    records: &[u8],
    inputs: usize,
    gates: usize,
    outputs: usize,
) -> Reported
    ensures { result ≡ reported_reply (claimed_report records.now (claim inputs gates outputs)) }
{
    let counts = Counts {
        inputs,
        gates,
        outputs,
    };
    Reported::from(Reading::hold(records, counts).report())
}
