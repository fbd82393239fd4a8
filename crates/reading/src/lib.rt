// A reading: lent records with their three counts, and the questions that it answers.
#![tactic(auto)]

ghost use Rattle.std.specs.Prelude.{◌≡◌, take};
ghost use Rattle.tables.specs.Claimed.{claimed_check};
ghost use Rattle.questions.specs.Claimed.{claimed_evaluate, claimed_report};
ghost use Rattle.reading.specs.Held.{part_in, counts_in};
ghost use Rattle.reading.specs.Written.{WrittenIn};

use majority::Counts;
use questions::{Size, evaluate_as, report_as};
use refusals::Refusal;
use rm3::translate_as;
use tables::{check, check_as};
use translation::Mode;

// Nothing of a reading is trusted: each question checks the records and the counts again.
#[derive(Clone, Copy, Debug)]
pub struct Reading<'a> {
    records: &'a [u8],
    counts: Counts,
}

impl<'a> Reading<'a> {
    // Holds any records with any counts.
    pub fn hold(records: &'a [u8], counts: Counts) -> Reading<'a>
        ensures { (result.records ≡ records.entry) × (result.counts ≡ counts) }
    {
        Reading { records, counts }
    }

    // Holds the table that the first used bytes of s hold, with its counts: had only from an accepted table. Of a refused one it holds no
    // records and no counts, which every question refuses with 3.
    #[tactic(auto, unfolding(crate::specs::Held::found_in))]
    pub fn read(s: &'a [u8], used: usize) -> Reading<'a>
        ensures { (result.records.now ≡ part_in s.now used) × (result.counts ≡ counts_in s.now used) }
    {
        match check(s, used) {
            Ok(counts) => Reading::hold(part(s, used), counts),
            Err(_) => Reading::hold(part(s, 0), NONE),
        }
    }

    // Whether the records hold a table with these counts.
    pub fn check(self) -> Result<Counts, Refusal>
        ensures { result ≡ claimed_check self.entry.records.now self.entry.counts }
    {
        check_as(self.records, self.counts)
    }

    // The outputs' number under an assignment.
    pub fn evaluate(self, assignment: u32) -> Result<u32, Refusal>
        ensures { result ≡ claimed_evaluate self.entry.records.now self.entry.counts assignment }
    {
        evaluate_as(self.records, self.counts, assignment)
    }

    // The table's size and depth.
    pub fn report(self) -> Result<Size, Refusal>
        ensures { result ≡ claimed_report self.entry.records.now self.entry.counts }
    {
        report_as(self.records, self.counts)
    }

    // Writes the RM3 table, in this mode, to the beginning of out, and answers its length.
    pub fn translate(self, mode: Mode, out: &mut [u8]) -> Result<usize, Refusal>
        ensures { WrittenIn mode self.entry.records.now self.entry.counts out.old result out.new }
    {
        translate_as(mode, self.records, self.counts, out)
    }
}

const NONE: Counts = Counts {
    inputs: 0,
    gates: 0,
    outputs: 0,
};

// The first used bytes of s, all where there are no more.
fn part(s: &[u8], used: usize) -> &[u8]
    ensures { result.now ≡ take used s.now }
{
    s.get(..used).unwrap_or(s)
}
