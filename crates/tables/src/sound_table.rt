// An accepted table in lent bytes: in contracts, its records and their counts.
ghost use Rattle.std.specs.Prelude.{◌≡◌, ◌+◌, ◌<◌, Ok};
ghost use Rattle.majority.specs.Edge.{node_of};
ghost use Rattle.majority.specs.Table.{record_at, Below, WellFormed, WithinLimits};
ghost use Rattle.majority.specs.Check.{check_records};
ghost use Rattle.tables.specs.Calls.{checked_of};
ghost use Rattle.tables.specs.Claimed.{claimed_of};
ghost use Rattle.tables.specs.Sound.{GatesIn};

use crate::records::read_record;
use crate::{check, check_as};
use majority::{Counts, Record};
use refusals::Refusal;
use std::marker::Model;

// The table of these counts in lent bytes, which the check accepts.
#[derive(Drop)]
pub struct SoundTable<'a> {
    pub bytes: &'a [u8],
    pub counts: Counts,
}

impl<'a> Model for SoundTable<'a> {
    ghost use Rattle.tables.specs.Sound.{Table, Sound, held};

    ghost Value = { Table };

    ghost view = { λ t. held t.bytes.now t.counts };

    ghost invariant = { λ t. Sound t.bytes.now t.counts };
}

impl<'a> SoundTable<'a> {
    // The table in the first used bytes.
    #[tactic(auto, unfolding(crate::specs::Calls::checked_of))]
    pub fn checked(bytes: &'a [u8], used: usize) -> Result<SoundTable<'a>, Refusal>
        ensures { result ≡ checked_of bytes.now used }
    {
        let counts = check(bytes, used)?;
        Ok(SoundTable { bytes, counts })
    }

    // The table in all the bytes, with the counts claimed.
    #[tactic(auto, unfolding(crate::specs::Claimed::claimed_of))]
    pub fn claimed(bytes: &'a [u8], claim: Counts) -> Result<SoundTable<'a>, Refusal>
        ensures { result ≡ claimed_of bytes.now claim }
    {
        let counts = check_as(bytes, claim)?;
        Ok(SoundTable { bytes, counts })
    }

    // How many inputs, gates and outputs it has: within the limits, and its records are those of a well-formed table.
    #[tactic(auto, using(crate::proofs::Sound::sound_limits))]
    pub fn counts(&self) -> Counts
        ensures counts { result ≡ self.now.counts }
        ensures limits { WithinLimits self.now.counts.inputs self.now.counts.gates self.now.counts.outputs }
        ensures formed { WellFormed self.now.counts.inputs self.now.counts.gates self.now.counts.outputs self.now.records }
        ensures accepted { check_records self.now.records ≡ Ok self.now.counts }
    {
        self.counts
    }

    // Record i, or the blank record past the last. Its edges name nodes that a table has room for.
    #[tactic(auto, using(crate::proofs::Sound::sound_record, crate::proofs::Decoded::table_past))]
    pub fn record(&self, i: usize) -> Record
        ensures record { result ≡ record_at self.now.records i }
        ensures below { Below 1057 result }
    {
        if i < self.counts.inputs + self.counts.gates + self.counts.outputs {
            return read_record(self.bytes, i);
        }
        Record::BLANK
    }

    // The bytes of its gates, eight a gate: a loop over them tests nothing.
    pub fn gates(&self) -> &'a [[u8; 8]]
        ensures { GatesIn self.now result.now }
    {
        let Counts { inputs, gates, .. } = self.counts;
        let (records, _) = self.bytes.as_chunks::<8>();
        &records[inputs..inputs + gates]
    }

    // The edge of output j, counted from 0; 0 past the last.
    pub fn output(&self, j: usize) -> u16
        ensures edge { result ≡ (record_at self.now.records (self.now.counts.inputs + self.now.counts.gates + j)).e1 }
        ensures below { node_of result < 1057 }
    {
        if j < self.counts.outputs {
            return self.record(self.counts.inputs + self.counts.gates + j).e1;
        }
        0
    }
}
