// A table in lent bytes: its records and its check.
#![tactic(auto)]

mod checking;
mod fields;
mod records;
mod sound_table;

ghost use Rattle.std.specs.Prelude.{◌≡◌, ◌/◌, ◌*◌, IfOk};
ghost use Rattle.tables.specs.Bytes.{table_of, records_of};
ghost use Rattle.tables.specs.Calls.{check_of};
ghost use Rattle.tables.specs.Claimed.{claimed_check};
ghost use Rattle.tables.specs.Sound.{Sound, table_in};

use checking::check_used;
use majority::Counts;
pub use records::{field_of, put_record, read, record_at};
use refusals::Refusal;
pub use sound_table::SoundTable;

// Says of the first used bytes of s whether they hold a table.
#[tactic(auto, using(crate::proofs::Claims::used_any, crate::proofs::AfterCheck::checked_sound, crate::proofs::AfterCheck::checked_table))]
pub fn check(s: &[u8], used: usize) -> Result<Counts, Refusal>
    ensures reply { result ≡ check_of s.now used }
    ensures sound { IfOk result (λ c. Sound s.now c) }
    ensures table { IfOk result (λ c. table_of s.now (used / 8) ≡ table_in s.now c) }
{
    check_used(s, used, None)
}

// Says of all bytes of s whether they hold a table with the counts claimed.
#[tactic(auto, using(crate::proofs::Claims::used_only, crate::proofs::Claims::claimed_sound, crate::proofs::Claims::claimed_table))]
pub fn check_as(s: &[u8], claim: Counts) -> Result<Counts, Refusal>
    ensures reply { result ≡ claimed_check s.now claim }
    ensures sound { IfOk result (λ c. Sound s.now c) }
    ensures table { IfOk result (λ c. records_of s.now ≡ table_in s.now c) }
{
    check_used(s, s.len(), Some(claim))
}
