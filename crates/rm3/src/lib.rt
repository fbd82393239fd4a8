// The RM3 table of a majority table: its bytes, and its depth.
#![tactic(auto)]

mod levels;
mod writing;

ghost use Rattle.std.specs.Prelude.{◌≡◌, length};
ghost use Rattle.rm3.specs.Calls.{translate_of, translate_bytes, depth_of};
ghost use Rattle.rm3.specs.Claimed.{claimed_translate, claimed_bytes};

use levels::depth;
use majority::{Counts, MOST_GATES, MOST_INPUTS, MOST_OUTPUTS};
use refusals::Refusal;
use tables::SoundTable;
use translation::Mode;
use writing::write;

// The most bytes that an RM3 table has: 32 inputs, three operations a gate and one an output, and 32 outputs.
pub const MOST_BYTES: usize = 8 * (MOST_INPUTS + 3 * MOST_GATES + 2 * MOST_OUTPUTS);

// Writes the RM3 table of the table in the first used bytes of s, in this mode, to the beginning of out, and answers its length.
#[tactic(auto, unfolding(crate::specs::Calls::translate_of, crate::specs::Calls::translate_bytes, crate::specs::Calls::rm3_of))]
pub fn translate(mode: Mode, s: &[u8], used: usize, out: &mut [u8]) -> Result<usize, Refusal>
    ensures reply { result ≡ translate_of mode s.now used (length out.old) }
    ensures bytes { out.new ≡ translate_bytes mode s.now used out.old }
{
    write(mode, &SoundTable::checked(s, used)?, out)
}

// The same of all bytes of s, whose counts are claimed.
#[tactic(auto, unfolding(crate::specs::Claimed::claimed_translate, crate::specs::Claimed::claimed_bytes, crate::specs::Claimed::claimed_rm3))]
pub fn translate_as(mode: Mode, s: &[u8], claim: Counts, out: &mut [u8]) -> Result<usize, Refusal>
    ensures reply { result ≡ claimed_translate mode s.now claim (length out.old) }
    ensures bytes { out.new ≡ claimed_bytes mode s.now claim out.old }
{
    write(mode, &SoundTable::claimed(s, claim)?, out)
}

// The depth of the RM3 table of the table in the first used bytes of s, the same in both modes.
#[tactic(auto, unfolding(crate::specs::Calls::depth_of))]
pub fn rm3_depth(s: &[u8], used: usize) -> Result<usize, Refusal>
    ensures { result ≡ depth_of s.now used }
{
    Ok(depth(&SoundTable::checked(s, used)?) as usize)
}
