//! The bytes after the last HDUs of two files, as they pass by.
ghost use Rattle.std.specs.Prelude.{◌≡◌, IfOk, IfErr};
ghost use Rattle.std.specs.Str.{bytes_eq};
ghost use Rattle.fits_stream.specs.Intake.{supply};
ghost use Rattle.fits_diff.specs.DiffSteps.{IsSeen, OneFails, TakesTails};

use crate::diff_fault::DiffFault;
use crate::walking::hold_both;
use fits_card::BLOCK_LEN;
use fits_stream::{Intake, Source};

/// Whether the bytes that are ahead of two, and all that follow, are the same. Those that are are
/// taken, in whole blocks.
#[tactic(auto, using(crate::proofs::TailLemmas::tail_steps))]
pub(crate) fn compare_tails<F: Source>(
    first: &mut Intake,
    a: &mut F,
    second: &mut Intake,
    b: &mut F,
) -> Result<bool, DiffFault>
    requires seen { IsSeen (supply (F.state a.old) first.old) }
    requires seen_other { IsSeen (supply (F.state b.old) second.old) }
    ensures ok { IfOk result (TakesTails
        (supply (F.state a.old) first.old) (supply (F.state a.new) first.new)
        (supply (F.state b.old) second.old) (supply (F.state b.new) second.new)) }
    ensures err { IfErr result (OneFails
        (supply (F.state a.old) first.old) (supply (F.state a.new) first.new)
        (supply (F.state b.old) second.old) (supply (F.state b.new) second.new)) }
{
    'block: loop {
        let ahead = first.ahead();
        let other = second.ahead();
        if ahead.len() < BLOCK_LEN || other.len() < BLOCK_LEN {
            return Ok(are_same(ahead, other));
        }
        let (block, _) = ahead.split_at(BLOCK_LEN);
        let (other_block, _) = other.split_at(BLOCK_LEN);
        if !are_same(block, other_block) {
            return Ok(false);
        }
        first.pass(BLOCK_LEN);
        second.pass(BLOCK_LEN);
        match hold_both(first, a, second, b) {
            Ok(()) => {}
            Err(why) => return Err(why),
        }
    }
}

// Whether two texts are one.
fn are_same(bytes: &[u8], others: &[u8]) -> bool
    ensures { result ≡ bytes_eq bytes.now others.now }
{
    bytes == others
}
