//! Bytes of a reader that nothing is kept of.
ghost use Rattle.std.specs.Prelude.{◌≡◌, ◌<◌, ◌≤◌, false, length, nat_lt, IfOk, OnErr};
ghost use Rattle.fits_stream.specs.Log.{Grows, IsDone, NotesEnd};
ghost use Rattle.fits_stream.specs.Stored.{GoesPast};

use crate::giver::Giver;
use std::io;

/// Reads the next bytes, so many or as many as there are, over one another, and says how many. A
/// call that fails is not tried again.
#[tactic(auto, using(crate::proofs::StoredLemmas::skipping_steps))]
pub(crate) fn skip_by_reading<R: Giver>(
    reader: &mut R,
    piece: &mut [u8],
    len: usize,
) -> io::Result<usize>
    requires { 0 < length piece.old }
    ensures ok { IfOk result (GoesPast (R.stock reader.old) (R.stock reader.new)) }
    ensures within { IfOk result (λ count. count ≤ len) }
    ensures ends { IfOk result (λ count. count < len → IsDone (R.stock reader.new).left (R.stock reader.new).log) }
    ensures noted { IfOk result (λ count. NotesEnd (nat_lt count len)
        (R.stock reader.old).log (R.stock reader.new).log) }
    ensures size { length piece.new ≡ length piece.old }
    ensures err { OnErr result (Grows (R.stock reader.old).log (R.stock reader.new).log) }
    ensures unended { OnErr result (NotesEnd false
        (R.stock reader.old).log (R.stock reader.new).log) }
{
    let mut count = 0;
    while count < len {
        let most = piece.len().min(len - count);
        let (room, _) = piece.split_at_mut(most);
        let n = reader.give(room)?;
        if n == 0 {
            return Ok(count);
        }
        count += n;
    }
    Ok(count)
}
