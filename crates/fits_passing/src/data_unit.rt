//! The data unit after a header.
ghost use Rattle.std.specs.Prelude.{◌≡◌, ◌<◌, ◌≤◌, IfOk, IfErr};
ghost use Rattle.fits_rules.specs.Size.{data_length};

use crate::hdu_fault::HduFault;
use fits_card::BLOCK_LEN;
use fits_rules::{Shape, data_bytes};

/// How many bytes the data unit has that a shape describes, with its fill, where there are as many.
#[tactic(auto, unfolding(fits_rules::specs::Size::data_length))]
pub fn unit_len(shape: &Shape, room: usize) -> Result<usize, HduFault>
    ensures ok { IfOk result (λ len. len ≡ data_length shape.now) }
    ensures within { IfOk result (λ len. len ≤ room) }
    ensures fault { IfErr result (λ why. why ≡ HduFault.ShortData) }
    ensures short { IfErr result (λ _. room < data_length shape.now) }
{
    let Some(bytes) = data_bytes(shape) else {
        return Err(HduFault::ShortData);
    };
    if (room as u64) < bytes {
        return Err(HduFault::ShortData);
    }
    let bytes = bytes as usize;
    let fill = (BLOCK_LEN - bytes % BLOCK_LEN) % BLOCK_LEN;
    if room - bytes < fill {
        return Err(HduFault::ShortData);
    }
    Ok(bytes + fill)
}
