//! Names as numbers: the order of the numbers is that of the names' bytes.
ghost use Rattle.std.specs.Prelude.{◌≡◌, ◌<◌, All, IfOk, length, map};
ghost use Rattle.std.specs.Int.{from_be_bytes, to_be_bytes, w64};
ghost use Rattle.fits_header.specs.Names.{IsName, name_number};

use fits_card::Name;
use std::alloc::{AllocError, Global};

/// The number that the bytes of a name write, the first one weighing most.
#[tactic(auto, unfolding(crate::specs::Names::name_number))]
pub(crate) fn number_of(name: &Name) -> u64
    ensures value { result ≡ name_number name.now }
    ensures name { IsName name.now }
{
    see_bytes(&name.0);
    u64::from_be_bytes(name.0)
}

/// The names whose bytes write these numbers.
pub(crate) fn names_of(alloc: Global, numbers: &[u64]) -> Result<Vec<Name>, AllocError>
    ensures { IfOk result (λ names. names.items ≡ map (to_be_bytes w64) numbers.now) }
{
    let mut names = Vec::new(alloc);
    for number in numbers {
        names.push(Name(number.to_be_bytes()))?;
    }
    Ok(names)
}

// Bytes are below 256.
fn see_bytes(bytes: &[u8])
    ensures { All (λ byte. byte < 256) bytes.now }
{
    let _len = bytes.len();
}
