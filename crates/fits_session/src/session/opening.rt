//! What is tested of the bytes of a file before anything else.
ghost use Rattle.std.specs.Prelude.{◌≤◌, ◌<◌, IfErr, IsErrOf, OnOk, length};
ghost use Rattle.fits_passing.specs.declared.limits.TheConstants.{FILE_LIMIT};
ghost use Rattle.fits_passing.specs.Opening.{BeginsAsFits, HasOpenFault, OpenFails};

use fits_passing::{FILE_LIMIT, OpenFault};

/// Tests how long a file is, and then its first bytes.
pub(crate) fn test_start(bytes: &[u8]) -> Result<(), OpenFault>
    ensures size { OnOk result (length bytes.now ≤ FILE_LIMIT) }
    ensures begins { OnOk result (BeginsAsFits bytes.now) }
    ensures err { IfErr result (OpenFails bytes.now) }
    ensures too_large { FILE_LIMIT < length bytes.now → IsErrOf result OpenFault.TooLarge }
    ensures not_fits { HasOpenFault bytes.now OpenFault.NotFits → IsErrOf result OpenFault.NotFits }
{
    if bytes.len() as u64 > FILE_LIMIT {
        return Err(OpenFault::TooLarge);
    }
    if !bytes.starts_with(b"SIMPLE  ") {
        return Err(OpenFault::NotFits);
    }
    Ok(())
}
