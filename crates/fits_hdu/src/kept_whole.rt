//! An HDU that is read and kept whole.
ghost use Rattle.std.specs.Prelude.{◌≡◌, ◌<◌};

use crate::hdu::Hdu;
use fits_passing::{Kept, ReadHduFault};
use fits_stream::{Intake, Source};
use std::alloc::Global;

/// All of it is kept.
impl Kept for Hdu {
    ghost use Rattle.fits_hdu.specs.Reading.{IsKeptWhole};

    ghost keeps = { λ it hdu. IsKeptWhole it hdu };

    fn read_next<R: Source>(
        alloc: Global,
        intake: &mut Intake,
        source: &mut R,
        primary: bool,
    ) -> Result<Hdu, ReadHduFault> {
        Hdu::read(alloc, intake, source, primary)
    }
}
