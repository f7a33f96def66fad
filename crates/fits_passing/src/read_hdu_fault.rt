use crate::hdu_fault::HduFault;
use fits_card::ReadHeaderFault;
use fits_rules::ShapeFault;
use fits_stream::ReadFault;

/// Why no HDU was read from a source.
#[derive(Clone, Copy)]
pub enum ReadHduFault {
    /// The bytes that come next don't begin with one, or memory was refused.
    Hdu(HduFault),
    /// A call of the source failed.
    Failed,
}

impl From<HduFault> for ReadHduFault {
    ghost use Rattle.fits_passing.specs.declared.read_hdu_fault.ReadHduFault.TheVariants.{Hdu};
    ghost use Rattle.std.specs.Prelude.{◌≡◌};

    ghost from_gives = { λ step fault. fault ≡ Hdu step };

    fn from(fault: HduFault) -> ReadHduFault {
        ReadHduFault::Hdu(fault)
    }
}

impl From<ReadHeaderFault> for ReadHduFault {
    ghost use Rattle.fits_passing.specs.HduReading.{of_read_header};
    ghost use Rattle.std.specs.Prelude.{◌≡◌};

    ghost from_gives = { λ step fault. fault ≡ of_read_header step };

    fn from(fault: ReadHeaderFault) -> ReadHduFault {
        match fault {
            ReadHeaderFault::NoEnd => ReadHduFault::Hdu(HduFault::NoEnd),
            ReadHeaderFault::Memory => ReadHduFault::Hdu(HduFault::Memory),
            ReadHeaderFault::Failed => ReadHduFault::Failed,
        }
    }
}

impl From<ShapeFault> for ReadHduFault {
    ghost use Rattle.fits_passing.specs.HduReading.{of_read_shape};
    ghost use Rattle.std.specs.Prelude.{◌≡◌};

    ghost from_gives = { λ step fault. fault ≡ of_read_shape step };

    fn from(fault: ShapeFault) -> ReadHduFault {
        match fault {
            ShapeFault::Bad(place) => ReadHduFault::Hdu(HduFault::BadShape(place)),
            ShapeFault::Memory => ReadHduFault::Hdu(HduFault::Memory),
        }
    }
}

impl From<ReadFault> for ReadHduFault {
    ghost use Rattle.fits_passing.specs.HduReading.{of_read};
    ghost use Rattle.std.specs.Prelude.{◌≡◌};

    ghost from_gives = { λ step fault. fault ≡ of_read step };

    fn from(fault: ReadFault) -> ReadHduFault {
        match fault {
            ReadFault::Memory => ReadHduFault::Hdu(HduFault::Memory),
            ReadFault::Failed => ReadHduFault::Failed,
        }
    }
}
