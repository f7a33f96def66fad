use fits_hdu::{KeywordFault, PixelFault, ReshapeFault};
use fits_value::WriteFault;
use std::alloc::{AllocError, AllocFailed};
use std::error::Error;
use std::fmt;
use std::fmt::{Display, Formatter, Write};

/// Why an edit was not made, or a query has no answer: the first test that failed.
///
/// After a refusal the file is as before.
#[derive(Clone, Copy, PartialEq, Eq, Debug)]
pub enum Refusal {
    /// 1: no HDU has this number, nor would a new one.
    NoHdu,
    /// 2: the place is out of its range.
    NoCard,
    /// 3: no card of this name has a value, or, for its places, there is none.
    NoKey,
    /// 4: a byte of the card isn't a character of text.
    BadText,
    /// 5: the card is named END.
    EndCard,
    /// 6: the cards would describe another shape, or none; of a new image or a reshape: more than 999
    /// axes, or one past the greatest integer of 64 bits; of a reshape: an offset comes over other
    /// cards that scale.
    Shape,
    /// 7: the name isn't a keyword's, or can't have a value.
    BadName,
    /// 8: the value or the comment can't be written, or the first card of this name that has a
    /// value can't be read.
    BadValue,
    /// 9: the HDU is no image of integers, nor, for a reshape, one without axes.
    NotImage,
    /// 10: the corners don't have a number for each axis, or don't lie in the axes, in order.
    BadRect,
    /// 11: there are more or fewer values than the rectangle has pixels.
    WrongCount,
    /// 12: a value isn't one that a pixel of this kind can have.
    Range,
    /// 13: the primary HDU stays where it is.
    PrimaryStays,
    /// 14: the file would pass a limit.
    TooLarge,
    /// 15: memory was refused.
    Memory,
}

impl Refusal {
    ghost use Rattle.fits_making.specs.Refusal.{refusal_text};
    ghost use Rattle.std.specs.Prelude.{◌≡◌};

    /// How it is printed, with its number: `refused 5 EndCard`.
    pub fn text(self) -> &'static str
        ensures { result.now ≡ refusal_text self }
    {
        match self {
            Refusal::NoHdu => "refused 1 NoHdu",
            Refusal::NoCard => "refused 2 NoCard",
            Refusal::NoKey => "refused 3 NoKey",
            Refusal::BadText => "refused 4 BadText",
            Refusal::EndCard => "refused 5 EndCard",
            Refusal::Shape => "refused 6 Shape",
            Refusal::BadName => "refused 7 BadName",
            Refusal::BadValue => "refused 8 BadValue",
            Refusal::NotImage => "refused 9 NotImage",
            Refusal::BadRect => "refused 10 BadRect",
            Refusal::WrongCount => "refused 11 WrongCount",
            Refusal::Range => "refused 12 Range",
            Refusal::PrimaryStays => "refused 13 PrimaryStays",
            Refusal::TooLarge => "refused 14 TooLarge",
            Refusal::Memory => "refused 15 Memory",
        }
    }
}

impl Display for Refusal {
    fn fmt<W: Write>(&self, f: &mut Formatter<W>) -> fmt::Result {
        f.write_str(self.text())
    }
}

impl Error for Refusal {}

impl From<AllocError> for Refusal {
    ghost use Rattle.fits_making.specs.declared.refusal.Refusal.TheVariants.{Memory};
    ghost use Rattle.std.specs.Prelude.{◌≡◌};

    ghost from_gives = { λ _ why. why ≡ Memory };

    fn from(_: AllocError) -> Refusal {
        Refusal::Memory
    }
}

impl<T: Drop> From<AllocFailed<T>> for Refusal {
    ghost use Rattle.fits_making.specs.declared.refusal.Refusal.TheVariants.{Memory};
    ghost use Rattle.std.specs.Prelude.{◌≡◌};

    ghost from_gives = { λ _ why. why ≡ Memory };

    fn from(_: AllocFailed<T>) -> Refusal {
        Refusal::Memory
    }
}

impl From<KeywordFault> for Refusal {
    ghost use Rattle.fits_making.specs.Refusal.{refusal_of_keyword};
    ghost use Rattle.std.specs.Prelude.{◌≡◌};

    ghost from_gives = { λ fault why. why ≡ refusal_of_keyword fault };

    fn from(fault: KeywordFault) -> Refusal {
        match fault {
            KeywordFault::NoKey => Refusal::NoKey,
            KeywordFault::BadValue => Refusal::BadValue,
            KeywordFault::Memory => Refusal::Memory,
        }
    }
}

impl From<WriteFault> for Refusal {
    ghost use Rattle.fits_making.specs.Refusal.{refusal_of_writing};
    ghost use Rattle.std.specs.Prelude.{◌≡◌};

    ghost from_gives = { λ fault why. why ≡ refusal_of_writing fault };

    fn from(fault: WriteFault) -> Refusal {
        match fault {
            WriteFault::BadValue => Refusal::BadValue,
            WriteFault::Memory => Refusal::Memory,
        }
    }
}

impl From<PixelFault> for Refusal {
    ghost use Rattle.fits_making.specs.HduEdit.{refusal_of_pixels};
    ghost use Rattle.std.specs.Prelude.{◌≡◌};

    ghost from_gives = { λ fault why. why ≡ refusal_of_pixels fault };

    fn from(fault: PixelFault) -> Refusal {
        match fault {
            PixelFault::NotImage => Refusal::NotImage,
            PixelFault::BadRectangle => Refusal::BadRect,
            PixelFault::WrongCount => Refusal::WrongCount,
            PixelFault::OutOfRange => Refusal::Range,
            PixelFault::Memory => Refusal::Memory,
        }
    }
}

impl From<ReshapeFault> for Refusal {
    ghost use Rattle.fits_making.specs.HduEdit.{refusal_of_reshape};
    ghost use Rattle.std.specs.Prelude.{◌≡◌};

    ghost from_gives = { λ fault why. why ≡ refusal_of_reshape fault };

    fn from(fault: ReshapeFault) -> Refusal {
        match fault {
            ReshapeFault::NotImage => Refusal::NotImage,
            ReshapeFault::BadShape => Refusal::Shape,
            ReshapeFault::OutOfRange => Refusal::Range,
            ReshapeFault::TooLarge => Refusal::TooLarge,
            ReshapeFault::Memory => Refusal::Memory,
        }
    }
}
