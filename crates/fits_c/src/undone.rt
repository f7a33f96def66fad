//! Why a line isn't done.
ghost use Rattle.std.specs.Prelude.{◌≡◌};
ghost use Rattle.fits_c.specs.Lines.{refusal_number};

use fits_session::Refusal;

/// Why a line isn't done.
#[derive(Clone, Copy)]
pub enum Undone {
    Refused(Refusal),
    /// It is past the limit.
    TooLong,
    /// It says no command.
    NoCommand,
}

impl Undone {
    ghost use Rattle.std.specs.Prelude.{◌≡◌};
    ghost use Rattle.fits_c.specs.Lines.{undone_number};

    /// That of its refusal, or one of the two that follow.
    pub fn number(self) -> u8
        ensures { result ≡ undone_number self }
    {
        match self {
            Undone::Refused(why) => refusal_number(why),
            Undone::TooLong => 16,
            Undone::NoCommand => 17,
        }
    }
}

/// The number of a refusal, as it is printed.
pub fn refusal_number(why: Refusal) -> u8
    ensures { result ≡ refusal_number why }
{
    match why {
        Refusal::NoHdu => 1,
        Refusal::NoCard => 2,
        Refusal::NoKey => 3,
        Refusal::BadText => 4,
        Refusal::EndCard => 5,
        Refusal::Shape => 6,
        Refusal::BadName => 7,
        Refusal::BadValue => 8,
        Refusal::NotImage => 9,
        Refusal::BadRect => 10,
        Refusal::WrongCount => 11,
        Refusal::Range => 12,
        Refusal::PrimaryStays => 13,
        Refusal::TooLarge => 14,
        Refusal::Memory => 15,
    }
}
