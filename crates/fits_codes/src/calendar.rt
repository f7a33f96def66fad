//! Days of the Gregorian calendar.
ghost use Rattle.std.specs.Prelude.{◌≡◌, ◌≤◌, ◌↔◌, pos, IsTrue};
ghost use Rattle.jiff.specs.Words.{IsDate};
ghost use Rattle.fits_codes.specs.Calendar.{is_calendar_day};

use jiff::civil::Date;

// Whether the library has this day.
fn has_day(year: u32, month: u32, day: u32) -> bool
    requires year { year ≤ 9999 }
    requires month { month ≤ 12 }
    requires day { day ≤ 31 }
    ensures { IsTrue result ↔ IsDate (pos year) (pos month) (pos day) }
{
    Date::new(year as i16, month as i8, day as i8).is_ok()
}

/// Whether the calendar has this day, in the years 0 to 9999.
pub(crate) fn is_calendar_day(year: u32, month: u32, day: u32) -> bool
    ensures { result ≡ is_calendar_day year month day }
{
    if year > 9999 || month > 12 || day > 31 {
        return false;
    }
    has_day(year, month, day)
}
