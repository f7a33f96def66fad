//! Dates as texts (FITS Standard 4.0, section 9.1.1).
ghost use Rattle.std.specs.Prelude.{◌≡◌, ◌≤◌, length, take, drop, IsTrue};
ghost use Rattle.fits_value.specs.Number.{value_of};
ghost use Rattle.std.specs.List.{list_all};
ghost use Rattle.fits_value.specs.Characters.{is_digit};
ghost use Rattle.fits_codes.specs.Date.{fits_place, follows, is_day_text, is_old_day_text, is_clock_text, is_fraction, is_time_part, is_date, is_judged};

use crate::calendar::is_calendar_day;

// Whether each byte is a digit.
fn are_digits(text: &[u8]) -> bool
    ensures { result ≡ list_all is_digit text.now }
{
    text.iter().all(|byte| b'0' <= *byte && *byte <= b'9')
}

/// The number of at most four digits.
pub(crate) fn number_of(digits: &[u8]) -> u32
    requires { length digits.now ≤ 4 }
    ensures { result ≡ value_of digits.now }
{
    let mut number = 0;
    for digit in digits {
        number = number * 10 + digit.saturating_sub(b'0') as u32;
    }
    number
}

// Whether a byte fits a place of a layout.
fn fits_place(place: u8, byte: u8) -> bool
    ensures { result ≡ fits_place place byte }
{
    if place == b'0' {
        byte.is_ascii_digit()
    } else {
        byte == place
    }
}

// Whether the text has this layout, where 0 is any digit.
fn follows(layout: &[u8], text: &[u8]) -> bool
    ensures value { result ≡ follows layout.now text.now }
    ensures size { IsTrue result → length text.now ≡ length layout.now }
{
    if layout.len() != text.len() {
        return false;
    }
    for i in 0..layout.len() {
        if !fits_place(layout[i], text[i]) {
            return false;
        }
    }
    true
}

// CCYY-MM-DD
#[tactic(auto, unfolding(crate::specs::Date::is_day_text))]
fn is_day_text(text: &[u8]) -> bool
    ensures { result ≡ is_day_text text.now }
{
    follows(b"0000-00-00", text)
        && is_calendar_day(
            number_of(&text[0..4]),
            number_of(&text[5..7]),
            number_of(&text[8..10]),
        )
}

// DD/MM/YY
#[tactic(auto, unfolding(crate::specs::Date::is_old_day_text))]
fn is_old_day_text(text: &[u8]) -> bool
    ensures { result ≡ is_old_day_text text.now }
{
    follows(b"00/00/00", text)
        && is_calendar_day(
            1900 + number_of(&text[6..8]),
            number_of(&text[3..5]),
            number_of(&text[0..2]),
        )
}

// hh:mm:ss
#[tactic(auto, unfolding(crate::specs::Date::is_clock_text))]
fn is_clock_text(text: &[u8]) -> bool
    ensures { result ≡ is_clock_text text.now }
{
    follows(b"00:00:00", text)
        && number_of(&text[0..2]) <= 23
        && number_of(&text[3..5]) <= 59
        && number_of(&text[6..8]) <= 60
}

// [. digits]
fn is_fraction(text: &[u8]) -> bool
    ensures { result ≡ is_fraction text.now }
{
    match text {
        [] => true,
        [b'.', digits @ ..] => !digits.is_empty() && are_digits(digits),
        _ => false,
    }
}

// The text before a place, or all of it, and the rest.
fn split(text: &[u8], place: usize) -> (&[u8], &[u8])
    ensures front { result.0.now ≡ take place text.now }
    ensures back { result.1.now ≡ drop place text.now }
{
    text.split_at(place.min(text.len()))
}

// [T hh:mm:ss [. digits]]
fn is_time_part(text: &[u8]) -> bool
    ensures { result ≡ is_time_part text.now }
{
    match text {
        [] => true,
        [b'T', time @ ..] => {
            let (clock, fraction) = split(time, 8);
            is_clock_text(clock) && is_fraction(fraction)
        }
        _ => false,
    }
}

/// Whether the text is a date, with a time or without.
#[tactic(auto, unfolding(crate::specs::Date::is_date))]
pub(crate) fn is_date(text: &[u8]) -> bool
    ensures { result ≡ is_date text.now }
{
    let (day, time) = split(text, 10);
    is_old_day_text(text) || (is_day_text(day) && is_time_part(time))
}

/// Whether a date is looked for in the text.
#[tactic(auto, unfolding(crate::specs::Date::is_judged))]
pub(crate) fn is_judged(text: &[u8]) -> bool
    ensures { result ≡ is_judged text.now }
{
    match text {
        [] | [b'+' | b'-', ..] => false,
        _ => text != b" ".as_slice(),
    }
}
