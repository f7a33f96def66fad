//! How it is told what is wrong with a line. Writing it takes no memory.
ghost use Rattle.std.specs.Prelude.{◌≡◌, ◌++◌, [], nat_lt, length, take, codes, OnErr, OnOk, if◌then◌else◌};
ghost use Rattle.std.specs.Fmt.{decimal};
ghost use Rattle.std.specs.List.{flat_map};
ghost use Rattle.fits_stream.specs.Stream.{Prints, PrintsFront};
ghost use Rattle.fits_script.specs.Wording.{misfit_text, shown, shown_byte, shown_word, unreadable_text, unwritable_text};

use crate::misfit::Misfit;
use fits_stream::{Sink, write_all};
use fits_value::{Unreadable, Unwritable};
use itoa::Buffer;
use std::io;

/// How many bytes of a word are shown.
const SHOWN: usize = 32;

/// Writes why a line says no command.
pub fn write_misfit<W: Sink>(out: &mut W, misfit: &Misfit<'_>) -> io::Result<()>
    ensures ok { OnOk result (Prints (misfit_text misfit.now) (W.state out.old) (W.state out.new)) }
    ensures err { OnErr result
        (PrintsFront (misfit_text misfit.now) (W.state out.old) (W.state out.new)) }
{
    match misfit {
        Misfit::CarriageReturn => write_all(out, b"a carriage return at the end"),
        Misfit::SpaceTooMany { byte } => write_number(out, b"a space too many at byte ", *byte),
        Misfit::CapitalVerb(word) => {
            let back = b"; commands are in lower case";
            write_around(out, b"not a command: ", word.as_bytes(), false, back)
        }
        Misfit::NoVerb(word) => write_word(out, b"not a command: ", word.as_bytes()),
        Misfit::WordMissing => write_all(out, b"a word is missing"),
        Misfit::WordTooMany(word) => write_word(out, b"a word too many: ", word.as_bytes()),
        Misfit::NotHdu(word) => write_word(out, b"not an HDU: ", word.as_bytes()),
        Misfit::NotPlace(word) => write_word(out, b"not a place: ", word.as_bytes()),
        Misfit::LongName => write_all(out, b"not a keyword name: more than 8 characters"),
        Misfit::LongCard { bytes } => {
            write_count(out, b"a card of ", *bytes, b" bytes, at most 80")
        }
        Misfit::NotValue(why) => write_unreadable(out, why),
        Misfit::NotRectangle(word) => write_word(out, b"not a rectangle: ", word.as_bytes()),
        Misfit::NotPixelValue(word) => write_word(out, b"not a pixel value: ", word.as_bytes()),
        Misfit::NotKind(word) => write_word(out, b"not a kind of pixels: ", word.as_bytes()),
        Misfit::NotAxes(word) => write_word(out, b"not axes: ", word.as_bytes()),
    }
}

/// Writes why a value and a comment can't be written.
pub fn write_unwritable<W: Sink>(out: &mut W, why: &Unwritable) -> io::Result<()>
    ensures ok { OnOk result (Prints (unwritable_text why.now)
        (W.state out.old) (W.state out.new)) }
    ensures err { OnErr result (PrintsFront (unwritable_text why.now)
        (W.state out.old) (W.state out.new)) }
{
    match why {
        Unwritable::NotNumber => write_all(out, b"the value is no number"),
        Unwritable::StringBytes => write_all(out, b"a byte of the string is no character of text"),
        Unwritable::StringSpaces => write_all(out, b"the string ends in spaces"),
        Unwritable::StringAmpersand => write_all(out, b"the string ends in an ampersand"),
        Unwritable::CommentBytes => {
            write_all(out, b"a byte of the comment is no character of text")
        }
        Unwritable::CommentSpaces => write_all(out, b"the comment ends in a space"),
        Unwritable::LongNumber => write_all(out, b"the value has more than 70 bytes"),
        Unwritable::NoRoom => write_all(out, b"no comment fits after the value"),
        Unwritable::LongComment { bytes, room } => {
            write_counts(
                out,
                b"the comment has ",
                *bytes,
                b" bytes, ",
                *room,
                b" fit",
            )
        }
    }
}

// Writes why a text says no value.
fn write_unreadable<W: Sink>(out: &mut W, why: &Unreadable<'_>) -> io::Result<()>
    ensures ok { OnOk result (Prints (unreadable_text why.now)
        (W.state out.old) (W.state out.new)) }
    ensures err { OnErr result (PrintsFront (unreadable_text why.now)
        (W.state out.old) (W.state out.new)) }
{
    match why {
        Unreadable::NoText => write_all(out, b"not a value: a byte is no character of text"),
        Unreadable::OpenString => write_all(out, b"not a value: a quote is missing at its end"),
        Unreadable::BareQuote => write_all(out, b"not a value: a quote in a string is doubled"),
        Unreadable::TextAfter => {
            write_all(out, b"text after the value: a comment begins with a slash")
        }
        Unreadable::SmallExponent => {
            write_all(out, b"not a value: an exponent is a capital E or D")
        }
        Unreadable::LogicalWord => write_all(out, b"not a value: T or F"),
        Unreadable::EqualsSign => { write_all(out, b"not a value: no equals sign comes before it") }
        Unreadable::DoubleQuote => {
            write_all(out, b"not a value: a string stands in single quotes")
        }
        Unreadable::Unquoted(text) => {
            let front = b"not a value: a string stands in quotes: '";
            write_around(out, front, text.as_bytes(), true, b"'")
        }
        Unreadable::NoValue(word) => write_word(out, b"not a value: ", word.as_bytes()),
    }
}

// Writes a text, a word and another text.
#[tactic(auto, using(fits_stream::proofs::StreamLemmas::printing_steps))]
fn write_around<W: Sink>(
    out: &mut W,
    front: &[u8],
    word: &[u8],
    in_string: bool,
    back: &[u8],
) -> io::Result<()>
    ensures ok { OnOk result (Prints (front.now ++ (shown in_string word.now ++ back.now))
        (W.state out.old) (W.state out.new)) }
    ensures err { OnErr result (PrintsFront (front.now ++ (shown in_string word.now ++ back.now))
        (W.state out.old) (W.state out.new)) }
{
    write_all(out, front)?;
    write_shown(out, word, in_string)?;
    write_all(out, back)
}

// Writes a text, a number and another text.
#[tactic(auto, using(fits_stream::proofs::StreamLemmas::printing_steps))]
fn write_count<W: Sink>(out: &mut W, front: &[u8], count: usize, back: &[u8]) -> io::Result<()>
    ensures ok { OnOk result (Prints (front.now ++ (decimal count ++ back.now))
        (W.state out.old) (W.state out.new)) }
    ensures err { OnErr result (PrintsFront (front.now ++ (decimal count ++ back.now))
        (W.state out.old) (W.state out.new)) }
{
    write_all(out, front)?;
    write_decimal(out, count)?;
    write_all(out, back)
}

// Writes a text, a number, and the texts and the number after it.
#[tactic(auto, using(fits_stream::proofs::StreamLemmas::printing_steps))]
fn write_counts<W: Sink>(
    out: &mut W,
    front: &[u8],
    count: usize,
    middle: &[u8],
    other: usize,
    back: &[u8],
) -> io::Result<()>
    ensures ok { OnOk result (Prints
        (front.now ++ (decimal count ++ (middle.now ++ (decimal other ++ back.now))))
        (W.state out.old) (W.state out.new)) }
    ensures err { OnErr result (PrintsFront
        (front.now ++ (decimal count ++ (middle.now ++ (decimal other ++ back.now))))
        (W.state out.old) (W.state out.new)) }
{
    write_all(out, front)?;
    write_decimal(out, count)?;
    write_count(out, middle, other, back)
}

// Writes a text, and a word after it.
#[tactic(auto, using(fits_stream::proofs::StreamLemmas::printing_steps))]
fn write_word<W: Sink>(out: &mut W, text: &[u8], word: &[u8]) -> io::Result<()>
    ensures ok { OnOk result (Prints (text.now ++ shown_word word.now)
        (W.state out.old) (W.state out.new)) }
    ensures err { OnErr result (PrintsFront (text.now ++ shown_word word.now)
        (W.state out.old) (W.state out.new)) }
{
    write_all(out, text)?;
    write_shown(out, word, false)
}

// Writes a text, and a number after it.
#[tactic(auto, using(fits_stream::proofs::StreamLemmas::printing_steps))]
fn write_number<W: Sink>(out: &mut W, text: &[u8], number: usize) -> io::Result<()>
    ensures ok { OnOk result (Prints (text.now ++ decimal number)
        (W.state out.old) (W.state out.new)) }
    ensures err { OnErr result (PrintsFront (text.now ++ decimal number)
        (W.state out.old) (W.state out.new)) }
{
    write_all(out, text)?;
    write_decimal(out, number)
}

// Writes a number in decimal digits.
fn write_decimal<W: Sink>(out: &mut W, number: usize) -> io::Result<()>
    ensures ok { OnOk result (Prints (decimal number) (W.state out.old) (W.state out.new)) }
    ensures err { OnErr result (PrintsFront (decimal number) (W.state out.old) (W.state out.new)) }
{
    let mut digits = Buffer::new();
    write_all(out, digits.format(number).as_bytes())
}

// Writes at most 32 bytes of a word, and two dots where it has more.
#[tactic(auto, using(fits_stream::proofs::StreamLemmas::printing_steps), unfolding(crate::specs::Wording::shown))]
fn write_shown<W: Sink>(out: &mut W, word: &[u8], in_string: bool) -> io::Result<()>
    ensures ok { OnOk result (Prints (shown in_string word.now)
        (W.state out.old) (W.state out.new)) }
    ensures err { OnErr result (PrintsFront (shown in_string word.now)
        (W.state out.old) (W.state out.new)) }
{
    write_bytes(out, front_of(word), in_string)?;
    write_all(out, dots_after(word))
}

// The bytes of a word that are shown.
fn front_of(word: &[u8]) -> &[u8]
    ensures { result.now ≡ take 32 word.now }
{
    if word.len() <= SHOWN {
        return word;
    }
    word.split_at(SHOWN).0
}

// Two dots for a word that has more.
fn dots_after(word: &[u8]) -> &'static [u8]
    ensures { result.now ≡ if nat_lt 32 (length word.now) then (codes "..") else [] }
{
    if SHOWN < word.len() { b".." } else { b"" }
}

// Writes bytes as they are shown.
#[tactic(auto, using(crate::proofs::WordingLemmas::byte_steps))]
fn write_bytes<W: Sink>(out: &mut W, bytes: &[u8], in_string: bool) -> io::Result<()>
    ensures ok { OnOk result (Prints (flat_map (shown_byte in_string) bytes.now)
        (W.state out.old) (W.state out.new)) }
    ensures err { OnErr result (PrintsFront (flat_map (shown_byte in_string) bytes.now)
        (W.state out.old) (W.state out.new)) }
{
    for byte in bytes {
        write_byte(out, *byte, in_string)?;
    }
    Ok(())
}

// Writes a byte as it is shown.
fn write_byte<W: Sink>(out: &mut W, byte: u8, in_string: bool) -> io::Result<()>
    ensures ok { OnOk result (Prints (shown_byte in_string byte)
        (W.state out.old) (W.state out.new)) }
    ensures err { OnErr result (PrintsFront (shown_byte in_string byte)
        (W.state out.old) (W.state out.new)) }
{
    if byte < b' ' || b'~' < byte {
        write_all(out, b"?")
    } else if in_string && byte == b'\'' {
        write_all(out, b"''")
    } else {
        write_all(out, &[byte])
    }
}
