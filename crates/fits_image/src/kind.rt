ghost use Rattle.std.specs.Prelude.{◌≡◌, ◌≤◌, ◌||◌, codes, is_none, pos};
ghost use Rattle.fits_rules.specs.Denotes.{lead_says_number};
ghost use Rattle.fits_rules.specs.Lead.{lead_card};
ghost use Rattle.fits_header.specs.State.{ReadsUpTo};
ghost use Rattle.fits_image.specs.Kind.{array_kind, convention, kind_of, is_plain, is_unscaled, has_offset, kind_in, offset_of, width_of};

use fits_card::Name;
use fits_header::Header;
use fits_rules::{array_bits, card_denotes, image_bits};

/// The type of an image's pixels: how many bits, and whether they are signed (FITS Standard 4.0,
/// sections 5.2.1 to 5.2.5).
#[derive(Clone, Copy, PartialEq, Eq, Debug)]
pub enum Kind {
    U8,
    /// Signed bytes: BITPIX 8 and the offset -128.
    I8,
    I16,
    /// BITPIX 16 and the offset 32768.
    U16,
    I32,
    /// BITPIX 32 and the offset 2147483648.
    U32,
    I64,
    /// BITPIX 64 and the offset 9223372036854775808.
    U64,
}

impl Kind {
    /// What is added to the number that stands in a pixel: the convention's offset, or 0 (FITS
    /// Standard 4.0, sections 4.4.2.5 and 5.2.5).
    pub fn offset(self) -> i128
        ensures { result ≡ offset_of self }
    {
        match self {
            Kind::I8 => -128,
            Kind::U16 => 1 << 15,
            Kind::U32 => 1 << 31,
            Kind::U64 => 1 << 63,
            Kind::U8 | Kind::I16 | Kind::I32 | Kind::I64 => 0,
        }
    }

    /// How many bytes a pixel has (FITS Standard 4.0, sections 5.2.1 to 5.2.4).
    pub fn width(self) -> usize
        ensures value { result ≡ width_of self }
        ensures some { 1 ≤ result }
        ensures within { result ≤ 8 }
    {
        match self {
            Kind::U8 | Kind::I8 => 1,
            Kind::I16 | Kind::U16 => 2,
            Kind::I32 | Kind::U32 => 4,
            Kind::I64 | Kind::U64 => 8,
        }
    }
}

const BZERO: Name = Name(*b"BZERO   ");

const BSCALE: Name = Name(*b"BSCALE  ");

// Whether the lead of BZERO denotes this offset.
#[tactic(auto, unfolding(fits_rules::specs::Denotes::lead_says_number))]
fn has_zero(header: &mut Header, offset: i128) -> bool
    ensures value { result
        ≡ lead_says_number header.old.header.cards (codes "BZERO   ") offset }
    ensures work { ReadsUpTo header.old header.new 1 }
{
    match header.lead_card(&BZERO) {
        Some(card) => card_denotes(&card, offset),
        None => false,
    }
}

// Whether BSCALE is absent or denotes 1.
#[tactic(auto, unfolding(fits_rules::specs::Denotes::lead_says_number))]
fn is_unscaled(header: &mut Header) -> bool
    ensures value { result ≡ is_unscaled header.old.header.cards }
    ensures work { ReadsUpTo header.old header.new 1 }
{
    match header.lead_card(&BSCALE) {
        Some(card) => card_denotes(&card, 1),
        None => true,
    }
}

// Whether BZERO is absent or denotes 0.
#[tactic(auto, unfolding(fits_rules::specs::Denotes::lead_says_number))]
fn adds_nothing(header: &mut Header) -> bool
    ensures value { result ≡ (is_none (lead_card header.old.header.cards (codes "BZERO   "))
        || lead_says_number header.old.header.cards (codes "BZERO   ") (pos 0)) }
    ensures work { ReadsUpTo header.old header.new 1 }
{
    match header.lead_card(&BZERO) {
        Some(card) => card_denotes(&card, 0),
        None => true,
    }
}

// Whether BZERO denotes this offset, and nothing is scaled.
fn has_offset(header: &mut Header, offset: i128) -> bool
    ensures value { result ≡ has_offset header.old.header.cards offset }
    ensures work { ReadsUpTo header.old header.new 2 }
{
    has_zero(header, offset) && is_unscaled(header)
}

// The offset of the convention for so many bits.
fn convention(bits: u64) -> i128
    ensures { result ≡ convention bits }
{
    match bits {
        8 => -128,
        16 => 1 << 15,
        32 => 1 << 31,
        _ => 1 << 63,
    }
}

// The type of pixels of so many bits, with the convention's offset or without.
fn kind_of(bits: u64, has_offset: bool) -> Kind
    ensures { result ≡ kind_of bits has_offset }
{
    match (bits, has_offset) {
        (8, false) => Kind::U8,
        (8, true) => Kind::I8,
        (16, false) => Kind::I16,
        (16, true) => Kind::U16,
        (32, false) => Kind::I32,
        (32, true) => Kind::U32,
        (_, false) => Kind::I64,
        (_, true) => Kind::U64,
    }
}

/// The type of pixels of so many bits, by BZERO and BSCALE (FITS Standard 4.0, sections 4.4.2.5 and
/// 5.2.5). It takes no memory.
pub fn pixel_kind(header: &mut Header, bits: u64) -> Kind
    ensures value { result
        ≡ kind_of bits (has_offset header.old.header.cards (convention bits)) }
    ensures work { ReadsUpTo header.old header.new 2 }
{
    let has_offset = has_offset(header, convention(bits));
    kind_of(bits, has_offset)
}

/// The kind of the integer image that a header describes. It takes no memory.
#[tactic(auto, unfolding(crate::specs::Kind::kind_in))]
pub fn image_kind(header: &mut Header) -> Option<Kind>
    ensures value { result ≡ kind_in header.old.shape header.old.header.cards }
    ensures work { ReadsUpTo header.old header.new 2 }
{
    let bits = image_bits(header.shape())?;
    Some(pixel_kind(header, bits))
}

/// The kind of the array of integers that a header describes, with axes or without. It takes no
/// memory.
#[tactic(auto, unfolding(crate::specs::Kind::array_kind))]
pub fn array_kind(header: &mut Header) -> Option<Kind>
    ensures value { result ≡ array_kind header.old.shape header.old.header.cards }
    ensures work { ReadsUpTo header.old header.new 2 }
{
    let bits = array_bits(header.shape())?;
    Some(pixel_kind(header, bits))
}

/// Whether a header says that pixels are neither scaled nor anything is added to them (FITS Standard
/// 4.0, section 4.4.2.5). It takes no memory.
#[tactic(auto, unfolding(crate::specs::Kind::is_plain))]
pub fn is_plain(header: &mut Header) -> bool
    ensures value { result ≡ is_plain header.old.header.cards }
    ensures work { ReadsUpTo header.old header.new 2 }
{
    is_unscaled(header) && adds_nothing(header)
}
