ghost use Rattle.std.specs.Prelude.{◌≡◌, ◌++◌, option_and_then};
ghost use Rattle.std.proofs.Common.{rules};
ghost use Rattle.std.specs.Cmp.Rules.{comparing, hashing};
ghost use Rattle.std.specs.Hash as fed;
ghost use Rattle.fits_card.specs.Header.{card_at};
ghost use Rattle.fits_header.specs.State.{ReadsUpTo};
ghost use Rattle.fits_rules.specs.Class.{is_primary};
ghost use Rattle.fits_rules.specs.Reads.{string_said};
ghost use Rattle.fits_passing.specs.ExtensionName.{called, extension_name, names_something, version_said};
ghost use Rattle.fits_passing.specs.Work.{name_reads};

use fits_card::{Card, Name};
use fits_header::Header;
use fits_rules::{IntegerSaid, integer_said};
use fits_value::{CardString, card_string};
use std::hash::{Hash, Hasher};

const EXTNAME: Name = Name(*b"EXTNAME ");

const EXTVER: Name = Name(*b"EXTVER  ");

/// What an extension is called (FITS Standard 4.0, sections 4.4.1.2 and 4.4.2.6). Two extensions of
/// one file shouldn't be called the same.
#[derive(Clone, Copy)]
pub struct ExtensionName {
    /// The text of XTENSION: the type of the extension.
    pub xtension: CardString,
    /// The text of EXTNAME.
    pub extname: CardString,
    /// The number of EXTVER, or 1.
    pub extver: i64,
}

impl ExtensionName {
    ghost use Rattle.std.specs.Prelude.{◌≡◌};
    ghost use Rattle.fits_passing.specs.ExtensionName.{is_same_name};

    /// Whether two extensions are called the same. It takes no memory.
    pub fn is_same(&self, other: &ExtensionName) -> bool
        ensures { result ≡ is_same_name self.now other.now }
    {
        self.extver == other.extver
            && (self.xtension.as_bytes() == other.xtension.as_bytes()
                && self.extname.as_bytes() == other.extname.as_bytes())
    }
}

impl PartialEq for ExtensionName {
    ghost use Rattle.fits_passing.specs.ExtensionName.{is_same_name};

    ghost eq = { is_same_name };

    ghost laws = { Prim.search (comparing, rules) };

    fn eq(&self, other: &ExtensionName) -> bool {
        self.is_same(other)
    }
}

impl Eq for ExtensionName {
    ghost laws = { Prim.search (comparing, rules) };
}

impl Hash for ExtensionName {
    ghost hash_input = { λ name. fed.i64 name.extver
        ++ (fed.slice fed.u8 name.xtension ++ fed.slice fed.u8 name.extname) };

    ghost respects_eq = { Prim.search (hashing, rules) };

    fn hash<H: Hasher>(&self, state: &mut H) {
        self.extver.hash(state);
        self.xtension.as_bytes().hash(state);
        self.extname.as_bytes().hash(state);
    }
}

/// What the HDU of a header is called. It takes no memory.
#[tactic(auto, unfolding(crate::specs::ExtensionName::extension_name))]
pub fn extension_name(header: &mut Header) -> Option<ExtensionName>
    ensures value { result
        ≡ extension_name (is_primary header.old.shape.class) header.old.header.cards }
    ensures work { ReadsUpTo header.old header.new name_reads }
{
    if header.shape().class.is_primary() {
        return None;
    }
    let xtension = string_of(first_card(header));
    let extname = string_of(header.lead_card(&EXTNAME));
    let extver = version_of(header.lead_card(&EXTVER));
    called(xtension, extname, extver)
}

// The card at place 1, if there is a card.
fn first_card(header: &mut Header) -> Option<Card>
    ensures value { result ≡ card_at header.old.header.cards 1 }
    ensures work { ReadsUpTo header.old header.new 1 }
{
    if header.len() == 0 {
        return None;
    }
    Some(header.card(1))
}

// The string that a card says, if there is one.
fn string_of(card: Option<Card>) -> Option<CardString>
    ensures { result ≡ option_and_then string_said card }
{
    match card {
        Some(card) => string_said(&card),
        None => None,
    }
}

// The string that a card says alone.
#[tactic(auto, unfolding(fits_rules::specs::Reads::string_said))]
fn string_said(card: &Card) -> Option<CardString>
    ensures { result ≡ string_said card.now }
{
    if !card.has_value() {
        return None;
    }
    card_string(card)
}

// The version that the lead of EXTVER says, if there is one.
fn version_of(lead: Option<Card>) -> i64
    ensures { result ≡ version_said lead }
{
    let Some(card) = lead else {
        return 1;
    };
    match integer_said(&card) {
        IntegerSaid::Number(number) => number,
        _ => 1,
    }
}

// Whether a text names something.
fn names_something(text: &[u8]) -> bool
    ensures { result ≡ names_something text.now }
{
    text != b"".as_slice() && text != b" ".as_slice()
}

// What a type, a name and a version call an extension.
fn called(
    xtension: Option<CardString>,
    extname: Option<CardString>,
    extver: i64,
) -> Option<ExtensionName>
    ensures { result ≡ called xtension extname extver }
{
    let (Some(xtension), Some(extname)) = (xtension, extname) else {
        return None;
    };
    if !names_something(extname.as_bytes()) {
        return None;
    }
    Some(ExtensionName {
        xtension,
        extname,
        extver,
    })
}
