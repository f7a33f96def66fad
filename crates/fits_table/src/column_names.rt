//! The names of the keywords of columns.
ghost use Rattle.std.specs.Prelude.{◌≡◌, ℕ, false, codes};
ghost use Rattle.std.specs.List.{list_all};
ghost use Rattle.fits_codes.specs.Keywords.{is_count, is_one_of};
ghost use Rattle.fits_rules.specs.Shape.{axis_name};
ghost use Rattle.fits_value.specs.Characters.{is_space};
ghost use Rattle.fits_table.specs.Leads.{column_name, column_roots, count_after, column_number, is_after, is_past, front_number};

use crate::numerals::{numeral, split_digits};
use fits_card::{Card, Name};

/// Roots of five letters.
const ROOTS: [[u8; 5]; 12] = [
    *b"TFORM", *b"TBCOL", *b"TTYPE", *b"TUNIT", *b"TNULL", *b"TSCAL", *b"TZERO", *b"TDISP",
    *b"TDMIN", *b"TDMAX", *b"TLMIN", *b"TLMAX",
];

/// The keyword of a column that has this root, by that of the axis of the same number.
pub(crate) fn column_name(root: &[u8; 5], axis: &Name) -> Name
    ensures { (n : ℕ) → axis.now ≡ axis_name n → result ≡ column_name root.now n }
{
    let [_, _, _, _, _, first, second, third] = axis.0;
    let [a, b, c, d, e] = *root;
    Name([a, b, c, d, e, first, second, third])
}

/// The keyword TDIMn, by that of the axis of the same number.
pub(crate) fn dimensions_name(axis: &Name) -> Name
    ensures { (n : ℕ) → axis.now ≡ axis_name n → result ≡ column_name (codes "TDIM") n }
{
    let [_, _, _, _, _, first, second, third] = axis.0;
    Name([b'T', b'D', b'I', b'M', first, second, third, b' '])
}

// Whether the bytes are spaces.
fn are_spaces(text: &[u8]) -> bool
    ensures { result ≡ list_all is_space text.now }
{
    text.iter().all(|byte| *byte == b' ')
}

// Whether digits are those of a number from 1 on.
fn is_count(digits: &[u8]) -> bool
    ensures { result ≡ is_count digits.now }
{
    match digits {
        [] => false,
        [first, ..] => *first != b'0',
    }
}

// digits, without zeros before them, then spaces
fn count_after(rest: &[u8]) -> Option<u64>
    ensures { result ≡ count_after rest.now }
{
    let (digits, spaces) = split_digits(rest);
    if is_count(digits) && are_spaces(spaces) {
        numeral(digits)
    } else {
        None
    }
}

// Whether the text is one of the roots.
fn is_root(text: &[u8]) -> bool
    ensures { result ≡ is_one_of column_roots text.now }
{
    ROOTS.iter().any(|root| text == root.as_slice())
}

// The number of the column that a keyword is of.
#[tactic(auto, unfolding(crate::specs::Leads::column_number))]
fn column_number(name: &Name) -> Option<u64>
    ensures { result ≡ column_number name.now }
{
    let (root, rest) = name.0.split_at(5);
    if is_root(root) {
        return count_after(rest);
    }
    let (root, rest) = name.0.split_at(4);
    if root == b"TDIM".as_slice() {
        count_after(rest)
    } else {
        None
    }
}

// Whether a number is one after so many.
fn is_after(fields: u64, number: Option<u64>) -> bool
    ensures { result ≡ is_after fields number }
{
    match number {
        Some(number) => fields < number,
        None => false,
    }
}

// The number of the digits that three bytes begin with.
fn front_number(first: u8, second: u8, third: u8) -> u64
    ensures { result ≡ front_number first second third }
{
    if !first.is_ascii_digit() {
        return 0;
    }
    let number = (first - b'0') as u64;
    if !second.is_ascii_digit() {
        return number;
    }
    let number = number * 10 + (second - b'0') as u64;
    if !third.is_ascii_digit() {
        return number;
    }
    number * 10 + (third - b'0') as u64
}

// Whether a keyword may be that of a column after so many, by its digits alone.
fn may_be_past(fields: u64, name: &Name) -> bool
    ensures { result ≡ false → is_after fields (column_number name.now) ≡ false }
{
    let [_, _, _, _, fifth, first, second, third] = name.0;
    fifth.is_ascii_digit() || fields < front_number(first, second, third)
}

/// Whether a card has a value for a column after so many.
#[tactic(auto, using(crate::proofs::ColumnNameLemmas::past_steps))]
pub(crate) fn is_past(fields: u64, card: &Card) -> bool
    ensures { result ≡ is_past fields card.now }
{
    let name = card.name();
    // Most numbers are those of columns that are there: neither the value nor the root is looked at.
    if !may_be_past(fields, &name) {
        return false;
    }
    card.has_value() && is_after(fields, column_number(&name))
}
