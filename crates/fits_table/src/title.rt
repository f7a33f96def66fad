ghost use Rattle.std.specs.Prelude.{◌≡◌, ℕ, List, Option, false, true, option_and_then};
ghost use Rattle.std.specs.List.{list_all, list_any};
ghost use Rattle.fits_rules.specs.Reads.{string_said};
ghost use Rattle.fits_table.specs.Marks.{is_marked, is_name_marked};
ghost use Rattle.fits_table.specs.Name.{are_one, is_odd_name, lowered};
ghost use Rattle.fits_table.specs.Print.{print_of, print_of_title};

use crate::marks::Marks;
use crate::names::{is_one_name, is_plain_name};
use crate::said::string_said;
use fits_card::Card;
use fits_value::CardString;
use std::marker::Model;

/// The name of a column, if its TTYPEn says one. Contracts see the text.
#[derive(Drop)]
pub(crate) struct Title {
    text: Option<CardString>,
    // A number of the text in small letters, by which most names are told apart at once.
    print: u64,
}

impl Model for Title {
    ghost use Rattle.std.specs.Prelude.{◌≡◌, List, Option, ℕ};
    ghost use Rattle.fits_table.specs.Print.{print_of_title};

    ghost Value = { Option (List ℕ) };

    ghost view = { λ it. it.text };

    ghost invariant = { λ it. it.print ≡ print_of_title it.text };
}

impl Title {
    /// The string that TTYPEn's lead says.
    pub fn of(lead: &Option<Card>) -> Title
        ensures { result ≡ option_and_then string_said lead.now }
    {
        let text = match lead {
            Some(card) => string_said(card),
            None => None,
        };
        let print = match &text {
            Some(text) => print_of(text.as_bytes()),
            None => 0,
        };
        Title { text, print }
    }

    /// Whether it has a character that isn't recommended.
    pub fn is_odd(&self) -> bool
        ensures { result ≡ is_odd_name self.now }
    {
        match &self.text {
            Some(text) => !is_plain_name(text.as_bytes()),
            None => false,
        }
    }

    /// Whether both are one name.
    #[tactic(auto, using(crate::proofs::PrintLemmas::print_steps))]
    pub fn is_one(&self, other: &Title) -> bool
        ensures { result ≡ are_one self.now other.now }
    {
        if self.print != other.print {
            return false;
        }
        match (&self.text, &other.text) {
            (Some(one), Some(other)) => is_one_name(one.as_bytes(), other.as_bytes()),
            _ => false,
        }
    }

    /// Marks the number of the name, if one is said.
    pub fn mark(&self, marks: &mut Marks)
        ensures marked { is_name_marked marks.new self.now ≡ true }
        ensures kept { (other : ℕ) → is_marked marks.old other ≡ true
            → is_marked marks.new other ≡ true }
    {
        if self.text.is_some() {
            marks.add(self.print);
        }
    }

    /// Whether one of the names that were marked may be this one.
    pub fn may_be_in(&self, marks: &Marks) -> bool
        ensures { (names : List (Option (List ℕ)))
            → list_all (is_name_marked marks.now) names ≡ true → result ≡ false
            → list_any (λ other. are_one other self.now) names ≡ false }
    {
        marks.has(self.print)
    }
}

// The number of a text.
#[tactic(auto, using(crate::proofs::PrintLemmas::number_steps))]
fn print_of(text: &[u8]) -> u64
    ensures { result ≡ print_of (lowered text.now) }
{
    let mut print: u64 = 0;
    for byte in text {
        print = print
            .wrapping_mul(31)
            .wrapping_add(byte.to_ascii_lowercase() as u64);
    }
    print
}
