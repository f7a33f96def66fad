ghost use Rattle.std.specs.Prelude.{◌≡◌, ◌<◌, ◌≤◌, ◌+◌, [], ◌∷◌, ◌++◌, length, if◌then◌else◌, IsTrue};

use crate::code::Code;
use std::marker::Model;

/// The most codes that one card or one header can have.
pub const MOST_CODES: usize = 13;

/// The codes of a card, or of a header or an HDU as a whole. Contracts see them as a list, by
/// number.
#[derive(Clone, Copy)]
pub struct CodeSet {
    // The first code of all fills the places after the codes.
    codes: [Code; MOST_CODES],
    len: u8,
}

impl Model for CodeSet {
    ghost use Rattle.std.specs.Prelude.{◌≡◌, ◌≤◌, ◌-◌, ◌++◌, ℕ, List, length, take, replicate};
    ghost use Rattle.std.proofs.Common.{ap, ◌∙◌};
    ghost use Rattle.fits_codes.specs.declared.code_set.TheConstants.{MOST_CODES};
    ghost use Rattle.fits_codes.specs.declared.code.Code.{Code};
    ghost use Rattle.fits_codes.specs.declared.code.Code.TheVariants.{NotText};

    ghost Value = { List Code };

    ghost view = { λ set. take set.len set.codes };

    ghost invariant = { λ set. record {
      within : set.len ≤ MOST_CODES;
      size : length (take set.len set.codes) ≡ set.len;
      padded : take set.len set.codes ++ replicate (MOST_CODES - set.len) NotText ≡ set.codes;
    } };

    ghost inverse = { λ found. record {
      codes = found ++ replicate (MOST_CODES - length found) NotText;
      len = length found;
    } };

    ghost inverse_ok = { λ set whole i. record {
      codes = (ap (λ n. take set.len set.codes ++ replicate (MOST_CODES - n) NotText) whole.size ∙ whole.padded) i;
      len = whole.size i;
    } };
}

impl CodeSet {
    ghost use Rattle.fits_codes.specs.Code.{is_among};

    pub(crate) fn new() -> CodeSet
        ensures { result ≡ [] }
    {
        CodeSet {
            codes: [Code::NotText; MOST_CODES],
            len: 0,
        }
    }

    /// Puts a code after the others.
    pub fn push(&mut self, code: Code)
        requires { length self.old < MOST_CODES }
        ensures { self.new ≡ self.old ++ code ∷ [] }
    {
        self.codes[self.len as usize] = code;
        self.len += 1;
    }

    /// Puts a code after the others, where it holds.
    pub(crate) fn push_where(&mut self, code: Code, holds: bool)
        requires { length self.old < MOST_CODES }
        ensures value { self.new ≡ self.old ++ (if holds then code ∷ [] else []) }
        ensures few { length self.new ≤ length self.old + 1 }
    {
        if holds {
            self.push(code);
        }
    }

    /// Whether it has none.
    pub(crate) fn is_empty(&self) -> bool
        ensures { IsTrue result → self.now ≡ [] }
    {
        self.len == 0
    }

    /// The codes, by number.
    pub fn as_slice(&self) -> &[Code]
        ensures value { result.now ≡ self.now }
        ensures within { length self.now ≤ MOST_CODES }
    {
        &self.codes[..self.len as usize]
    }

    /// Whether the code is among them.
    #[tactic(auto, unfolding(crate::specs::Code::is_among))]
    pub fn contains(&self, code: Code) -> bool
        ensures { result ≡ is_among self.now code }
    {
        self.as_slice()
            .iter()
            .any(|other| other.number() == code.number())
    }
}
