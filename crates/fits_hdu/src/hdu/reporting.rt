//! What is found of an HDU under edits.
ghost use Rattle.std.specs.Prelude.{◌≡◌};

use super::Hdu;
use fits_codes::{Code, CodeSet, judge_header_mark};
use fits_header::{Counts, Finding};
use fits_passing::{Verdicts, verdicts_by, whole_sum, with_data_codes};
use fits_sum::fold;
use std::alloc::{AllocError, Global};

impl Hdu {
    ghost use Rattle.std.specs.Prelude.{◌≡◌, ◌+◌, ◌≤◌, ◌^◌, length, Ok, IfOk};
    ghost use Rattle.fits_header.specs.Findings.{card_findings};
    ghost use Rattle.fits_passing.specs.Findings.{hdu_counts, whole_codes};
    ghost use Rattle.fits_passing.specs.Hdu.{hdu_bytes};
    ghost use Rattle.fits_hdu.specs.State.{parts_of, IsDescribed, IsSeen};
    ghost use Rattle.fits_passing.specs.Sums.{data_sum, verdicts_of};

    /// The sum of its data unit, with the fill (FITS Standard 4.0, Appendix J). It takes no memory,
    /// and nothing is read.
    #[tactic(auto, unfolding(fits_passing::specs::Sums::data_sum))]
    pub fn datasum(&self) -> u32
        requires { IsSeen self.now }
        ensures { result ≡ data_sum (parts_of self.now) }
    {
        fold(self.unit.total())
    }

    /// Whether its sums are right (FITS Standard 4.0, section 4.4.2.7). It takes no memory, and
    /// reads no card and no block.
    pub fn verdicts(&self) -> Verdicts
        requires known { IsSeen self.now }
        requires small { length (hdu_bytes (parts_of self.now)) ≤ 2 ^ 34 }
        ensures { result ≡ verdicts_of (parts_of self.now) }
    {
        // A header is of whole words, so the data unit's total adds to its own.
        let _whole_words = self.header.len();
        let unit = self.unit.total();
        let whole = whole_sum(self.header.total(), unit);
        verdicts_by(self.sums, fold(unit), whole)
    }

    /// The codes of it as a whole but for that of its name, by number: those of its header, and then
    /// those of its data and its sums. It takes no memory, and reads no card and no block.
    #[tactic(auto, using(crate::proofs::ReportLemmas::report_steps))]
    pub fn whole(&self) -> CodeSet
        requires known { IsSeen self.now }
        requires small { length (hdu_bytes (parts_of self.now)) ≤ 2 ^ 34 }
        ensures { result ≡ whole_codes self.now.header.shape (parts_of self.now) }
    {
        let codes = judge_header_mark(&self.mark, self.header.shape());
        with_data_codes(codes, self.unit.fill_ok(), self.verdicts())
    }

    /// What is found of its cards: by place, and at each by code. No card is read.
    pub fn findings(&mut self, alloc: Global) -> Result<Vec<Finding>, AllocError>
        ensures found { IfOk result (λ found. found.items
            ≡ card_findings self.old.header.shape self.old.header.header.cards) }
        ensures described { IsDescribed self.old }
        ensures same { self.new ≡ self.old }
    {
        self.header.findings(alloc)
    }

    /// How many errors and warnings are found of it, which is called as another extension is or
    /// isn't. It takes no memory, and reads no card.
    pub fn counts(&mut self, repeated: bool) -> Counts
        requires known { IsSeen self.old }
        requires small { length (hdu_bytes (parts_of self.old)) ≤ 2 ^ 34 }
        ensures value { result ≡ hdu_counts self.old.header.shape (parts_of self.old) repeated }
        ensures described { IsDescribed self.old }
        ensures within { result.errors + result.warnings ≤ length (hdu_bytes (parts_of self.old)) }
        ensures same { self.new ≡ self.old }
    {
        // A card has fewer codes than bytes, and so have the whole and END.
        let _few = self.header.len();
        let whole = self.whole();
        let of_whole = Counts::of(whole.as_slice());
        let of_cards = self.header.counts();
        let counts = of_whole.plus(of_cards);
        if repeated {
            return counts.plus(Counts::of(&[Code::DuplicateExtension]));
        }
        counts
    }
}
