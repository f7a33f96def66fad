ghost use Rattle.fits_pixels.specs.Summary.{word_unit, words_joined, WordFits};
ghost use Rattle.fits_pixels.specs.SummaryLaws.{word_laws};

use crate::summary::Summary;

/// The sum of a part's words.
#[derive(Clone, Copy)]
pub struct WordSummary {
    pub total: u64,
}

impl Summary for WordSummary {
    ghost empty = { word_unit };

    ghost joined = { words_joined };

    ghost fits = { WordFits };

    ghost laws = { word_laws };

    fn unit() -> WordSummary {
        WordSummary { total: 0 }
    }

    fn join(self, other: WordSummary) -> WordSummary {
        WordSummary {
            total: self.total.wrapping_add(other.total),
        }
    }
}
