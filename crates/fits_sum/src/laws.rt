//! Laws of the definitions, each the contract of a function that does nothing.
ghost use Rattle.fits_sum.specs.Laws.{TotalsAdd, TotalsAreBounded, SumsFold, ComplementsMakeAllOnes, TextsAreLettersAndDigits, TextsAddComplements, TextsAddComplementsAnywhere, StampedSumsToAllOnes};

/// The total of bytes end to end is the sum of their totals, where the first are whole words.
pub fn totals_add()
    ensures { TotalsAdd }
{}

/// A total of n words of bytes is at most n times all ones.
pub fn totals_are_bounded()
    ensures { TotalsAreBounded }
{}

/// Sums may be taken part by part, and folded again.
pub fn sums_fold()
    ensures { SumsFold }
{}

/// A total and the complement of its sum make all ones.
pub fn complements_make_all_ones()
    ensures { ComplementsMakeAllOnes }
{}

/// A checksum text is sixteen letters and digits.
pub fn texts_are_letters_and_digits()
    ensures { TextsAreLettersAndDigits }
{}

/// In place of sixteen `0` in a card's bytes 12 to 27, the text adds its sum's complement.
pub fn texts_add_complements()
    ensures card { TextsAddComplements }
    ensures anywhere { TextsAddComplementsAnywhere }
{}

/// An HDU stamped with the text of its sum with sixteen `0` sums to all ones.
pub fn stamped_sums_to_all_ones()
    ensures { StampedSumsToAllOnes }
{}
