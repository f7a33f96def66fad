//! Laws of the definitions.
ghost use Rattle.fits_diff.specs.Laws.{NothingIsToldOfOneFile};

/// No line tells what differs in two files exactly where they are one.
pub fn nothing_is_told_of_one_file()
    ensures { NothingIsToldOfOneFile }
{}
