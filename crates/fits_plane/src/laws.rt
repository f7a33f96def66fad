//! What stands of rectangles and of runs whatever is written, of tests whatever they are of, and of
//! summaries whatever they are joined from, as contracts.
ghost use Rattle.fits_pixels.specs.Pixels.{CanStoreDecides, CanStoreAllDecides};
ghost use Rattle.fits_pixels.specs.Statistics.{JoinedIsExact, OffsetIsExact};
ghost use Rattle.fits_plane.specs.Converting.{CanStoreRunDecides, ConvertingKeepsValues, RunIsWritten, WrittenIsRun};
ghost use Rattle.fits_plane.specs.Rectangle.{LiesWithinDecides, RectangleIsWritten, WrittenIsRectangle};

/// A rectangle of numbers is written.
pub fn rectangles_are_written()
    ensures { RectangleIsWritten }
{}

/// It is written in one way.
pub fn rectangles_are_written_in_one_way()
    ensures { WrittenIsRectangle }
{}

/// Numbers that can be stored are written one after the other.
pub fn runs_are_written()
    ensures { RunIsWritten }
{}

/// They are written in one way.
pub fn runs_are_written_in_one_way()
    ensures { WrittenIsRun }
{}

/// Pixels that are stored anew keep their values, and the others are zero.
pub fn converting_keeps_values()
    ensures { ConvertingKeepsValues }
{}

/// The summaries of single pixels, fewer than 2^62, are joined to their statistics.
pub fn summaries_join_exactly()
    ensures { JoinedIsExact }
{}

/// The tests of rectangles and of numbers say what they ask.
pub fn tests_decide()
    ensures lies_within { LiesWithinDecides }
    ensures can_store { CanStoreDecides }
    ensures can_store_all { CanStoreAllDecides }
    ensures can_store_run { CanStoreRunDecides }
{}

/// The statistics of stored numbers give those of their values.
pub fn offsets_are_exact()
    ensures { OffsetIsExact }
{}
