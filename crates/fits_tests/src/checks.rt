//! What `same!` and `holds!` of `fits_fixtures` call.
ghost use Rattle.std.specs.Prelude.{◌≡◌, true};

use std::fmt::Debug;
use std::process::Abort;

/// Ends the test where what a case comes to isn't what is wanted.
pub fn check_same<R: Abort, T: PartialEq + Debug, C: Debug>(
    rt: &R,
    found: &T,
    wanted: &T,
    what: &str,
    case: &C,
) {
    assert_eq!(rt; *found, *wanted, "{what} of {case:?}");
}

/// Ends the test where something doesn't hold in a case.
pub fn check_holds<R: Abort, C: Debug>(rt: &R, is_so: bool, what: &str, case: &C)
    ensures { is_so ≡ true }
{
    assert!(rt; is_so, "{what} of {case:?}");
}
