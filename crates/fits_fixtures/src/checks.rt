//! What tests ask of what they find. A call is proved sooner than the branches of an assertion. The functions that are
//! called may end the test, so they stand with the tests, in `checks`.

/// `same!(rt; found, wanted, case)`; a test of one case names none.
#[macro_export]
macro_rules! same {
    ($rt:expr; $found:expr, $wanted:expr) => {
        crate::checks::check_same(&$rt, &$found, &$wanted, stringify!($found), &"the test")
    };
    ($rt:expr; $found:expr, $wanted:expr, $case:expr) => {
        crate::checks::check_same(&$rt, &$found, &$wanted, stringify!($found), &$case)
    };
}

/// `holds!(rt; condition, case)`; a test of one case names none.
#[macro_export]
macro_rules! holds {
    ($rt:expr; $is_so:expr) => {
        crate::checks::check_holds(&$rt, $is_so, stringify!($is_so), &"the test")
    };
    ($rt:expr; $is_so:expr, $case:expr) => {
        crate::checks::check_holds(&$rt, $is_so, stringify!($is_so), &$case)
    };
}
