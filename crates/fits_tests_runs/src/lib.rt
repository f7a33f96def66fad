//! The tests of runs over streams of which a call fails, as tables of cases.
#![tactic(auto)]

#[cfg(test)]
mod changing;
#[cfg(test)]
mod checks;
#[cfg(test)]
mod runs;
