//! The tests of edits in the file itself: redo files as a broken run leaves them, and calls that fail.
#![tactic(auto)]

#[cfg(test)]
mod broken;
#[cfg(test)]
mod crashing;
#[cfg(test)]
mod files;
#[cfg(test)]
mod recovered;
#[cfg(test)]
mod written;
