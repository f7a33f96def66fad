//! The tests of the lower libraries, up to headers and data units, as tables of cases.
#![tactic(auto)]

#[cfg(test)]
mod cards;
#[cfg(test)]
mod checks;
#[cfg(test)]
mod indexes;
#[cfg(test)]
mod numbers;
#[cfg(test)]
mod planes;
#[cfg(test)]
mod shapes;
#[cfg(test)]
mod slots;
#[cfg(test)]
mod sums;
#[cfg(test)]
mod tables;
#[cfg(test)]
mod values;
#[cfg(test)]
mod writing;
