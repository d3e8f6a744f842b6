//! Tests of the address kinds, the refusals, the row stores and lookups, in a crate of their own so that theirs stay quick to prove.
#![tactic(auto)]

#[cfg(test)]
mod batches;
#[cfg(test)]
mod kinds;
#[cfg(test)]
mod lookups;
#[cfg(test)]
mod places;
#[cfg(test)]
mod refusals;
#[cfg(test)]
mod rows;
#[cfg(test)]
mod updates;
