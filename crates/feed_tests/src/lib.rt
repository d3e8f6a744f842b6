//! Tests of the byte form, the reader of feeds and the answer lines, in a crate of their own so that theirs stay quick to prove.
#![tactic(auto)]

#[cfg(test)]
mod answers;
#[cfg(test)]
mod changes;
#[cfg(test)]
mod forms;
#[cfg(test)]
mod heads;
#[cfg(test)]
mod places;
#[cfg(test)]
mod records;
#[cfg(test)]
mod runs;
