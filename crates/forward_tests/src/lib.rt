//! Tests of the forward question and of rows of lookups, in a crate of their own since they need a store.
#![tactic(auto)]

#[cfg(test)]
mod places;
#[cfg(test)]
mod questions;
#[cfg(test)]
mod rows;
