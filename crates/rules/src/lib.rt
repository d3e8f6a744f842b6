//! The vocabulary of range sets: rules, refusals, what a store of rules is, and the laws of its definitions.
#![tactic(auto)]

mod boundary;
mod laws;
mod refusal;
mod rule;
mod store;

pub use boundary::{nearer, nearer_end};
pub use laws::{conflict_free_sets, range_sets, searches};
pub use refusal::Refusal;
pub use rule::{Rule, is_default};
pub use store::{MAX_RULES, RangeStore};
