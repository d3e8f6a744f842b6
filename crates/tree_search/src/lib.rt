//! Searches in a tree of rules, each a descent by a loop.
#![tactic(auto)]

mod cover;
mod ends;
mod ranges;

pub use cover::first_covering;
pub use ends::{finish_before, finish_from};
pub use ranges::{find, hop_in};
