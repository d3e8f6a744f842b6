//! Edits of a tree of rules in a row of nodes: a rule enters, a rule leaves, a rule gets another hop.
//! An edit changes the row under every link, so it takes the row and a link, and no `Subtree`.
#![tactic(auto)]

mod hops;
mod inserts;
mod removes;

pub use hops::set_hop;
pub use inserts::insert;
pub use removes::remove;
