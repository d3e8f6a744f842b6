//! The tree store: rules as two balanced trees in the caller's memory, for every kind of address.
#![tactic(auto)]

mod store;

pub use store::{Ipv4Tree, Ipv6Tree, PortTree, TreeStore};
