//! Row stores: rules in one row of the caller's memory, for every kind of address.
#![tactic(auto)]

mod edits;
mod scan;
mod store;

pub use store::{Ipv4Row, Ipv6Row, PortRow, RowStore};
