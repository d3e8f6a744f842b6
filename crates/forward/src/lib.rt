//! The forward question and rows of lookups, over every table of IPv4 addresses.
#![tactic(auto)]

mod question;
mod rows;

pub use question::{Unforwarded, forward};
pub use rows::lookup_row;
