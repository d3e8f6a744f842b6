//! Prefixes of IPv4 and IPv6, the ranges they stand for, and the blocks that are not forwarded.
#![tactic(auto)]

mod bits;
mod blocks;
mod four;
mod laws;
mod six;
#[cfg(test)]
mod tests;

pub use blocks::is_blocked;
pub use four::Prefix4;
pub use laws::{block_laws, prefix_laws};
pub use six::Prefix6;
