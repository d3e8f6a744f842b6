//! Sets of rules counted from the other end: what a question about starts is there, as a question about finishes.
#![tactic(auto)]

mod laws;

pub use laws::mirrored_sets;
