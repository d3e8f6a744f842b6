//! Batches: changes staged in a list of the caller's, applied to a store all or none, and taken back.
#![tactic(auto)]

mod applying;
mod change;
mod staging;
mod undoing;

pub use applying::apply;
pub use change::Change;
pub use staging::{Batch, Staged};
pub use undoing::undo;
