//! The table: what can be asked of any store and changed in it, proved once for every store.
#![tactic(auto)]

mod calls;
mod cases;
mod resolution;

pub use calls::Table;
pub use cases::worked_cases;
