//! The engine of the tree stores: one balanced tree of rules with its free nodes.
#![tactic(auto)]

mod engine;
mod spare;

pub use engine::Engine;
