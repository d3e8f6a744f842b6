//! A balanced tree of rules over a row of nodes: reading a node, making one, and turning where one side is too high.
#![tactic(auto)]

mod joins;
mod node;
mod subtree;
mod turns;

pub use joins::{join, node_at, write};
pub use node::{Branch, Node};
pub use subtree::Subtree;
pub use turns::balance;
