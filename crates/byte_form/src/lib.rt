//! The byte form of addresses, in which feeds carry them.
#![tactic(auto)]

mod feed_kind;

pub use feed_kind::FeedKind;
