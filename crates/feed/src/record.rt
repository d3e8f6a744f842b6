//! One record of a feed.

use batch::Change;

/// A change, a lookup of an address, or the head of a batch with the number of its changes.
#[derive(Clone, Copy, PartialEq, Eq, Debug)]
pub enum Record<A> {
    Change(Change<A>),
    Lookup(A),
    Batch(u8),
}
