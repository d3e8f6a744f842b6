//! A reader that goes along the caller's feed, record by record.

mod calls;

ghost use Rattle.std.specs.Prelude.{◌≤◌, length};

use std::marker::PhantomData;

/// The caller's feed of addresses of kind `A`, and the place of the first byte that is not read yet.
// A slice and a place, and no shrinking slice: records and faults are told by their places in the feed.
#[derive(Drop)]
pub struct Reader<'a, A> {
    feed: &'a [u8],
    place: usize,
    kind: PhantomData<A>,
    ghost within: { place ≤ length feed.now },
}
