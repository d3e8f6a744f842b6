//! Readers behind a head of two bytes, so that what they read next has place 2.

use byte_form::FeedKind;
use feed::Reader;
use rules::Refusal;

/// A reader behind the head that the feed begins with, if it begins with one.
pub(crate) fn behind_head<A: FeedKind>(feed: &[u8]) -> Option<Reader<'_, A>> {
    let mut reader = Reader::new(feed);
    reader.next().ok()??;
    Some(reader)
}

/// Whether the reader still stands at place 2 of the feed.
pub(crate) fn is_behind_head<A: FeedKind>(reader: &Reader<'_, A>, feed: &[u8]) -> bool {
    reader.place() == 2 && feed.get(2..) == Some(reader.unread())
}

/// Whether what follows the head is refused so, as a record, and leaves the reader as it was.
pub(crate) fn next_refused<A: FeedKind>(feed: &[u8], refusal: Refusal) -> bool {
    behind_head::<A>(feed).is_some_and(|mut reader| {
        reader.next() == Err(refusal) && is_behind_head(&reader, feed)
    })
}

/// Whether what follows the head is refused so, as a change, and leaves the reader as it was.
pub(crate) fn change_refused<A: FeedKind>(feed: &[u8], refusal: Refusal) -> bool {
    behind_head::<A>(feed).is_some_and(|mut reader| {
        reader.next_change() == Err(refusal) && is_behind_head(&reader, feed)
    })
}

/// Whether each part of the feed that ends inside the record behind the head is refused, as a record and as a change.
pub(crate) fn cut_refused<A: FeedKind>(feed: &[u8]) -> bool {
    (3..feed.len()).all(|n| {
        feed.get(..n).is_some_and(|part| {
            next_refused::<A>(part, Refusal::FeedEnds)
                && change_refused::<A>(part, Refusal::FeedEnds)
        })
    })
}
