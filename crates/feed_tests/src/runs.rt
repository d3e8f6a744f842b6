//! Runs over a feed of several records, cut at every length, and up to an unknown kind byte.

use address::Ipv4;
use feed::{Reader, first_fault};
use rules::Refusal;

/// An add, a lookup, a head of two and its two changes, and a byte of no kind.
const FEED: [u8; 39] = [
    0x01, 10, 0, 0, 10, 10, 0, 0, 30, 0, 7, 0x03, 10, 0, 0, 25, 0x04, 2, 0x02, 10, 0, 0, 10, 10, 0,
    0, 30, 0x01, 10, 0, 0, 1, 10, 0, 0, 2, 0, 1, 0x05,
];

/// Where its records begin, and where the last ends.
const STARTS: [usize; 6] = [0, 11, 16, 18, 27, 38];

/// The fault of the feed's first n bytes: the feed ends inside the record that begins last, if none begins at the end.
fn fault_of(n: usize) -> Option<(usize, Refusal)> {
    if STARTS.contains(&n) {
        return None;
    }
    STARTS
        .iter()
        .rev()
        .find(|start| **start < n)
        .map(|start| (*start, Refusal::FeedEnds))
}

/// Whether a reader's run to the end of the feed ends so, and stands at the fault or at the end.
fn runs(feed: &[u8], fault: Option<(usize, Refusal)>) -> bool {
    let mut reader = Reader::<Ipv4>::new(feed);
    let end = reader.skip_rest();
    match fault {
        None => end == Ok(()) && reader.place() == feed.len(),
        Some((place, refusal)) => end == Err(refusal) && reader.place() == place,
    }
}

/// Whether the first n bytes of the feed have their fault, told by a run and by a reader.
fn told(n: usize, fault: Option<(usize, Refusal)>) -> bool {
    FEED.get(..n).is_some_and(|feed| first_fault::<Ipv4>(feed) == fault && runs(feed, fault))
}

#[test]
fn cut_anywhere(rt: HostRuntime) {
    assert!(rt; (0..=38).all(|n| told(n, fault_of(n))));
}

#[test]
fn unknown_behind(rt: HostRuntime) {
    assert!(rt; told(39, Some((38, Refusal::UnknownRecord))));
}
