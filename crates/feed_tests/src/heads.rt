//! Unknown kind bytes, with a body behind them and without, and heads that count 0, 1 to 64, or more.

use crate::places::{change_refused, next_refused};
use address::{Ipv4, Ipv6, Port};
use byte_form::FeedKind;
use feed::{Reader, Record};
use rules::Refusal;

/// Whether what follows the head is refused so, as a record and as a change.
fn refused<A: FeedKind>(feed: &[u8], refusal: Refusal) -> bool {
    next_refused::<A>(feed, refusal) && change_refused::<A>(feed, refusal)
}

fn unknown_kinds<A: FeedKind>() -> bool {
    [0x00, 0x05, 0x10, 0xFF].iter().all(|kind| {
        refused::<A>(&[0x04, 1, *kind], Refusal::UnknownRecord)
            && refused::<A>(&[0x04, 1, *kind, 1, 2, 3, 4, 5, 6], Refusal::UnknownRecord)
    })
}

fn bad_counts<A: FeedKind>() -> bool {
    [0, 65, 255].iter().all(|n| {
        refused::<A>(&[0x04, 1, 0x04, *n], Refusal::BadCount)
            && refused::<A>(&[0x04, 1, 0x04, *n, 0x03], Refusal::BadCount)
    })
}

/// Whether a head of n changes is read, whatever stands behind it.
fn counts<A: FeedKind>(n: u8) -> bool {
    let feed = [0x04, n, 0x05];
    let mut reader = Reader::<A>::new(&feed);
    reader.next() == Ok(Some((0, Record::Batch(n)))) && reader.place() == 2
}

#[test]
fn kinds_that_are_unknown(rt: HostRuntime) {
    assert!(rt; unknown_kinds::<Port>());
    assert!(rt; unknown_kinds::<Ipv4>());
    assert!(rt; unknown_kinds::<Ipv6>());
}

#[test]
fn heads_that_count_badly(rt: HostRuntime) {
    assert!(rt; bad_counts::<Port>());
    assert!(rt; bad_counts::<Ipv4>());
    assert!(rt; bad_counts::<Ipv6>());
}

#[test]
fn heads_of_1_to_64(rt: HostRuntime) {
    assert!(rt; (1..=64).all(|n| counts::<Port>(n) && counts::<Ipv4>(n) && counts::<Ipv6>(n)));
}
