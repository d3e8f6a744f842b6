//! Each record of each kind of address, whole and cut at every length. The records stand behind a head of two bytes.

use crate::places::{behind_head, change_refused, cut_refused};
use address::{Ipv4, Ipv6, Port};
use batch::Change;
use byte_form::FeedKind;
use feed::Record;
use rules::Refusal;

/// Whether what follows the head is read as a change just where the record is one.
fn told_inside_a_batch<A: FeedKind>(feed: &[u8], record: Record<A>) -> bool {
    match record {
        Record::Change(change) => behind_head::<A>(feed).is_some_and(|mut reader| {
            reader.next_change() == Ok((2, change)) && reader.place() == feed.len()
        }),
        Record::Lookup(_) | Record::Batch(_) => change_refused::<A>(feed, Refusal::NotAChange),
    }
}

/// Whether what follows the head is read as the record, to the feed's end, and is refused wherever it is cut.
fn told<A: FeedKind>(feed: &[u8], record: Record<A>) -> bool {
    let Some(mut reader) = behind_head::<A>(feed) else {
        return false;
    };
    reader.next() == Ok(Some((2, record)))
        && reader.place() == feed.len()
        && reader.unread().is_empty()
        && reader.next() == Ok(None)
        && reader.place() == feed.len()
        && told_inside_a_batch(feed, record)
        && cut_refused::<A>(feed)
}

#[test]
fn port_records(rt: HostRuntime) {
    let (start, finish) = (Port::new(0x1234), Port::new(0x5678));
    let add = Change::Add {
        start,
        finish,
        hop: 0x9ABC,
    };
    let added = [0x04, 1, 0x01, 0x12, 0x34, 0x56, 0x78, 0x9A, 0xBC];
    let removed = [0x04, 1, 0x02, 0x12, 0x34, 0x56, 0x78];
    assert!(rt; told(&added, Record::Change(add)));
    assert!(rt; told(&removed, Record::Change(Change::Remove { start, finish })));
    assert!(rt; told(&[0x04, 1, 0x03, 0x12, 0x34], Record::Lookup(start)));
    assert!(rt; told(&[0x04, 1, 0x04, 9], Record::<Port>::Batch(9)));
}

#[test]
fn ipv4_records(rt: HostRuntime) {
    let (start, finish) = (Ipv4::new(0x0A00_000A), Ipv4::new(0x0A00_001E));
    let add = Change::Add {
        start,
        finish,
        hop: 7,
    };
    let added = [0x04, 1, 0x01, 10, 0, 0, 10, 10, 0, 0, 30, 0, 7];
    let removed = [0x04, 1, 0x02, 10, 0, 0, 10, 10, 0, 0, 30];
    assert!(rt; told(&added, Record::Change(add)));
    assert!(rt; told(&removed, Record::Change(Change::Remove { start, finish })));
    assert!(rt; told(&[0x04, 1, 0x03, 10, 0, 0, 10], Record::Lookup(start)));
    assert!(rt; told(&[0x04, 1, 0x04, 64], Record::<Ipv4>::Batch(64)));
}

#[test]
fn ipv6_records(rt: HostRuntime) {
    let (start, finish) = (Ipv6::new(1, 2), Ipv6::new(0x0300, 0x0400));
    let add = Change::Add {
        start,
        finish,
        hop: 0x0102,
    };
    let added = [
        0x04, 1, 0x01, 0, 0, 0, 0, 0, 0, 0, 1, 0, 0, 0, 0, 0, 0, 0, 2, 0, 0, 0, 0, 0, 0, 3, 0, 0,
        0, 0, 0, 0, 0, 4, 0, 1, 2,
    ];
    let removed = [
        0x04, 1, 0x02, 0, 0, 0, 0, 0, 0, 0, 1, 0, 0, 0, 0, 0, 0, 0, 2, 0, 0, 0, 0, 0, 0, 3, 0, 0,
        0, 0, 0, 0, 0, 4, 0,
    ];
    let asked = [
        0x04, 1, 0x03, 0, 0, 0, 0, 0, 0, 0, 1, 0, 0, 0, 0, 0, 0, 0, 2,
    ];
    assert!(rt; told(&added, Record::Change(add)));
    assert!(rt; told(&removed, Record::Change(Change::Remove { start, finish })));
    assert!(rt; told(&asked, Record::Lookup(start)));
    assert!(rt; told(&[0x04, 1, 0x04, 1], Record::<Ipv6>::Batch(1)));
}

#[test]
fn unread_bytes_behind_a_record(rt: HostRuntime) {
    let Some(mut reader) = behind_head::<Port>(&[0x04, 1, 0x03, 0, 80, 0x05, 6, 7]) else {
        panic!(rt; "the feed begins with a head");
    };
    assert!(rt; reader.unread() == [0x03, 0, 80, 0x05, 6, 7].as_slice());
    assert!(rt; reader.next() == Ok(Some((2, Record::Lookup(Port::new(80))))));
    assert!(rt; reader.place() == 5);
    assert!(rt; reader.unread() == [0x05, 6, 7].as_slice());
}
