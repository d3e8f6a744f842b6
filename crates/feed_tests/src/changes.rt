//! Reading the changes of a batch: changes, and what is refused in their place.

use crate::places::{behind_head, change_refused};
use address::{Ipv4, Port};
use batch::Change;
use rules::Refusal;

#[test]
fn two_changes(rt: HostRuntime) {
    let feed = [
        0x04, 2, 0x01, 0, 10, 0, 30, 0x12, 0x34, 0x02, 0, 10, 0, 30, 0x05,
    ];
    let Some(mut reader) = behind_head::<Port>(&feed) else {
        panic!(rt; "the feed begins with a head");
    };
    let (start, finish) = (Port::new(10), Port::new(30));
    let add = Change::Add {
        start,
        finish,
        hop: 0x1234,
    };
    assert!(rt; reader.next_change() == Ok((2, add)));
    assert!(rt; reader.place() == 9);
    assert!(rt; reader.next_change() == Ok((9, Change::Remove { start, finish })));
    assert!(rt; reader.unread() == [0x05].as_slice());
}

#[test]
fn no_change(rt: HostRuntime) {
    assert!(rt; change_refused::<Ipv4>(&[0x04, 1], Refusal::FeedEnds));
    assert!(rt; change_refused::<Ipv4>(&[0x04, 1, 0x03, 10, 0, 0, 25], Refusal::NotAChange));
    assert!(rt; change_refused::<Ipv4>(&[0x04, 1, 0x03, 10, 0, 0, 25, 0x01], Refusal::NotAChange));
    assert!(rt; change_refused::<Ipv4>(&[0x04, 1, 0x04, 2], Refusal::NotAChange));
    assert!(rt; change_refused::<Ipv4>(&[0x04, 1, 0x04, 0], Refusal::BadCount));
    assert!(rt; change_refused::<Ipv4>(&[0x04, 1, 0x03, 10, 0, 0], Refusal::FeedEnds));
    assert!(rt; change_refused::<Ipv4>(&[0x04, 1, 0x05], Refusal::UnknownRecord));
}
