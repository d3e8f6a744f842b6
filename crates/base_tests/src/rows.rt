//! Row stores with no place, one place and full.

use address::Port;
use row_store::PortRow;
use rules::{RangeStore, Refusal, Rule};

/// A rule to fill memory with before a store takes it.
// Each test has junk of its own: a store begins empty, whatever it finds.
fn blank() -> Rule<Port> {
    Rule {
        start: Port::new(9),
        finish: Port::new(3),
        hop: 77,
    }
}

#[test]
fn no_place(rt: HostRuntime) {
    let mut row = [blank(); 0];
    let mut store = PortRow::new(&mut row);
    assert_eq!(rt; store.capacity(), 0);
    assert!(rt; store.put(Port::new(1), Port::new(2), 3) == Err(Refusal::Full));
    assert!(rt; store.put(Port::new(2), Port::new(1), 3) == Err(Refusal::Backwards));
    assert!(rt; store.take(Port::new(1), Port::new(2)) == Err(Refusal::NotHeld));
    assert_eq!(rt; store.count(), 0);
}

#[test]
fn one_place_serves_again(rt: HostRuntime) {
    let mut row = [blank(); 1];
    let mut store = PortRow::new(&mut row);
    assert!(rt; store.hop_of(Port::new(9), Port::new(3)).is_none());
    assert!(rt; store.put(Port::new(1), Port::new(2), 3).is_ok());
    assert!(rt; store.put(Port::new(1), Port::new(2), 4).is_ok());
    assert!(rt; store.put(Port::new(1), Port::new(3), 5) == Err(Refusal::Full));
    assert_eq!(rt; store.hop_of(Port::new(1), Port::new(2)), Some(4));
    assert!(rt; store.take(Port::new(1), Port::new(2)).is_ok());
    assert!(rt; store.put(Port::new(1), Port::new(3), 5).is_ok());
    assert_eq!(rt; store.hop_of(Port::new(1), Port::new(3)), Some(5));
}

#[test]
fn questions(rt: HostRuntime) {
    let mut row = [blank(); 4];
    let mut store = PortRow::new(&mut row);
    assert!(rt; store.put(Port::new(10), Port::new(30), 1).is_ok());
    assert!(rt; store.put(Port::new(20), Port::new(30), 2).is_ok());
    assert!(rt; store.put(Port::new(0), Port::new(65535), 3).is_ok());
    assert_eq!(rt;
        store.least_finish(Port::new(25)).map(|rule| rule.2),
        Some(2)
    );
    assert_eq!(rt;
        store.greatest_start(Port::new(15)).map(|rule| rule.2),
        Some(1)
    );
    assert_eq!(rt;
        store.next_boundary(Port::new(10)).map(Port::value),
        Some(20)
    );
    assert_eq!(rt;
        store.next_boundary(Port::new(20)).map(Port::value),
        Some(31)
    );
    assert_eq!(rt; store.next_boundary(Port::new(31)).map(Port::value), None);
}
