//! Adds and removes at a full store, and where ranges cross.

use crate::places::blank;
use address::Port;
use row_store::PortRow;
use rules::{RangeStore, Refusal};
use table::Table;

#[test]
fn a_full_table_takes_no_other_range(rt: HostRuntime) {
    let mut row = [blank(); 2];
    let mut table = PortRow::new(&mut row);
    assert!(rt; table.make(1).is_ok());
    assert!(rt; table.add(Port::new(10), Port::new(30), 2).is_ok());
    assert!(rt; table.add(Port::new(20), Port::new(40), 3) == Err(Refusal::Full));
    assert!(rt; table.add(Port::new(10), Port::new(30), 4).is_ok());
    assert_eq!(rt; table.hop_of(Port::new(10), Port::new(30)), Some(4));
    assert_eq!(rt; table.count(), 2);
}

#[test]
fn several_ranges_fill(rt: HostRuntime) {
    let mut row = [blank(); 5];
    let mut table = PortRow::new(&mut row);
    assert!(rt; table.make(1).is_ok());
    assert!(rt; table.add(Port::new(10), Port::new(30), 2).is_ok());
    assert!(rt; table.add(Port::new(20), Port::new(40), 3) == Err(Refusal::Conflict));
    assert_eq!(rt; table.count(), 2);
    assert!(rt; table.add(Port::new(20), Port::new(24), 4).is_ok());
    assert!(rt; table.add(Port::new(25), Port::new(30), 5).is_ok());
    assert!(rt; table.add(Port::new(20), Port::new(40), 3).is_ok());
    assert!(rt; table.remove(Port::new(25), Port::new(30)) == Err(Refusal::Conflict));
    assert_eq!(rt; table.hop_of(Port::new(25), Port::new(30)), Some(5));
}

#[test]
fn removes_are_judged_in_order(rt: HostRuntime) {
    let mut row = [blank(); 2];
    let mut table = PortRow::new(&mut row);
    assert!(rt; table.remove(Port::new(2), Port::new(1)) == Err(Refusal::Backwards));
    assert!(rt; table.remove(Port::new(0), Port::new(65535)) == Err(Refusal::DefaultRange));
    assert!(rt; table.remove(Port::new(1), Port::new(2)) == Err(Refusal::NotHeld));
}
