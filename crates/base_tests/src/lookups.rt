//! Making and lookups, also over a store that was filled by direct puts.

use crate::places::blank;
use address::Port;
use row_store::PortRow;
use rules::{RangeStore, Refusal};
use std::test::Fail;
use table::Table;

#[test]
fn made_once(rt: HostRuntime) -> Result<(), Fail> {
    let mut row = [blank(); 2];
    let mut table = PortRow::new(&mut row);
    assert!(rt; table.make(7).is_ok());
    assert!(rt; table.make(8) == Err(Refusal::AlreadyMade));
    let first = table.lookup(Port::new(0))?;
    assert_eq!(rt; first.1.value(), 65535);
    assert_eq!(rt; table.lookup(Port::new(65535))?.2, 7);
    Ok(())
}

#[test]
fn no_place_to_make(rt: HostRuntime) {
    let mut row = [blank(); 0];
    let mut table = PortRow::new(&mut row);
    assert!(rt; table.make(7) == Err(Refusal::Full));
}

#[test]
fn crossing_ranges_put_directly(rt: HostRuntime) -> Result<(), Fail> {
    let mut row = [blank(); 2];
    let mut table = PortRow::new(&mut row);
    assert!(rt; table.put(Port::new(10), Port::new(30), 1).is_ok());
    assert!(rt; table.put(Port::new(20), Port::new(40), 2).is_ok());
    assert!(rt; table.lookup(Port::new(25)).err() == Some(Refusal::Ambiguous));
    assert!(rt; table.lookup(Port::new(50)).err() == Some(Refusal::Uncovered));
    assert_eq!(rt; table.lookup(Port::new(15))?.2, 1);
    assert_eq!(rt; table.lookup(Port::new(35))?.2, 2);
    Ok(())
}
