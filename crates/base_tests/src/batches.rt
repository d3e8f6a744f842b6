//! Each refusal of a commit, what it leaves, and a conflict on the way that is gone at the end.

use crate::places::blank;
use address::Port;
use batch::{Batch, Change, Staged, undo};
use row_store::PortRow;
use rules::{RangeStore, Refusal};
use table::Table;

fn add(start: u16, finish: u16, hop: u16) -> Change<Port> {
    Change::Add {
        start: Port::new(start),
        finish: Port::new(finish),
        hop,
    }
}

fn remove(start: u16, finish: u16) -> Change<Port> {
    Change::Remove {
        start: Port::new(start),
        finish: Port::new(finish),
    }
}

/// Commits the changes that stand in the list, staged as harmless ones first so that any change can stand there.
fn commit(table: &mut PortRow<'_>, one: Change<Port>, two: Change<Port>) -> Result<usize, Refusal> {
    let mut list = [Staged {
        change: one,
        note: None,
    }; 2];
    let mut batch = Batch::open();
    let _ = batch.stage(&mut list, add(1, 2, 3));
    let _ = batch.stage(&mut list, add(1, 2, 3));
    list = [
        Staged {
            change: one,
            note: Some(9),
        },
        Staged {
            change: two,
            note: None,
        },
    ];
    table.commit(batch, &mut list)
}

#[test]
fn each_refusal_leaves_the_set(rt: HostRuntime) {
    let mut row = [blank(); 3];
    let mut table = PortRow::new(&mut row);
    assert!(rt; table.make(1).is_ok());
    assert!(rt; table.add(Port::new(10), Port::new(30), 2).is_ok());
    assert!(rt; commit(&mut table, add(1, 2, 3), add(5, 4, 3)) == Err(Refusal::Backwards));
    assert!(rt; commit(&mut table, add(1, 2, 3), remove(0, 65535)) == Err(Refusal::DefaultRange));
    assert!(rt; commit(&mut table, remove(10, 30), remove(10, 30)) == Err(Refusal::NotHeld));
    assert!(rt; commit(&mut table, add(1, 2, 3), add(3, 4, 3)) == Err(Refusal::Full));
    assert!(rt; commit(&mut table, add(10, 30, 7), add(20, 40, 3)) == Err(Refusal::Conflict));
    assert_eq!(rt; table.hop_of(Port::new(10), Port::new(30)), Some(2));
    assert_eq!(rt; table.count(), 2);
}

#[test]
fn a_conflict_on_the_way_may_be_gone_at_the_end(rt: HostRuntime) {
    let mut row = [blank(); 4];
    let mut table = PortRow::new(&mut row);
    assert!(rt; table.make(1).is_ok());
    assert!(rt; table.add(Port::new(10), Port::new(30), 2).is_ok());
    assert!(rt; commit(&mut table, add(20, 40, 3), add(20, 30, 4)) == Ok(2));
    assert_eq!(rt; table.count(), 4);
    assert!(rt; commit(&mut table, remove(20, 30), remove(10, 30)) == Ok(2));
    assert_eq!(rt; table.count(), 2);
}

#[test]
fn a_short_list_and_a_batch_of_none(rt: HostRuntime) {
    let mut row = [blank(); 2];
    let mut table = PortRow::new(&mut row);
    let mut list = [Staged {
        change: add(1, 2, 3),
        note: None,
    }; 1];
    let mut batch = Batch::open();
    let default = batch.stage(&mut list, remove(0, 65535));
    let first = batch.stage(&mut list, add(1, 2, 3));
    let second = batch.stage(&mut list, add(1, 2, 3));
    let short = table.commit(batch, &mut list[0..0]);
    let none = table.commit(Batch::open(), &mut list);
    assert!(rt; default == Err(Refusal::DefaultRange));
    assert!(rt; first.is_ok() && second == Err(Refusal::BatchFull));
    assert!(rt; short == Err(Refusal::ShortList) && none == Ok(0));
}

#[test]
fn undo_of_more_changes_than_the_list_has(rt: HostRuntime) {
    let mut row = [blank(); 2];
    let mut table = PortRow::new(&mut row);
    assert!(rt; table.put(Port::new(1), Port::new(5), 3).is_ok());
    let list = [Staged {
        change: Change::Add {
            start: Port::new(1),
            finish: Port::new(5),
            hop: 3,
        },
        note: None,
    }];
    undo(&mut table, &list, 9);
    assert_eq!(rt; table.count(), 0);
}
