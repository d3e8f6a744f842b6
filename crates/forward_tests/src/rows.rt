//! Rows of lookups: a refusal at the first place, in the middle and nowhere, and hop rows of other lengths.

use crate::places::blank;
use address::Ipv4;
use forward::lookup_row;
use row_store::Ipv4Row;
use rules::{RangeStore, Refusal};
use std::test::Fail;

/// Two ranges: the addresses from 10 to 19 go out on line 1, those from 30 to 39 on line 3.
fn fill(table: &mut Ipv4Row<'_>) -> Result<(), Refusal> {
    table.put(Ipv4::new(10), Ipv4::new(19), 1)?;
    table.put(Ipv4::new(30), Ipv4::new(39), 3)
}

/// Whether a row of lookups over the two ranges gives this answer and leaves these three hops, of 91, 92 and 93.
fn told(
    destinations: &[u32],
    answer: Result<usize, Refusal>,
    after: [u16; 3],
) -> Result<bool, Refusal> {
    let mut row = [blank(); 2];
    let mut table = Ipv4Row::new(&mut row);
    fill(&mut table)?;
    let mut hops = [91, 92, 93];
    Ok(lookup_row(&table, destinations, &mut hops) == answer && hops == after)
}

#[test]
fn refused_at_the_first(rt: HostRuntime) -> Result<(), Fail> {
    assert!(rt; told(&[20, 10, 30], Ok(0), [91, 92, 93])?);
    Ok(())
}

#[test]
fn refused_in_the_middle(rt: HostRuntime) -> Result<(), Fail> {
    assert!(rt; told(&[30, 19, 40], Ok(2), [3, 1, 93])?);
    assert!(rt; told(&[39, 9, 10], Ok(1), [3, 92, 93])?);
    Ok(())
}

#[test]
fn none_refused(rt: HostRuntime) -> Result<(), Fail> {
    assert!(rt; told(&[10, 39, 19], Ok(3), [1, 3, 1])?);
    Ok(())
}

#[test]
fn hop_row_longer(rt: HostRuntime) -> Result<(), Fail> {
    assert!(rt; told(&[], Ok(0), [91, 92, 93])?);
    assert!(rt; told(&[30, 10], Ok(2), [3, 1, 93])?);
    assert!(rt; told(&[30, 29], Ok(1), [3, 92, 93])?);
    Ok(())
}

#[test]
fn hop_row_short(rt: HostRuntime) -> Result<(), Fail> {
    assert!(rt; told(&[10, 10, 10, 10], Err(Refusal::ShortBuffer), [91, 92, 93])?);
    Ok(())
}
