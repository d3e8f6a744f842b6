//! Each kind of address at its first, last, next and mirror.

use address::{AddressKind, Ipv4, Ipv6, Mirror, Port};
use std::cmp::Ordering;
use std::test::Fail;

#[test]
fn ports(rt: HostRuntime) -> Result<(), Fail> {
    assert_eq!(rt; Port::first().value(), 0);
    assert_eq!(rt; Port::last().value(), 65535);
    let Some(next) = Port::new(79).next() else {
        return Err(Fail::new("79 has a next port"));
    };
    assert_eq!(rt; next.value(), 80);
    assert!(rt; Port::last().next().is_none());
    assert_eq!(rt; Port::new(10).mirror().value(), 65525);
    assert!(rt; Port::new(10) < Port::new(11));
    assert!(rt; !(Port::new(11) < Port::new(11)));
    Ok(())
}

#[test]
fn ipv4_addresses(rt: HostRuntime) -> Result<(), Fail> {
    assert_eq!(rt; Ipv4::first().value(), 0);
    assert_eq!(rt; Ipv4::last().value(), 4294967295);
    let Some(next) = Ipv4::new(0x0A0000FF).next() else {
        return Err(Fail::new("10.0.0.255 has a next address"));
    };
    assert_eq!(rt; next.value(), 0x0A000100);
    assert!(rt; Ipv4::last().next().is_none());
    assert_eq!(rt; Ipv4::new(1).mirror().value(), 4294967294);
    assert!(rt; Ipv4::new(0x0A000001) == Ipv4::new(0x0A000001));
    Ok(())
}

#[test]
fn ipv6_carries_into_the_high_half(rt: HostRuntime) -> Result<(), Fail> {
    let Some(next) = Ipv6::new(7, u64::MAX).next() else {
        return Err(Fail::new("the last low half carries"));
    };
    assert_eq!(rt; next.high(), 8);
    assert_eq!(rt; next.low(), 0);
    assert!(rt; Ipv6::last().next().is_none());
    assert_eq!(rt; Ipv6::last().high(), u64::MAX);
    let mirror = Ipv6::new(1, 2).mirror();
    assert_eq!(rt; mirror.high(), u64::MAX - 1);
    assert_eq!(rt; mirror.low(), u64::MAX - 2);
    Ok(())
}

#[test]
fn ipv6_compares_high_halves_first(rt: HostRuntime) {
    assert!(rt; Ipv6::new(1, 9) < Ipv6::new(2, 3));
    assert!(rt; !(Ipv6::new(2, 3) < Ipv6::new(1, 9)));
    assert!(rt; Ipv6::new(2, 3) < Ipv6::new(2, 4));
    assert!(rt; Ipv6::new(2, 3) != Ipv6::new(1, 3));
}

#[test]
fn mirrored_ports_count_down(rt: HostRuntime) -> Result<(), Fail> {
    let five = Mirror::of(Port::new(5));
    let Some(next) = five.next() else {
        return Err(Fail::new("4 comes after 5"));
    };
    assert_eq!(rt; next.back().value(), 4);
    assert!(rt; Mirror::of(Port::new(0)).next().is_none());
    assert!(rt; five < Mirror::of(Port::new(4)));
    assert!(rt; five.cmp(&Mirror::of(Port::new(6))) == Ordering::Greater);
    let first: Mirror<Port> = Mirror::first();
    assert_eq!(rt; first.back().value(), 65535);
    Ok(())
}
