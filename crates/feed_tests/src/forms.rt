//! The byte form of each kind, there and back, and at wrong widths.

use address::{Ipv4, Ipv6, Port};
use byte_form::FeedKind;

/// Whether n bytes take the address's form just where they are as many as the form's, and else keep what they held.
fn written<A: FeedKind>(address: A, form: &[u8], n: usize) -> bool {
    let mut buffer = [0xEE; 18];
    let Some(out) = buffer.get_mut(..n) else {
        return false;
    };
    if address.write_bytes(out) {
        *out == *form
    } else {
        n != form.len() && out.iter().all(|byte| *byte == 0xEE)
    }
}

/// Whether n bytes are read as an address just where they are as many as a form's.
fn read<A: FeedKind>(n: usize) -> bool {
    [0xEE; 18].get(..n).is_some_and(|bytes| A::from_bytes(bytes).is_some() == (n == A::width()))
}

/// Whether the form of the address is this one, both ways.
fn has_form<A: FeedKind>(address: A, form: &[u8]) -> bool {
    A::width() == form.len()
        && A::from_bytes(form) == Some(address)
        && (0..=17).all(|n| read::<A>(n) && written(address, form, n))
}

#[test]
fn port_forms(rt: HostRuntime) {
    assert!(rt; has_form(Port::new(0x1234), &[0x12, 0x34]));
    assert!(rt; has_form(Port::new(0), &[0, 0]));
    assert!(rt; has_form(Port::new(65535), &[0xFF, 0xFF]));
}

#[test]
fn ipv4_forms(rt: HostRuntime) {
    assert!(rt; has_form(Ipv4::new(0x0A00_001E), &[10, 0, 0, 30]));
    assert!(rt; has_form(Ipv4::new(0), &[0, 0, 0, 0]));
    assert!(rt; has_form(Ipv4::new(0xFFFF_FFFF), &[255, 255, 255, 255]));
}

#[test]
fn ipv6_forms(rt: HostRuntime) {
    let form = [
        0x20, 0x01, 0x0D, 0xB8, 0, 0, 0, 0, 0, 0, 0, 0, 0, 0, 0x12, 0x34,
    ];
    assert!(rt; has_form(Ipv6::new(0x2001_0DB8_0000_0000, 0x1234), &form));
    assert!(rt; has_form(Ipv6::new(0, 0), &[0; 16]));
    assert!(rt; has_form(Ipv6::new(u64::MAX, u64::MAX), &[0xFF; 16]));
}
