//! Ranges at the edges of both widths, refusals, and the edges of every block.

use crate::blocks::is_blocked;
use crate::four::Prefix4;
use crate::six::Prefix6;
use address::{Ipv4, Ipv6};
use rules::Refusal;
use std::mem::size_of;
use std::test::Fail;

// The number of the refusal, or none for what is made.
fn refused<P: Drop>(made: Result<P, Refusal>) -> Option<u8> {
    made.err().map(Refusal::number)
}

fn blocked(number: u32) -> bool {
    is_blocked(Ipv4::new(number))
}

// Whether both edges are blocked and their outside neighbours are not.
fn edges(before: u32, first: u32, last: u32, after: u32) -> bool {
    !blocked(before) && blocked(first) && blocked(last) && !blocked(after)
}

#[test]
fn ranges_of_ipv4(rt: HostRuntime) -> Result<(), Fail> {
    assert_eq!(rt;
        Prefix4::new(Ipv4::new(0), 0)?.range(),
        (Ipv4::new(0), Ipv4::new(u32::MAX))
    );
    assert_eq!(rt;
        Prefix4::new(Ipv4::new(0x8000_0000), 1)?.range(),
        (Ipv4::new(0x8000_0000), Ipv4::new(u32::MAX))
    );
    assert_eq!(rt;
        Prefix4::new(Ipv4::new(0x0a00_0002), 31)?.range(),
        (Ipv4::new(0x0a00_0002), Ipv4::new(0x0a00_0003))
    );
    assert_eq!(rt;
        Prefix4::new(Ipv4::new(0x0a00_0003), 32)?.range(),
        (Ipv4::new(0x0a00_0003), Ipv4::new(0x0a00_0003))
    );
    Ok(())
}

#[test]
fn short_ranges_of_ipv6(rt: HostRuntime) -> Result<(), Fail> {
    assert_eq!(rt;
        Prefix6::new(Ipv6::new(0, 0), 0)?.range(),
        (Ipv6::new(0, 0), Ipv6::new(u64::MAX, u64::MAX))
    );
    assert_eq!(rt;
        Prefix6::new(Ipv6::new(1 << 63, 0), 1)?.range(),
        (Ipv6::new(1 << 63, 0), Ipv6::new(u64::MAX, u64::MAX))
    );
    assert_eq!(rt;
        Prefix6::new(Ipv6::new(2 << 32, 0), 31)?.range(),
        (Ipv6::new(2 << 32, 0), Ipv6::new(0x3_ffff_ffff, u64::MAX))
    );
    assert_eq!(rt;
        Prefix6::new(Ipv6::new(3 << 32, 0), 32)?.range(),
        (Ipv6::new(3 << 32, 0), Ipv6::new(0x3_ffff_ffff, u64::MAX))
    );
    Ok(())
}

#[test]
fn long_ranges_of_ipv6(rt: HostRuntime) -> Result<(), Fail> {
    assert_eq!(rt;
        Prefix6::new(Ipv6::new(2, 0), 63)?.range(),
        (Ipv6::new(2, 0), Ipv6::new(3, u64::MAX))
    );
    assert_eq!(rt;
        Prefix6::new(Ipv6::new(3, 0), 64)?.range(),
        (Ipv6::new(3, 0), Ipv6::new(3, u64::MAX))
    );
    assert_eq!(rt;
        Prefix6::new(Ipv6::new(3, 1 << 63), 65)?.range(),
        (Ipv6::new(3, 1 << 63), Ipv6::new(3, u64::MAX))
    );
    assert_eq!(rt;
        Prefix6::new(Ipv6::new(3, 4), 127)?.range(),
        (Ipv6::new(3, 4), Ipv6::new(3, 5))
    );
    assert_eq!(rt;
        Prefix6::new(Ipv6::new(3, 5), 128)?.range(),
        (Ipv6::new(3, 5), Ipv6::new(3, 5))
    );
    Ok(())
}

#[test]
fn refusals(rt: HostRuntime) {
    assert_eq!(rt; refused(Prefix4::new(Ipv4::new(0x0a00_0001), 24)), Some(11));
    assert_eq!(rt; refused(Prefix4::new(Ipv4::new(0), 33)), Some(11));
    assert_eq!(rt; refused(Prefix6::new(Ipv6::new(1, 0), 63)), Some(11));
    assert_eq!(rt; refused(Prefix6::new(Ipv6::new(0, 1), 64)), Some(11));
    assert_eq!(rt; refused(Prefix6::new(Ipv6::new(0, 0), 129)), Some(11));
}

#[test]
fn sizes_of_prefixes(rt: HostRuntime) {
    assert_eq!(rt; size_of::<Prefix4>(), 8);
    assert_eq!(rt; size_of::<Prefix6>(), 32);
}

#[test]
fn edges_of_blocks(rt: HostRuntime) {
    assert!(rt; blocked(0) && blocked(0x00ff_ffff) && !blocked(0x0100_0000));
    assert!(rt; edges(0x7eff_ffff, 0x7f00_0000, 0x7fff_ffff, 0x8000_0000));
    assert!(rt; edges(0xa9fd_ffff, 0xa9fe_0000, 0xa9fe_ffff, 0xa9ff_0000));
    assert!(rt; edges(0xc000_01ff, 0xc000_0200, 0xc000_02ff, 0xc000_0300));
    assert!(rt; edges(0xc633_63ff, 0xc633_6400, 0xc633_64ff, 0xc633_6500));
    assert!(rt; edges(0xcb00_70ff, 0xcb00_7100, 0xcb00_71ff, 0xcb00_7200));
    assert!(rt; !blocked(0xefff_ffff) && blocked(0xf000_0000) && blocked(0xffff_ffff));
}
