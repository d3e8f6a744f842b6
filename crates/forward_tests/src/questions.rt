//! Forward questions at the edges of every block and beside them, and refusals of the lookup.

use crate::places::blank;
use address::Ipv4;
use forward::{Unforwarded, forward};
use row_store::Ipv4Row;
use rules::{RangeStore, Refusal};
use table::Table;

type Answer = Result<u16, Unforwarded>;

const BLOCKED: Answer = Err(Unforwarded::Blocked);

/// The hop by which the destination is forwarded, or why it is not.
fn asked(table: &Ipv4Row<'_>, destination: u32) -> Answer {
    let (_, _, hop) = forward(table, Ipv4::new(destination))?;
    Ok(hop)
}

/// Whether each destination is answered what stands beside it.
fn told(table: &Ipv4Row<'_>, cases: &[(u32, Answer)]) -> bool {
    cases.iter().all(|(destination, answer)| asked(table, *destination) == *answer)
}

/// Both edges of every block with their outside neighbours, where every other address goes out on line 7.
const EDGES: [(u32, Answer); 26] = [
    (0x0000_0000, BLOCKED),
    (0x00ff_ffff, BLOCKED),
    (0x0100_0000, Ok(7)),
    (0x7eff_ffff, Ok(7)),
    (0x7f00_0000, BLOCKED),
    (0x7fff_ffff, BLOCKED),
    (0x8000_0000, Ok(7)),
    (0xa9fd_ffff, Ok(7)),
    (0xa9fe_0000, BLOCKED),
    (0xa9fe_ffff, BLOCKED),
    (0xa9ff_0000, Ok(7)),
    (0xc000_01ff, Ok(7)),
    (0xc000_0200, BLOCKED),
    (0xc000_02ff, BLOCKED),
    (0xc000_0300, Ok(7)),
    (0xc633_63ff, Ok(7)),
    (0xc633_6400, BLOCKED),
    (0xc633_64ff, BLOCKED),
    (0xc633_6500, Ok(7)),
    (0xcb00_70ff, Ok(7)),
    (0xcb00_7100, BLOCKED),
    (0xcb00_71ff, BLOCKED),
    (0xcb00_7200, Ok(7)),
    (0xefff_ffff, Ok(7)),
    (0xf000_0000, BLOCKED),
    (0xffff_ffff, BLOCKED),
];

#[test]
fn edges_of_blocks(rt: HostRuntime) {
    let mut row = [blank(); 1];
    let mut table = Ipv4Row::new(&mut row);
    assert!(rt; table.make(7).is_ok());
    assert!(rt; told(&table, &EDGES));
}

#[test]
fn rules_inside_a_block_and_beside_it(rt: HostRuntime) {
    let mut row = [blank(); 2];
    let mut table = Ipv4Row::new(&mut row);
    assert!(rt;
        table
            .put(Ipv4::new(0xa9fd_0000), Ipv4::new(0xa9ff_0010), 1)
            .is_ok()
    );
    assert!(rt;
        table
            .put(Ipv4::new(0xa9fe_8000), Ipv4::new(0xa9ff_0020), 2)
            .is_ok()
    );
    assert!(rt;
        told(
            &table,
            &[
                (0xa9fd_ffff, Ok(1)),
                (0xa9fe_7fff, BLOCKED),
                (0xa9fe_ffff, BLOCKED),
                (0xa9ff_0010, Err(Unforwarded::Refused(Refusal::Ambiguous))),
                (0xa9ff_0020, Ok(2)),
                (0xa9ff_0021, Err(Unforwarded::Refused(Refusal::Uncovered))),
            ],
        )
    );
}
