//! The service ranges of a branch router, and the lines that they go out on.

use address::Port;
use row_store::PortRow;
use rules::Refusal;
use table::Table;

/// Ports from `first` to `last` go out on the line `hop`.
#[derive(Clone, Copy)]
struct Service {
    first: u16,
    last: u16,
    hop: u16,
}

const DEFAULT_HOP: u16 = 1;

const SERVICES: [Service; 9] = [
    Service {
        first: 0,
        last: 1023,
        hop: 2,
    },
    Service {
        first: 20,
        last: 21,
        hop: 3,
    },
    Service {
        first: 22,
        last: 22,
        hop: 4,
    },
    Service {
        first: 53,
        last: 53,
        hop: 5,
    },
    Service {
        first: 80,
        last: 80,
        hop: 6,
    },
    Service {
        first: 443,
        last: 443,
        hop: 6,
    },
    Service {
        first: 5060,
        last: 5061,
        hop: 7,
    },
    Service {
        first: 16384,
        last: 32767,
        hop: 8,
    },
    Service {
        first: 49152,
        last: 65535,
        hop: 9,
    },
];

/// Makes the table and enters every service range.
pub(crate) fn load(table: &mut PortRow<'_>) -> Result<(), Refusal> {
    table.make(DEFAULT_HOP)?;
    for service in &SERVICES {
        table.add(
            Port::new(service.first),
            Port::new(service.last),
            service.hop,
        )?;
    }
    Ok(())
}
