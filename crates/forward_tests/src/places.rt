//! Places of a row, with what no test may read.

use address::Ipv4;
use rules::Rule;

// Each test has junk of its own: a store begins empty, whatever it finds.
pub(crate) fn blank() -> Rule<Ipv4> {
    Rule {
        start: Ipv4::new(9),
        finish: Ipv4::new(3),
        hop: 77,
    }
}
