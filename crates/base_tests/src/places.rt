//! Memory for the stores under test.

use address::Port;
use rules::Rule;

/// A rule to fill memory with before a store takes it.
pub(crate) fn blank() -> Rule<Port> {
    Rule {
        start: Port::new(0),
        finish: Port::new(0),
        hop: 0,
    }
}
