//! What a line of input is answered.

ghost use Rattle.classify.specs.Verdicts.{Classified};

use address::Port;
use rules::{RangeStore, Refusal};
use std::fmt;
use table::Table;

/// Why a line has no service range.
#[derive(Clone, Copy, PartialEq, Eq, Debug)]
pub(crate) enum Unclassified {
    NotAPort,
    Refused(Refusal),
}

impl From<Refusal> for Unclassified {
    ghost use Rattle.std.specs.Prelude.{◌≡◌};
    ghost use Rattle.classify.specs.declared.verdict.Unclassified.TheVariants.{Refused};

    ghost from_gives = { λ refusal why. why ≡ Refused refusal };

    fn from(refusal: Refusal) -> Unclassified {
        Unclassified::Refused(refusal)
    }
}

impl fmt::Display for Unclassified {
    fn fmt<W: fmt::Write>(&self, f: &mut fmt::Formatter<W>) -> fmt::Result {
        match self {
            Unclassified::NotAPort => write!(f, "not a port"),
            Unclassified::Refused(refusal) => write!(f, "refused with {}", refusal.number()),
        }
    }
}

/// Reads the line as a port and looks it up: the start, the finish and the hop of its service range.
pub(crate) fn classify<S: RangeStore<Kind = Port>>(
    table: &S,
    line: &str,
) -> Result<(Port, Port, u16), Unclassified>
    ensures { Classified (S.RangeStore.rules table.now) line.now result }
{
    let number = line.parse::<u16>().map_err(|_| Unclassified::NotAPort)?;
    Ok(table.lookup(Port::new(number))?)
}
