//! The forward question: a destination in a block of RFC 6890 is not forwarded, any other is looked up.

ghost use Rattle.std.specs.Prelude.{◌≡◌};
ghost use Rattle.address.specs.Numbers.{ipv4_num};
ghost use Rattle.forward.specs.Forwarding.{told, forward_answer, Right};

use address::Ipv4;
use prefix::is_blocked;
use rules::{RangeStore, Refusal};
use table::Table;

/// Why a destination is not forwarded.
// By hand, as is its `From`: a derive of another crate would promise nothing of it.
#[derive(Clone, Copy, PartialEq, Eq, Debug)]
pub enum Unforwarded {
    /// A block that is not forwarded covers the destination.
    Blocked,
    /// The table's lookup refuses.
    Refused(Refusal),
}

impl From<Refusal> for Unforwarded {
    ghost use Rattle.forward.specs.declared.question.Unforwarded.TheVariants.{Refused};

    ghost from_gives = { λ refusal why. why ≡ Refused refusal };

    fn from(refusal: Refusal) -> Unforwarded {
        Unforwarded::Refused(refusal)
    }
}

/// The start, the finish and the hop of the most specific rule, by which the destination is forwarded, or why it is not: `Blocked`
/// first, then the table's refusal, which is part of the answer. The question itself refuses nothing.
pub fn forward<S: RangeStore<Kind = Ipv4>>(
    table: &S,
    destination: Ipv4,
) -> Result<(Ipv4, Ipv4, u16), Unforwarded>
    ensures answer { told result ≡ forward_answer (S.RangeStore.rules table.now) (ipv4_num destination) }
    ensures right { Right (S.RangeStore.rules table.now) (ipv4_num destination) (told result) }
{
    if is_blocked(destination) {
        return Err(Unforwarded::Blocked);
    }
    Ok(table.lookup(destination)?)
}
