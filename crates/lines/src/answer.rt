//! What a record of an IPv4 feed is answered.

ghost use Rattle.std.specs.Prelude.{◌≡◌, [], ◌∷◌};
ghost use Rattle.lines.specs.Lines.{letter};

use address::Ipv4;
use rules::Refusal;

/// The answer to a record of an IPv4 feed, a batch being one record; or the fault that ends the reading.
#[derive(Clone, Copy, PartialEq, Eq, Debug)]
pub enum Answer {
    Added(Result<(), Refusal>),
    Removed(Result<(), Refusal>),
    /// The start, the finish and the hop of the most specific rule.
    Found(Result<(Ipv4, Ipv4, u16), Refusal>),
    /// The number of the batch's changes.
    Committed(Result<usize, Refusal>),
    /// Why the reader refused, and the place of the record at which it did.
    Fault { refusal: Refusal, place: usize },
}

impl Answer {
    /// The letter that its line begins with.
    pub(crate) fn letter(self) -> u8
        ensures { letter self ≡ (result ∷ []) }
    {
        match self {
            Answer::Added(_) => b'A',
            Answer::Removed(_) => b'R',
            Answer::Found(_) => b'L',
            Answer::Committed(_) => b'B',
            Answer::Fault { .. } => b'F',
        }
    }
}
