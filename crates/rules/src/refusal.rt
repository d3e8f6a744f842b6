//! Why a call is refused; docs/REFUSALS.md says what each means and in which order a call tests.

ghost use Rattle.std.specs.Prelude.{◌≡◌};
ghost use Rattle.rules.specs.Refusals.{number as number_of};

/// A reason for refusing a call, in the order of the refusals' numbers.
#[derive(Clone, Copy, PartialEq, Eq, Debug)]
pub enum Refusal {
    /// Commit: the list has fewer places than the batch has changes.
    ShortList = 1,
    /// The range has its start above its finish.
    Backwards = 2,
    /// Making: the store already holds a rule.
    AlreadyMade = 3,
    /// A remove names the default range.
    DefaultRange = 4,
    /// The range is not held.
    NotHeld = 5,
    /// Staging: the batch has 64 changes, or the list has no further place.
    BatchFull = 6,
    /// The store has no place for one more rule.
    Full = 7,
    /// An address would be covered without a most specific rule.
    Conflict = 8,
    /// Lookup: no rule covers the address.
    Uncovered = 9,
    /// Lookup: rules cover the address and none of them is most specific.
    Ambiguous = 10,
    /// The prefix is too long for its kind, or has a bit set behind its length.
    BadPrefix = 11,
    /// The feed record has an unknown kind byte.
    UnknownRecord = 12,
    /// The feed ends inside a record or inside a batch.
    FeedEnds = 13,
    /// The batch head counts 0 or more than 64 changes.
    BadCount = 14,
    /// A record inside a batch is not a change.
    NotAChange = 15,
    /// The hop row is shorter than its destination row, or the line buffer than 40 bytes.
    ShortBuffer = 16,
}

impl Refusal {
    /// The number by which operators know the refusal.
    // A method and no `From`: it is asked for by name wherever it is printed.
    pub fn number(self) -> u8
        ensures { result ≡ number_of self }
    {
        self as u8
    }
}
