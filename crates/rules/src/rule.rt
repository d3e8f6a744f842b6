//! A rule as stores keep it, its place in the canonical order, and the range that every made table has.

ghost use Rattle.std.specs.Prelude.{◌≡◌};
ghost use Rattle.rules.specs.Rules.{is_default};

use address::AddressKind;
use std::cmp::Ordering;

/// Addresses from `start` to `finish`, both included, go out on the line `hop`.
#[derive(Clone, Copy, PartialEq, Eq, Debug)]
pub struct Rule<A> {
    pub start: A,
    pub finish: A,
    pub hop: u16,
}

impl<A: AddressKind> Rule<A> {
    ghost use Rattle.rules.specs.Rules.{covers, earlier, order};
    ghost use Rattle.rules.specs.Answers.{numbered};

    /// Whether the rule covers `d`.
    pub fn covers(&self, d: A) -> bool
        ensures { result ≡ covers (numbered A.AddressKind.num self.now) (A.AddressKind.num d) }
    {
        self.start <= d && d <= self.finish
    }

    /// How the two stand in canonical order, where rules of one range are equal, whatever their hops.
    // A derived order would count the hop, and the order of a tuple compares both ends at each step of a search.
    pub fn order(&self, other: &Rule<A>) -> Ordering
        ensures { result ≡ order (numbered A.AddressKind.num self.now) (numbered A.AddressKind.num other.now) }
    {
        if self.finish == other.finish {
            other.start.cmp(&self.start)
        } else {
            self.finish.cmp(&other.finish)
        }
    }

    /// Whether the rule stands before the other in canonical order: by ascending finish, equal finishes by descending start.
    pub fn is_before(&self, other: &Rule<A>) -> bool
        ensures { result ≡ earlier (numbered A.AddressKind.num self.now) (numbered A.AddressKind.num other.now) }
    {
        self.finish < other.finish || self.finish == other.finish && other.start < self.start
    }
}

/// Whether the range goes from the first address of its kind to the last.
pub fn is_default<A: AddressKind>(start: A, finish: A) -> bool
    ensures { result ≡ is_default A.AddressKind.last (A.AddressKind.num start) (A.AddressKind.num finish) }
{
    start == A::first() && finish == A::last()
}
