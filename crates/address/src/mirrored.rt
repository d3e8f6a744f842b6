//! The mirrored form of any kind: the same addresses, counted from the other end.

ghost use Rattle.std.specs.Prelude.{◌≡◌, ◌-◌};
ghost use Rattle.std.proofs.Common.{rules};

use crate::kind::AddressKind;
use std::cmp::Reverse;

/// An address of `K`, counted from the last one down, so in the reverse order.
#[derive(Clone, Copy, PartialEq, Eq, PartialOrd, Ord)]
pub struct Mirror<K>(Reverse<K>);

impl<K: AddressKind> Mirror<K> {
    /// The address `x`, to be counted from the other end.
    pub fn of(x: K) -> Mirror<K>
        ensures { result.0.0 ≡ x }
    {
        Mirror(Reverse(x))
    }

    /// The address, counted from its own end again.
    pub fn back(self) -> K
        ensures { result ≡ self.0.0 }
    {
        self.0.0
    }
}

impl<K: AddressKind> AddressKind for Mirror<K> {
    ghost num = { λ x. K.AddressKind.last - K.AddressKind.num x.0.0 };

    ghost last = { K.AddressKind.last };

    ghost bounded = { Prim.search rules };

    ghost injective = { Prim.search rules };

    ghost by_number = { Prim.search rules };

    fn first() -> Self {
        Mirror::of(K::last())
    }

    fn last() -> Self {
        Mirror::of(K::first())
    }

    fn next(self) -> Option<Self> {
        let before = self.back().mirror().next()?;
        Some(Mirror::of(before.mirror()))
    }

    fn mirror(self) -> Self {
        Mirror::of(self.back().mirror())
    }
}
