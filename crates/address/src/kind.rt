//! What every kind of address offers. A kind enters the proofs above it only by `num` and `last`.

ghost use Rattle.std.specs.Prelude.{◌≡◌, ℕ, ◌+◌, ◌-◌, ◌≤◌, MatchOption};
ghost use Rattle.std.specs.Ordering.{nat_cmp};

/// A kind of address: each address has a number from 0 to `last`, no two have the same, and they compare by it.
pub trait AddressKind: Copy + Ord {
    ghost num: { Self → ℕ };

    ghost last: { ℕ };

    /// The address with number 0.
    fn first() -> Self
        ensures { num result ≡ 0 };

    /// The address with the kind's last number.
    fn last() -> Self
        ensures { num result ≡ last };

    /// The next address, or none after the last.
    fn next(self) -> Option<Self>
        ensures { MatchOption result (num self ≡ last) (λ x. num x ≡ num self + 1) };

    /// The address as far from the last as this one is from the first.
    fn mirror(self) -> Self
        ensures { num result ≡ last - num self };

    ghost bounded: { (x : Self) → num x ≤ last };

    ghost injective: { (x y : Self) → num x ≡ num y → x ≡ y };

    ghost by_number: { (x y : Self) → Self.cmp x y ≡ nat_cmp (num x) (num y) };
}
