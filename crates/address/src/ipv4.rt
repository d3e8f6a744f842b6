//! IPv4 addresses: 32 bits.

ghost use Rattle.std.specs.Prelude.{◌≡◌, ◌≤◌};
ghost use mathlib.Core.HLevel.{is_prop→PathP};
ghost use Rattle.std.proofs.Math.Bridge.{le_prop};
ghost use Rattle.std.proofs.Common.{rules};

use crate::kind::AddressKind;

/// An IPv4 address by its 32 bits.
#[derive(Clone, Copy, PartialEq, Eq, PartialOrd, Ord, Debug)]
pub struct Ipv4 {
    value: u32,
    ghost ok: { value ≤ 4294967295 },
}

impl Ipv4 {
    pub fn new(value: u32) -> Ipv4
        ensures { result.value ≡ value }
    {
        Ipv4 { value }
    }

    pub fn value(self) -> u32
        ensures { result ≡ self.value }
    {
        self.value
    }
}

impl AddressKind for Ipv4 {
    ghost num = { λ x. x.value };

    ghost last = { 4294967295 };

    ghost bounded = { λ x. x.ok };

    ghost injective = { λ x y e i. record { value = e i; ok = is_prop→PathP (λ j. e j ≤ 4294967295) (λ j. le_prop) x.ok y.ok i } };

    ghost by_number = { Prim.search rules };

    fn first() -> Self {
        Ipv4 { value: 0 }
    }

    fn last() -> Self {
        Ipv4 { value: u32::MAX }
    }

    fn next(self) -> Option<Self> {
        self.value.checked_add(1).map(Ipv4::new)
    }

    fn mirror(self) -> Self {
        Ipv4 {
            value: u32::MAX - self.value,
        }
    }
}
