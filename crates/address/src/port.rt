//! Ports: addresses of 16 bits.

ghost use Rattle.std.specs.Prelude.{◌≡◌, ◌≤◌};
ghost use mathlib.Core.HLevel.{is_prop→PathP};
ghost use Rattle.std.proofs.Math.Bridge.{le_prop};
ghost use Rattle.std.proofs.Common.{rules};

use crate::kind::AddressKind;

/// A port number.
// `Ipv4` differs in the integer alone. What both share is `AddressKind`: a struct over the integer would need a second trait with the same members, written for both.
#[derive(Clone, Copy, PartialEq, Eq, PartialOrd, Ord, Debug)]
pub struct Port {
    value: u16,
    ghost ok: { value ≤ 65535 },
}

impl Port {
    pub fn new(value: u16) -> Port
        ensures { result.value ≡ value }
    {
        Port { value }
    }

    pub fn value(self) -> u16
        ensures { result ≡ self.value }
    {
        self.value
    }
}

impl AddressKind for Port {
    ghost num = { λ x. x.value };

    ghost last = { 65535 };

    ghost bounded = { λ x. x.ok };

    ghost injective = { λ x y e i. record { value = e i; ok = is_prop→PathP (λ j. e j ≤ 65535) (λ j. le_prop) x.ok y.ok i } };

    ghost by_number = { Prim.search rules };

    fn first() -> Self {
        Port { value: 0 }
    }

    fn last() -> Self {
        Port { value: u16::MAX }
    }

    fn next(self) -> Option<Self> {
        self.value.checked_add(1).map(Port::new)
    }

    fn mirror(self) -> Self {
        Port {
            value: u16::MAX - self.value,
        }
    }
}
