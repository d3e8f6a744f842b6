//! IPv6 addresses: 128 bits, as a high and a low half of 64 bits.

ghost use Rattle.std.specs.Prelude.{◌≡◌, ◌+◌, ◌-◌, ◌*◌, ◌^◌, ◌<◌};
ghost use mathlib.Core.HLevel.{is_prop→PathP};
ghost use Rattle.std.proofs.Math.Bridge.{le_prop};
ghost use Rattle.std.proofs.Common.{arith, rules};

use crate::kind::AddressKind;

/// An IPv6 address by its halves; the high half counts 2^64 each.
#[derive(Clone, Copy, PartialEq, Eq, PartialOrd, Ord, Debug)]
pub struct Ipv6 {
    high: u64,
    low: u64,
    ghost high_ok: { high < 2 ^ 64 },
    ghost low_ok: { low < 2 ^ 64 },
}

impl Ipv6 {
    pub fn new(high: u64, low: u64) -> Ipv6
        ensures high { result.high ≡ high }
        ensures low { result.low ≡ low }
    {
        Ipv6 { high, low }
    }

    pub fn high(self) -> u64
        ensures { result ≡ self.high }
    {
        self.high
    }

    pub fn low(self) -> u64
        ensures { result ≡ self.low }
    {
        self.low
    }
}

impl AddressKind for Ipv6 {
    ghost num = { λ x. x.high * 2 ^ 64 + x.low };

    ghost last = { 2 ^ 128 - 1 };

    ghost bounded = { λ x. Prim.omega (arith, x.high_ok, x.low_ok) };

    ghost injective = { λ x y e.
        let h : x.high ≡ y.high = Prim.omega arith in
        let l : x.low ≡ y.low = Prim.omega arith in
        λ i. record {
          high = h i;
          low = l i;
          high_ok = is_prop→PathP (λ j. h j < 2 ^ 64) (λ j. le_prop) x.high_ok y.high_ok i;
          low_ok = is_prop→PathP (λ j. l j < 2 ^ 64) (λ j. le_prop) x.low_ok y.low_ok i;
        } };

    ghost by_number = { Prim.search rules };

    fn first() -> Self {
        Ipv6 { high: 0, low: 0 }
    }

    fn last() -> Self {
        Ipv6 {
            high: u64::MAX,
            low: u64::MAX,
        }
    }

    fn next(self) -> Option<Self> {
        if let Some(low) = self.low.checked_add(1) {
            return Some(Ipv6::new(self.high, low));
        }
        let high = self.high.checked_add(1)?;
        Some(Ipv6::new(high, 0))
    }

    fn mirror(self) -> Self {
        Ipv6 {
            high: u64::MAX - self.high,
            low: u64::MAX - self.low,
        }
    }
}

/// What a one in the high half counts.
const HIGH: u128 = 1 << 64;

/// The address of a number.
impl From<u128> for Ipv6 {
    ghost use Rattle.address.specs.Numbers.{ipv6_num};

    ghost from_gives = { λ n x. ipv6_num x ≡ n };

    fn from(number: u128) -> Ipv6 {
        Ipv6::new((number / HIGH) as u64, (number % HIGH) as u64)
    }
}

/// The number of an address.
impl From<Ipv6> for u128 {
    ghost use Rattle.address.specs.Numbers.{ipv6_num};

    ghost from_gives = { λ x n. n ≡ ipv6_num x };

    fn from(address: Ipv6) -> u128 {
        u128::from(address.high) * HIGH + u128::from(address.low)
    }
}
