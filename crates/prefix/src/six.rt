//! Prefixes of IPv6.

ghost use Rattle.std.specs.Prelude.{◌≡◌};
ghost use Rattle.address.specs.Numbers.{ipv6_num};
ghost use Rattle.rules.specs.Rules.{range as range_from, covers as covering};
ghost use Rattle.prefix.specs.Prefixes.{prefix_of, made, range_of};
ghost use Rattle.prefix.specs.Numbers.{prefix6};

use crate::bits::Bits;
use address::Ipv6;
use rules::Refusal;

/// The IPv6 addresses whose first bits are those of the prefix. Each width has a struct of its own: a rule of the project.
#[derive(Clone, Copy)]
pub struct Prefix6(pub(crate) Bits<128>);

impl Prefix6 {
    /// The prefix. Refuses `BadPrefix` for a length above 128 or a bit set behind the length.
    pub fn new(value: Ipv6, length: u8) -> Result<Prefix6, Refusal>
        ensures { made prefix6 result ≡ prefix_of 128 (ipv6_num value) length }
    {
        Bits::new(u128::from(value), length).map(Prefix6)
    }

    /// The first address of the range.
    pub fn value(&self) -> Ipv6
        ensures { ipv6_num result ≡ (prefix6 self.now).value }
    {
        Ipv6::from(self.0.value)
    }

    /// How many of the first bits count.
    pub fn length(&self) -> u8
        ensures { result ≡ (prefix6 self.now).length }
    {
        self.0.length
    }

    /// The first and the last address that the prefix stands for.
    pub fn range(&self) -> (Ipv6, Ipv6)
        ensures { range_from (ipv6_num result.0) (ipv6_num result.1) ≡ range_of 128 (prefix6 self.now) }
    {
        (self.value(), Ipv6::from(self.0.last()))
    }

    /// Whether the range covers `d`.
    pub fn contains(&self, d: Ipv6) -> bool
        ensures { result ≡ covering (range_of 128 (prefix6 self.now)) (ipv6_num d) }
    {
        self.0.contains(u128::from(d))
    }
}
