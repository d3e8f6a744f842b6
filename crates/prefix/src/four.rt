//! Prefixes of IPv4.

ghost use Rattle.std.specs.Prelude.{◌≡◌, ◌^◌, ◌<◌, true};
ghost use Rattle.prefix.specs.Prefixes.{prefix, valid};

use crate::bits::Bits;
use address::Ipv4;
use rules::Refusal;

/// The IPv4 addresses whose first bits are those of the prefix. Each width has a struct of its own: a rule of the project.
// The number stands in 32 bits, so that a prefix takes 8 bytes in a row of them; what both widths do is done by `Bits`.
#[derive(Clone, Copy)]
pub struct Prefix4 {
    pub(crate) value: u32,
    pub(crate) length: u8,
    ghost small: { value < 2 ^ 32 },
    ghost ok: { valid 32 (prefix value length) ≡ true },
}

impl Prefix4 {
    ghost use Rattle.address.specs.Numbers.{ipv4_num};
    ghost use Rattle.rules.specs.Rules.{range as range_from, covers as covering};
    ghost use Rattle.prefix.specs.Numbers.{bits, prefix4};
    ghost use Rattle.prefix.specs.Prefixes.{prefix_of, made, range_of};

    /// The prefix. Refuses `BadPrefix` for a length above 32 or a bit set behind the length.
    pub fn new(value: Ipv4, length: u8) -> Result<Prefix4, Refusal>
        ensures { made prefix4 result ≡ prefix_of 32 (ipv4_num value) length }
    {
        let value = value.value();
        Bits::<32>::new(u128::from(value), length)?;
        Ok(Prefix4 { value, length })
    }

    /// The first address of the range.
    pub fn value(&self) -> Ipv4
        ensures { ipv4_num result ≡ (prefix4 self.now).value }
    {
        Ipv4::new(self.value)
    }

    /// How many of the first bits count.
    pub fn length(&self) -> u8
        ensures { result ≡ (prefix4 self.now).length }
    {
        self.length
    }

    /// The first and the last address that the prefix stands for.
    pub fn range(&self) -> (Ipv4, Ipv4)
        ensures { range_from (ipv4_num result.0) (ipv4_num result.1) ≡ range_of 32 (prefix4 self.now) }
    {
        (self.value(), Ipv4::new(self.bits().last() as u32))
    }

    /// Whether the range covers `d`.
    pub fn contains(&self, d: Ipv4) -> bool
        ensures { result ≡ covering (range_of 32 (prefix4 self.now)) (ipv4_num d) }
    {
        self.bits().contains(u128::from(d.value()))
    }

    /// The prefix by its number, as one of any width.
    fn bits(&self) -> Bits<32>
        ensures { bits result ≡ prefix4 self.now }
    {
        Bits {
            value: u128::from(self.value),
            length: self.length,
        }
    }
}
