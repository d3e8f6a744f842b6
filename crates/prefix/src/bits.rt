//! Prefixes by numbers, once for every width up to 128 bits.

ghost use Rattle.std.specs.Prelude.{◌≡◌, ◌-◌, ◌^◌, ◌<◌, ◌≤◌, true};
ghost use Rattle.rules.specs.Rules.{covers as covering};
ghost use Rattle.prefix.specs.Prefixes.{prefix, valid, range_of};

use rules::Refusal;

/// The numbers of `WIDTH` bits whose first `length` bits are those of `value`, in which no later bit is set.
#[derive(Clone, Copy)]
pub(crate) struct Bits<const WIDTH: u8> {
    pub(crate) value: u128,
    pub(crate) length: u8,
    ghost wide: { WIDTH ≤ 128 },
    ghost small: { value < 2 ^ WIDTH },
    ghost ok: { valid WIDTH (prefix value length) ≡ true },
}

impl<const WIDTH: u8> Bits<WIDTH> {
    ghost use Rattle.prefix.specs.Prefixes.{prefix_of, made};
    ghost use Rattle.prefix.specs.Numbers.{bits};

    /// The prefix. Refuses `BadPrefix` for a length above the width or a bit set behind the length.
    #[tactic(auto, using(std::proofs::lemmas::Nat::and_mask))]
    pub(crate) fn new(value: u128, length: u8) -> Result<Bits<WIDTH>, Refusal>
        requires wide { WIDTH ≤ 128 }
        requires small { value < 2 ^ WIDTH }
        ensures { made bits result ≡ prefix_of WIDTH value length }
    {
        if length <= WIDTH && value & Self::behind(length) == 0 {
            Ok(Bits { value, length })
        } else {
            Err(Refusal::BadPrefix)
        }
    }

    /// The last number of the range.
    #[tactic(auto, using(crate::proofs::Ranges::ends, std::proofs::Common::pow_mono))]
    pub(crate) fn last(&self) -> u128
        ensures within { result < 2 ^ WIDTH }
        ensures answer { result ≡ (range_of WIDTH (bits self.now)).finish }
    {
        self.value + Self::behind(self.length)
    }

    /// Whether the range covers `d`.
    pub(crate) fn contains(&self, d: u128) -> bool
        ensures { result ≡ covering (range_of WIDTH (bits self.now)) d }
    {
        self.value <= d && d <= self.last()
    }

    /// The bits behind the length, all set.
    fn behind(length: u8) -> u128
        requires fits { length ≤ WIDTH }
        requires wide { WIDTH ≤ 128 }
        ensures { result ≡ 2 ^ (WIDTH - length) - 1 }
    {
        let count = WIDTH - length;
        if count == 128 {
            u128::MAX
        } else {
            (1u128 << count) - 1
        }
    }
}
