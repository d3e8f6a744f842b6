//! The IPv4 blocks that are not forwarded, as RFC 6890 has them.

ghost use Rattle.std.specs.Prelude.{◌≡◌};
ghost use Rattle.std.specs.List.{list_any};
ghost use Rattle.address.specs.Numbers.{ipv4_num};
ghost use Rattle.rules.specs.Rules.{covers};
ghost use Rattle.prefix.specs.Prefixes.{range_of};
ghost use Rattle.prefix.specs.Numbers.{prefix4};
ghost use Rattle.prefix.specs.Blocks.{blocked};

use crate::four::Prefix4;
use address::Ipv4;

// The block that is written a.b.c.d/length. A constant calls no function.
macro_rules! block {
    ($a:literal, $b:literal, $c:literal, $d:literal; $length:literal) => {
        Prefix4 {
            value: ($a << 24) + ($b << 16) + ($c << 8) + $d,
            length: $length,
        }
    };
}

const BLOCKS: [Prefix4; 7] = [
    block!(0, 0, 0, 0; 8),
    block!(127, 0, 0, 0; 8),
    block!(169, 254, 0, 0; 16),
    block!(192, 0, 2, 0; 24),
    block!(198, 51, 100, 0; 24),
    block!(203, 0, 113, 0; 24),
    block!(240, 0, 0, 0; 4),
];

/// Whether one of the prefixes covers `d`.
fn some_contains(prefixes: &[Prefix4], d: Ipv4) -> bool
    ensures { result ≡ list_any (λ p. covers (range_of 32 (prefix4 p)) (ipv4_num d)) prefixes.now }
{
    prefixes.iter().any(|p| p.contains(d))
}

/// Whether `d` lies in a block that is not forwarded.
#[tactic(auto, unfolding(crate::specs::Blocks::some_covers))]
pub fn is_blocked(d: Ipv4) -> bool
    ensures { result ≡ blocked (ipv4_num d) }
{
    some_contains(&BLOCKS, d)
}
