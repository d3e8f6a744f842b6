//! Laws of the definitions in specs/, each on the contract of a function so that the check asks for its proof.

ghost use Rattle.prefix.specs.Laws.{ValidLaw, RangeLaw, DefaultLaw, SingleLaw, FirstBitsLaw, CoversLaw, WidthsLaw, BlocksLaw, EdgesLaw, BlockedLaw};

/// What prefixes of any width are, and which addresses their ranges cover.
pub fn prefix_laws()
    ensures valid { ValidLaw }
    ensures range { RangeLaw }
    ensures default_range { DefaultLaw }
    ensures single { SingleLaw }
    ensures first_bits { FirstBitsLaw }
    ensures covers { CoversLaw }
    ensures widths { WidthsLaw }
{}

/// What the table of blocks holds, and which addresses it blocks.
pub fn block_laws()
    ensures blocks { BlocksLaw }
    ensures edges { EdgesLaw }
    ensures blocked { BlockedLaw }
{}
