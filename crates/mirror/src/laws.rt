//! Laws of mirrored sets, on the contract of a function so that the check asks for their proof.

ghost use Rattle.mirror.specs.Mirrored.{GreatestStartLaw, NextBoundaryLaw};

/// What the mirrored set answers for the set.
pub fn mirrored_sets()
    ensures greatest_start { GreatestStartLaw }
    ensures next_boundary { NextBoundaryLaw }
{}
