//! Laws of the definitions in specs/, each on the contract of a function so that the check asks for its proof.

ghost use Rattle.rules.specs.Laws.{InsideLaw, EqualSetsLaw, AgreeLaw, FilledLaw, InsertionLaw, RemovalLaw, ReplacementLaw, WholeLaw, WalkLaw};
ghost use Rattle.rules.specs.Laws.{OrderedLaw, LeastFinishLaw, GreatestStartLaw, MostSpecificLaw, ResolvedLaw, BoundaryLaw};

/// What the searches of a set find: the executable definitions mean what the relations say.
pub fn searches()
    ensures ordered { OrderedLaw }
    ensures least_finish { LeastFinishLaw }
    ensures greatest_start { GreatestStartLaw }
    ensures most_specific { MostSpecificLaw }
    ensures resolved { ResolvedLaw }
    ensures next_boundary { BoundaryLaw }
{}

/// What sets in canonical order are.
pub fn range_sets()
    ensures inside { InsideLaw }
    ensures equal { EqualSetsLaw }
{}

/// When a set is conflict-free, and what an update does to that.
pub fn conflict_free_sets()
    ensures agree { AgreeLaw }
    ensures filled { FilledLaw }
    ensures insertion { InsertionLaw }
    ensures removal { RemovalLaw }
    ensures replacement { ReplacementLaw }
    ensures whole { WholeLaw }
    ensures boundaries { WalkLaw }
{}
