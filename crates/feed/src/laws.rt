//! Laws of the definitions in specs/, each on the contract of a function so that the check asks for its proof.

ghost use Rattle.feed.specs.Laws.{EncodedLaw, DecodedLaw, ApartLaw};

/// What the bytes of a feed mean: decoding and encoding undo each other, and reading to the end takes a feed apart into
/// its records' bytes.
pub fn feeds()
    ensures encoded { EncodedLaw }
    ensures decoded { DecodedLaw }
    ensures apart { ApartLaw }
{}
