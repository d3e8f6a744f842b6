//! The nearest of the boundaries above an address.

ghost use Rattle.std.specs.Prelude.{◌≡◌, suc};
ghost use Rattle.std.specs.Option.{option_map};
ghost use Rattle.rules.specs.Boundaries.{nearest};

use address::AddressKind;

/// The boundary if it lies above `d` and before the nearest that is known, else that one.
pub fn nearer<A: AddressKind>(d: A, boundary: A, known: Option<A>) -> Option<A>
    ensures { option_map A.AddressKind.num result ≡ nearest A.AddressKind.last (A.AddressKind.num d) (A.AddressKind.num boundary) (option_map A.AddressKind.num known) }
{
    if boundary <= d {
        return known;
    }
    match known {
        Some(nearest) => Some(if nearest < boundary {
            nearest
        } else {
            boundary
        }),
        None => Some(boundary),
    }
}

/// The boundary behind a finish, if there is one, lies above `d` and before the nearest that is known; else that one.
pub fn nearer_end<A: AddressKind>(d: A, finish: A, known: Option<A>) -> Option<A>
    ensures { option_map A.AddressKind.num result ≡ nearest A.AddressKind.last (A.AddressKind.num d) (suc (A.AddressKind.num finish)) (option_map A.AddressKind.num known) }
{
    match finish.next() {
        Some(end) => nearer(d, end, known),
        None => known,
    }
}
