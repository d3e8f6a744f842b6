//! What a store of rules is. Code above is proved against this meaning alone, once for every store.

ghost use Rattle.std.specs.Prelude.{◌≡◌, ℕ, List, length};
ghost use Rattle.std.specs.Option.{option_map};
ghost use Rattle.rules.specs.Rules.{Rule as Numbered, hop_of};
ghost use Rattle.rules.specs.Search.{least_finish, greatest_start};
ghost use Rattle.rules.specs.Boundaries.{next_boundary};
ghost use Rattle.rules.specs.Answers.{Sound, told, put_answer, put_rules, take_answer, take_rules};

use crate::refusal::Refusal;
use address::AddressKind;

/// How many rules a store can hold at most.
pub const MAX_RULES: usize = 65535;

/// A set of rules over one kind of address, in which no range stands twice, with room for `capacity` rules.
// A range stands as its two ends: every caller has two addresses, and a struct would be made only to be taken apart at each call.
// A found rule is a tuple, as lookups hand it on. `room` stands on each call that changes the store: no type says it of what a call changes.
pub trait RangeStore {
    type Kind: AddressKind;

    /// How many rules the store can hold: at most 65,535, and never another number.
    ghost capacity: { Self → ℕ };

    /// The rules by numbers, by ascending finish, equal finishes by descending start.
    ghost rules: { Self → List Numbered };

    fn count(&self) -> usize
        ensures { result ≡ length (rules self.now) };

    fn capacity(&self) -> usize
        ensures { result ≡ capacity self.now };

    /// The hop of the range, or none if it is not held.
    fn hop_of(&self, start: Self::Kind, finish: Self::Kind) -> Option<u16>
        ensures { result ≡ hop_of (rules self.now) (Self.Kind.AddressKind.num start) (Self.Kind.AddressKind.num finish) };

    /// Replaces the hop of a held range or enters a new one. Refuses `Backwards`, then `Full`.
    fn put(&mut self, start: Self::Kind, finish: Self::Kind, hop: u16) -> Result<(), Refusal>
        ensures answer { result ≡ put_answer (capacity self.old) (rules self.old) (Self.Kind.AddressKind.num start) (Self.Kind.AddressKind.num finish) }
        ensures after { rules self.new ≡ put_rules (capacity self.old) (rules self.old) (Self.Kind.AddressKind.num start) (Self.Kind.AddressKind.num finish) hop }
        ensures room { capacity self.new ≡ capacity self.old };

    /// Takes the range out; its place serves again. Refuses `Backwards`, then `NotHeld`.
    fn take(&mut self, start: Self::Kind, finish: Self::Kind) -> Result<(), Refusal>
        ensures answer { result ≡ take_answer (rules self.old) (Self.Kind.AddressKind.num start) (Self.Kind.AddressKind.num finish) }
        ensures after { rules self.new ≡ take_rules (rules self.old) (Self.Kind.AddressKind.num start) (Self.Kind.AddressKind.num finish) }
        ensures room { capacity self.new ≡ capacity self.old };

    /// Of the rules that cover `d`, the one of least finish, among equals of greatest start; or none.
    fn least_finish(&self, d: Self::Kind) -> Option<(Self::Kind, Self::Kind, u16)>
        ensures { told Self.Kind.AddressKind.num result ≡ least_finish (rules self.now) (Self.Kind.AddressKind.num d) };

    /// Of the rules that cover `d`, the one of greatest start, among equals of least finish; or none.
    fn greatest_start(&self, d: Self::Kind) -> Option<(Self::Kind, Self::Kind, u16)>
        ensures { told Self.Kind.AddressKind.num result ≡ greatest_start (rules self.now) (Self.Kind.AddressKind.num d) };

    /// The least address above `d` that is a start or the next after a finish; or none.
    fn next_boundary(&self, d: Self::Kind) -> Option<Self::Kind>
        ensures { option_map Self.Kind.AddressKind.num result ≡ next_boundary Self.Kind.AddressKind.last (rules self.now) (Self.Kind.AddressKind.num d) };

    /// What every store keeps: a canonical set of ranges of its kind, within its capacity.
    ghost sound: { (s : Self) → Sound (capacity s) Self.Kind.AddressKind.last (rules s) };
}
