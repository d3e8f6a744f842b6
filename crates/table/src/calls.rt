//! The calls of a table. A table is any store under these calls, also one that was filled by direct puts.

ghost use Rattle.std.specs.Prelude.{◌≡◌, true, drop, is_ok};
ghost use Rattle.rules.specs.Conflicts.{ResolvedIn};
ghost use Rattle.batch.specs.Changes.{changes, numbered_changes};
ghost use Rattle.batch.specs.Staging.{count_of};
ghost use Rattle.table.specs.Answers.{found, make_answer, make_rules, lookup_answer, Right, add_answer, add_rules, remove_answer, remove_rules, commit_answer, commit_rules};

use crate::resolution::{most_specific, resolved_between};
use address::AddressKind;
use batch::{Batch, Staged, apply, undo};
use rules::{RangeStore, Refusal, is_default};

/// A store as a table of rules.
// `room` stands on each call that changes the store: no type says of a value that a call leaves a part of it as it was.
pub trait Table: RangeStore {
    /// Enters the default range, from the first address to the last. Refuses `AlreadyMade`, then `Full`.
    #[tactic(auto, using(crate::proofs::Makes::made_answer, crate::proofs::Makes::made_rules))]
    fn make(&mut self, hop: u16) -> Result<(), Refusal>
        ensures answer { result ≡ make_answer (Self.RangeStore.capacity self.old) (Self.RangeStore.rules self.old) }
        ensures after { Self.RangeStore.rules self.new ≡ make_rules Self.Kind.AddressKind.last (Self.RangeStore.capacity self.old) (Self.RangeStore.rules self.old) hop }
        ensures room { Self.RangeStore.capacity self.new ≡ Self.RangeStore.capacity self.old }
    {
        if self.count() > 0 {
            return Err(Refusal::AlreadyMade);
        }
        self.put(Self::Kind::first(), Self::Kind::last(), hop)
    }

    /// Enters a range, or replaces the hop of a held one. Refuses `Backwards`, then, for a range that is not held, `Full`, and `Conflict` unless
    /// every address of the range then has a most specific rule.
    fn add(&mut self, start: Self::Kind, finish: Self::Kind, hop: u16) -> Result<(), Refusal>
        ensures answer { result ≡ add_answer (Self.RangeStore.capacity self.old) (Self.RangeStore.rules self.old) (Self.Kind.AddressKind.num start) (Self.Kind.AddressKind.num finish) hop }
        ensures after { Self.RangeStore.rules self.new ≡ add_rules (Self.RangeStore.capacity self.old) (Self.RangeStore.rules self.old) (Self.Kind.AddressKind.num start) (Self.Kind.AddressKind.num finish) hop }
        ensures room { Self.RangeStore.capacity self.new ≡ Self.RangeStore.capacity self.old }
    {
        let held = self.hop_of(start, finish).is_some();
        self.put(start, finish, hop)?;
        if held || resolved_between(self, start, finish) {
            return Ok(());
        }
        let _ = self.take(start, finish);
        Err(Refusal::Conflict)
    }

    /// Takes a range out. Refuses `Backwards`, `DefaultRange`, `NotHeld`, and `Conflict` unless every address of the range that is
    /// still covered then has a most specific rule.
    fn remove(&mut self, start: Self::Kind, finish: Self::Kind) -> Result<(), Refusal>
        ensures answer { result ≡ remove_answer Self.Kind.AddressKind.last (Self.RangeStore.rules self.old) (Self.Kind.AddressKind.num start) (Self.Kind.AddressKind.num finish) }
        ensures after { Self.RangeStore.rules self.new ≡ remove_rules Self.Kind.AddressKind.last (Self.RangeStore.rules self.old) (Self.Kind.AddressKind.num start) (Self.Kind.AddressKind.num finish) }
        ensures room { Self.RangeStore.capacity self.new ≡ Self.RangeStore.capacity self.old }
    {
        if finish < start {
            return Err(Refusal::Backwards);
        }
        if is_default(start, finish) {
            return Err(Refusal::DefaultRange);
        }
        let Some(hop) = self.hop_of(start, finish) else {
            return Err(Refusal::NotHeld);
        };
        let _ = self.take(start, finish);
        if resolved_between(self, start, finish) {
            return Ok(());
        }
        let _ = self.put(start, finish, hop);
        Err(Refusal::Conflict)
    }

    /// Ends the batch and makes the first changes of the list, as many as it counts, all or none; answers how many. Refuses `ShortList`, then
    /// each change in its turn by `Backwards`, `DefaultRange`, `NotHeld` and `Full` against the set that those before it leave, then
    /// `Conflict` unless every covered address then has a most specific rule; sets on the way need not be conflict-free.
    fn commit(&mut self, batch: Batch, list: &mut [Staged<Self::Kind>]) -> Result<usize, Refusal>
        ensures answer { result ≡ commit_answer Self.Kind.AddressKind.last (Self.RangeStore.capacity self.old) (Self.RangeStore.rules self.old) (count_of batch) (numbered_changes Self.Kind.AddressKind.num list.old) }
        ensures after { Self.RangeStore.rules self.new ≡ commit_rules Self.Kind.AddressKind.last (Self.RangeStore.capacity self.old) (Self.RangeStore.rules self.old) (count_of batch) (numbered_changes Self.Kind.AddressKind.num list.old) }
        ensures room { Self.RangeStore.capacity self.new ≡ Self.RangeStore.capacity self.old }
        ensures kept { changes list.new ≡ changes list.old }
        ensures rest { drop (count_of batch) list.new ≡ drop (count_of batch) list.old }
        ensures resolved { is_ok result ≡ true → ResolvedIn (Self.RangeStore.rules self.new) 0 Self.Kind.AddressKind.last }
    {
        let n = apply(self, batch, list)?;
        if resolved_between(self, Self::Kind::first(), Self::Kind::last()) {
            return Ok(n);
        }
        undo(self, list, n);
        Err(Refusal::Conflict)
    }

    /// The start, the finish and the hop of the most specific rule at `d`. Refuses `Uncovered`, then `Ambiguous`.
    // A tuple, as what a store finds is, and no `Rule`, whose place is in a store.
    #[tactic(auto, using(crate::proofs::Lookups::right_at))]
    fn lookup(&self, d: Self::Kind) -> Result<(Self::Kind, Self::Kind, u16), Refusal>
        ensures answer { found Self.Kind.AddressKind.num result ≡ lookup_answer (Self.RangeStore.rules self.now) (Self.Kind.AddressKind.num d) }
        ensures right { Right (Self.RangeStore.rules self.now) (Self.Kind.AddressKind.num d) (found Self.Kind.AddressKind.num result) }
    {
        most_specific(self, d)
    }
}

impl<S: RangeStore> Table for S {}
