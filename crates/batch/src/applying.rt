//! Applying the changes of a batch to a store, all or none.

ghost use Rattle.std.specs.Prelude.{◌≡◌, ◌≤◌, true, length, take, drop, is_ok};
ghost use Rattle.rules.specs.Answers.{put_answer, put_rules};
ghost use Rattle.batch.specs.declared.change.Change.TheVariants.{Remove as Removal};
ghost use Rattle.batch.specs.Changes.{numbered_change, start_of, finish_of, changes, numbered_changes};
ghost use Rattle.batch.specs.Staging.{count_of};
ghost use Rattle.batch.specs.Applied.{bare, change_answer, change_left, all_answer, all_left, apply_answer, apply_rules, Back, unwind};

use crate::change::Change;
use crate::staging::{Batch, Staged};
use crate::undoing::undo;
use address::AddressKind;
use rules::{RangeStore, Refusal, is_default};

// `room` stands on each function that changes the store: no type says of a value that a call leaves a part of it as it was.

/// Puts the range, and answers the hop that it had.
fn apply_add<S: RangeStore>(
    store: &mut S,
    start: S::Kind,
    finish: S::Kind,
    hop: u16,
) -> Result<Option<u16>, Refusal>
    ensures answer { bare result ≡ put_answer (S.RangeStore.capacity store.old) (S.RangeStore.rules store.old) (S.Kind.AddressKind.num start) (S.Kind.AddressKind.num finish) }
    ensures after { S.RangeStore.rules store.new ≡ put_rules (S.RangeStore.capacity store.old) (S.RangeStore.rules store.old) (S.Kind.AddressKind.num start) (S.Kind.AddressKind.num finish) hop }
    ensures room { S.RangeStore.capacity store.new ≡ S.RangeStore.capacity store.old }
    ensures back { Back (S.RangeStore.capacity store.old) (S.RangeStore.rules store.old) (S.RangeStore.rules store.new) (S.Kind.AddressKind.num start) (S.Kind.AddressKind.num finish) result }
{
    let held = store.hop_of(start, finish);
    store.put(start, finish, hop)?;
    Ok(held)
}

/// Takes the range out, and answers the hop that it had.
fn apply_remove<S: RangeStore>(
    store: &mut S,
    start: S::Kind,
    finish: S::Kind,
) -> Result<Option<u16>, Refusal>
    ensures answer { bare result ≡ change_answer S.Kind.AddressKind.last (S.RangeStore.capacity store.old) (S.RangeStore.rules store.old) (Removal (S.Kind.AddressKind.num start) (S.Kind.AddressKind.num finish)) }
    ensures after { S.RangeStore.rules store.new ≡ change_left S.Kind.AddressKind.last (S.RangeStore.capacity store.old) (S.RangeStore.rules store.old) (Removal (S.Kind.AddressKind.num start) (S.Kind.AddressKind.num finish)) }
    ensures room { S.RangeStore.capacity store.new ≡ S.RangeStore.capacity store.old }
    ensures back { Back (S.RangeStore.capacity store.old) (S.RangeStore.rules store.old) (S.RangeStore.rules store.new) (S.Kind.AddressKind.num start) (S.Kind.AddressKind.num finish) result }
{
    if finish < start {
        return Err(Refusal::Backwards);
    }
    if is_default(start, finish) {
        return Err(Refusal::DefaultRange);
    }
    let Some(hop) = store.hop_of(start, finish) else {
        return Err(Refusal::NotHeld);
    };
    let _ = store.take(start, finish);
    Ok(Some(hop))
}

/// Applies one change, and answers the note that takes it back.
fn apply_one<S: RangeStore>(store: &mut S, change: &Change<S::Kind>) -> Result<Option<u16>, Refusal>
    ensures answer { bare result ≡ change_answer S.Kind.AddressKind.last (S.RangeStore.capacity store.old) (S.RangeStore.rules store.old) (numbered_change S.Kind.AddressKind.num change.now) }
    ensures after { S.RangeStore.rules store.new ≡ change_left S.Kind.AddressKind.last (S.RangeStore.capacity store.old) (S.RangeStore.rules store.old) (numbered_change S.Kind.AddressKind.num change.now) }
    ensures room { S.RangeStore.capacity store.new ≡ S.RangeStore.capacity store.old }
    ensures back { Back (S.RangeStore.capacity store.old) (S.RangeStore.rules store.old) (S.RangeStore.rules store.new) (S.Kind.AddressKind.num (start_of change.now)) (S.Kind.AddressKind.num (finish_of change.now)) result }
{
    match change {
        Change::Add { start, finish, hop } => apply_add(store, *start, *finish, *hop),
        Change::Remove { start, finish } => apply_remove(store, *start, *finish),
    }
}

/// Applies the changes in order, or none of them.
fn apply_all<S: RangeStore>(store: &mut S, list: &mut [Staged<S::Kind>]) -> Result<(), Refusal>
    ensures answer { result ≡ all_answer S.Kind.AddressKind.last (S.RangeStore.capacity store.old) (S.RangeStore.rules store.old) (numbered_changes S.Kind.AddressKind.num list.old) }
    ensures after { S.RangeStore.rules store.new ≡ all_left S.Kind.AddressKind.last (S.RangeStore.capacity store.old) (S.RangeStore.rules store.old) (numbered_changes S.Kind.AddressKind.num list.old) }
    ensures room { S.RangeStore.capacity store.new ≡ S.RangeStore.capacity store.old }
    ensures kept { changes list.new ≡ changes list.old }
    ensures back { is_ok result ≡ true → unwind S.Kind.AddressKind.num (S.RangeStore.capacity store.old) (S.RangeStore.rules store.new) list.new ≡ S.RangeStore.rules store.old }
{
    for (i, staged) in list.iter_mut().enumerate() {
        match apply_one(store, &staged.change) {
            Ok(note) => staged.note = note,
            Err(refusal) => {
                undo(store, list, i);
                return Err(refusal);
            }
        }
    }
    Ok(())
}

/// Ends the batch and applies its changes, the first of the list, in order; `undo` takes them back. Refuses `ShortList`, then each
/// change in its turn by `Backwards`, `DefaultRange`, `NotHeld` and `Full`; a refusal leaves the store as it was.
pub fn apply<S: RangeStore>(
    store: &mut S,
    batch: Batch,
    list: &mut [Staged<S::Kind>],
) -> Result<usize, Refusal>
    ensures answer { result ≡ apply_answer S.Kind.AddressKind.last (S.RangeStore.capacity store.old) (S.RangeStore.rules store.old) (count_of batch) (numbered_changes S.Kind.AddressKind.num list.old) }
    ensures after { S.RangeStore.rules store.new ≡ apply_rules S.Kind.AddressKind.last (S.RangeStore.capacity store.old) (S.RangeStore.rules store.old) (count_of batch) (numbered_changes S.Kind.AddressKind.num list.old) }
    ensures room { S.RangeStore.capacity store.new ≡ S.RangeStore.capacity store.old }
    ensures kept { changes list.new ≡ changes list.old }
    ensures rest { drop (count_of batch) list.new ≡ drop (count_of batch) list.old }
    ensures back { is_ok result ≡ true → unwind S.Kind.AddressKind.num (S.RangeStore.capacity store.old) (S.RangeStore.rules store.new) (take (count_of batch) list.new) ≡ S.RangeStore.rules store.old }
{
    let n = batch.end();
    if list.len() < n {
        return Err(Refusal::ShortList);
    }
    apply_all(store, &mut list[..n])?;
    Ok(n)
}
