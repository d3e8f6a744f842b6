//! Taking changes back by their notes.

ghost use Rattle.std.specs.Prelude.{◌≡◌, take};
ghost use Rattle.batch.specs.Changes.{start_of, finish_of};
ghost use Rattle.batch.specs.Applied.{undone, unwind};

use crate::staging::Staged;
use address::AddressKind;
use rules::RangeStore;

/// Takes one change back: the range has the hop of the note again, or is gone.
fn undo_one<S: RangeStore>(store: &mut S, staged: &Staged<S::Kind>)
    ensures after { S.RangeStore.rules store.new ≡ undone (S.RangeStore.capacity store.old) (S.RangeStore.rules store.old) (S.Kind.AddressKind.num (start_of staged.now.change)) (S.Kind.AddressKind.num (finish_of staged.now.change)) staged.now.note }
    ensures room { S.RangeStore.capacity store.new ≡ S.RangeStore.capacity store.old }
{
    let start = staged.change.start();
    let finish = staged.change.finish();
    match staged.note {
        Some(hop) => {
            let _ = store.put(start, finish, hop);
        }
        None => {
            let _ = store.take(start, finish);
        }
    }
}

/// Takes the changes back by their notes, the last first.
#[tactic(auto, using(crate::proofs::Backs::unwind_push, crate::proofs::Backs::unwind_none))]
fn undo_all<S: RangeStore>(store: &mut S, changes: &[Staged<S::Kind>])
    ensures after { S.RangeStore.rules store.new ≡ unwind S.Kind.AddressKind.num (S.RangeStore.capacity store.old) (S.RangeStore.rules store.old) changes.now }
    ensures room { S.RangeStore.capacity store.new ≡ S.RangeStore.capacity store.old }
{
    for staged in changes.iter().rev() {
        undo_one(store, staged);
    }
}

/// Takes the first `n` changes of the list back by their notes, the last first; of a shorter list all.
pub fn undo<S: RangeStore>(store: &mut S, list: &[Staged<S::Kind>], n: usize)
    ensures after { S.RangeStore.rules store.new ≡ unwind S.Kind.AddressKind.num (S.RangeStore.capacity store.old) (S.RangeStore.rules store.old) (take n list.now) }
    ensures room { S.RangeStore.capacity store.new ≡ S.RangeStore.capacity store.old }
{
    undo_all(store, &list[..n.min(list.len())]);
}
