//! A client of batches: opens, stages, commits and abandons. Its must-fail edits are misuses that the check refuses.
#![tactic(auto)]

ghost use Rattle.std.specs.Prelude.{◌≡◌, length};
ghost use Rattle.batch.specs.declared.change.Change.TheVariants.{Add};
ghost use Rattle.batch_client.specs.Clients.{add_one_answer, add_one_rules};

use address::AddressKind;
use batch::{Batch, Change, Staged};
use rules::{RangeStore, Refusal};
use table::Table;

/// Adds one range by a batch of one change: commits it, or abandons it if staging is refused.
pub fn add_by_batch<S: RangeStore>(
    table: &mut S,
    list: &mut [Staged<S::Kind>],
    start: S::Kind,
    finish: S::Kind,
    hop: u16,
) -> Result<usize, Refusal>
    ensures answer { result ≡ add_one_answer S.Kind.AddressKind.last (S.RangeStore.capacity table.old) (S.RangeStore.rules table.old) (length list.old) (Add (S.Kind.AddressKind.num start) (S.Kind.AddressKind.num finish) hop) }
    ensures after { S.RangeStore.rules table.new ≡ add_one_rules S.Kind.AddressKind.last (S.RangeStore.capacity table.old) (S.RangeStore.rules table.old) (length list.old) (Add (S.Kind.AddressKind.num start) (S.Kind.AddressKind.num finish) hop) }
{
    let mut batch = Batch::open();
    if let Err(refusal) = batch.stage(list, Change::Add { start, finish, hop }) {
        batch.abandon();
        return Err(refusal);
    }
    table.commit(batch, list)
}
