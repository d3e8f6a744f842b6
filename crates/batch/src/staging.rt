//! Opening a batch, staging changes in the caller's list, and abandoning it.

ghost use Rattle.std.specs.Prelude.{◌≡◌, true, false, length};
ghost use Rattle.batch.specs.Changes.{numbered_change};
ghost use Rattle.batch.specs.Staging.{count_of, is_ended, stage_answer, stage_count, stage_list};

use crate::change::Change;
use address::AddressKind;
use rules::Refusal;

/// A place of the caller's list: a change, and a note, which is working space of commit and undecided outside it.
#[derive(Clone, Copy, PartialEq, Eq, Debug)]
pub struct Staged<A> {
    pub change: Change<A>,
    pub note: Option<u16>,
}

/// How many changes are staged in the caller's list, and whether the batch was ended, by commit or by abandon.
// Plain numbers and a contract on `Drop`: a batch borrows no list, and one that is still open cannot be let go.
#[derive(Debug)]
pub struct Batch {
    count: usize,
    ended: bool,
}

/// Only a batch that was ended may be let go.
impl Drop for Batch {
    fn drop(self)
        requires { is_ended self ≡ true }
    {
        let Batch { count: _, ended: _ } = self;
    }
}

impl Batch {
    /// How many changes a batch can have.
    pub const MAX_CHANGES: usize = 64;

    /// A batch with no changes.
    pub fn open() -> Batch
        ensures count { count_of result ≡ 0 }
        ensures ended { is_ended result ≡ false }
    {
        Batch {
            count: 0,
            ended: false,
        }
    }

    /// Writes the change into the next place of the list. Refuses `Backwards`, `DefaultRange` for a remove of it, and `BatchFull`.
    pub fn stage<A: AddressKind>(
        &mut self,
        list: &mut [Staged<A>],
        change: Change<A>,
    ) -> Result<(), Refusal>
        ensures answer { result ≡ stage_answer A.AddressKind.last (count_of self.old) (length list.old) (numbered_change A.AddressKind.num change) }
        ensures count { count_of self.new ≡ stage_count A.AddressKind.last (count_of self.old) (length list.old) (numbered_change A.AddressKind.num change) }
        ensures list { list.new ≡ stage_list A.AddressKind.last A.AddressKind.num (count_of self.old) list.old change }
        ensures ended { is_ended self.new ≡ is_ended self.old }
    {
        if change.is_backwards() {
            return Err(Refusal::Backwards);
        }
        if change.removes_default() {
            return Err(Refusal::DefaultRange);
        }
        if self.count >= Batch::MAX_CHANGES || self.count >= list.len() {
            return Err(Refusal::BatchFull);
        }
        list[self.count] = Staged { change, note: None };
        self.count += 1;
        Ok(())
    }

    /// Ends the batch; nothing of it is applied.
    pub fn abandon(self) {
        let _ = self.end();
    }

    /// Ends the batch and tells how many changes it has.
    pub(crate) fn end(mut self) -> usize
        ensures { result ≡ count_of self }
    {
        self.ended = true;
        self.count
    }
}
