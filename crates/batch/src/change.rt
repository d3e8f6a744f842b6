//! A change to a set of rules.

ghost use Rattle.std.specs.Prelude.{◌≡◌};
ghost use Rattle.batch.specs.Changes.{numbered_change, start_of, finish_of, backwards, removes_default};

use address::AddressKind;
use rules::is_default;

/// What a batch can do to a table.
#[derive(Clone, Copy, PartialEq, Eq, Debug)]
pub enum Change<A> {
    /// Enters the range, or replaces its hop.
    Add { start: A, finish: A, hop: u16 },
    /// Takes the range out.
    Remove { start: A, finish: A },
}

impl<A: AddressKind> Change<A> {
    /// The first address of the change's range.
    pub(crate) fn start(&self) -> A
        ensures { result ≡ start_of self.now }
    {
        match self {
            Change::Add { start, .. } | Change::Remove { start, .. } => *start,
        }
    }

    /// The last address of the change's range.
    pub(crate) fn finish(&self) -> A
        ensures { result ≡ finish_of self.now }
    {
        match self {
            Change::Add { finish, .. } | Change::Remove { finish, .. } => *finish,
        }
    }

    /// Whether the change's range has its start above its finish.
    pub(crate) fn is_backwards(&self) -> bool
        ensures { result ≡ backwards (numbered_change A.AddressKind.num self.now) }
    {
        self.finish() < self.start()
    }

    /// Whether the change is a remove of the default range.
    pub(crate) fn removes_default(&self) -> bool
        ensures { result ≡ removes_default A.AddressKind.last (numbered_change A.AddressKind.num self.now) }
    {
        matches!(self, Change::Remove { start, finish } if is_default(*start, *finish))
    }
}
