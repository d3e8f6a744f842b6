//! How many calls were compared, by kind and by refusal, and how many differed.

use rules::Refusal;
use std::{fmt, io};

/// The kinds of calls that are compared.
#[derive(Clone, Copy)]
pub(crate) enum Call {
    Make,
    Add,
    Remove,
    Lookup,
    Put,
    Take,
    Stage,
    Abandon,
    Commit,
}

impl Call {
    /// Every kind, in the order in which it counts.
    const ALL: [Call; 9] = [
        Call::Make,
        Call::Add,
        Call::Remove,
        Call::Lookup,
        Call::Put,
        Call::Take,
        Call::Stage,
        Call::Abandon,
        Call::Commit,
    ];
}

impl fmt::Display for Call {
    fn fmt<W: fmt::Write>(&self, f: &mut fmt::Formatter<W>) -> fmt::Result {
        f.write_str(match *self {
            Call::Make => "make",
            Call::Add => "add",
            Call::Remove => "remove",
            Call::Lookup => "lookup",
            Call::Put => "put",
            Call::Take => "take",
            Call::Stage => "stage",
            Call::Abandon => "abandon",
            Call::Commit => "commit",
        })
    }
}

/// Counts by kind of call, in the order of `Call::ALL`, and by number of refusal, as they are printed; no refusal has the number 0.
// The other crosscheck counts other kinds: a crate for the two lines that are alike would be no plainer.
#[derive(Drop)]
pub(crate) struct Tally {
    calls: [u32; 9],
    refusals: [u32; 17],
    differences: u32,
}

/// One more at a place, if there is such a place.
fn count_at(counts: &mut [u32], place: usize) {
    if let Some(n) = counts.get_mut(place) {
        *n = n.saturating_add(1);
    }
}

impl Tally {
    pub(crate) fn new() -> Tally {
        Tally {
            calls: [0; 9],
            refusals: [0; 17],
            differences: 0,
        }
    }

    /// One more call of this kind, with the refusal that both tables gave, if any.
    pub(crate) fn note(&mut self, call: Call, refusal: Option<Refusal>) {
        count_at(&mut self.calls, call as usize);
        if let Some(refusal) = refusal {
            count_at(&mut self.refusals, usize::from(refusal.number()));
        }
    }

    pub(crate) fn differ(&mut self) {
        self.differences = self.differences.saturating_add(1);
    }

    pub(crate) fn print(&self, rt: &impl Print) -> io::Result<()> {
        let mut total: u32 = 0;
        for (call, n) in Call::ALL.iter().zip(&self.calls) {
            total = total.saturating_add(*n);
            println!(rt; "{call}: {n}")?;
        }
        for (number, n) in self.refusals.iter().enumerate() {
            if *n > 0 {
                println!(rt; "refusal {number}: {n}")?;
            }
        }
        let differences = self.differences;
        println!(rt; "calls: {total}, differences: {differences}")
    }
}
