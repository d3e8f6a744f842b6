//! One batch on both tables: staged, and then committed or abandoned.

use crate::compare::Run;
use crate::tally::Call;
use address::Port;
use batch::{Batch, Change, Staged};
use rules::{RangeStore, Refusal};
use table::Table;

/// The places of the longest list.
const PLACES: usize = 66;

/// A change by plain numbers; a remove has no hop.
// Not a `Change`: what staging should answer is judged without the library's own types.
#[derive(Clone, Copy)]
struct Draft {
    start: u16,
    finish: u16,
    hop: Option<u16>,
}

impl Draft {
    fn change(&self) -> Change<Port> {
        let start = Port::new(self.start);
        let finish = Port::new(self.finish);
        match self.hop {
            Some(hop) => Change::Add { start, finish, hop },
            None => Change::Remove { start, finish },
        }
    }

    /// What staging should answer with `count` changes in the batch and a list of `places`.
    fn judge(&self, count: usize, places: usize) -> Result<(), Refusal> {
        if self.start > self.finish {
            return Err(Refusal::Backwards);
        }
        if self.hop.is_none() && self.start == 0 && self.finish == u16::MAX {
            return Err(Refusal::DefaultRange);
        }
        if count >= 64 || count >= places {
            return Err(Refusal::BatchFull);
        }
        Ok(())
    }
}

impl<'a, S: RangeStore<Kind = Port>> Run<'a, S> {
    /// Stages a batch of drawn changes and ends it.
    pub(crate) fn batch(&mut self) {
        let mut list = self.scrawled();
        let (tries, places) = self.sizes();
        let mut batch = Batch::open();
        let count = self.stage(&mut batch, &mut list[0..places.min(PLACES)], tries);
        self.finish(batch, count, &mut list);
    }

    fn draw(&mut self) -> Draft {
        let ends = self.world.ends(&mut self.random);
        if self.random.below(3) == 0 {
            let (start, finish) = self.plain.held_or(&mut self.random, ends);
            return Draft {
                start,
                finish,
                hop: None,
            };
        }
        Draft {
            start: ends.0,
            finish: ends.1,
            hop: Some((self.random.below(9) & 0xff) as u16),
        }
    }

    /// A list of anything, also of changes that staging would refuse.
    fn scrawled(&mut self) -> [Staged<Port>; 66] {
        let blank = Change::Remove {
            start: Port::new(9),
            finish: Port::new(4),
        };
        let mut list = [Staged {
            change: blank,
            note: Some(5),
        }; 66];
        for staged in list.iter_mut().take(8) {
            let draft = self.draw();
            *staged = Staged {
                change: draft.change(),
                note: draft.hop,
            };
        }
        list
    }

    /// How many changes are tried, and in how long a list: mostly few, now and then more than a batch or the list can take.
    // Drawn cases, each by one arm: a table of closures would hide which draw makes which case.
    fn sizes(&mut self) -> (u64, usize) {
        match self.random.below(12) {
            0 => (66, PLACES),
            1 => (6, 3),
            2 => (2, 0),
            _ => (self.random.below(7), 8),
        }
    }

    /// Stages drawn changes, and tells how many were taken.
    // A batch tells no count, so the check keeps its own.
    fn stage(&mut self, batch: &mut Batch, list: &mut [Staged<Port>], tries: u64) -> usize {
        let mut count: usize = 0;
        for _ in 0..tries {
            let draft = self.draw();
            let answer = batch.stage(list, draft.change());
            self.note(Call::Stage, answer, draft.judge(count, list.len()));
            if answer.is_ok() {
                count = count.saturating_add(1);
            }
        }
        count
    }

    /// Ends the batch: abandons it, or commits it with its own list, a part of it that is too short, or the places behind the first.
    fn finish(&mut self, batch: Batch, count: usize, list: &mut [Staged<Port>; 66]) {
        match self.random.below(8) {
            0 => {
                batch.abandon();
                self.tally.note(Call::Abandon, None);
            }
            1 => {
                let short = count.saturating_sub(1).min(PLACES);
                self.commit(batch, count, &mut list[0..short]);
            }
            2 => self.commit(batch, count, &mut list[1..PLACES]),
            _ => self.commit(batch, count, list),
        }
    }

    fn commit(&mut self, batch: Batch, count: usize, list: &mut [Staged<Port>]) {
        let expected = self.plain.commit(count, list);
        let answer = self.table.commit(batch, list);
        if answer != expected {
            self.tally.differ();
        }
        self.tally.note(Call::Commit, answer.err());
    }
}
