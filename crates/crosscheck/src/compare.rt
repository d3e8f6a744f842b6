//! One call on both tables, and whether answers, ranges and hops agree.

use crate::plain::{Plain, PlainRule};
use crate::random::Random;
use crate::tally::{Call, Tally};
use crate::world::{Updates, World};
use address::Port;
use rules::{RangeStore, Refusal};
use table::Table;

/// A table with the plain table beside it, the world that their calls are drawn from, and what was counted.
#[derive(Drop)]
pub(crate) struct Run<'a, S> {
    pub(crate) table: &'a mut S,
    pub(crate) plain: Plain,
    pub(crate) world: &'a World,
    pub(crate) random: Random,
    pub(crate) tally: &'a mut Tally,
}

impl<'a, S: RangeStore<Kind = Port>> Run<'a, S> {
    /// All calls of the world, and then its batches.
    pub(crate) fn run(&mut self) {
        for _ in 0..self.world.calls {
            self.call();
            self.compare_rules();
        }
        for _ in 0..self.world.batches {
            self.batch();
            self.compare_rules();
        }
    }

    /// Counts a difference unless both hold the same ranges with the same hops: as many, and each of the plain ones.
    fn compare_rules(&mut self) {
        let table = &*self.table;
        let all = self.plain.slots.iter().flatten().all(|rule| {
            table.hop_of(Port::new(rule.start), Port::new(rule.finish)) == Some(rule.hop)
        });
        if !all || self.table.count() != self.plain.count() {
            self.tally.differ();
        }
    }

    /// One drawn call.
    // One `match` over the turns: a table of closures would hide which turn makes which call.
    fn call(&mut self) {
        let turn = self.random.below(16);
        let ends = self.world.ends(&mut self.random);
        let hop = (self.random.below(9) & 0xff) as u16;
        match turn {
            0 if self.world.updates == Updates::Judged => self.make(hop),
            0..=4 => self.look(ends.0),
            5..=10 => self.insert(ends, hop),
            _ => {
                let ends = self.plain.held_or(&mut self.random, ends);
                self.delete(ends);
            }
        }
    }

    fn make(&mut self, hop: u16) {
        let answer = self.table.make(hop);
        let plain = self.plain.make(hop);
        self.note(Call::Make, answer, plain);
    }

    fn insert(&mut self, ends: (u16, u16), hop: u16) {
        let (start, finish) = (Port::new(ends.0), Port::new(ends.1));
        match self.world.updates {
            Updates::Direct => {
                let answer = self.table.put(start, finish, hop);
                let plain = self.plain.put(ends.0, ends.1, hop);
                self.note(Call::Put, answer, plain);
            }
            Updates::Judged => {
                let answer = self.table.add(start, finish, hop);
                let plain = self.plain.add(ends.0, ends.1, hop);
                self.note(Call::Add, answer, plain);
            }
        }
    }

    fn delete(&mut self, ends: (u16, u16)) {
        let (start, finish) = (Port::new(ends.0), Port::new(ends.1));
        match self.world.updates {
            Updates::Direct => {
                let answer = self.table.take(start, finish);
                let plain = self.plain.take(ends.0, ends.1);
                self.note(Call::Take, answer, plain);
            }
            Updates::Judged => {
                let answer = self.table.remove(start, finish);
                let plain = self.plain.remove(ends.0, ends.1);
                self.note(Call::Remove, answer, plain);
            }
        }
    }

    pub(crate) fn note(
        &mut self,
        call: Call,
        answer: Result<(), Refusal>,
        plain: Result<(), Refusal>,
    ) {
        if answer != plain {
            self.tally.differ();
        }
        self.tally.note(call, answer.err());
    }

    fn look(&mut self, d: u16) {
        let answer = self.table.lookup(Port::new(d));
        if answer.map(plain_rule) != self.plain.lookup(d) {
            self.tally.differ();
        }
        self.tally.note(Call::Lookup, answer.err());
    }
}

/// What a lookup answers as a plain rule, so that numbers are compared.
fn plain_rule((start, finish, hop): (Port, Port, u16)) -> PlainRule {
    PlainRule {
        start: start.value(),
        finish: finish.value(),
        hop,
    }
}
