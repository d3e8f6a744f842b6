//! A deliberately plain table of ports: rules in no order, and every address tried in turn.

use crate::random::Random;
use address::Port;
use batch::{Change, Staged};
use rules::Refusal;

/// How many rules a plain table can hold at most.
const SLOTS: usize = 16;

// The other crosscheck has a rule like it: each stands alone, so that no mistake is in both.
#[derive(Clone, Copy, PartialEq, Eq)]
pub(crate) struct PlainRule {
    pub(crate) start: u16,
    pub(crate) finish: u16,
    pub(crate) hop: u16,
}

impl PlainRule {
    fn covers(&self, d: u16) -> bool {
        self.start <= d && d <= self.finish
    }

    fn is_inside(&self, other: &PlainRule) -> bool {
        other.start <= self.start && self.finish <= other.finish
    }

    fn is_range(&self, start: u16, finish: u16) -> bool {
        self.start == start && self.finish == finish
    }
}

#[derive(Clone, Copy)]
pub(crate) struct Plain {
    pub(crate) slots: [Option<PlainRule>; 16],
    capacity: usize,
}

impl Plain {
    pub(crate) fn new(capacity: usize) -> Plain {
        Plain {
            slots: [None; 16],
            capacity: capacity.min(SLOTS),
        }
    }

    pub(crate) fn count(&self) -> usize {
        self.slots.iter().flatten().count()
    }

    /// Mostly a held range, so that removes are tried for what they leave.
    pub(crate) fn held_or(&self, random: &mut Random, ends: (u16, u16)) -> (u16, u16) {
        if random.one_in(4) {
            return ends;
        }
        let slot = random.below(16) as usize;
        match self.slots.get(slot).copied().flatten() {
            Some(rule) => (rule.start, rule.finish),
            None => ends,
        }
    }

    /// The slot of a range that is held.
    // `start` and `finish` stand alone in these calls, as they do in those that they are held to.
    fn slot_of(&self, start: u16, finish: u16) -> Option<usize> {
        self.slots.iter().position(|slot| slot.is_some_and(|rule| rule.is_range(start, finish)))
    }

    fn set(&mut self, slot: usize, rule: Option<PlainRule>) {
        if let Some(place) = self.slots.get_mut(slot) {
            *place = rule;
        }
    }

    pub(crate) fn put(&mut self, start: u16, finish: u16, hop: u16) -> Result<(), Refusal> {
        if start > finish {
            return Err(Refusal::Backwards);
        }
        let held = self.slot_of(start, finish);
        if held.is_none() && self.count() >= self.capacity {
            return Err(Refusal::Full);
        }
        let free = self.slots.iter().position(|slot| slot.is_none());
        if let Some(slot) = held.or(free) {
            self.set(slot, Some(PlainRule { start, finish, hop }));
        }
        Ok(())
    }

    pub(crate) fn take(&mut self, start: u16, finish: u16) -> Result<(), Refusal> {
        if start > finish {
            return Err(Refusal::Backwards);
        }
        let slot = self.slot_of(start, finish).ok_or(Refusal::NotHeld)?;
        self.set(slot, None);
        Ok(())
    }

    fn covered(&self, d: u16) -> bool {
        self.slots.iter().flatten().any(|rule| rule.covers(d))
    }

    fn inside_all_at(&self, rule: &PlainRule, d: u16) -> bool {
        self.slots
            .iter()
            .flatten()
            .all(|other| !other.covers(d) || rule.is_inside(other))
    }

    fn most_specific(&self, d: u16) -> Option<PlainRule> {
        self.slots
            .iter()
            .flatten()
            .find(|rule| rule.covers(d) && self.inside_all_at(rule, d))
            .copied()
    }

    /// Tries every address from `start` to `finish`.
    fn resolved(&self, start: u16, finish: u16) -> bool {
        (start..=finish).all(|d| !self.covered(d) || self.most_specific(d).is_some())
    }

    pub(crate) fn make(&mut self, hop: u16) -> Result<(), Refusal> {
        if self.count() > 0 {
            return Err(Refusal::AlreadyMade);
        }
        self.put(0, u16::MAX, hop)
    }

    pub(crate) fn add(&mut self, start: u16, finish: u16, hop: u16) -> Result<(), Refusal> {
        let before = *self;
        let held = self.slot_of(start, finish).is_some();
        self.put(start, finish, hop)?;
        if !held && !self.resolved(start, finish) {
            *self = before;
            return Err(Refusal::Conflict);
        }
        Ok(())
    }

    pub(crate) fn remove(&mut self, start: u16, finish: u16) -> Result<(), Refusal> {
        if start == 0 && finish == u16::MAX {
            return Err(Refusal::DefaultRange);
        }
        let before = *self;
        self.take(start, finish)?;
        if !self.resolved(start, finish) {
            *self = before;
            return Err(Refusal::Conflict);
        }
        Ok(())
    }

    fn change(&mut self, change: &Change<Port>) -> Result<(), Refusal> {
        match *change {
            Change::Add { start, finish, hop } => self.put(start.value(), finish.value(), hop),
            Change::Remove { start, finish } => {
                if start.value() == 0 && finish.value() == u16::MAX {
                    return Err(Refusal::DefaultRange);
                }
                self.take(start.value(), finish.value())
            }
        }
    }

    /// The changes in turn, then every address of all.
    fn change_all(&mut self, list: &[Staged<Port>]) -> Result<(), Refusal> {
        for staged in list {
            self.change(&staged.change)?;
        }
        if self.resolved(0, u16::MAX) {
            Ok(())
        } else {
            Err(Refusal::Conflict)
        }
    }

    /// The first `n` changes, all or none.
    // A batch tells no count, so the check hands its own on.
    pub(crate) fn commit(&mut self, n: usize, list: &[Staged<Port>]) -> Result<usize, Refusal> {
        let first = list.get(..n).ok_or(Refusal::ShortList)?;
        let before = *self;
        if let Err(refusal) = self.change_all(first) {
            *self = before;
            return Err(refusal);
        }
        Ok(n)
    }

    pub(crate) fn lookup(&self, d: u16) -> Result<PlainRule, Refusal> {
        if !self.covered(d) {
            return Err(Refusal::Uncovered);
        }
        self.most_specific(d).ok_or(Refusal::Ambiguous)
    }
}
