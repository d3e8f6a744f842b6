//! The row store: rules in canonical order at the front of one row of the caller's memory, for every kind of address.

ghost use Rattle.std.specs.Prelude.{◌≡◌, ◌≤◌, true, [], length, take};
ghost use Rattle.rules.specs.Rules.{ordered};
ghost use Rattle.row_store.specs.Held.{held, IsPlace};
ghost use Rattle.rules.specs.Answers.{capped};
ghost use Rattle.row_store.specs.Kept.{sound};

use crate::{edits, scan};
use address::{AddressKind, Ipv4, Ipv6, Port};
use rules::{MAX_RULES, RangeStore, Refusal, Rule};

/// Rules over the addresses of `A` in the first `count` places of the caller's row; the places behind them are undecided.
// A row with a count and no Vec: the memory is the caller's and nothing is allocated.
#[derive(Drop)]
pub struct RowStore<'a, A: AddressKind> {
    row: &'a mut [Rule<A>],
    count: usize,
    ghost within: { count ≤ capped (length row.now) },
    ghost order: { ordered (held A.AddressKind.num count row.now) ≡ true },
}

/// Rules over ports in one row of the caller's memory.
pub type PortRow<'a> = RowStore<'a, Port>;

/// Rules over IPv4 addresses in one row of the caller's memory.
pub type Ipv4Row<'a> = RowStore<'a, Ipv4>;

/// Rules over IPv6 addresses in one row of the caller's memory.
pub type Ipv6Row<'a> = RowStore<'a, Ipv6>;

impl<'a, A: AddressKind> RowStore<'a, A> {
    /// An empty store over the row, whatever stands in it.
    pub fn new(row: &'a mut [Rule<A>]) -> RowStore<'a, A>
        ensures empty { ⟦<RowStore<'a, A> as RangeStore>⟧.rules result ≡ [] }
        ensures room { ⟦<RowStore<'a, A> as RangeStore>⟧.capacity result ≡ capped (length row.old) }
    {
        RowStore { row, count: 0 }
    }

    /// The places that are held.
    fn held(&self) -> &[Rule<A>]
        ensures { result.now ≡ take self.now.count self.now.row.now }
    {
        &self.row[..self.count]
    }

    /// The place of the range of `sought` where it is held, or else the place where it belongs.
    fn search(&self, sought: &Rule<A>) -> Result<usize, usize>
        ensures { IsPlace A.AddressKind.num (take self.now.count self.now.row.now) (A.AddressKind.num sought.now.start) (A.AddressKind.num sought.now.finish) result }
    {
        let held = self.held();
        let front = &held[..scan::reach(held, sought)];
        front.binary_search_by(|x| x.order(sought))
    }
}

impl<'a, A: AddressKind> RangeStore for RowStore<'a, A> {
    type Kind = A;

    ghost capacity = { λ s. capped (length s.row.now) };

    ghost rules = { λ s. held A.AddressKind.num s.count s.row.now };

    ghost sound = { λ s. sound A.AddressKind.num A.AddressKind.last A.AddressKind.bounded s.count s.row.now s.within s.order };

    fn count(&self) -> usize {
        self.held().len()
    }

    fn capacity(&self) -> usize {
        self.row.len().min(MAX_RULES)
    }

    fn hop_of(&self, start: A, finish: A) -> Option<u16> {
        let sought = Rule {
            start,
            finish,
            hop: 0,
        };
        let place = self.search(&sought).ok()?;
        Some(self.row[place].hop)
    }

    fn put(&mut self, start: A, finish: A, hop: u16) -> Result<(), Refusal> {
        if finish < start {
            return Err(Refusal::Backwards);
        }
        let rule = Rule { start, finish, hop };
        match self.search(&rule) {
            Ok(place) => self.row[place] = rule,
            Err(place) => {
                if self.count == self.capacity() {
                    return Err(Refusal::Full);
                }
                edits::insert_at(&mut self.row[..self.count + 1], place, rule);
                self.count += 1;
            }
        }
        Ok(())
    }

    fn take(&mut self, start: A, finish: A) -> Result<(), Refusal> {
        if finish < start {
            return Err(Refusal::Backwards);
        }
        let sought = Rule {
            start,
            finish,
            hop: 0,
        };
        let Ok(place) = self.search(&sought) else {
            return Err(Refusal::NotHeld);
        };
        edits::remove_at(&mut self.row[..self.count], place);
        self.count -= 1;
        Ok(())
    }

    fn least_finish(&self, d: A) -> Option<(A, A, u16)> {
        scan::first_in(self.held(), d)
    }

    fn greatest_start(&self, d: A) -> Option<(A, A, u16)> {
        scan::closest_in(self.held(), d)
    }

    fn next_boundary(&self, d: A) -> Option<A> {
        scan::boundary_in(self.held(), d)
    }
}
