//! Forward questions and rows of lookups on a table, each held to the plain check.

use crate::plain;
use crate::plain::PlainRule;
use crate::tally::{Kind, Tally};
use crate::world::EDGES;
use address::Ipv4;
use forward::{Unforwarded, forward, lookup_row};
use row_store::Ipv4Row;

/// How many destinations and how many hops a row has at most.
const WIDTH: usize = 8;

/// What the hop row holds before a row of lookups.
const MARKS: [u16; 8] = [90, 91, 92, 93, 94, 95, 96, 97];

/// A table, the rules that were put into it, and what was counted.
#[derive(Drop)]
pub(crate) struct Check<'a, 'r> {
    pub(crate) table: &'a Ipv4Row<'r>,
    pub(crate) rules: &'a [PlainRule],
    pub(crate) tally: &'a mut Tally,
}

impl<'a, 'r> Check<'a, 'r> {
    /// Every address from 64 before an edge of a block to 63 behind it.
    pub(crate) fn questions(&mut self) {
        for edge in &EDGES {
            // Offsets and not places of a list: each address around the edge is tried.
            for offset in 0..128u32 {
                self.ask(edge.wrapping_sub(64).wrapping_add(offset));
            }
        }
    }

    fn ask(&mut self, d: u32) {
        let answer = forward(self.table, Ipv4::new(d));
        let kind = match answer {
            Ok(_) => Kind::Found,
            Err(Unforwarded::Blocked) => Kind::NotForwarded,
            Err(Unforwarded::Refused(_)) => Kind::Refused,
        };
        let expected = if plain::blocked(d) {
            Err(Unforwarded::Blocked)
        } else {
            plain::lookup(self.rules, d).map_err(Unforwarded::Refused)
        };
        self.tally.note(kind, answer.map(plain_rule) == expected);
    }

    /// Rows of every length, into hop rows of every length, around the edges of the blocks.
    // The loops go over what is tried, not over a list.
    pub(crate) fn rows(&mut self) {
        for edge in &EDGES {
            for offset in 0..24u32 {
                let destinations = spread(edge.wrapping_sub(24).wrapping_add(offset));
                for count in 0..=WIDTH {
                    self.rows_of(&destinations[..count]);
                }
            }
        }
    }

    fn rows_of(&mut self, destinations: &[u32]) {
        for places in 0..=WIDTH {
            self.look(destinations, places);
        }
    }

    fn look(&mut self, destinations: &[u32], places: usize) {
        let places = places.min(WIDTH);
        let mut hops = MARKS;
        let answer = lookup_row(self.table, destinations, &mut hops[..places]);
        let kind = match answer {
            Ok(k) if k == destinations.len() => Kind::WholeRow,
            Ok(_) => Kind::PartOfRow,
            Err(_) => Kind::ShortRow,
        };
        let written = answer.unwrap_or(0);
        self.tally.note(
            kind,
            answer == plain::row(self.rules, destinations, places)
                && hops == plain::hops(self.rules, destinations, written, MARKS),
        );
    }
}

/// What a lookup answers as a plain rule, so that numbers are compared.
fn plain_rule((start, finish, hop): (Ipv4, Ipv4, u16)) -> PlainRule {
    PlainRule {
        start: start.value(),
        finish: finish.value(),
        hop,
    }
}

/// Destinations from `start` on, each three behind the one before it.
fn spread(start: u32) -> [u32; 8] {
    let mut destinations = [0; 8];
    let mut next = start;
    for d in destinations.iter_mut() {
        *d = next;
        next = next.wrapping_add(3);
    }
    destinations
}
