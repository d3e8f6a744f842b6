//! The worlds that calls are drawn from: where their ranges lie, and how many rules fit.

use crate::random::Random;

/// How updates reach the store.
#[derive(Clone, Copy, PartialEq, Eq)]
pub(crate) enum Updates {
    /// By adds and removes of a table.
    Judged,
    /// By direct puts and takes, with no table made.
    Direct,
}

#[derive(Clone, Copy)]
pub(crate) struct World {
    pub(crate) name: &'static str,
    pub(crate) seed: u64,
    /// The least start, and how many addresses there are.
    pub(crate) low: u16,
    pub(crate) span: u16,
    pub(crate) capacity: usize,
    pub(crate) updates: Updates,
    pub(crate) calls: u32,
    /// How many batches are staged after these calls.
    pub(crate) batches: u32,
}

pub(crate) const WORLDS: [World; 7] = [
    World {
        name: "crossing, touching and nested",
        seed: 1,
        low: 100,
        span: 24,
        capacity: 14,
        updates: Updates::Judged,
        calls: 30000,
        batches: 700,
    },
    World {
        name: "at the last ports",
        seed: 2,
        low: 65520,
        span: 16,
        capacity: 14,
        updates: Updates::Judged,
        calls: 12000,
        batches: 300,
    },
    World {
        name: "at the first ports",
        seed: 3,
        low: 0,
        span: 16,
        capacity: 14,
        updates: Updates::Judged,
        calls: 12000,
        batches: 300,
    },
    World {
        name: "two places",
        seed: 4,
        low: 10,
        span: 12,
        capacity: 2,
        updates: Updates::Judged,
        calls: 6000,
        batches: 200,
    },
    World {
        name: "no place",
        seed: 5,
        low: 10,
        span: 12,
        capacity: 0,
        updates: Updates::Judged,
        calls: 200,
        batches: 20,
    },
    World {
        name: "direct puts",
        seed: 6,
        low: 10,
        span: 16,
        capacity: 10,
        updates: Updates::Direct,
        calls: 12000,
        batches: 200,
    },
    World {
        name: "wide ranges",
        seed: 7,
        low: 0,
        span: 65535,
        capacity: 8,
        updates: Updates::Judged,
        calls: 6000,
        batches: 100,
    },
];

impl World {
    /// An address of this world, now and then the first or the last of all.
    pub(crate) fn address(&self, random: &mut Random) -> u16 {
        if random.one_in(40) {
            return 0;
        }
        if random.one_in(40) {
            return u16::MAX;
        }
        let offset = random.below(u64::from(self.span)) & 0xffff;
        self.low.saturating_add(offset as u16)
    }

    /// The ends of a range of this world, mostly in order.
    pub(crate) fn ends(&self, random: &mut Random) -> (u16, u16) {
        let a = self.address(random);
        let b = self.address(random);
        if random.one_in(20) {
            return (a, b);
        }
        (a.min(b), a.max(b))
    }
}
