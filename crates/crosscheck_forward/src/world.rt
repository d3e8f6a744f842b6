//! The rules of the compared tables, and the addresses around which questions are asked.

use crate::plain::PlainRule;

/// Ranges that nest, cross and touch at the edges of the blocks; the last is the default range.
pub(crate) const RULES: [PlainRule; 16] = [
    PlainRule {
        start: 0x00ff_fff0,
        finish: 0x0100_000f,
        hop: 1,
    },
    PlainRule {
        start: 0x7eff_fff0,
        finish: 0x7f00_000f,
        hop: 2,
    },
    PlainRule {
        start: 0x7f00_0000,
        finish: 0x7fff_ffff,
        hop: 3,
    },
    PlainRule {
        start: 0x7fff_fff0,
        finish: 0x8000_000f,
        hop: 4,
    },
    PlainRule {
        start: 0x7fff_fff0,
        finish: 0x7fff_ffff,
        hop: 5,
    },
    PlainRule {
        start: 0xa9fd_0000,
        finish: 0xa9ff_0010,
        hop: 6,
    },
    PlainRule {
        start: 0xa9fd_fff8,
        finish: 0xa9fe_0008,
        hop: 7,
    },
    PlainRule {
        start: 0xa9fe_ff00,
        finish: 0xa9ff_0008,
        hop: 8,
    },
    PlainRule {
        start: 0xc000_01f0,
        finish: 0xc000_0210,
        hop: 9,
    },
    PlainRule {
        start: 0xc000_01f8,
        finish: 0xc000_0300,
        hop: 10,
    },
    PlainRule {
        start: 0xc633_6000,
        finish: 0xc633_650f,
        hop: 11,
    },
    PlainRule {
        start: 0xc633_6400,
        finish: 0xc633_64ff,
        hop: 12,
    },
    PlainRule {
        start: 0xcb00_7110,
        finish: 0xcb00_7210,
        hop: 13,
    },
    PlainRule {
        start: 0xcb00_7200,
        finish: 0xcb00_7200,
        hop: 14,
    },
    PlainRule {
        start: 0xefff_fff0,
        finish: 0xf000_000f,
        hop: 15,
    },
    PlainRule {
        start: 0x0000_0000,
        finish: 0xffff_ffff,
        hop: 16,
    },
];

/// The first and the last address of each block.
pub(crate) const EDGES: [u32; 14] = [
    0x0000_0000,
    0x00ff_ffff,
    0x7f00_0000,
    0x7fff_ffff,
    0xa9fe_0000,
    0xa9fe_ffff,
    0xc000_0200,
    0xc000_02ff,
    0xc633_6400,
    0xc633_64ff,
    0xcb00_7100,
    0xcb00_71ff,
    0xf000_0000,
    0xffff_ffff,
];
