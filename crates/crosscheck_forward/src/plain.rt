//! A deliberately plain check: the blocks by the octets of an address, and lookups by trying every rule against every other.

use rules::Refusal;

/// Addresses from `start` to `finish` go out on the line `hop`.
// The other crosscheck has a rule like it: each stands alone, so that no mistake is in both.
#[derive(Clone, Copy, PartialEq, Eq)]
pub(crate) struct PlainRule {
    pub(crate) start: u32,
    pub(crate) finish: u32,
    pub(crate) hop: u16,
}

impl PlainRule {
    fn covers(&self, d: u32) -> bool {
        self.start <= d && d <= self.finish
    }

    fn is_inside(&self, other: &PlainRule) -> bool {
        other.start <= self.start && self.finish <= other.finish
    }
}

/// Whether the address is one of those that are not forwarded.
pub(crate) fn blocked(d: u32) -> bool {
    let a = d >> 24;
    let b = d >> 16 & 255;
    let c = d >> 8 & 255;
    match (a, b, c) {
        (0, _, _) => true,
        (127, _, _) => true,
        (169, 254, _) => true,
        (192, 0, 2) => true,
        (198, 51, 100) => true,
        (203, 0, 113) => true,
        _ => a >= 240,
    }
}

/// Whether every rule that covers `d` has `rule` inside it.
fn inside_all(rules: &[PlainRule], rule: &PlainRule, d: u32) -> bool {
    rules
        .iter()
        .all(|other| !other.covers(d) || rule.is_inside(other))
}

/// The rule that covers `d` and lies inside every other that does.
pub(crate) fn lookup(rules: &[PlainRule], d: u32) -> Result<PlainRule, Refusal> {
    if !rules.iter().any(|rule| rule.covers(d)) {
        return Err(Refusal::Uncovered);
    }
    rules
        .iter()
        .find(|rule| rule.covers(d) && inside_all(rules, rule, d))
        .copied()
        .ok_or(Refusal::Ambiguous)
}

/// What a row of lookups is answered: the place of the first destination that is refused.
// A number of places and no row: nothing is written here.
pub(crate) fn row(
    rules: &[PlainRule],
    destinations: &[u32],
    places: usize,
) -> Result<usize, Refusal> {
    if places < destinations.len() {
        return Err(Refusal::ShortBuffer);
    }
    let refused = destinations.iter().position(|d| lookup(rules, *d).is_err());
    Ok(refused.unwrap_or(destinations.len()))
}

/// The hops after a row of lookups of which the first `k` are written.
// `k` is what the table answered, and may be wrong.
pub(crate) fn hops(
    rules: &[PlainRule],
    destinations: &[u32],
    k: usize,
    before: [u16; 8],
) -> [u16; 8] {
    let mut after = before;
    for (hop, d) in after.iter_mut().zip(destinations).take(k) {
        *hop = lookup(rules, *d).map_or(0, |rule| rule.hop);
    }
    after
}
