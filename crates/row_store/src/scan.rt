//! Searches of a row's held rules: functions over a slice, since they ask nothing else of the store.

ghost use Rattle.std.specs.Prelude.{◌≡◌, true, map, if◌then◌else◌, Some, None};
ghost use Rattle.std.specs.Option.{option_map};
ghost use Rattle.rules.specs.Rules.{ordered, covers};
ghost use Rattle.rules.specs.Search.{least_finish, greatest_start, better, closer};
ghost use Rattle.rules.specs.Boundaries.{next_boundary};
ghost use Rattle.rules.specs.Answers.{numbered, told};
ghost use Rattle.row_store.specs.Held.{Reaches};

use address::AddressKind;
use rules::{Rule, nearer, nearer_end};
use std::cmp::Reverse;

/// The length of a front part of the rules that is all of them or ends at one that is not before `sought`.
// Its length grows fourfold, so a range near the front is found in a short part, however long the row.
pub(crate) fn reach<A: AddressKind>(held: &[Rule<A>], sought: &Rule<A>) -> usize
    ensures { Reaches A.AddressKind.num held.now (A.AddressKind.num sought.now.start) (A.AddressKind.num sought.now.finish) result }
{
    let mut end: usize = 1;
    while end < held.len() && held[end - 1].is_before(sought) {
        end *= 4;
    }
    end.min(held.len())
}

/// The first rule that covers d: in canonical order, the one of least finish.
pub(crate) fn first_in<A: AddressKind>(held: &[Rule<A>], d: A) -> Option<(A, A, u16)>
    requires { ordered (map (numbered A.AddressKind.num) held.now) ≡ true }
    ensures { told A.AddressKind.num result ≡ least_finish (map (numbered A.AddressKind.num) held.now) (A.AddressKind.num d) }
{
    for x in held {
        if x.covers(d) {
            return Some((x.start, x.finish, x.hop));
        }
    }
    None
}

/// Whether x starts after u, or at u and finishes before v.
// By std's order of tuples: a derived order would count the hop.
fn is_closer<A: AddressKind>(x: &Rule<A>, u: A, v: A) -> bool
    ensures { result ≡ closer (numbered A.AddressKind.num x.now) (record { start = A.AddressKind.num u; finish = A.AddressKind.num v; hop = 0 }) }
{
    (x.start, Reverse(x.finish)) > (u, Reverse(v))
}

/// The best so far, or x if it covers d and is closer.
fn closest<A: AddressKind>(best: Option<(A, A, u16)>, x: &Rule<A>, d: A) -> Option<(A, A, u16)>
    ensures { told A.AddressKind.num result ≡ better closer (told A.AddressKind.num best) (if covers (numbered A.AddressKind.num x.now) (A.AddressKind.num d) then Some (numbered A.AddressKind.num x.now) else None) }
{
    if !x.covers(d) {
        return best;
    }
    let Some((u, v, hop)) = best else {
        return Some((x.start, x.finish, x.hop));
    };
    if is_closer(x, u, v) {
        Some((x.start, x.finish, x.hop))
    } else {
        Some((u, v, hop))
    }
}

/// The rule of greatest start that covers d.
pub(crate) fn closest_in<A: AddressKind>(held: &[Rule<A>], d: A) -> Option<(A, A, u16)>
    ensures { told A.AddressKind.num result ≡ greatest_start (map (numbered A.AddressKind.num) held.now) (A.AddressKind.num d) }
{
    let mut best = None;
    for x in held {
        best = closest(best, x, d);
    }
    best
}

/// The least boundary above d.
pub(crate) fn boundary_in<A: AddressKind>(held: &[Rule<A>], d: A) -> Option<A>
    ensures { option_map A.AddressKind.num result ≡ next_boundary A.AddressKind.last (map (numbered A.AddressKind.num) held.now) (A.AddressKind.num d) }
{
    let mut known = None;
    for x in held.iter().rev() {
        known = nearer(d, x.start, nearer_end(d, x.finish, known));
    }
    known
}
