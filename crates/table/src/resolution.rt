//! The most specific rule at an address, asked of a store.

ghost use Rattle.std.specs.Prelude.{◌≡◌};
ghost use Rattle.rules.specs.Conflicts.{resolved_at, resolved_in};
ghost use Rattle.table.specs.Answers.{found, lookup_answer};

use address::AddressKind;
use rules::{RangeStore, Refusal};

/// The most specific rule at `d`. Refuses `Uncovered`, then `Ambiguous`.
pub(crate) fn most_specific<S: RangeStore>(
    store: &S,
    d: S::Kind,
) -> Result<(S::Kind, S::Kind, u16), Refusal>
    ensures { found S.Kind.AddressKind.num result ≡ lookup_answer (S.RangeStore.rules store.now) (S.Kind.AddressKind.num d) }
{
    let rule = store.least_finish(d).ok_or(Refusal::Uncovered)?;
    let closest = store.greatest_start(d).ok_or(Refusal::Ambiguous)?;
    if (rule.0, rule.1) == (closest.0, closest.1) {
        Ok(rule)
    } else {
        Err(Refusal::Ambiguous)
    }
}

/// Whether `d` has a most specific rule, or no rule covers it.
fn resolved_at<S: RangeStore>(store: &S, d: S::Kind) -> bool
    ensures { result ≡ resolved_at (S.RangeStore.rules store.now) (S.Kind.AddressKind.num d) }
{
    !matches!(most_specific(store, d), Err(Refusal::Ambiguous))
}

/// Whether that holds of each address from `start` to `finish`, tested at `start` and at each boundary behind it.
#[tactic(auto, using(rules::proofs::Boundaries::walk_moves))]
pub(crate) fn resolved_between<S: RangeStore>(store: &S, start: S::Kind, finish: S::Kind) -> bool
    ensures { result ≡ resolved_in (S.RangeStore.rules store.now) (S.Kind.AddressKind.num start) (S.Kind.AddressKind.num finish) }
{
    let mut d = start;
    while d <= finish {
        if !resolved_at(store, d) {
            return false;
        }
        let Some(boundary) = store.next_boundary(d) else {
            return true;
        };
        d = boundary;
    }
    true
}
