//! The first rule in order that covers an address.
//!
//! In canonical order finishes ascend, so left of a node that finishes before the address nothing covers it, and right of one
//! that does not, a rule covers it if it starts by it. The least starts tell whether a tree has a rule that starts by the
//! address, but not whether one of those also reaches it. So the descent goes left on trust and marks the last node from which
//! the search could go on to the right: if nothing on the way covers, the answer is that node or in its right tree, to which
//! the least starts lead straight. That is at most one descent down and one from the marked node.

ghost use Rattle.std.specs.Prelude.{◌≡◌};
ghost use Rattle.rules.specs.Rules.{Canonical};
ghost use Rattle.rules.specs.Search.{least_finish};
ghost use Rattle.rules.specs.Answers.{told};
ghost use Rattle.tree.specs.Tree.{RuleTree, rules_in};
ghost use Rattle.tree.specs.Nodes.{Held};
ghost use Rattle.tree_search.specs.Searches.{starts_by, any, first_with};

use address::AddressKind;
use tree::Subtree;

/// Whether the tree has a rule that starts by d.
fn reaches<A: AddressKind>(tree: &Subtree<A>, d: A) -> bool
    ensures { (t : RuleTree A) → Held A.AddressKind.num tree.now.nodes.now tree.now.link t → result ≡ any (starts_by (A.AddressKind.num d)) (rules_in A.AddressKind.num t) }
{
    let Some(n) = tree.node() else {
        return false;
    };
    n.low <= d
}

/// The first rule of the tree that starts by d.
fn first_started<A: AddressKind>(tree: Subtree<A>, d: A) -> Option<(A, A, u16)>
    ensures { (t : RuleTree A) → Held A.AddressKind.num tree.entry.nodes.now tree.entry.link t → told A.AddressKind.num result ≡ first_with (starts_by (A.AddressKind.num d)) (rules_in A.AddressKind.num t) }
{
    let mut tree = tree;
    while let Some((n, left, right)) = tree.split() {
        if reaches(&left, d) {
            tree = left;
        } else if n.rule.start <= d {
            return Some((n.rule.start, n.rule.finish, n.rule.hop));
        } else {
            tree = right;
        }
    }
    None
}

/// Of the rules that cover d, the one of least finish, among equals of greatest start; or none.
pub fn first_covering<A: AddressKind>(tree: Subtree<A>, d: A) -> Option<(A, A, u16)>
    ensures { (t : RuleTree A) → Held A.AddressKind.num tree.entry.nodes.now tree.entry.link t → Canonical (rules_in A.AddressKind.num t) → told A.AddressKind.num result ≡ least_finish (rules_in A.AddressKind.num t) (A.AddressKind.num d) }
{
    let mut tree = tree;
    let mut mark = None;
    while let Some((n, left, right)) = tree.split() {
        if n.rule.finish < d {
            tree = right;
        } else {
            if n.rule.start <= d || reaches(&right, d) {
                mark = Some((n.rule, right));
            }
            tree = left;
        }
    }
    let (rule, right) = mark?;
    if rule.start <= d {
        Some((rule.start, rule.finish, rule.hop))
    } else {
        first_started(right, d)
    }
}
