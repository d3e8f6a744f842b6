//! The node of a range.

ghost use Rattle.std.specs.Prelude.{◌≡◌, ◌<◌, Some, None, MatchOption};
ghost use Rattle.rules.specs.Rules.{Canonical, hop_of};
ghost use Rattle.tree.specs.Tree.{RuleTree, rules_in, before, look};
ghost use Rattle.tree.specs.Nodes.{Held};
ghost use Rattle.tree_search.specs.Searches.{root_hop};

use address::AddressKind;
use rules::Rule;
use std::cmp::Ordering;
use tree::Subtree;

/// The link to the node of the rule with the range of `sought`, and its hop, or none if it is not held.
pub fn find<A: AddressKind>(tree: Subtree<A>, sought: Rule<A>) -> Option<(u16, u16)>
    ensures place { (t : RuleTree A) → Held A.AddressKind.num tree.entry.nodes.now tree.entry.link t → MatchOption result (look (before A.AddressKind.num) sought t ≡ 0) (λ f. (0 < f.0) × (f.0 ≡ look (before A.AddressKind.num) sought t)) }
    ensures held { (t : RuleTree A) → Held A.AddressKind.num tree.entry.nodes.now tree.entry.link t → Canonical (rules_in A.AddressKind.num t) → MatchOption result (hop_of (rules_in A.AddressKind.num t) (A.AddressKind.num sought.start) (A.AddressKind.num sought.finish) ≡ None) (λ f. (hop_of (rules_in A.AddressKind.num t) (A.AddressKind.num sought.start) (A.AddressKind.num sought.finish) ≡ Some f.1) × ((s : RuleTree A) × Held A.AddressKind.num tree.entry.nodes.now f.0 s × (root_hop s ≡ Some f.1))) }
{
    let mut tree = tree;
    while let Some((n, left, right)) = tree.split() {
        match sought.order(&n.rule) {
            Ordering::Less => tree = left,
            Ordering::Greater => tree = right,
            Ordering::Equal => return Some((tree.link, n.rule.hop)),
        }
    }
    None
}

/// The hop of the range of `sought`, or none if it is not held.
pub fn hop_in<A: AddressKind>(tree: Subtree<A>, sought: Rule<A>) -> Option<u16>
    ensures { (t : RuleTree A) → Held A.AddressKind.num tree.entry.nodes.now tree.entry.link t → Canonical (rules_in A.AddressKind.num t) → result ≡ hop_of (rules_in A.AddressKind.num t) (A.AddressKind.num sought.start) (A.AddressKind.num sought.finish) }
{
    let (_, hop) = find(tree, sought)?;
    Some(hop)
}
