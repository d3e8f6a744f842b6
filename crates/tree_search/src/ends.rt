//! The finishes next to an address.

ghost use Rattle.std.specs.Prelude.{◌≡◌};
ghost use Rattle.std.specs.Option.{option_map};
ghost use Rattle.rules.specs.Rules.{Canonical};
ghost use Rattle.mirror.specs.Mirrored.{finish_from, finish_before};
ghost use Rattle.tree.specs.Tree.{RuleTree, rules_in};
ghost use Rattle.tree.specs.Nodes.{Held};

use address::AddressKind;
use tree::Subtree;

/// The least finish from d on, or none.
pub fn finish_from<A: AddressKind>(tree: Subtree<A>, d: A) -> Option<A>
    ensures { (t : RuleTree A) → Held A.AddressKind.num tree.entry.nodes.now tree.entry.link t → Canonical (rules_in A.AddressKind.num t) → option_map A.AddressKind.num result ≡ finish_from (rules_in A.AddressKind.num t) (A.AddressKind.num d) }
{
    let mut tree = tree;
    let mut found = None;
    while let Some((n, left, right)) = tree.split() {
        if n.rule.finish < d {
            tree = right;
        } else {
            found = Some(n.rule.finish);
            tree = left;
        }
    }
    found
}

/// The greatest finish before d, or none.
// The other way round than the search above: one function for both would choose by a flag at each node.
pub fn finish_before<A: AddressKind>(tree: Subtree<A>, d: A) -> Option<A>
    ensures { (t : RuleTree A) → Held A.AddressKind.num tree.entry.nodes.now tree.entry.link t → Canonical (rules_in A.AddressKind.num t) → option_map A.AddressKind.num result ≡ finish_before (rules_in A.AddressKind.num t) (A.AddressKind.num d) }
{
    let mut tree = tree;
    let mut latest = None;
    while let Some((n, left, right)) = tree.split() {
        if n.rule.finish < d {
            latest = Some(n.rule.finish);
            tree = right;
        } else {
            tree = left;
        }
    }
    latest
}
