//! A rule enters a tree.

ghost use Rattle.std.specs.Prelude.{◌≡◌, ◌<◌, ◌≤◌, length};
ghost use Rattle.tree.specs.Tree.{RuleTree, height as height_of, uses, before, Balanced};
ghost use Rattle.tree.specs.Nodes.{Held, Beyond};
ghost use Rattle.tree_edits.specs.Edits.{grow};

use address::AddressKind;
use rules::Rule;
use tree::{Branch, Node, Subtree, balance, join};

/// Enters a rule, with the node i, into the tree behind `root`, and answers the link to the tree.
pub fn insert<A: AddressKind>(nodes: &mut [Node<A>], root: u16, i: u16, rule: Rule<A>) -> u16
    requires free { (0 < i) × (i ≤ length nodes.old) }
    requires tree { (t : RuleTree A) × Held A.AddressKind.num nodes.old root t × Balanced t × (height_of t < 240) × (uses i t ≡ 0) }
    ensures made { (t : RuleTree A) → Held A.AddressKind.num nodes.old root t → uses i t ≡ 0 → Held A.AddressKind.num nodes.new result (grow (before A.AddressKind.num) t i rule) }
    ensures beyond { (t : RuleTree A) → Held A.AddressKind.num nodes.old root t → uses i t ≡ 0 → Beyond (grow (before A.AddressKind.num) t i rule) nodes.old nodes.new }
{
    let Some(top) = (Subtree { nodes, link: root }).branch() else {
        let node = Branch {
            node: i,
            rule,
            left: 0,
            right: 0,
        };
        join(nodes, node);
        return i;
    };
    if rule.is_before(&top.rule) {
        let left = insert(nodes, top.left, i, rule);
        balance(nodes, Branch { left, ..top })
    } else {
        let right = insert(nodes, top.right, i, rule);
        balance(nodes, Branch { right, ..top })
    }
}
