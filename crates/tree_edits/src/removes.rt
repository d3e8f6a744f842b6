//! A rule leaves a tree.

ghost use Rattle.std.specs.Prelude.{◌≡◌, ◌<◌, length, MatchOption};
ghost use Rattle.tree.specs.Tree.{RuleTree, leaf, node as node_of, height as height_of, before, Balanced};
ghost use Rattle.tree.specs.Nodes.{Held, Parts, Beyond};
ghost use Rattle.tree_edits.specs.Edits.{without, merge as merged, prune};
ghost use Rattle.tree_edits.specs.Beside.{LeastAt, Beside, BeyondBoth};

use address::AddressKind;
use rules::Rule;
use std::cmp::Ordering;
use tree::{Branch, Node, Subtree, balance};

/// The first node of a tree by its number and its rule, or none if the tree is empty.
fn least<A: AddressKind>(tree: &Subtree<A>) -> Option<(u16, Rule<A>)>
    ensures { (t : RuleTree A) → Held A.AddressKind.num tree.now.nodes.now tree.now.link t → MatchOption result (t ≡ leaf) (λ f. LeastAt (length tree.now.nodes.now) t f.0 f.1) }
{
    let (n, left, _) = tree.split()?;
    Some(least(&left).unwrap_or((tree.link, n.rule)))
}

/// Takes the first node out of the tree with the node `top`, and answers the link to the rest.
fn without_least<A: AddressKind>(nodes: &mut [Node<A>], top: Branch<A>) -> u16
    requires tree { (l r : RuleTree A) × Parts A.AddressKind.num nodes.old top.node top.left top.right l r × Balanced (node_of l top.node top.rule r) × (height_of (node_of l top.node top.rule r) < 240) }
    ensures made { (l r : RuleTree A) → Parts A.AddressKind.num nodes.old top.node top.left top.right l r → Held A.AddressKind.num nodes.new result (without (node_of l top.node top.rule r)) }
    ensures beyond { (l r : RuleTree A) → Parts A.AddressKind.num nodes.old top.node top.left top.right l r → Beyond (node_of l top.node top.rule r) nodes.old nodes.new }
{
    let lower = Subtree {
        nodes,
        link: top.left,
    };
    let Some(next) = lower.branch() else {
        return top.right;
    };
    let left = without_least(nodes, next);
    balance(nodes, Branch { left, ..top })
}

/// Joins two trees by the first node of the second.
fn merge<A: AddressKind>(nodes: &mut [Node<A>], left: u16, right: u16) -> u16
    requires { (l r : RuleTree A) × Beside A.AddressKind.num nodes.old left right l r × Balanced r × (height_of l < 240) × (height_of r < 240) }
    ensures made { (l r : RuleTree A) → Beside A.AddressKind.num nodes.old left right l r → Held A.AddressKind.num nodes.new result (merged l r) }
    ensures beyond { (l r : RuleTree A) → Beside A.AddressKind.num nodes.old left right l r → BeyondBoth l r nodes.old nodes.new }
{
    let upper = Subtree { nodes, link: right };
    let (Some((node, rule)), Some(root)) = (least(&upper), upper.branch()) else {
        return left;
    };
    let right = without_least(nodes, root);
    let top = Branch {
        node,
        rule,
        left,
        right,
    };
    balance(nodes, top)
}

/// Takes out the rule with the range of `sought`, and answers the link to the tree; its node is free then.
pub fn remove<A: AddressKind>(nodes: &mut [Node<A>], root: u16, sought: Rule<A>) -> u16
    requires { (t : RuleTree A) × Held A.AddressKind.num nodes.old root t × Balanced t × (height_of t < 240) }
    ensures made { (t : RuleTree A) → Held A.AddressKind.num nodes.old root t → Held A.AddressKind.num nodes.new result (prune (before A.AddressKind.num) sought t) }
    ensures beyond { (t : RuleTree A) → Held A.AddressKind.num nodes.old root t → Beyond t nodes.old nodes.new }
{
    let Some(top) = (Subtree { nodes, link: root }).branch() else {
        return 0;
    };
    match sought.order(&top.rule) {
        Ordering::Less => {
            let left = remove(nodes, top.left, sought);
            balance(nodes, Branch { left, ..top })
        }
        Ordering::Greater => {
            let right = remove(nodes, top.right, sought);
            balance(nodes, Branch { right, ..top })
        }
        Ordering::Equal => merge(nodes, top.left, top.right),
    }
}
