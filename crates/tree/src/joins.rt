//! Reading the node behind a link, and making one over two trees. What writes the row changes it under every link, so it takes
//! the row and links and no `Subtree`.

ghost use Rattle.std.specs.Prelude.{◌≡◌, ◌-◌, ◌<◌, ◌≤◌, length, slice_index_or, slice_set};
ghost use Rattle.tree.specs.Tree.{RuleTree, node as node_of, height as height_of};
ghost use Rattle.tree.specs.Nodes.{Held, Opened, Parts, Only};

use crate::node::{Branch, Node};
use crate::subtree::Subtree;
use address::AddressKind;

/// The node at a place of the row.
pub fn node_at<A: AddressKind>(nodes: &[Node<A>], k: u16) -> Node<A>
    requires { (0 < k) × (k ≤ length nodes.now) }
    ensures { result ≡ slice_index_or nodes.now (k - 1) result }
{
    nodes[k as usize - 1]
}

/// The node behind a link that leads to one.
pub(crate) fn at<A: AddressKind>(nodes: &[Node<A>], k: u16) -> Branch<A>
    requires some { 0 < k }
    requires held { (t : RuleTree A) × Held A.AddressKind.num nodes.now k t }
    ensures { (t : RuleTree A) → Held A.AddressKind.num nodes.now k t → Opened A.AddressKind.num nodes.now k t result }
{
    Subtree { nodes, link: k }.branch().unwrap()
}

/// The height of the tree behind a link.
pub(crate) fn height_at<A: AddressKind>(nodes: &[Node<A>], k: u16) -> u8
    requires { ∥ ((t : RuleTree A) × Held A.AddressKind.num nodes.now k t) ∥₁ }
    ensures { (t : RuleTree A) → Held A.AddressKind.num nodes.now k t → result ≡ height_of t }
{
    Subtree { nodes, link: k }.height()
}

/// Writes a place of the row.
pub fn write<A: AddressKind>(nodes: &mut [Node<A>], i: usize, n: Node<A>)
    requires { i < length nodes.old }
    ensures { nodes.new ≡ slice_set nodes.old i n }
{
    nodes[i] = n;
}

/// Makes a node over two trees.
pub fn join<A: AddressKind>(nodes: &mut [Node<A>], top: Branch<A>)
    requires parts { (l r : RuleTree A) × Parts A.AddressKind.num nodes.old top.node top.left top.right l r × (height_of l < 255) × (height_of r < 255) }
    ensures made { (l r : RuleTree A) → Parts A.AddressKind.num nodes.old top.node top.left top.right l r → Held A.AddressKind.num nodes.new top.node (node_of l top.node top.rule r) }
    ensures only { Only top.node nodes.old nodes.new }
{
    let left = Subtree {
        nodes,
        link: top.left,
    };
    let right = Subtree {
        nodes,
        link: top.right,
    };
    let node = Node {
        rule: top.rule,
        low: left.least_start(right.least_start(top.rule.start)),
        left: top.left,
        right: top.right,
        height: left.height().max(right.height()) + 1,
    };
    write(nodes, top.node as usize - 1, node);
}
