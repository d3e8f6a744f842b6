//! Turns: how a tree is made anew where one side is higher by two. They change the row under every other link, so a link carries no
//! invariant here: each function asks for the trees that it takes.

ghost use Rattle.std.specs.Prelude.{◌<◌};
ghost use Rattle.tree.specs.Tree.{RuleTree, node as node_of, height as height_of, balance as balanced, turn_right, turn_left};
ghost use Rattle.tree.specs.Nodes.{Held, Parts, Beyond};
ghost use Rattle.tree.specs.Arms.{Arms, Short, Apart};

use crate::joins::{at, height_at, join};
use crate::node::{Branch, Node};
use address::AddressKind;

/// Makes two nodes, and the top over them in the place of the middle one.
fn join_arms<A: AddressKind>(nodes: &mut [Node<A>], low: Branch<A>, high: Branch<A>, top: Branch<A>)
    requires { (a b c d : RuleTree A) × Arms A.AddressKind.num nodes.old low high top.node a b c d × Short a b c d }
    ensures made { (a b c d : RuleTree A) → Arms A.AddressKind.num nodes.old low high top.node a b c d → Held A.AddressKind.num nodes.new top.node (node_of (node_of a low.node low.rule b) top.node top.rule (node_of c high.node high.rule d)) }
    ensures apart { Apart low.node high.node top.node nodes.old nodes.new }
{
    join(nodes, low);
    join(nodes, high);
    let top = Branch {
        left: low.node,
        right: high.node,
        ..top
    };
    join(nodes, top);
}

/// The turn for a left tree that is too high.
fn turn_right<A: AddressKind>(nodes: &mut [Node<A>], top: Branch<A>) -> u16
    requires parts { (l r : RuleTree A) × Parts A.AddressKind.num nodes.old top.node top.left top.right l r × (height_of l < 250) × (height_of r < 250) × (0 < height_of l) }
    ensures made { (l r : RuleTree A) → Parts A.AddressKind.num nodes.old top.node top.left top.right l r → Held A.AddressKind.num nodes.new result (turn_right l top.node top.rule r) }
    ensures beyond { (l r : RuleTree A) → Parts A.AddressKind.num nodes.old top.node top.left top.right l r → Beyond (node_of l top.node top.rule r) nodes.old nodes.new }
{
    let n = at(nodes, top.left);
    let outer = height_at(nodes, n.left);
    let inner = height_at(nodes, n.right);
    if outer < inner {
        let m = at(nodes, n.right);
        let low = Branch { right: m.left, ..n };
        let high = Branch {
            left: m.right,
            ..top
        };
        join_arms(nodes, low, high, m);
        m.node
    } else {
        let lower = Branch {
            left: n.right,
            ..top
        };
        join(nodes, lower);
        let upper = Branch {
            right: top.node,
            ..n
        };
        join(nodes, upper);
        n.node
    }
}

/// The turn for a right tree that is too high.
// One function for both turns would pick each field by a flag, which is no plainer than its mirror image.
fn turn_left<A: AddressKind>(nodes: &mut [Node<A>], top: Branch<A>) -> u16
    requires parts { (l r : RuleTree A) × Parts A.AddressKind.num nodes.old top.node top.left top.right l r × (height_of l < 250) × (height_of r < 250) × (0 < height_of r) }
    ensures made { (l r : RuleTree A) → Parts A.AddressKind.num nodes.old top.node top.left top.right l r → Held A.AddressKind.num nodes.new result (turn_left l top.node top.rule r) }
    ensures beyond { (l r : RuleTree A) → Parts A.AddressKind.num nodes.old top.node top.left top.right l r → Beyond (node_of l top.node top.rule r) nodes.old nodes.new }
{
    let n = at(nodes, top.right);
    let inner = height_at(nodes, n.left);
    let outer = height_at(nodes, n.right);
    if outer < inner {
        let m = at(nodes, n.left);
        let low = Branch {
            right: m.left,
            ..top
        };
        let high = Branch { left: m.right, ..n };
        join_arms(nodes, low, high, m);
        m.node
    } else {
        let lower = Branch {
            right: n.left,
            ..top
        };
        join(nodes, lower);
        let upper = Branch {
            left: top.node,
            ..n
        };
        join(nodes, upper);
        n.node
    }
}

/// Makes a node over two trees, with a turn where one is higher by two, and answers the link to the whole.
pub fn balance<A: AddressKind>(nodes: &mut [Node<A>], top: Branch<A>) -> u16
    requires parts { (l r : RuleTree A) × Parts A.AddressKind.num nodes.old top.node top.left top.right l r × (height_of l < 250) × (height_of r < 250) }
    ensures made { (l r : RuleTree A) → Parts A.AddressKind.num nodes.old top.node top.left top.right l r → Held A.AddressKind.num nodes.new result (balanced l top.node top.rule r) }
    ensures beyond { (l r : RuleTree A) → Parts A.AddressKind.num nodes.old top.node top.left top.right l r → Beyond (node_of l top.node top.rule r) nodes.old nodes.new }
{
    let left = height_at(nodes, top.left);
    let right = height_at(nodes, top.right);
    if right + 1 < left {
        turn_right(nodes, top)
    } else if left + 1 < right {
        turn_left(nodes, top)
    } else {
        join(nodes, top);
        top.node
    }
}
