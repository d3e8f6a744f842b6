//! A tree to be read, as the row that holds it and the link to its top.

ghost use Rattle.std.specs.Prelude.{◌≡◌, ◌<◌, MatchOption, ⊤};
ghost use Rattle.tree.specs.Tree.{RuleTree, leaf, height as height_of};
ghost use Rattle.tree.specs.Nodes.{Held, Shows, Opened, Parted, low_with, stored_height};

use crate::joins::node_at;
use crate::node::{Branch, Node};
use address::AddressKind;

// What a call promises, it promises of each tree that the row holds at the link, and `held` says that there is one: an edit, which has a
// tree by its parts, can use that as it stands.
/// The tree behind a link of a row. As long as it is borrowed the row stays as it is, and so does the tree.
#[derive(Drop)]
pub struct Subtree<'a, A: AddressKind> {
    pub nodes: &'a [Node<A>],
    pub link: u16,
    pub ghost held: { ∥ ((t : RuleTree A) × Held A.AddressKind.num nodes.now link t) ∥₁ },
}

impl<'a, A: AddressKind> Subtree<'a, A> {
    /// The node at the top, or none if the tree is empty.
    pub fn node(&self) -> Option<Node<A>>
        ensures { (t : RuleTree A) → Held A.AddressKind.num self.now.nodes.now self.now.link t → MatchOption result (t ≡ leaf) (Shows A.AddressKind.num t self.now.link) }
    {
        if self.link == 0 {
            return None;
        }
        Some(node_at(self.nodes, self.link))
    }

    /// The node at the top and the trees to its left and right, or none if the tree is empty.
    pub fn split(&self) -> Option<(Node<A>, Subtree<'a, A>, Subtree<'a, A>)>
        ensures parts { (t : RuleTree A) → Held A.AddressKind.num self.now.nodes.now self.now.link t → MatchOption result (t ≡ leaf) (λ s. Parted A.AddressKind.num t self.now.link s.0 (Held A.AddressKind.num s.1.nodes.now s.1.link) (Held A.AddressKind.num s.2.nodes.now s.2.link)) }
        ensures row { MatchOption result ⊤ (λ s. (s.1.nodes.now ≡ self.now.nodes.now) × (s.2.nodes.now ≡ self.now.nodes.now)) }
        ensures falls { MatchOption result ⊤ (λ s. (stored_height s.1.nodes.now s.1.link < stored_height self.now.nodes.now self.now.link) × (stored_height s.2.nodes.now s.2.link < stored_height self.now.nodes.now self.now.link)) }
    {
        let n = self.node()?;
        let left = Subtree {
            nodes: self.nodes,
            link: n.left,
        };
        let right = Subtree {
            nodes: self.nodes,
            link: n.right,
        };
        Some((n, left, right))
    }

    /// The node at the top with its links, to be edited, or none if the tree is empty.
    pub fn branch(&self) -> Option<Branch<A>>
        ensures { (t : RuleTree A) → Held A.AddressKind.num self.now.nodes.now self.now.link t → MatchOption result (t ≡ leaf) (Opened A.AddressKind.num self.now.nodes.now self.now.link t) }
    {
        let n = self.node()?;
        Some(Branch {
            node: self.link,
            rule: n.rule,
            left: n.left,
            right: n.right,
        })
    }

    /// The height of the tree.
    pub fn height(&self) -> u8
        ensures { (t : RuleTree A) → Held A.AddressKind.num self.now.nodes.now self.now.link t → result ≡ height_of t }
    {
        self.node().map_or(0, |n| n.height)
    }

    /// The least of x and the starts in the tree.
    pub fn least_start(&self, x: A) -> A
        ensures { (t : RuleTree A) → Held A.AddressKind.num self.now.nodes.now self.now.link t → result ≡ low_with A.AddressKind.num t x }
    {
        match self.node() {
            Some(n) if n.low <= x => n.low,
            _ => x,
        }
    }
}
