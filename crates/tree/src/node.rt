//! A node of a tree, as it is stored and as it is edited.

ghost use Rattle.std.specs.Prelude.{◌≡◌};
ghost use Rattle.tree.specs.Nodes.{blank_node};

use address::AddressKind;
use rules::Rule;

/// A rule with the links to its two subtrees. The link k leads to the node at place k - 1 of the row, and 0 to none.
// Nodes stand in a row and have links, and no boxes, since the libraries use no heap.
#[derive(Clone, Copy)]
pub struct Node<A> {
    pub rule: Rule<A>,
    /// The least start of this rule and those below it.
    pub low: A,
    // A link stays a number: an `Option<NonZeroU16>` has 4 bytes here, so that an IPv4 node would have 28 and not 24.
    pub left: u16,
    pub right: u16,
    pub height: u8,
}

/// A node as the edits read it and make it anew: its number, its rule and the links to its two subtrees, numbers as in a `Node`.
#[derive(Clone, Copy)]
pub struct Branch<A> {
    pub node: u16,
    pub rule: Rule<A>,
    pub left: u16,
    pub right: u16,
}

impl<A: AddressKind> Node<A> {
    /// A node to fill a row with; what stands in it never counts.
    pub fn blank(x: A) -> Node<A>
        ensures { result ≡ blank_node x }
    {
        Node {
            rule: Rule {
                start: x,
                finish: x,
                hop: 0,
            },
            low: x,
            left: 0,
            right: 0,
            height: 0,
        }
    }
}
