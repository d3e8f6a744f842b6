//! Another hop for a rule in its place.

ghost use Rattle.std.specs.Prelude.{ℕ, ◌<◌, ◌≤◌, length};
ghost use Rattle.tree.specs.Tree.{RuleTree};
ghost use Rattle.tree.specs.Nodes.{Held, Only};
ghost use Rattle.tree_edits.specs.Edits.{amend};

use address::AddressKind;
use rules::Rule;
use tree::{Node, node_at, write};

/// Gives the rule of the node k another hop.
pub fn set_hop<A: AddressKind>(nodes: &mut [Node<A>], k: u16, hop: u16)
    requires { (0 < k) × (k ≤ length nodes.old) }
    ensures made { (root : ℕ) (t : RuleTree A) → Held A.AddressKind.num nodes.old root t → Held A.AddressKind.num nodes.new root (amend k hop t) }
    ensures only { Only k nodes.old nodes.new }
{
    let n = node_at(nodes, k);
    let rule = Rule { hop, ..n.rule };
    write(nodes, k as usize - 1, Node { rule, ..n });
}
