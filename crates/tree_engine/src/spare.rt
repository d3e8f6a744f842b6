//! Free nodes: a chain through the left links of freed nodes, and behind it the nodes that were never used.

ghost use Rattle.std.specs.Prelude.{◌≡◌, ℕ, ◌+◌, ◌-◌, ◌<◌, ◌≤◌, length, if◌then◌else◌, nat_eq, slice_index_or};
ghost use Rattle.tree.specs.Nodes.{Only};
ghost use Rattle.tree_engine.specs.Kept.{Shared};
ghost use Rattle.rules.specs.Answers.{capped};

use address::AddressKind;
use tree::{Node, node_at, write};

/// The first node of the chain, 0 if there is none, and how many nodes were ever used.
// A number as the links that the chain goes along.
#[derive(Clone, Copy)]
pub(crate) struct Spares {
    pub(crate) free: u16,
    pub(crate) fresh: u16,
}

impl Spares {
    /// Takes a free node: the first of the chain, or the first that was never used.
    pub(crate) fn take<A: AddressKind>(&mut self, nodes: &[Node<A>]) -> u16
        requires within { (self.old.free ≤ length nodes.now) × (self.old.fresh ≤ capped (length nodes.now)) }
        requires some { self.old.free ≡ 0 → self.old.fresh < capped (length nodes.now) }
        ensures within { (0 < result) × ((result ≤ length nodes.now) × (self.new.fresh ≤ capped (length nodes.now))) }
        ensures shared { (u : ℕ → ℕ) → Shared nodes.now u self.old.free self.old.fresh → Shared nodes.now (λ j. u j + (if nat_eq result j then 1 else 0)) self.new.free self.new.fresh }
    {
        if self.free == 0 {
            self.fresh += 1;
            return self.fresh;
        }
        let taken = self.free;
        self.free = node_at(nodes, taken).left;
        taken
    }

    /// Makes node i the first of the chain.
    pub(crate) fn give<A: AddressKind>(&mut self, nodes: &mut [Node<A>], i: u16)
        requires { (0 < i) × (i ≤ length nodes.old) }
        ensures only { Only i nodes.old nodes.new }
        ensures linked { (d : Node A) → (slice_index_or nodes.new (i - 1) d).left ≡ self.old.free }
        ensures first { self.new.free ≡ i }
        ensures fresh { self.new.fresh ≡ self.old.fresh }
    {
        let n = node_at(nodes, i);
        write(
            nodes,
            i as usize - 1,
            Node {
                left: self.free,
                right: 0,
                height: 0,
                ..n
            },
        );
        self.free = i;
    }
}
