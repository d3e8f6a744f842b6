//! The engine of the tree stores: one balanced tree in a row of nodes, for every kind of address and its mirror.
//! What its row of nodes keeps is `Kept`.

ghost use Rattle.std.specs.Prelude.{◌≡◌, ◌<◌, ◌≤◌, false, [], length, is_some};
ghost use Rattle.std.specs.Option.{option_map};
ghost use Rattle.rules.specs.Rules.{Canonical, rule, hop_of, insert as inserted, delete as deleted};
ghost use Rattle.rules.specs.Search.{least_finish};
ghost use Rattle.rules.specs.Answers.{numbered, told};
ghost use Rattle.mirror.specs.Mirrored.{finish_from, finish_before};
ghost use Rattle.tree.specs.Nodes.{Held, whole};
ghost use Rattle.tree_engine.specs.Kept.{Kept, rules_at};
ghost use Rattle.rules.specs.Answers.{capped};

use crate::spare::Spares;
use address::AddressKind;
use rules::Rule;
use tree::{Node, Subtree};
use tree_edits::{insert, remove, set_hop};
use tree_search::{find, finish_before, finish_from, first_covering, hop_in};

/// Where the tree begins, the free nodes, and how many rules there are.
#[derive(Clone, Copy)]
pub(crate) struct Heads {
    pub(crate) root: u16,
    pub(crate) spares: Spares,
    pub(crate) count: usize,
}

/// A tree of rules in the caller's row.
// A row with links and no boxes: the memory is the caller's and nothing is allocated. A link is the number that stands in the nodes.
#[derive(Drop)]
pub struct Engine<'a, A: AddressKind> {
    nodes: &'a mut [Node<A>],
    heads: Heads,
    pub ghost kept: { ∥ Kept A.AddressKind.num nodes.now heads ∥₁ },
}

impl<'a, A: AddressKind> Engine<'a, A> {
    ghost use Rattle.tree_engine.specs.Engines.{rules_of, places_of};

    /// An empty tree, whatever stands in the row.
    pub fn new(nodes: &'a mut [Node<A>]) -> Engine<'a, A>
        ensures empty { rules_of result ≡ [] }
        ensures places { places_of result ≡ length nodes.old }
    {
        Engine {
            nodes,
            heads: Heads {
                root: 0,
                spares: Spares { free: 0, fresh: 0 },
                count: 0,
            },
        }
    }

    /// The tree, to be read.
    fn tree(&self) -> Subtree<'_, A>
        ensures row { result.nodes.now ≡ self.now.nodes.now }
        ensures whole { Held A.AddressKind.num result.nodes.now result.link (whole self.now.nodes.now self.now.heads.root) }
        ensures order { Canonical (rules_of self.now) }
    {
        Subtree {
            nodes: self.nodes,
            link: self.heads.root,
        }
    }

    /// Replaces the hop of a held range, or enters a new rule.
    pub fn put(&mut self, start: A, finish: A, hop: u16)
        requires forward { A.AddressKind.num start ≤ A.AddressKind.num finish }
        requires room { is_some (hop_of (rules_of self.old) (A.AddressKind.num start) (A.AddressKind.num finish)) ≡ false → length (rules_of self.old) < capped (places_of self.old) }
        ensures after { rules_of self.new ≡ inserted (rule (A.AddressKind.num start) (A.AddressKind.num finish) hop) (rules_of self.old) }
        ensures places { places_of self.new ≡ places_of self.old }
    {
        let rule = Rule { start, finish, hop };
        if let Some((held, _)) = find(self.tree(), rule) {
            set_hop(self.nodes, held, hop);
            return;
        }
        let nodes = &mut *self.nodes;
        let heads = &mut self.heads;
        let node = heads.spares.take(nodes);
        heads.root = insert(nodes, heads.root, node, rule);
        heads.count += 1;
    }

    /// Takes the rule of a range out; nothing if it is not held.
    pub fn take(&mut self, start: A, finish: A)
        ensures after { rules_of self.new ≡ deleted (A.AddressKind.num start) (A.AddressKind.num finish) (rules_of self.old) }
        ensures places { places_of self.new ≡ places_of self.old }
    {
        let sought = Rule {
            start,
            finish,
            hop: 0,
        };
        let Some((held, _)) = find(self.tree(), sought) else {
            return;
        };
        let nodes = &mut *self.nodes;
        let heads = &mut self.heads;
        heads.root = remove(nodes, heads.root, sought);
        heads.spares.give(nodes, held);
        heads.count -= 1;
    }

    /// How many rules there are.
    pub fn count(&self) -> usize
        ensures { result ≡ length (rules_of self.now) }
    {
        self.heads.count
    }

    /// How many nodes there are.
    pub fn places(&self) -> usize
        ensures { result ≡ places_of self.now }
    {
        self.nodes.len()
    }

    /// The hop of a range, or none if it is not held.
    pub fn hop_of(&self, start: A, finish: A) -> Option<u16>
        ensures { result ≡ hop_of (rules_of self.now) (A.AddressKind.num start) (A.AddressKind.num finish) }
    {
        hop_in(
            self.tree(),
            Rule {
                start,
                finish,
                hop: 0,
            },
        )
    }

    /// Of the rules that cover d, the one of least finish, among equals of greatest start; or none.
    pub fn least_finish(&self, d: A) -> Option<(A, A, u16)>
        ensures { told A.AddressKind.num result ≡ least_finish (rules_of self.now) (A.AddressKind.num d) }
    {
        first_covering(self.tree(), d)
    }

    /// The least finish from d on, or none.
    pub fn finish_from(&self, d: A) -> Option<A>
        ensures { option_map A.AddressKind.num result ≡ finish_from (rules_of self.now) (A.AddressKind.num d) }
    {
        finish_from(self.tree(), d)
    }

    /// The greatest finish before d, or none.
    pub fn finish_before(&self, d: A) -> Option<A>
        ensures { option_map A.AddressKind.num result ≡ finish_before (rules_of self.now) (A.AddressKind.num d) }
    {
        finish_before(self.tree(), d)
    }
}
