//! The tree store: rules as two balanced trees in the caller's memory, for every kind of address.

ghost use Rattle.std.specs.Prelude.{◌≡◌, min, [], length, None};
ghost use Rattle.std.specs.Option.{option_map};
ghost use Rattle.rules.specs.Answers.{put_answer};
ghost use Rattle.mirror.specs.Mirrored.{mirrored, nearest_of, behind};
ghost use Rattle.rules.specs.Answers.{capped};
ghost use Rattle.tree_engine.specs.Engines.{rules_of, places_of};
ghost use Rattle.tree_store.specs.Trees.{rules-set, sound};

use address::{AddressKind, Ipv4, Ipv6, Mirror, Port};
use rules::{MAX_RULES, RangeStore, Refusal, nearer, nearer_end};
use tree::Node;
use tree_engine::Engine;

/// The rules over the addresses of `A`, and the mirrored rules, [u, v] as [mirror of v, mirror of u], each in a tree of its own.
// Every `Mirror<A>` meets the bound; it stands here because the tree of mirrored rules has a ghost field over it.
#[derive(Drop)]
pub struct TreeStore<'a, A: AddressKind>
where
    Mirror<A>: AddressKind,
{
    rules: Engine<'a, A>,
    mirrors: Engine<'a, Mirror<A>>,
    ghost same: { rules_of mirrors ≡ mirrored A.AddressKind.last (rules_of rules) } by { rules-set _ _ },
}

/// Rules over ports as two balanced trees in two rows of the caller's memory.
pub type PortTree<'a> = TreeStore<'a, Port>;

/// Rules over IPv4 addresses as two balanced trees in two rows of the caller's memory.
pub type Ipv4Tree<'a> = TreeStore<'a, Ipv4>;

/// Rules over IPv6 addresses as two balanced trees in two rows of the caller's memory.
pub type Ipv6Tree<'a> = TreeStore<'a, Ipv6>;

/// The boundary behind a finish, if there is one above d.
fn end_above<A: AddressKind>(d: A, finish: Option<A>) -> Option<A>
    ensures { option_map A.AddressKind.num result ≡ nearest_of A.AddressKind.last (A.AddressKind.num d) (behind (option_map A.AddressKind.num finish)) None }
{
    nearer_end(d, finish?, None)
}

impl<'a, A: AddressKind> TreeStore<'a, A> {
    /// An empty store over two rows of nodes, whatever stands in them.
    pub fn new(nodes: &'a mut [Node<A>], mirrored: &'a mut [Node<Mirror<A>>]) -> TreeStore<'a, A>
        ensures empty { ⟦<TreeStore<'a, A> as RangeStore>⟧.rules result ≡ [] }
        ensures room { ⟦<TreeStore<'a, A> as RangeStore>⟧.capacity result ≡ capped (min (length nodes.old) (length «mirrored».old)) }
    {
        TreeStore {
            rules: Engine::new(nodes),
            mirrors: Engine::new(mirrored),
        }
    }

    /// Whether a put would be refused.
    fn may_put(&self, start: A, finish: A) -> Result<(), Refusal>
        ensures { result ≡ put_answer (⟦<TreeStore<'a, A> as RangeStore>⟧.capacity self.now) (⟦<TreeStore<'a, A> as RangeStore>⟧.rules self.now) (A.AddressKind.num start) (A.AddressKind.num finish) }
    {
        if finish < start {
            Err(Refusal::Backwards)
        } else if self.hop_of(start, finish).is_some() || self.count() < self.capacity() {
            Ok(())
        } else {
            Err(Refusal::Full)
        }
    }
}

impl<'a, A: AddressKind> RangeStore for TreeStore<'a, A> {
    type Kind = A;

    ghost capacity = { λ s. capped (min (places_of s.rules) (places_of s.mirrors)) };

    ghost rules = { λ s. rules_of s.rules };

    ghost sound = { λ s. sound A.AddressKind.last A.AddressKind.bounded s.rules s.mirrors s.same };

    fn count(&self) -> usize {
        self.rules.count()
    }

    fn capacity(&self) -> usize {
        self.rules
            .places()
            .min(self.mirrors.places())
            .min(MAX_RULES)
    }

    fn hop_of(&self, start: A, finish: A) -> Option<u16> {
        self.rules.hop_of(start, finish)
    }

    fn put(&mut self, start: A, finish: A, hop: u16) -> Result<(), Refusal> {
        self.may_put(start, finish)?;
        self.rules.put(start, finish, hop);
        self.mirrors.put(Mirror::of(finish), Mirror::of(start), hop);
        Ok(())
    }

    fn take(&mut self, start: A, finish: A) -> Result<(), Refusal> {
        if finish < start {
            return Err(Refusal::Backwards);
        }
        self.hop_of(start, finish).ok_or(Refusal::NotHeld)?;
        self.rules.take(start, finish);
        self.mirrors.take(Mirror::of(finish), Mirror::of(start));
        Ok(())
    }

    fn least_finish(&self, d: A) -> Option<(A, A, u16)> {
        self.rules.least_finish(d)
    }

    /// The greatest start is the least finish of the mirrored rules.
    fn greatest_start(&self, d: A) -> Option<(A, A, u16)> {
        let (finish, start, hop) = self.mirrors.least_finish(Mirror::of(d))?;
        Some((start.back(), finish.back(), hop))
    }

    /// The nearer of the end behind the first finish from d on and the next start, which the mirrored rules have as a finish.
    fn next_boundary(&self, d: A) -> Option<A> {
        let end = end_above(d, self.rules.finish_from(d));
        let Some(start) = self.mirrors.finish_before(Mirror::of(d)) else {
            return end;
        };
        nearer(d, start.back(), end)
    }
}
