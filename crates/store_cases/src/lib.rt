//! Cases for the stores: what a tree store answers beside a row store that took the same calls.
#![tactic(auto)]

use address::{Mirror, Port};
use row_store::PortRow;
use rules::RangeStore;
use tree::Node;
use tree_store::PortTree;

/// Whether both stores answer the three questions alike at d.
pub fn alike(row: &PortRow, tree: &PortTree, d: u16) -> bool {
    let d = Port::new(d);
    row.least_finish(d) == tree.least_finish(d)
        && row.greatest_start(d) == tree.greatest_start(d)
        && row.next_boundary(d) == tree.next_boundary(d)
}

/// Whether both stores took the put alike.
pub fn put_both(row: &mut PortRow, tree: &mut PortTree, start: u16, finish: u16, hop: u16) -> bool {
    let u = Port::new(start);
    let v = Port::new(finish);
    row.put(u, v, hop) == tree.put(u, v, hop)
}

/// Whether both stores took the take alike.
pub fn take_both(row: &mut PortRow, tree: &mut PortTree, start: u16, finish: u16) -> bool {
    let u = Port::new(start);
    let v = Port::new(finish);
    row.take(u, v) == tree.take(u, v)
}

/// A node of a row of ports.
pub fn blank() -> Node<Port> {
    Node::blank(Port::new(7))
}

/// A node of a row of mirrored ports.
pub fn blank_mirrored() -> Node<Mirror<Port>> {
    Node::blank(Mirror::of(Port::new(9)))
}

#[cfg(test)]
mod tests {
    use super::*;
    use address::{Ipv4, Ipv6};
    use rules::Rule;
    use std::mem::size_of;

    /// A rule to fill a row with.
    fn blank_rule() -> Rule<Port> {
        let p = Port::new(0);
        Rule {
            start: p,
            finish: p,
            hop: 0,
        }
    }

    #[test]
    fn sizes_of_nodes(rt: HostRuntime) {
        assert_eq!(rt; size_of::<Node<Ipv4>>(), 24);
        assert_eq!(rt; size_of::<Node<Ipv6>>(), 64);
        assert_eq!(rt; size_of::<Node<Mirror<Ipv6>>>(), 64);
    }

    #[test]
    fn a_store_without_nodes(rt: HostRuntime) {
        let mut nodes = [blank(); 3];
        let mut mirrored = [blank_mirrored(); 0];
        let mut tree = PortTree::new(&mut nodes, &mut mirrored);
        assert_eq!(rt; tree.capacity(), 0);
        assert!(rt; tree.put(Port::new(1), Port::new(2), 3).is_err());
        assert!(rt; tree.least_finish(Port::new(1)).is_none());
        assert!(rt; tree.next_boundary(Port::new(1)).is_none());
    }

    #[test]
    fn one_node_serves_again(rt: HostRuntime) {
        let mut nodes = [blank(); 1];
        let mut mirrored = [blank_mirrored(); 2];
        let mut tree = PortTree::new(&mut nodes, &mut mirrored);
        assert!(rt; tree.put(Port::new(1), Port::new(5), 3).is_ok());
        assert!(rt; tree.put(Port::new(2), Port::new(5), 4).is_err());
        assert!(rt; tree.put(Port::new(1), Port::new(5), 6).is_ok());
        assert_eq!(rt; tree.hop_of(Port::new(1), Port::new(5)), Some(6));
        assert!(rt; tree.take(Port::new(1), Port::new(5)).is_ok());
        assert!(rt; tree.put(Port::new(2), Port::new(5), 4).is_ok());
        assert_eq!(rt; tree.hop_of(Port::new(2), Port::new(5)), Some(4));
        assert_eq!(rt; tree.count(), 1);
    }

    #[test]
    fn mixed_puts(rt: HostRuntime) {
        let mut rules = [blank_rule(); 5];
        let mut nodes = [blank(); 5];
        let mut mirrored = [blank_mirrored(); 6];
        let mut row = PortRow::new(&mut rules);
        let mut tree = PortTree::new(&mut nodes, &mut mirrored);
        assert!(rt; put_both(&mut row, &mut tree, 100, 199, 1));
        assert!(rt; put_both(&mut row, &mut tree, 150, 199, 2));
        assert!(rt; put_both(&mut row, &mut tree, 0, 65535, 3));
        assert!(rt; put_both(&mut row, &mut tree, 150, 159, 4));
        assert!(rt; put_both(&mut row, &mut tree, 300, 399, 5));
        assert!(rt; put_both(&mut row, &mut tree, 301, 399, 6));
        assert!(rt; alike(&row, &tree, 155));
        assert!(rt; alike(&row, &tree, 160));
        assert!(rt; alike(&row, &tree, 350));
        assert_eq!(rt; tree.count(), 5);
    }

    #[test]
    fn ascending_puts(rt: HostRuntime) {
        let mut rules = [blank_rule(); 5];
        let mut nodes = [blank(); 5];
        let mut mirrored = [blank_mirrored(); 5];
        let mut row = PortRow::new(&mut rules);
        let mut tree = PortTree::new(&mut nodes, &mut mirrored);
        assert!(rt; put_both(&mut row, &mut tree, 10, 20, 1));
        assert!(rt; put_both(&mut row, &mut tree, 15, 30, 2));
        assert!(rt; put_both(&mut row, &mut tree, 5, 40, 3));
        assert!(rt; put_both(&mut row, &mut tree, 35, 50, 4));
        assert!(rt; put_both(&mut row, &mut tree, 1, 60, 5));
        assert!(rt; alike(&row, &tree, 16));
        assert!(rt; alike(&row, &tree, 36));
        assert!(rt; alike(&row, &tree, 55));
        assert!(rt; alike(&row, &tree, 61));
    }

    #[test]
    fn descending_puts_and_takes(rt: HostRuntime) {
        let mut rules = [blank_rule(); 5];
        let mut nodes = [blank(); 5];
        let mut mirrored = [blank_mirrored(); 5];
        let mut row = PortRow::new(&mut rules);
        let mut tree = PortTree::new(&mut nodes, &mut mirrored);
        assert!(rt; put_both(&mut row, &mut tree, 1, 60, 5));
        assert!(rt; put_both(&mut row, &mut tree, 35, 50, 4));
        assert!(rt; put_both(&mut row, &mut tree, 5, 40, 3));
        assert!(rt; put_both(&mut row, &mut tree, 15, 30, 2));
        assert!(rt; take_both(&mut row, &mut tree, 35, 50));
        assert!(rt; take_both(&mut row, &mut tree, 35, 50));
        assert!(rt; put_both(&mut row, &mut tree, 10, 20, 1));
        assert!(rt; alike(&row, &tree, 16));
        assert!(rt; alike(&row, &tree, 36));
        assert!(rt; alike(&row, &tree, 0));
    }
}
