//! Compares long lists of pseudo-random calls on a table with a plain table that tries every address.
#![tactic(auto)]

mod batches;
mod compare;
mod plain;
mod random;
mod tally;
mod world;

use address::{Mirror, Port};
use compare::Run;
use plain::Plain;
use random::Random;
use row_store::PortRow;
use rules::{RangeStore, Rule};
use std::io;
use tally::Tally;
use tree::Node;
use tree_store::PortTree;
use world::{WORLDS, World};

/// Runs one world over a table of this many places.
fn visit<S: RangeStore<Kind = Port>>(
    table: &mut S,
    places: usize,
    world: &World,
    tally: &mut Tally,
) {
    let mut run = Run {
        table,
        plain: Plain::new(places),
        world,
        random: Random::new(world.seed),
        tally,
    };
    run.run();
}

/// Runs one world over a row store of its capacity.
fn visit_row(world: &World, tally: &mut Tally) {
    let blank = Rule {
        start: Port::new(7),
        finish: Port::new(3),
        hop: 99,
    };
    let mut row = [blank; 16];
    let places = world.capacity.min(16);
    let mut table = PortRow::new(&mut row[0..places]);
    visit(&mut table, places, world, tally);
}

/// Runs the same calls over a tree store of its capacity.
fn visit_tree(world: &World, tally: &mut Tally) {
    let mut nodes = [Node::blank(Port::new(7)); 16];
    let mut mirrored = [Node::blank(Mirror::of(Port::new(7))); 16];
    let places = world.capacity.min(16);
    let mut table = PortTree::new(&mut nodes[0..places], &mut mirrored);
    visit(&mut table, places, world, tally);
}

fn main(rt: HostRuntime) -> io::Result<()> {
    let mut rows = Tally::new();
    let mut trees = Tally::new();
    for world in &WORLDS {
        let name = world.name;
        let calls = world.calls;
        let batches = world.batches;
        println!(rt; "{name}: {calls} calls, {batches} batches")?;
        visit_row(world, &mut rows);
        visit_tree(world, &mut trees);
    }
    println!(rt; "over row stores")?;
    rows.print(&rt)?;
    println!(rt; "over tree stores")?;
    trees.print(&rt)
}
