//! Compares forward questions and rows of lookups with a plain check, at the edges of the blocks that are not forwarded and beside them.
#![tactic(auto)]

mod compare;
mod plain;
mod tally;
mod world;

use address::Ipv4;
use compare::Check;
use plain::PlainRule;
use row_store::Ipv4Row;
use rules::{RangeStore, Rule};
use std::io;
use tally::Tally;
use world::RULES;

/// Compares a table of these rules.
fn visit(rules: &[PlainRule], tally: &mut Tally) {
    let blank = Rule {
        start: Ipv4::new(7),
        finish: Ipv4::new(3),
        hop: 99,
    };
    let mut row = [blank; 16];
    let mut table = Ipv4Row::new(&mut row);
    for rule in rules {
        let answer = table.put(Ipv4::new(rule.start), Ipv4::new(rule.finish), rule.hop);
        if answer.is_err() {
            tally.differ();
        }
    }
    let mut check = Check {
        table: &table,
        rules,
        tally,
    };
    check.questions();
    check.rows();
}

fn main(rt: HostRuntime) -> io::Result<()> {
    let mut tally = Tally::new();
    visit(&RULES[..15], &mut tally);
    visit(&RULES, &mut tally);
    tally.print(&rt)
}
