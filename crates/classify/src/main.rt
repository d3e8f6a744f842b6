//! Reads port numbers from standard input, one a line, and prints the service range and the hop of each.
#![tactic(auto)]

mod services;
mod verdict;

use address::Port;
use row_store::PortRow;
use rules::Rule;
use std::io::{BufRead, BufReader};

fn main(rt: HostRuntime) -> anyhow::Result<()> {
    let blank = Rule {
        start: Port::new(0),
        finish: Port::new(0),
        hop: 0,
    };
    let mut row = [blank; 16];
    let mut table = PortRow::new(&mut row);
    if let Err(refusal) = services::load(&mut table) {
        let number = refusal.number();
        println!(rt; "the services are refused with {number}")?;
        return Ok(());
    }
    for line in BufReader::new(rt.alloc(), rt.stdin())?.lines(rt.alloc()) {
        let line = line?;
        match verdict::classify(&table, line.as_str()) {
            Ok((start, finish, hop)) => {
                println!(rt; "{line}: {}-{} hop {hop}", start.value(), finish.value())?
            }
            Err(why) => println!(rt; "{line}: {why}")?,
        }
    }
    Ok(())
}
