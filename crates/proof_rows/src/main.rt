//! Answers cases about proofs and truth tables, a line each: the line names a public call and gives its texts, and the
//! reply says in words what the call answers.
#![tactic(auto)]

mod answers;
mod faults;
mod laws;
mod lines;
mod page;
mod proofs;
mod questions;
mod rules;
mod tables;
mod tasks;

use page::Page;
use std::io;
use std::io::{BufRead, BufReader};

fn main(rt: HostRuntime) -> io::Result<()> {
    let alloc = rt.alloc();
    let mut page = Page::new(alloc);
    for line in BufReader::new(alloc, rt.reader())?.lines(alloc) {
        let reply = answers::reply(alloc, &mut page, line?.as_str())?;
        println!(rt; "{reply}")?;
    }
    Ok(())
}
