//! Answers cases about the program, a line each: the line gives the words of a run over edges in memory, and the reply says
//! how it ended and what it wrote.
#![tactic(auto)]

mod answers;
mod desk;
mod runs;
mod setup;

use crate::desk::Desk;
use std::io;
use std::io::{BufRead, BufReader};

fn main(rt: HostRuntime) -> io::Result<()> {
    let alloc = rt.alloc();
    let mut desk = Desk::new(alloc);
    for line in BufReader::new(alloc, rt.reader())?.lines(alloc) {
        let reply = answers::reply(alloc, &mut desk, line?.as_str())?;
        println!(rt; "{reply}")?;
    }
    Ok(())
}
