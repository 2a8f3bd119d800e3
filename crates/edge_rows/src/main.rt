//! Answers cases about the edges, a line each: the line names an edge and gives its texts, and the reply says what its calls
//! answer, one after another.
#![tactic(auto)]

mod answers;
mod broken;
mod failing;
mod folders;
mod memory;
mod streams;
mod words;

use std::io;
use std::io::{BufRead, BufReader};

fn main(rt: HostRuntime) -> io::Result<()> {
    let alloc = rt.alloc();
    for line in BufReader::new(alloc, rt.reader())?.lines(alloc) {
        let reply = answers::reply(&rt, line?.as_str())?;
        println!(rt; "{reply}")?;
    }
    Ok(())
}
