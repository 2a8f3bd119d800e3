//! Answers cases about the desk, a line each: the line names a public call and gives its texts and rows, and the reply says
//! what the call answers.
#![tactic(auto)]

mod answers;
mod rows;
mod submissions;

use std::io;
use std::io::{BufRead, BufReader};

fn main(rt: HostRuntime) -> io::Result<()> {
    let alloc = rt.alloc();
    for line in BufReader::new(alloc, rt.reader())?.lines(alloc) {
        let reply = answers::reply(alloc, line?.as_str())?;
        println!(rt; "{reply}")?;
    }
    Ok(())
}
