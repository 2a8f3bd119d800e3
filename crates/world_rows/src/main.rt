//! Answers cases about worlds of blocks and the games in them, a line each: the line names a public call and gives its
//! texts, and the reply says in words what the call answers.
#![tactic(auto)]

mod answers;
mod games;
mod no_answer;
mod orders;
mod plays;
mod readings;
mod state;
mod truths;
mod words;

use state::State;
use std::io;
use std::io::{BufRead, BufReader};

fn main(rt: HostRuntime) -> io::Result<()> {
    let alloc = rt.alloc();
    let mut state = State::new(alloc);
    for line in BufReader::new(alloc, rt.reader())?.lines(alloc) {
        let reply = answers::reply(alloc, &mut state, line?.as_str())?;
        println!(rt; "{reply}")?;
    }
    Ok(())
}
