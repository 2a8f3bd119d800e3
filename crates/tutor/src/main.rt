//! The program: `check` judges a proof, `table` prints a truth table, `world` evaluates sentences in a world, and `play` plays
//! the game about a sentence. It runs them over standard input, standard output and the folder that it runs in.
#![tactic(auto)]

use edge_io::{Folder, Reading, Writing};
use std::process::ExitCode;
use tutor_app::tutor::{Status, tutor};
use tutor_app::words::words_of_program;

fn main(rt: HostRuntime) -> ExitCode {
    let mut input = Reading::new(rt.stdin());
    let mut output = Writing::new(rt.stdout());
    let mut shelf = Folder::new(&rt);
    let status = match words_of_program(&rt) {
        Ok(words) => tutor(rt.alloc(), &words, &mut input, &mut output, &mut shelf),
        Err(_) => Status { code: 7 },
    };
    ExitCode::from(status.code)
}
