ghost use Rattle.std.specs.Prelude.{◌≡◌, ◌↔◌, ◌≤◌, IsTrue, Some, length};
ghost use Rattle.proof_check.specs.Readers.{last_outside as last_outside_of, sentence_of};

use deriv_laws::FlatLine;
use fol_core::{Sent, same};

/// The number of the last line outside all subproofs, counted from 1, or 0 where there is none.
pub(crate) fn last_outside(lines: &[FlatLine]) -> u32
    requires few { length lines.now ≤ 2000 }
    ensures value { result ≡ last_outside_of 1 0 lines.now }
{
    let mut last = 0;
    for i in 0..lines.len() {
        if lines[i].depth == 1 {
            last = i as u32 + 1;
        }
    }
    last
}

/// Whether the line with this number states the goal; line 0 states nothing.
pub(crate) fn reaches(goal: &Sent, lines: &[FlatLine], number: u32) -> bool
    ensures value { IsTrue result ↔ (sentence_of lines.now number ≡ Some goal.now) }
{
    if number == 0 {
        return false;
    }
    match lines.get(number as usize - 1) {
        Some(line) => states(line, goal),
        None => false,
    }
}

fn states(line: &FlatLine, goal: &Sent) -> bool
    ensures value { IsTrue result ↔ (line.now.sentence ≡ Some goal.now) }
{
    match &line.sentence {
        Some(s) => same(s, goal),
        None => false,
    }
}
