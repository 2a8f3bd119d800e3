ghost use Rattle.std.specs.Prelude.{◌≡◌, ◌↔◌, ◌<◌, ◌≤◌, length, not, ◌&&◌, IsTrue};
ghost use Rattle.std.specs.List.{list_any};
ghost use Rattle.fol_core.specs.Subst.{occurs as stands_in};
ghost use Rattle.nested_proofs.specs.AtLine.{AtLine};
ghost use Rattle.nested_proofs.specs.Fresh.{HasFreshBox};
ghost use Rattle.nested_proofs.specs.Hearing as hearing;

use crate::lines::Lines;
use crate::nesting::{level, opens};
use deriv_laws::FlatLine;
use fol_core::{Ident, Sent, Sents, occurs};

/// Whether the constant that line `i`, counted from 1, boxes may be boxed there: it occurs in no premise and in no
/// sentence that may be cited at the line, and no subproof around the line boxes it. A line without a box has nothing
/// to test. It takes no memory.
pub fn fresh_at(premises: &Sents, proof: &Lines, i: u32) -> bool
    requires first { 0 < i }
    requires within { i ≤ length proof.now }
    ensures exact { AtLine proof.now i (λ x. IsTrue result ↔ HasFreshBox premises.now x.around x.line.boxed) }
{
    let count = i as usize - 1;
    let line = &proof.as_slice()[count];
    match &line.boxed {
        None => true,
        Some(c) => is_unsaid(premises.as_slice(), proof.as_slice(), count, level(line), c),
    }
}

/// Whether the constant stands in no premise, and none of the first `count` lines speaks of it before a line of level
/// `v`.
fn is_unsaid(premises: &[Sent], lines: &[FlatLine], count: usize, v: u8, c: &Ident) -> bool
    requires within { count ≤ length lines.now }
    ensures value { result ≡ (not (list_any (stands_in c.now) premises.now) && hearing.silent c.now lines.now count v) }
{
    !occurs_in_any(premises, c) && is_silent(lines, count, v, c)
}

/// Whether the constant stands in one of the sentences.
fn occurs_in_any(sentences: &[Sent], c: &Ident) -> bool
    ensures value { result ≡ list_any (stands_in c.now) sentences.now }
{
    sentences.iter().any(|s| occurs(s, c))
}

/// Whether none of the first `count` lines speaks of the constant, those aside that stand in subproofs closed before a
/// line of level `v` that follows.
fn is_silent(lines: &[FlatLine], count: usize, v: u8, c: &Ident) -> bool
    requires within { count ≤ length lines.now }
    ensures value { result ≡ hearing.silent c.now lines.now count v }
{
    let mut reach = v;
    let mut number = count;
    while number > 0 {
        let line = &lines[number - 1];
        if line.depth <= reach && speaks_of(line, c) {
            return false;
        }
        reach = reach.min(level(line));
        number -= 1;
    }
    true
}

/// Whether the line's sentence has the constant in it, or the line opens a subproof that boxes the constant.
fn speaks_of(line: &FlatLine, c: &Ident) -> bool
    ensures value { result ≡ hearing.speaks_of c.now line.now }
{
    states_name(line, c) || (opens(line.rule) && boxes(line, c))
}

fn states_name(line: &FlatLine, c: &Ident) -> bool
    ensures value { result ≡ hearing.states_name c.now line.now.sentence }
{
    match &line.sentence {
        None => false,
        Some(s) => occurs(s, c),
    }
}

fn boxes(line: &FlatLine, c: &Ident) -> bool
    ensures value { result ≡ hearing.is_word c.now line.now.boxed }
{
    match &line.boxed {
        None => false,
        Some(name) => name.as_slice() == c.as_slice(),
    }
}
