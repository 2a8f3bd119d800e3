ghost use Rattle.std.specs.Prelude.{◌≡◌, ◌↔◌, ◌<◌, ◌≤◌, ◌+◌, ◌&&◌, IsTrue, length, not, nat_le};
ghost use Rattle.std.specs.List.{list_any};
ghost use Rattle.fol_core.specs.Subst.{occurs as stands_in};
ghost use Rattle.nested_proofs.specs.AtLine.{AtLine};
ghost use Rattle.nested_proofs.specs.Fresh.{HasFreshBox};
ghost use Rattle.nested_proofs.specs.Hearing as hearing;
ghost use Rattle.nested_proofs.specs.Items as items;
ghost use Rattle.nested_proofs.specs.Limits.{AreLines};
ghost use Rattle.proof_check.specs.Readers.{PassBefore};

use deriv_laws::FlatLine;
use fitch_file::Task;
use fol_core::{Ident, Sent, occurs, same_ident};
use nested_proofs::{Lines, level, opens};

/// Whether the constant that line `j` boxes is fresh, where each line before it passes its tests. The search goes back no
/// further than to the last line that boxes the same constant: since it is fresh there, nothing that stands before that
/// line and may be cited here speaks of it.
pub(crate) fn box_is_fresh(task: &Task, lines: &Lines, j: u32) -> bool
    requires first { 0 < j }
    requires within { j ≤ length lines.now }
    requires before { PassBefore task.now lines.now j }
    ensures exact { AtLine lines.now j (λ x. IsTrue result ↔ HasFreshBox task.now.premises x.around x.line.boxed) }
{
    let count = j as usize - 1;
    let line = &lines.as_slice()[count];
    match &line.boxed {
        None => true,
        Some(c) => is_unsaid(task, lines.as_slice(), count, level(line), c),
    }
}

/// Whether the constant stands in no premise, and none of the first `count` lines speaks of it before a line of level `v`.
fn is_unsaid(task: &Task, lines: &[FlatLine], count: usize, v: u8, c: &Ident) -> bool
    requires lines { AreLines lines.now }
    requires within { count ≤ length lines.now }
    requires before { PassBefore task.now lines.now (count + 1) }
    ensures value { result ≡ (not (list_any (stands_in c.now) task.now.premises) && hearing.silent c.now lines.now count v) }
{
    let mut reach = v;
    let mut number = count;
    while number > 0 {
        let line = &lines[number - 1];
        if speaks_within(line, reach, c) {
            return false;
        }
        if boxes_anew(line, c) {
            return true;
        }
        reach = reach.min(level(line));
        number -= 1;
    }
    !stands_in_any(task.premises.as_slice(), c)
}

/// Whether the constant stands in one of the sentences.
fn stands_in_any(sentences: &[Sent], c: &Ident) -> bool
    ensures value { result ≡ list_any (stands_in c.now) sentences.now }
{
    sentences.iter().any(|s| occurs(s, c))
}

/// Whether the line is within reach and speaks of the constant: its sentence has it, or the subproof that it opens boxes it.
fn speaks_within(line: &FlatLine, reach: u8, c: &Ident) -> bool
    ensures value { result ≡ (nat_le line.now.depth reach && hearing.speaks_of c.now line.now) }
{
    line.depth <= reach && (states_name(line, c) || boxes_anew(line, c))
}

/// Whether the line opens a subproof that boxes the constant.
fn boxes_anew(line: &FlatLine, c: &Ident) -> bool
    ensures value { result ≡ (items.opens line.now.rule && hearing.is_word c.now line.now.boxed) }
{
    opens(line.rule) && line.boxed.as_ref().is_some_and(|name| same_ident(name, c))
}

/// Whether the constant stands in the line's sentence.
fn states_name(line: &FlatLine, c: &Ident) -> bool
    ensures value { result ≡ hearing.states_name c.now line.now.sentence }
{
    line.sentence.as_ref().is_some_and(|s| occurs(s, c))
}
