ghost use Rattle.std.specs.Prelude.{◌≡◌, ◌-◌, ◌<◌, ◌≤◌, ◌==◌, length, drop};
ghost use Rattle.std.specs.Option.{is_some};
ghost use Rattle.nested_proofs.specs.Scope.{sentence_at, subproof_at};
ghost use Rattle.nested_proofs.specs.AtLine.{AtLine};
ghost use Rattle.nested_proofs.specs.Levels.{body_of};
ghost use Rattle.nested_proofs.specs.Visible.{visible_sentence, visible_subproof};

use crate::lines::Lines;
use crate::nesting::{level, opens};

/// Whether line `i` may be cited at line `j`, both counted from 1: it stands before `j`, it has a sentence, and every
/// subproof that contains it contains `j`. A line that opens a subproof stands around it here, not in it.
pub fn line_visible(proof: &Lines, i: u32, j: u32) -> bool
    requires first { 0 < i }
    requires within { j ≤ length proof.now }
    ensures in_scope { AtLine proof.now j
        (λ x. result ≡ is_some (sentence_at i x.around.scope.sentences)) }
{
    sees_line(proof, i as usize, j as usize)
}

/// Whether the subproof from line `n` to line `m` may be cited at line `j`: a subproof has these as its first and last
/// lines, it is closed before `j`, and every other subproof that contains `n` contains `j`. Lines are counted from 1.
pub fn sub_visible(proof: &Lines, n: u32, m: u32, j: u32) -> bool
    requires first { 0 < n }
    requires within { j ≤ length proof.now }
    ensures in_scope { AtLine proof.now j
        (λ x. result ≡ is_some (subproof_at n m x.around.scope.subproofs)) }
{
    sees_subproof(proof, n as usize, m as usize, j as usize)
}

pub(crate) fn sees_line(proof: &Lines, i: usize, j: usize) -> bool
    requires first { 0 < i }
    requires within { j ≤ length proof.now }
    ensures value { result ≡ is_some (visible_sentence proof.now i j) }
{
    if i >= j {
        return false;
    }
    let line = &proof.as_slice()[i - 1];
    let stays = proof.last_below(j, line.depth) <= i;
    line.sentence.is_some() && stays
}

pub(crate) fn sees_subproof(proof: &Lines, n: usize, m: usize, j: usize) -> bool
    requires first { 0 < n }
    requires within { j ≤ length proof.now }
    ensures value { result ≡ is_some (visible_subproof proof.now n m j) }
{
    if m < n {
        return false;
    }
    if m >= j {
        return false;
    }
    let line = &proof.as_slice()[n - 1];
    if !opens(line.rule) {
        return false;
    }
    let ends = ends_at(proof, line.depth, n, m);
    ends && proof.last_below(j, level(line)) <= n
}

/// Whether a subproof of this depth that begins at line `n` has `m` as its last line.
fn ends_at(proof: &Lines, depth: u8, n: usize, m: usize) -> bool
    requires in_order { n ≤ m }
    requires followed { m < length proof.now }
    ensures value { result ≡ (length (body_of depth (drop n proof.now)) == m - n) }
{
    let next = &proof.as_slice()[m];
    let left = level(next) < depth;
    proof.last_below(m, depth) <= n && left
}
