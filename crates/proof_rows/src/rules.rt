ghost use Rattle.std.specs.Prelude.{◌<◌, ◌≤◌, length};

use crate::faults::{NoAnswer, tested};
use crate::page::Page;
use crate::proofs::lines_of;
use nested_proofs::{Lines, MOST_LINES, cites_ok};
use rules_prop::{check_prop, is_propositional};
use rules_quant::{check_quant, is_quantified};
use std::alloc::Global;

/// Whether the last line follows by its propositional rule.
pub fn propositional(alloc: Global, page: &Page, behind: &[String]) -> Result<String, NoAnswer> {
    let lines = lines_of(alloc, page, behind)?;
    let count = lines.len();
    if count == 0 || count > MOST_LINES {
        return Err(NoAnswer::NoSuchCall);
    }
    follows_by_connectives(alloc, &lines, count as u32)
}

fn follows_by_connectives(alloc: Global, proof: &Lines, j: u32) -> Result<String, NoAnswer>
    requires first { 0 < j }
    requires within { j ≤ length proof.now }
{
    match cites_ok(alloc, proof, j) {
        Ok(()) => {}
        fault => return tested(alloc, fault),
    }
    let lines = proof.as_slice();
    if !is_propositional(lines[j as usize - 1].rule) {
        return Err(NoAnswer::NoSuchCall);
    }
    tested(alloc, check_prop(alloc, lines, j))
}

/// Whether the last line follows by its rule of identity or of a quantifier.
pub fn quantified(alloc: Global, page: &Page, behind: &[String]) -> Result<String, NoAnswer> {
    let lines = lines_of(alloc, page, behind)?;
    let count = lines.len();
    if count == 0 || count > MOST_LINES {
        return Err(NoAnswer::NoSuchCall);
    }
    follows_by_quantifiers(alloc, &lines, count as u32)
}

fn follows_by_quantifiers(alloc: Global, proof: &Lines, j: u32) -> Result<String, NoAnswer>
    requires first { 0 < j }
    requires within { j ≤ length proof.now }
{
    match cites_ok(alloc, proof, j) {
        Ok(()) => {}
        fault => return tested(alloc, fault),
    }
    let lines = proof.as_slice();
    if !is_quantified(lines[j as usize - 1].rule) {
        return Err(NoAnswer::NoSuchCall);
    }
    tested(alloc, check_quant(alloc, lines, j))
}
