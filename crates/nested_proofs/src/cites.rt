ghost use Rattle.std.specs.Prelude.{◌≡◌, ◌<◌, ◌≤◌, length, not, ◌||◌};
ghost use Rattle.deriv_laws.specs.declared.line.StepFault.TheVariants as fault;
ghost use Rattle.nested_proofs.specs.AtLine.{AtLine};
ghost use Rattle.nested_proofs.specs.CiteTests as tests;
ghost use Rattle.nested_proofs.specs.Limits.{AreInForm};
ghost use Rattle.nested_proofs.specs.Visible as visible;

use crate::count::{takes_lines, takes_subproofs, wants_box};
use crate::kind::{RuleKind, kind_of};
use crate::lines::Lines;
use crate::visibility::{sees_line, sees_subproof};
use deriv_laws::{Cite, FlatLine, Rule, StepFault};
use std::alloc::Global;

/// Tests the cites of line `j`, counted from 1: that the rule takes cites of their kinds and so many of each, that
/// what they name is visible at the line, and that a subproof has a box just where the rule wants one. The error is
/// the first fault. It takes no memory.
pub fn cites_ok(_alloc: Global, proof: &Lines, j: u32) -> Result<(), StepFault>
    requires first { 0 < j }
    requires within { j ≤ length proof.now }
    ensures exact { AtLine proof.now j (λ x. tests.IsVerdict (tests.cites_fault_at x) result) }
{
    let line = &proof.as_slice()[j as usize - 1];
    match line_fault(proof, line, j as usize) {
        None => Ok(()),
        Some(fault) => Err(fault),
    }
}

fn line_fault(proof: &Lines, line: &FlatLine, j: usize) -> Option<StepFault>
    requires within { j ≤ length proof.now }
    requires cites { AreInForm line.now.cites }
    ensures value { result ≡
        tests.fault_by line.now.rule (visible.sees proof.now j) (visible.sees_box proof.now j) line.now.cites }
{
    match kind_of(line.rule) {
        RuleKind::Premise | RuleKind::Opening => None,
        RuleKind::Propositional | RuleKind::Quantified | RuleKind::Consequence => {
            step_fault(proof, line.rule, line.cites.as_slice(), j)
        }
    }
}

fn step_fault(proof: &Lines, rule: Rule, cites: &[Cite], j: usize) -> Option<StepFault>
    requires within { j ≤ length proof.now }
    requires cites { AreInForm cites.now }
    ensures value { result ≡
        tests.step_cites_fault rule (visible.sees proof.now j) (visible.sees_box proof.now j) cites.now }
{
    if let Some(fault) = kind_fault(rule, cites) {
        return Some(fault);
    }
    if !counts_fit(rule, cites) {
        return Some(StepFault::CiteCount);
    }
    if let Some(fault) = visibility_fault(proof, cites, j) {
        return Some(fault);
    }
    box_fault(proof, rule, cites, j)
}

/// The fault at the first cite of a kind that the rule takes none of.
fn kind_fault(rule: Rule, cites: &[Cite]) -> Option<StepFault>
    requires few { length cites.now ≤ 64 }
    ensures value { result ≡ tests.first_failing (tests.is_taken rule) fault.WrongKind 1 cites.now }
{
    for (i, cite) in cites.iter().enumerate() {
        if !is_taken(rule, *cite) {
            return Some(StepFault::WrongKind(i as u32 + 1));
        }
    }
    None
}

fn is_taken(rule: Rule, cite: Cite) -> bool
    ensures value { result ≡ tests.is_taken rule cite }
{
    let taken = if cite.sub {
        takes_subproofs(rule)
    } else {
        takes_lines(rule)
    };
    taken.takes_some()
}

fn counts_fit(rule: Rule, cites: &[Cite]) -> bool
    requires few { length cites.now ≤ 64 }
    ensures value { result ≡ tests.counts_fit rule cites.now }
{
    let subproofs = subproofs_cited(cites);
    let lines = cites.len() - subproofs;
    takes_lines(rule).is_right(lines) && takes_subproofs(rule).is_right(subproofs)
}

fn subproofs_cited(cites: &[Cite]) -> usize
    requires few { length cites.now ≤ 64 }
    ensures value { result ≡ tests.subproofs_cited cites.now }
{
    let mut count = 0;
    for cite in cites {
        if cite.sub {
            count += 1;
        }
    }
    count
}

/// The fault at the first cite that isn't visible.
fn visibility_fault(proof: &Lines, cites: &[Cite], j: usize) -> Option<StepFault>
    requires within { j ≤ length proof.now }
    requires cites { AreInForm cites.now }
    ensures value { result ≡ tests.first_failing (visible.sees proof.now j) fault.NotVisible 1 cites.now }
{
    for (i, cite) in cites.iter().enumerate() {
        if !is_seen(proof, *cite, j) {
            return Some(StepFault::NotVisible(i as u32 + 1));
        }
    }
    None
}

fn is_seen(proof: &Lines, cite: Cite, j: usize) -> bool
    requires within { j ≤ length proof.now }
    requires first { 0 < cite.first }
    ensures value { result ≡ visible.sees proof.now j cite }
{
    if cite.sub {
        sees_subproof(proof, cite.first as usize, cite.last as usize, j)
    } else {
        sees_line(proof, cite.first as usize, j)
    }
}

/// The fault at the first cited subproof without a box where the rule wants one, or with one where it wants none.
fn box_fault(proof: &Lines, rule: Rule, cites: &[Cite], j: usize) -> Option<StepFault>
    requires within { j ≤ length proof.now }
    requires cites { AreInForm cites.now }
    ensures value { result ≡ tests.box_fault rule (visible.sees_box proof.now j) cites.now }
{
    if wants_box(rule) {
        missing_box(proof, cites, j)
    } else {
        unwanted_box(proof, cites, j)
    }
}

fn missing_box(proof: &Lines, cites: &[Cite], j: usize) -> Option<StepFault>
    requires within { j ≤ length proof.now }
    requires cites { AreInForm cites.now }
    ensures value { result ≡
        tests.first_failing (λ c. not c.sub || visible.sees_box proof.now j c) fault.BoxMissing 1 cites.now }
{
    for (i, cite) in cites.iter().enumerate() {
        if cite.sub && !sees_box(proof, *cite, j) {
            return Some(StepFault::BoxMissing(i as u32 + 1));
        }
    }
    None
}

fn unwanted_box(proof: &Lines, cites: &[Cite], j: usize) -> Option<StepFault>
    requires within { j ≤ length proof.now }
    requires cites { AreInForm cites.now }
    ensures value { result ≡
        tests.first_failing (λ c. not (visible.sees_box proof.now j c)) fault.BoxUnwanted 1 cites.now }
{
    for (i, cite) in cites.iter().enumerate() {
        if sees_box(proof, *cite, j) {
            return Some(StepFault::BoxUnwanted(i as u32 + 1));
        }
    }
    None
}

/// Whether the cite is a visible subproof that boxes a constant.
fn sees_box(proof: &Lines, cite: Cite, j: usize) -> bool
    requires within { j ≤ length proof.now }
    requires first { 0 < cite.first }
    ensures value { result ≡ visible.sees_box proof.now j cite }
{
    if !cite.sub || !sees_subproof(proof, cite.first as usize, cite.last as usize, j) {
        return false;
    }
    proof.as_slice()[cite.first as usize - 1].boxed.is_some()
}
