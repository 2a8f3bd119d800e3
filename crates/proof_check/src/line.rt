ghost use Rattle.std.specs.Prelude.{◌≡◌, ◌≢◌, ◌<◌, ◌≤◌, length, IfOk, IfErr, OnOk, MatchOption, MatchResult, Contains, Some, None, true};
ghost use Rattle.fol_core.specs.declared.sent.Sent.{Sent as Sentence};
ghost use Rattle.nested_proofs.specs.AtLine.{AtLine};
ghost use Rattle.nested_proofs.specs.CiteTests.{cites_fault_at, is_inferred};
ghost use Rattle.rules_quant.specs.FailsAs.{FailsAs};
ghost use Rattle.proof_check.specs.declared.verdict.LineFault.TheVariants as fault;
ghost use Rattle.proof_check.specs.Failing.{is_allowed as allows, is_own, is_tautological as by_table, IsLineFault};
ghost use Rattle.proof_check.specs.Readers.{IsBoxFault, IsInferenceFault, IsStepFault, IsTautStepFault, PassBefore, StatesFit, Stands};
ghost use Rattle.std.specs.List.{AllByRecursion};

use crate::consequence::table_fault;
use crate::fresh::box_is_fresh;
use crate::verdict::LineFault;
use deriv_laws::{FlatLine, Rule, StepFault};
use fitch_file::{Allowed, Task};
use fol_core::{Sent, contains};
use nested_proofs::{Lines, cites_ok};
use rules_prop::{check_prop, is_propositional};
use rules_quant::{check_quant, is_quantified};
use std::alloc::{AllocError, Global};

/// The first fault of line `j`, counted from 1, in a proof for the task, where each line before it passes its tests.
pub(crate) fn line_fault(
    alloc: Global,
    task: &Task,
    lines: &Lines,
    j: u32,
) -> Result<Option<LineFault>, AllocError>
    requires first { 0 < j }
    requires within { j ≤ length lines.now }
    requires fit { AllByRecursion StatesFit lines.now }
    requires before { PassBefore task.now lines.now j }
    ensures fault { IfOk result (λ fault. AtLine lines.now j (λ x. IsLineFault task.now x fault)) }
{
    let line = &lines.as_slice()[j as usize - 1];
    match line.rule {
        Rule::Premise => Ok(premise_fault(task.premises.as_slice(), line)),
        Rule::Assume | Rule::BoxOnly => opening_fault(alloc, task, lines, j),
        _ => inference_fault(alloc, task.allowed, lines, j),
    }
}

/// The fault of a line that claims to be a premise.
fn premise_fault(premises: &[Sent], line: &FlatLine) -> Option<LineFault>
    ensures premise { MatchOption result ((s : Sentence) × (line.now.sentence ≡ Some s) × Contains premises.now s) (λ f. (f ≡ fault.NotAPremise) × ((s : Sentence) → line.now.sentence ≡ Some s → Contains premises.now s → ⊥)) }
{
    match &line.sentence {
        Some(s) if contains(premises, s) => None,
        _ => Some(LineFault::NotAPremise),
    }
}

/// The fault of a line that opens a subproof: the constant that it boxes isn't fresh.
fn opening_fault(
    alloc: Global,
    task: &Task,
    lines: &Lines,
    j: u32,
) -> Result<Option<LineFault>, AllocError>
    requires first { 0 < j }
    requires within { j ≤ length lines.now }
    requires before { PassBefore task.now lines.now j }
    ensures fault { IfOk result (λ f. AtLine lines.now j (λ x. IsBoxFault task.now.premises x f)) }
{
    if box_is_fresh(task, lines, j) {
        return Ok(None);
    }
    match &lines.as_slice()[j as usize - 1].boxed {
        Some(constant) => Ok(Some(LineFault::Step(StepFault::NotFresh(constant.copied(alloc)?)))),
        None => Ok(None),
    }
}

/// The fault of a step, in a proof for a task that allows these consequence rules.
fn inference_fault(
    alloc: Global,
    allowed: Allowed,
    lines: &Lines,
    j: u32,
) -> Result<Option<LineFault>, AllocError>
    requires first { 0 < j }
    requires within { j ≤ length lines.now }
    requires rule { AtLine lines.now j (λ x. is_inferred x.line.rule ≡ true) }
    requires fit { AllByRecursion StatesFit lines.now }
    ensures fault { IfOk result (λ f. AtLine lines.now j (λ x. IsInferenceFault allowed x f)) }
{
    let rule = lines.as_slice()[j as usize - 1].rule;
    if !is_allowed(allowed, rule) {
        return Ok(Some(LineFault::RuleNotAllowed));
    }
    if is_tautological(rule) {
        return tautology_fault(alloc, lines, j);
    }
    step_fault(alloc, lines, j)
}

/// The fault of a step by tautological consequence, which the task allows.
fn tautology_fault(alloc: Global, lines: &Lines, j: u32) -> Result<Option<LineFault>, AllocError>
    requires first { 0 < j }
    requires within { j ≤ length lines.now }
    requires rule { AtLine lines.now j (λ x. by_table x.line.rule ≡ true) }
    requires fit { AllByRecursion StatesFit lines.now }
    ensures fault { IfOk result (λ f. AtLine lines.now j (λ x. IsTautStepFault x f)) }
{
    match cites_ok(alloc, lines, j) {
        Ok(()) => table_fault(alloc, lines, j),
        fault => named(fault),
    }
}

/// The fault of a step by a rule of the system itself.
fn step_fault(alloc: Global, lines: &Lines, j: u32) -> Result<Option<LineFault>, AllocError>
    requires first { 0 < j }
    requires within { j ≤ length lines.now }
    requires rule { AtLine lines.now j (λ x. is_own x.line.rule ≡ true) }
    ensures fault { IfOk result (λ f. AtLine lines.now j (λ x. IsStepFault x f)) }
{
    match cites_ok(alloc, lines, j) {
        Ok(()) => named(rule_met(alloc, lines, j)),
        fault => named(fault),
    }
}

/// Whether a step whose cites are in order meets its rule, or why it doesn't.
fn rule_met(alloc: Global, lines: &Lines, j: u32) -> Result<(), StepFault>
    requires first { 0 < j }
    requires within { j ≤ length lines.now }
    requires rule { AtLine lines.now j (λ x. is_own x.line.rule ≡ true) }
    requires cites { AtLine lines.now j (λ x. cites_fault_at x ≡ None) }
    ensures stands { OnOk result (AtLine lines.now j Stands) }
    ensures fails { IfErr result (λ e. AtLine lines.now j (FailsAs e)) }
{
    if is_propositional(lines.as_slice()[j as usize - 1].rule) {
        return check_prop(alloc, lines.as_slice(), j);
    }
    check_quant(alloc, lines.as_slice(), j)
}

/// The fault of a line whose step was tested so.
fn named(tested: Result<(), StepFault>) -> Result<Option<LineFault>, AllocError>
    ensures value { IfOk result (λ f. MatchResult tested (λ _. f ≡ None) (λ e. (f ≡ Some (fault.Step e)) × (e ≢ StepFault.Memory))) }
{
    match tested {
        Ok(()) => Ok(None),
        Err(StepFault::Memory) => Err(AllocError),
        Err(fault) => Ok(Some(LineFault::Step(fault))),
    }
}

/// Whether a step may go by the rule, in a proof for a task that allows these consequence rules.
fn is_allowed(allowed: Allowed, rule: Rule) -> bool
    ensures value { result ≡ allows allowed rule }
{
    is_propositional(rule) || is_quantified(rule) || (is_tautological(rule) && allowed.taut)
}

/// Whether the rule is tautological consequence.
fn is_tautological(rule: Rule) -> bool
    ensures value { result ≡ by_table rule }
{
    matches!(rule, Rule::TautCon)
}
