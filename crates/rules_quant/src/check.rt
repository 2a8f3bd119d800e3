ghost use Rattle.std.specs.Prelude.{◌≡◌, ◌<◌, ◌≤◌, length, true, IfErr, OnOk, None, ◌⊎◌};
ghost use Rattle.deriv_laws.specs.declared.line.StepFault.TheVariants as fault;
ghost use Rattle.nested_proofs.specs.AtLine.{AtLine};
ghost use Rattle.nested_proofs.specs.CiteTests.{cites_fault};
ghost use Rattle.nested_proofs.specs.FollowsAt.{FollowsAt};
ghost use Rattle.nested_proofs.specs.StaysAt.{StaysAt};
ghost use Rattle.nested_proofs.specs.Limits.{AreLines};
ghost use Rattle.rules_quant.specs.Quantified.{is_quantified};
ghost use Rattle.rules_quant.specs.FailsAs.{FailsAs};

use crate::arbitrary::spoilt;
use crate::rules::follows;
use deriv_laws::{FlatLine, StepFault};
use fol_core::Ident;
use std::alloc::Global;

/// Tests whether line `j`, counted from 1, follows by its rule of identity or of a quantifier from what it cites, and
/// then whether the constant that a cited subproof boxes stays arbitrary. Its cites have passed their tests. Memory is
/// taken for the constant of the fault alone.
pub fn check_quant(alloc: Global, lines: &[FlatLine], j: u32) -> Result<(), StepFault>
    requires lines { AreLines lines.now }
    requires first { 0 < j }
    requires within { j ≤ length lines.now }
    requires rule { AtLine lines.now j (λ x. is_quantified x.line.rule ≡ true) }
    requires cites { AtLine lines.now j (λ x. cites_fault x.line.rule x.around.scope x.line.cites ≡ None) }
    ensures follows { OnOk result (AtLine lines.now j FollowsAt) }
    ensures stays { OnOk result (AtLine lines.now j StaysAt) }
    ensures fails { IfErr result (λ e. AtLine lines.now j (FailsAs e)) }
{
    let line = &lines[j as usize - 1];
    let Some(s) = &line.sentence else {
        return Err(StepFault::NotFollows);
    };
    if !follows(lines, line.rule, line.cites.as_slice(), s) {
        return Err(StepFault::NotFollows);
    }
    match spoilt(lines, line.rule, line.cites.as_slice(), s) {
        None => Ok(()),
        Some(c) => Err(not_fresh(alloc, c)),
    }
}

/// The fault of a constant that isn't arbitrary.
fn not_fresh(alloc: Global, c: &Ident) -> StepFault
    ensures named { (result ≡ fault.Memory) ⊎ (result ≡ fault.NotFresh c.now) }
{
    match c.copied(alloc) {
        Ok(name) => StepFault::NotFresh(name),
        Err(_) => StepFault::Memory,
    }
}
