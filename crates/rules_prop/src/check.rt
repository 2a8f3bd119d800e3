ghost use Rattle.std.specs.Prelude.{◌≡◌, ◌<◌, ◌≤◌, length, true, IfErr, OnOk, OnErr, None};
ghost use Rattle.deriv_laws.specs.declared.line.StepFault.TheVariants as fault;
ghost use Rattle.nested_proofs.specs.AtLine.{AtLine};
ghost use Rattle.nested_proofs.specs.CiteTests.{cites_fault_at};
ghost use Rattle.nested_proofs.specs.FollowsAt.{FollowsAt};
ghost use Rattle.nested_proofs.specs.Limits.{AreLines};
ghost use Rattle.rules_prop.specs.Propositional.{is_propositional};

use crate::rules::follows;
use deriv_laws::{FlatLine, StepFault};
use std::alloc::Global;

/// Tests whether line `j`, counted from 1, follows by its propositional rule from what it cites. Its cites have passed
/// their tests. The only fault is that it doesn't follow; the test takes no memory.
pub fn check_prop(_alloc: Global, lines: &[FlatLine], j: u32) -> Result<(), StepFault>
    requires lines { AreLines lines.now }
    requires first { 0 < j }
    requires within { j ≤ length lines.now }
    requires rule { AtLine lines.now j (λ x. is_propositional x.line.rule ≡ true) }
    requires cites { AtLine lines.now j (λ x. cites_fault_at x ≡ None) }
    ensures ok { OnOk result (AtLine lines.now j FollowsAt) }
    ensures err { OnErr result (AtLine lines.now j (λ x. FollowsAt x → ⊥)) }
    ensures only { IfErr result (λ e. e ≡ fault.NotFollows) }
{
    let line = &lines[j as usize - 1];
    let Some(s) = &line.sentence else {
        return Err(StepFault::NotFollows);
    };
    if follows(lines, line.rule, line.cites.as_slice(), s) {
        Ok(())
    } else {
        Err(StepFault::NotFollows)
    }
}
