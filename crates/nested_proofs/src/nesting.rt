ghost use Rattle.std.specs.Prelude.{◌≡◌, ◌↔◌, IsTrue};
ghost use Rattle.nested_proofs.specs.Items as items;
ghost use Rattle.nested_proofs.specs.Levels as levels;
ghost use Rattle.nested_proofs.specs.Limits.{DepthFits};

use crate::kind::{RuleKind, kind_of};
use deriv_laws::{FlatLine, Rule};

/// Whether a line with this rule opens a subproof.
pub fn opens(rule: Rule) -> bool
    ensures value { result ≡ items.opens rule }
{
    matches!(kind_of(rule), RuleKind::Opening)
}

/// The depth of the list in which the line, or the subproof that it opens, is an item.
pub fn level(line: &FlatLine) -> u8
    ensures value { result ≡ levels.level line.now }
{
    level_at(line.rule, line.depth)
}

/// The level of a line of this depth with this rule.
pub(crate) fn level_at(rule: Rule, depth: u8) -> u8
    ensures value { result ≡ levels.level_at rule depth }
{
    if opens(rule) {
        depth.saturating_sub(1)
    } else {
        depth
    }
}

/// Whether a line with this rule may have this depth after a line of depth `before`.
pub(crate) fn depth_fits(before: u8, rule: Rule, depth: u8) -> bool
    ensures exact { IsTrue result ↔ DepthFits before rule depth }
{
    let level = level_at(rule, depth);
    1 <= level && level <= before && depth <= 30 && (rule != Rule::Premise || depth == 1)
}
