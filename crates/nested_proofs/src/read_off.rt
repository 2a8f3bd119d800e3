ghost use Rattle.std.specs.Prelude.{◌≡◌, ◌<◌, ◌≤◌, length, option_copied, option_to_list};
ghost use Rattle.std.specs.List.{AllByRecursion};
ghost use Rattle.nested_proofs.specs.CiteTests.{lines_cited};
ghost use Rattle.nested_proofs.specs.ReadOff.{IsWithin, concluded_by, sentences_read, stated_at, subproof_between};

use deriv_laws::{Cite, FlatLine};
use fol_core::Sent;

/// The sentence of the cited line, or the assumption of the cited subproof; none where that line is a box alone.
pub fn cited_sentence(lines: &[FlatLine], cite: Cite) -> Option<&Sent>
    requires within { IsWithin (length lines.now) cite }
    ensures value { option_copied result ≡ stated_at lines.now cite.first }
{
    lines[cite.first as usize - 1].sentence.as_ref()
}

/// The sentence of the one line among the cites; none where that line is a box alone.
pub fn only_cited<'a>(lines: &'a [FlatLine], cites: &[Cite]) -> Option<&'a Sent>
    requires within { AllByRecursion (IsWithin (length lines.now)) cites.now }
    requires one { lines_cited cites.now ≡ 1 }
    ensures read { sentences_read lines.now cites.now ≡ option_to_list (option_copied result) }
{
    for cite in cites {
        if !cite.sub {
            return cited_sentence(lines, *cite);
        }
    }
    None
}

/// The sentence that the cited subproof ends in: that of its last line that stands in no subproof inside it; none
/// where this line is a box alone. The search goes back from the subproof's end.
pub fn cited_conclusion(lines: &[FlatLine], cite: Cite) -> Option<&Sent>
    requires within { IsWithin (length lines.now) cite }
    ensures value { option_copied result ≡ concluded_by (subproof_between lines.now cite.first cite.last) }
{
    let first = cite.first as usize;
    let depth = lines[first - 1].depth;
    let mut number = cite.last as usize;
    while number > first {
        let line = &lines[number - 1];
        if line.depth == depth {
            return line.sentence.as_ref();
        }
        number -= 1;
    }
    lines[first - 1].sentence.as_ref()
}
