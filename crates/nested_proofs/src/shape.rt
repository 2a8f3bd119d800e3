ghost use Rattle.std.specs.Prelude.{◌≡◌, ◌↔◌, [], IsNone, IsSome, IsTrue};
ghost use Rattle.nested_proofs.specs.Limits.{AreInForm, IsCiteForm};
ghost use Rattle.nested_proofs.specs.Nesting.{IsShaped};

use deriv_laws::{Cite, FlatLine, Rule};

/// Whether the line has what its rule asks for: an assumption has a sentence and no cites, a box alone has a constant
/// and nothing else, a premise has a sentence alone and depth 1, and each other line has a sentence and no box.
pub fn is_shaped(line: &FlatLine) -> bool
    ensures exact { IsTrue result ↔ IsShaped line.now line.now.rule }
{
    match line.rule {
        Rule::Premise => line.depth == 1 && states(line) && cites_nothing(line),
        Rule::Assume => line.sentence.is_some() && cites_nothing(line),
        Rule::BoxOnly => line.boxed.is_some() && line.sentence.is_none() && cites_nothing(line),
        _ => states(line),
    }
}

/// Whether the line has a sentence and no box.
fn states(line: &FlatLine) -> bool
    ensures exact { IsTrue result ↔ (IsSome line.now.sentence × IsNone line.now.boxed) }
{
    line.sentence.is_some() && line.boxed.is_none()
}

fn cites_nothing(line: &FlatLine) -> bool
    ensures exact { IsTrue result ↔ (line.now.cites ≡ []) }
{
    line.cites.as_slice().is_empty()
}

/// Whether the cites are at most 64, with numbers from 1 to 9999 in order, and one number for a line.
pub fn are_in_form(cites: &[Cite]) -> bool
    ensures exact { IsTrue result ↔ AreInForm cites.now }
{
    cites.len() <= 64 && cites.iter().all(|cite| is_cite_form(*cite))
}

fn is_cite_form(cite: Cite) -> bool
    ensures exact { IsTrue result ↔ IsCiteForm cite }
{
    let in_order = 1 <= cite.first && cite.first <= cite.last && cite.last <= 9999;
    in_order && (cite.sub || cite.first == cite.last)
}
