ghost use Rattle.std.specs.Prelude.{◌≡◌, ◌<◌, ◌≤◌, ◌++◌, ◌∷◌, [], length, IfOk, OnOk, None, true};
ghost use Rattle.std.specs.List.{AllByRecursion};
ghost use Rattle.nested_proofs.specs.AtLine.{AtLine};
ghost use Rattle.nested_proofs.specs.CiteTests.{cites_fault_at};
ghost use Rattle.nested_proofs.specs.ReadOff.{IsWithin, sentences_read};
ghost use Rattle.proof_check.specs.Failing as tests;
ghost use Rattle.proof_check.specs.Readers.{IsTableFault, StatesFit};

use crate::verdict::LineFault;
use deriv_laws::{Cite, FlatLine};
use fol_core::{Sents, copy};
use lists::Listed;
use nested_proofs::{Lines, cited_sentence};
use std::alloc::{AllocError, Global};
use taut_con::{TautAnswer, taut_con};

/// What the truth table says against line `j`, counted from 1, a step by tautological consequence whose cites have passed
/// their tests: none where its sentence is a tautological consequence of the cited ones.
pub(crate) fn table_fault(
    alloc: Global,
    lines: &Lines,
    j: u32,
) -> Result<Option<LineFault>, AllocError>
    requires first { 0 < j }
    requires within { j ≤ length lines.now }
    requires rule { AtLine lines.now j (λ x. tests.is_tautological x.line.rule ≡ true) }
    requires cites { AtLine lines.now j (λ x. cites_fault_at x ≡ None) }
    requires fit { AllByRecursion StatesFit lines.now }
    ensures fault { IfOk result (λ f. AtLine lines.now j (λ x. IsTableFault x f)) }
{
    let line = &lines.as_slice()[j as usize - 1];
    let Some(goal) = &line.sentence else {
        return Ok(None);
    };
    let premises = cited_copies(alloc, lines.as_slice(), line.cites.as_slice())?;
    Ok(taut_fault(taut_con(alloc, &premises, goal)?))
}

/// The fault that the truth table's answer is.
fn taut_fault(answer: TautAnswer) -> Option<LineFault>
    ensures value { result ≡ tests.taut_fault answer }
{
    match answer {
        TautAnswer::Yes => None,
        TautAnswer::No(row) => Some(LineFault::NotTaut(row)),
        TautAnswer::TooManyLetters(count) => Some(LineFault::Letters(count)),
    }
}

/// The sentences of the cited lines, in the order of the cites, each copied.
fn cited_copies(alloc: Global, lines: &[FlatLine], cites: &[Cite]) -> Result<Sents, AllocError>
    requires within { AllByRecursion (IsWithin (length lines.now)) cites.now }
    ensures value { IfOk result (λ sentences. sentences ≡ sentences_read lines.now cites.now) }
{
    let mut copies: Sents = Listed::new(alloc);
    for cite in cites {
        add_cited(alloc, lines, *cite, &mut copies)?;
    }
    Ok(copies)
}

/// Adds a copy of the sentence of the cited line, where the cite is a line and it has one.
fn add_cited(
    alloc: Global,
    lines: &[FlatLine],
    cite: Cite,
    copies: &mut Sents,
) -> Result<(), AllocError>
    requires within { IsWithin (length lines.now) cite }
    ensures added { OnOk result (copies.new ≡ copies.old ++ sentences_read lines.now (cite ∷ [])) }
{
    if cite.sub {
        return Ok(());
    }
    match cited_sentence(lines, cite) {
        Some(sentence) => copies.add(copy(alloc, sentence)?),
        None => Ok(()),
    }
}
