ghost use Rattle.std.specs.Prelude.{◌≡◌, ◌≤◌, ◌<◌, ◌+◌, ◌++◌, ◌∷◌, ◌⊎◌, ℕ, List, length, [], Ok, Err, IfOk, IfErr, OnOk, IsErrAnd};
ghost use Rattle.std.specs.Str.Lines.{lines as lines_of};
ghost use Rattle.deriv_laws.specs.declared.line.FlatLine.{FlatLine as Line};
ghost use Rattle.physical_lines.specs.Physical.{IsBlankLine};
ghost use Rattle.fitch_file.specs.Line.{IsLine};
ghost use Rattle.fitch_file.specs.LineFaults.{LineFails};
ghost use Rattle.fitch_file.specs.ProofText.{SpellLines, SpellsProof};
ghost use Rattle.fitch_file.specs.ProofFaults.{LinesFail, IsFirstFault};
ghost use Rattle.fitch_file.specs.Readers.{PutsLine};

use crate::fault::TextFault;
use crate::proof_line::read_line;
use nested_proofs::Lines;
use physical_lines::{after_header, is_blank};
use std::alloc::Global;
use texts::next_line;

/// Reads a proof text: the header `proof 1`, and then proof lines, with blank lines anywhere. A refusal has the number of
/// the least faulty physical line, counted from 1, and the first test that it fails. `Memory` says only that memory was
/// refused.
///
/// # Requirements
///
/// The text has fewer than 2^32 bytes, so that the number of a line is a `u32`.
pub fn read_proof(alloc: Global, text: &[u8]) -> Result<Lines, (u32, TextFault)>
    requires { length text.now < 4294967296 }

    // What is read is what the text spells.
    ensures read { IfOk result (λ ls. SpellsProof text.now ls) }

    // What the text spells is read, unless memory is refused.
    ensures exact { (ls : List Line) → SpellsProof text.now ls → (result ≡ Ok ls) ⊎ IsErrAnd result (λ e. e.1 ≡ TextFault.Memory) }

    // Else the line is the least faulty one, and the fault its first.
    ensures refused { IfErr result (λ e. (e.1 ≡ TextFault.Memory) ⊎ IsFirstFault text.now e.0 e.1) }
{
    match after_header(text, b"proof 1") {
        Ok((place, rest)) => read_lines(alloc, place, rest),
        Err(place) => Err((place, TextFault::Header)),
    }
}

/// Reads the proof lines behind the header, which is the physical line `header`.
fn read_lines(alloc: Global, header: u32, text: &[u8]) -> Result<Lines, (u32, TextFault)>
    requires { header + length text.now < 4294967296 }
    ensures read { IfOk result (λ ls. SpellLines [] (lines_of text.now) ls) }
    ensures exact { (ls : List Line) → SpellLines [] (lines_of text.now) ls → (result ≡ Ok ls) ⊎ IsErrAnd result (λ e. e.1 ≡ TextFault.Memory) }
    ensures refused { IfErr result (λ e. (e.1 ≡ TextFault.Memory) ⊎ LinesFail [] (header + 1) (lines_of text.now) e.0 e.1) }
{
    let mut lines = Lines::new(alloc);
    let mut place = header;
    let mut rest = text;
    while let Some((line, after)) = next_line(rest) {
        place += 1;
        rest = after;
        match put_line(alloc, &mut lines, line) {
            Ok(()) => {}
            Err(fault) => return Err((place, fault)),
        }
    }
    Ok(lines)
}

/// Puts the line that the text is last, where it isn't blank.
fn put_line(alloc: Global, lines: &mut Lines, text: &[u8]) -> Result<(), TextFault>
    requires { length text.now < 4294967296 }
    ensures put { OnOk result (PutsLine text.now lines.old lines.new) }
    ensures only { OnOk result ((l : Line) → IsLine lines.old text.now l → lines.new ≡ lines.old ++ l ∷ []) }
    ensures refused { IfErr result (λ fault. (fault ≡ TextFault.Memory) ⊎ (IsBlankLine text.now → ⊥) × LineFails lines.old text.now fault) }
    ensures not_line { IfErr result (λ fault. (l : Line) → IsLine lines.old text.now l → fault ≡ TextFault.Memory) }
{
    if is_blank(text) {
        return Ok(());
    }
    let line = read_line(alloc, lines, text)?;
    lines.push(line)?;
    Ok(())
}
