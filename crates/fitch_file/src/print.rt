ghost use Rattle.std.specs.Prelude.{◌≡◌, ◌≤◌, length, ◌++◌, ◌∷◌, [], map, IfOk, OnOk, if◌then◌else◌};
ghost use Rattle.std.specs.List.{AllByRecursion};
ghost use Rattle.std.specs.Fmt.{decimal};
ghost use Rattle.fol_text.specs.Printed.{separated};
ghost use Rattle.fitch_file.specs.ProofText.{SpellsProof};
ghost use Rattle.fitch_file.specs.PrintedProof.{name_text, bars_text, box_text, stated_text, range_end, cite_text, cites_text, reason_text, printed_line, printed_lines, printed_proof, IsReadBack};

use crate::rule_names::{RuleName, name_of};
use deriv_laws::{Cite, FlatLine};
use fol_core::{Ident, Sent};
use fol_text::print_sentence;
use lists::Listed;
use nested_proofs::Lines;
use std::alloc::{AllocError, Global};

/// The bytes of a text.
type Bytes = Listed<u8>;

/// The text of the proof: the header `proof 1`, and then its lines. Each line ends with a line feed and has one space
/// between its parts, `| ` for each bar, `: ` before the cites and `, ` between them. A rule's name has the typed sign.
pub fn print_proof(alloc: Global, proof: &Lines) -> Result<Listed<u8>, AllocError>
    ensures text { IfOk result (λ text. text ≡ printed_proof proof.now) }

    // It is read as the same lines where each sentence is well formed, closed and within the limits, its text has at most
    // 4,000 bytes, and each boxed constant is a name.
    ensures read_back { IfOk result (λ text. AllByRecursion IsReadBack proof.now → SpellsProof text proof.now) }
{
    let mut text = Listed::new(alloc);
    text.extend(b"proof 1\n")?;
    add_lines(alloc, proof.as_slice(), &mut text)?;
    Ok(text)
}

/// Puts the lines last, numbered from 1 on.
fn add_lines(alloc: Global, lines: &[FlatLine], text: &mut Bytes) -> Result<(), AllocError>
    requires { length lines.now ≤ 2000 }
    ensures { OnOk result (text.new ≡ text.old ++ printed_lines 1 lines.now) }
{
    let mut number: u32 = 0;
    for line in lines {
        number += 1;
        add_line(alloc, number, line, text)?;
        text.extend(b"\n")?;
    }
    Ok(())
}

/// Puts the line last, with its number.
fn add_line(alloc: Global, number: u32, line: &FlatLine, text: &mut Bytes) -> Result<(), AllocError>
    ensures { OnOk result (text.new ≡ text.old ++ printed_line number line.now) }
{
    add_number(alloc, number, text)?;
    text.extend(b" ")?;
    add_bars(line.depth, text)?;
    add_box(&line.boxed, text)?;
    add_stated(alloc, &line.sentence, text)?;
    text.extend(b"; ")?;
    add_reason(alloc, line, text)
}

/// Puts the number last, in decimal.
fn add_number(alloc: Global, number: u32, text: &mut Bytes) -> Result<(), AllocError>
    ensures { OnOk result (text.new ≡ text.old ++ decimal number) }
{
    let digits = format!(in alloc; "{number}")?;
    text.extend(digits.as_bytes())
}

/// Puts so many bars last.
fn add_bars(depth: u8, text: &mut Bytes) -> Result<(), AllocError>
    ensures { OnOk result (text.new ≡ text.old ++ bars_text depth) }
{
    for _bar in 0..depth {
        text.extend(b"| ")?;
    }
    Ok(())
}

/// Puts the box last, where there is one.
fn add_box(boxed: &Option<Ident>, text: &mut Bytes) -> Result<(), AllocError>
    ensures { OnOk result (text.new ≡ text.old ++ box_text boxed.now) }
{
    match boxed {
        Some(name) => {
            text.extend(b"[")?;
            text.extend(name.as_slice())?;
            text.extend(b"] ")
        }
        None => Ok(()),
    }
}

/// Puts the sentence last, where there is one.
fn add_stated(alloc: Global, sentence: &Option<Sent>, text: &mut Bytes) -> Result<(), AllocError>
    ensures { OnOk result (text.new ≡ text.old ++ stated_text sentence.now) }
{
    match sentence {
        Some(sentence) => {
            let stated = print_sentence(alloc, sentence)?;
            text.extend(stated.as_slice())?;
            text.extend(b" ")
        }
        None => Ok(()),
    }
}

/// Puts the rule's name and the cites last.
fn add_reason(alloc: Global, line: &FlatLine, text: &mut Bytes) -> Result<(), AllocError>
    ensures { OnOk result (text.new ≡ text.old ++ reason_text line.now) }
{
    add_name(name_of(line.rule), text)?;
    add_cites(alloc, line.cites.as_slice(), text)
}

/// Puts the name of a rule last.
fn add_name(name: RuleName, text: &mut Bytes) -> Result<(), AllocError>
    ensures { OnOk result (text.new ≡ text.old ++ name_text name) }
{
    match name {
        RuleName::OneWord(word) => text.extend(word.text()),
        RuleName::Consequence(word) => add_both(word.text(), b" Con", text),
        RuleName::Introduction(sign) => add_both(sign.typed(), b" Intro", text),
        RuleName::Elimination(sign) => add_both(sign.typed(), b" Elim", text),
    }
}

/// Puts the two texts last.
fn add_both(first: &[u8], second: &[u8], text: &mut Bytes) -> Result<(), AllocError>
    ensures { OnOk result (text.new ≡ text.old ++ (first.now ++ second.now)) }
{
    text.extend(first)?;
    text.extend(second)
}

/// Puts a colon and the cites last, where there are some.
fn add_cites(alloc: Global, cites: &[Cite], text: &mut Bytes) -> Result<(), AllocError>
    ensures { OnOk result (text.new ≡ text.old ++ cites_text cites.now) }
{
    if cites.is_empty() {
        return Ok(());
    }
    text.extend(b": ")?;
    add_separated(alloc, cites, text)
}

/// Puts the cites last, with commas between them.
fn add_separated(alloc: Global, cites: &[Cite], text: &mut Bytes) -> Result<(), AllocError>
    ensures { OnOk result (text.new ≡ text.old ++ separated (44 ∷ 32 ∷ []) (map cite_text cites.now)) }
{
    let mut is_first = true;
    for cite in cites {
        separate(is_first, text)?;
        is_first = false;
        add_cite(alloc, *cite, text)?;
    }
    Ok(())
}

/// Puts a comma and a space last, unless the first cite comes next.
fn separate(is_first: bool, text: &mut Bytes) -> Result<(), AllocError>
    ensures { OnOk result (text.new ≡ text.old ++ (if is_first then [] else 44 ∷ 32 ∷ [])) }
{
    if is_first { Ok(()) } else { text.extend(b", ") }
}

/// Puts the cite last.
fn add_cite(alloc: Global, cite: Cite, text: &mut Bytes) -> Result<(), AllocError>
    ensures { OnOk result (text.new ≡ text.old ++ cite_text cite) }
{
    add_number(alloc, cite.first, text)?;
    add_range_end(alloc, cite, text)
}

/// Puts a hyphen and the number of the last line last, where a subproof is cited.
fn add_range_end(alloc: Global, cite: Cite, text: &mut Bytes) -> Result<(), AllocError>
    ensures { OnOk result (text.new ≡ text.old ++ range_end cite.sub cite.last) }
{
    if !cite.sub {
        return Ok(());
    }
    text.extend(b"-")?;
    add_number(alloc, cite.last, text)
}
