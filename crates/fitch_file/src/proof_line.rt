ghost use Rattle.std.specs.Prelude.{◌≡◌, ◌≤◌, ◌<◌, ◌⊎◌, ◌↔◌, ℕ, IsTrue, List, Option, length, Ok, Err, IfOk, IfErr};
ghost use Rattle.std.specs.Option.{option_copied};
ghost use Rattle.fol_core.specs.declared.sent.Sent.{Sent as Sentence};
ghost use Rattle.fol_text.specs.declared.fault.ReadFault.{ReadFault as Fault};
ghost use Rattle.deriv_laws.specs.declared.line.FlatLine.{FlatLine as Line};
ghost use Rattle.deriv_laws.specs.declared.line.Cite.{Cite as OneCite};
ghost use Rattle.nested_proofs.specs.Limits.{DepthFits, depth_after};
ghost use Rattle.fitch_file.specs.Cites as cites_spec;
ghost use Rattle.fitch_file.specs.Cites.{AreCited};
ghost use Rattle.fitch_file.specs.Numbering.{IsDepth};
ghost use Rattle.fitch_file.specs.Line.{IsStated, IsClaimed, IsLine};
ghost use Rattle.fitch_file.specs.LineFaults.{IsRefusedSentence, NestingFails, LineFails};
ghost use Rattle.fitch_file.specs.Readers.{claim_of, sentence_fault, IsWordIfAny};

use crate::cites::read_cites;
use crate::claim::{Claim, read_claim};
use crate::fault::TextFault;
use crate::numbering::{after_number, split_bars};
use deriv_laws::{Cites, FlatLine, Rule};
use fol_core::{Ident, Sent};
use fol_text::{ReadFault, read_sentence};
use lists::Listed;
use nested_proofs::Lines;
use std::alloc::{AllocError, Global};

/// The most bars that a line may have.
const MOST_BARS: usize = 30;

/// Reads the line that the text is after the earlier lines.
pub(crate) fn read_line(alloc: Global, earlier: &Lines, text: &[u8]) -> Result<FlatLine, TextFault>
    requires { length text.now < 4294967296 }
    ensures read { IfOk result (IsLine earlier.now text.now) }
    ensures exact { (l : Line) → IsLine earlier.now text.now l → (result ≡ Ok l) ⊎ (result ≡ Err TextFault.Memory) }
    ensures refused { IfErr result (λ fault. (fault ≡ TextFault.Memory) ⊎ LineFails earlier.now text.now fault) }
{
    if !earlier.has_room() {
        return Err(TextFault::TooManyLines);
    }
    let Some(body) = after_number(earlier.len() as u32 + 1, text) else {
        return Err(TextFault::Number);
    };
    let (bars, rest) = split_bars(body);
    if !is_depth(bars) {
        return Err(TextFault::Depth);
    }
    let Some(claim) = read_claim(rest) else {
        return Err(TextFault::RuleName);
    };
    read_claimed(alloc, earlier, bars as u8, &claim)
}

/// Whether so many bars are the depth of a line.
fn is_depth(bars: usize) -> bool
    ensures { IsTrue result ↔ IsDepth bars }
{
    1 <= bars && bars <= MOST_BARS
}

/// Reads the line of this depth that makes the claim after the earlier lines.
fn read_claimed(
    alloc: Global,
    earlier: &Lines,
    depth: u8,
    claim: &Claim<'_>,
) -> Result<FlatLine, TextFault>
    requires short { length claim.now.stated.now < 4294967296 }
    requires named { IsWordIfAny (option_copied claim.now.boxed) }
    ensures fits { IfOk result (λ l. DepthFits (depth_after 1 earlier.now) claim.now.rule depth) }
    ensures read { IfOk result (IsClaimed depth (claim_of claim.now)) }
    ensures exact { (l : Line) → DepthFits (depth_after 1 earlier.now) claim.now.rule depth → IsClaimed depth (claim_of claim.now) l → (result ≡ Ok l) ⊎ (result ≡ Err TextFault.Memory) }
    ensures refused { IfErr result (λ fault. (fault ≡ TextFault.Memory) ⊎ NestingFails (depth_after 1 earlier.now) depth (claim_of claim.now) fault) }
{
    if !earlier.may_follow(depth, claim.rule) {
        return Err(TextFault::Depth);
    }
    let sentence = read_statement(alloc, claim.stated)?;
    let cites = read_cited(alloc, claim.rule, claim.cites)?;
    let boxed = boxed_name(alloc, claim.boxed)?;
    Ok(FlatLine {
        depth,
        boxed,
        sentence,
        rule: claim.rule,
        cites,
    })
}

/// The sentence that the text states, or none where there is no text.
fn read_statement(alloc: Global, text: &[u8]) -> Result<Option<Sent>, TextFault>
    requires { length text.now < 4294967296 }
    ensures read { IfOk result (IsStated text.now) }
    ensures exact { (s : Option Sentence) → IsStated text.now s → (result ≡ Ok s) ⊎ (result ≡ Err TextFault.Memory) }
    ensures refused { IfErr result (λ fault. (fault ≡ TextFault.Memory) ⊎ ((why : Fault) × (fault ≡ TextFault.Sentence why) × IsRefusedSentence text.now why)) }
{
    if text.is_empty() {
        return Ok(None);
    }
    match read_sentence(alloc, text) {
        Ok(sentence) => Ok(Some(sentence)),
        Err(fault) => Err(fault_of(fault)),
    }
}

/// The fault of a line whose sentence is refused. Want of memory is no fault of the sentence.
fn fault_of(fault: ReadFault) -> TextFault
    ensures { result ≡ sentence_fault fault }
{
    match fault {
        ReadFault::Memory => TextFault::Memory,
        other => TextFault::Sentence(other),
    }
}

/// What a line with this rule cites by the text behind its colon.
fn read_cited(alloc: Global, rule: Rule, text: Option<&[u8]>) -> Result<Cites, TextFault>
    ensures read { IfOk result (AreCited rule (option_copied text.entry)) }
    ensures refused { IfErr result (λ fault. (fault ≡ TextFault.Memory) ⊎ ((fault ≡ TextFault.Cite) × ((cites : List OneCite) → AreCited rule (option_copied text.entry) cites → ⊥))) }
{
    let Some(text) = text else {
        return Ok(Listed::new(alloc));
    };
    if !may_cite(rule) {
        return Err(TextFault::Cite);
    }
    match read_cites(alloc, text)? {
        Some(cites) => Ok(cites),
        None => Err(TextFault::Cite),
    }
}

/// Whether a line with this rule may cite.
fn may_cite(rule: Rule) -> bool
    ensures { result ≡ cites_spec.may_cite rule }
{
    !matches!(rule, Rule::Premise | Rule::Assume | Rule::BoxOnly)
}

/// The boxed name, where there is one.
fn boxed_name(alloc: Global, boxed: Option<&[u8]>) -> Result<Option<Ident>, AllocError>
    requires { IsWordIfAny (option_copied boxed) }
    ensures { IfOk result (λ made. made ≡ option_copied boxed.entry) }
{
    match boxed {
        Some(name) => Ident::make(alloc, name),
        None => Ok(None),
    }
}
