ghost use Rattle.std.specs.Prelude.{◌≡◌, ◌<◌, ◌⊎◌, ℕ, List, [], length, true, false, Ok, Err, IfOk, IfErr, IfSome, IsTrue, ◌≤◌};
ghost use Rattle.texts.specs.Blanks.{after_blanks};
ghost use Rattle.fol_core.specs.declared.sent.Sent.{Sent as Sentence};
ghost use Rattle.fol_core.specs.Size.{within_limits};
ghost use Rattle.fol_core.specs.Formed.{formed};
ghost use Rattle.fol_core.specs.Statements.{statement};
ghost use Rattle.fol_text.specs.declared.fault.ReadFault.{ReadFault as Fault};
ghost use Rattle.fol_text.specs.Tokens.{tokens_of};
ghost use Rattle.fol_text.specs.Grammar.{Spells};
ghost use Rattle.fol_text.specs.Readable.{SpellsText, IsReadable, IsFit};
ghost use Rattle.fol_text.specs.Refusals.{IsRefused, IsStopped, IsUnfit, limit_fault};
ghost use Rattle.fol_text.specs.Occurrences.{first_false as first_false_of, fitting as fitting_of, boundness as boundness_of, predicate_places as predicate_places_of, term_places as term_places_of};
ghost use Rattle.fol_text.specs.Machine.{GivesAt, LeavesAt, step as step_of, ended as ended_of};

use crate::fault::{ReadFault, Refusal};
use crate::lexer::tokens;
use crate::marks::{boundness, first_false, fitting, has_places, predicate_places, term_places};
use crate::state::{MOST_PENDING, State};
use crate::straight::sentence;
use crate::token::Placed;
use fol_core::{Sent, SentFault, is_closed, within};
use std::alloc::{AllocError, Global};
use texts::trim_start;

/// How many bytes a sentence's text may have.
const MOST_BYTES: usize = 4000;

/// The sentence that the text spells. It is closed, has at most a depth of 60 and 400 nodes, and each predicate of the
/// blocks language has its number of places. The text has at most 4,000 bytes, and at most 120 parentheses, `~` and
/// quantifiers are pending at any token. Else the answer is the first refusal. `Memory` says only that memory was refused.
///
/// # Requirements
///
/// The text has fewer than 2^32 bytes, so that a place in it is a `u32`.
pub fn read_sentence(alloc: Global, text: &[u8]) -> Result<Sent, ReadFault>
    requires { length text.now < 4294967296 }

    // What is read is what the text spells.
    ensures read { IfOk result (λ s. IsReadable text.now s) }

    // What the text spells is read, unless memory is refused.
    ensures exact { (s : Sentence) → IsReadable text.now s → (result ≡ Ok s) ⊎ (result ≡ Err ReadFault.Memory) }

    // Else the fault is the first refusal.
    ensures refused { IfErr result (λ fault. (fault ≡ ReadFault.Memory) ⊎ IsRefused text.now fault) }
{
    if text.len() > MOST_BYTES {
        return Err(ReadFault::TooLong(text.len() as u32));
    }
    if let Some(found) = read_straight(alloc, text)? {
        return Ok(found);
    }
    let tokens = tokens(alloc, text)?;
    let sentence = spelled(alloc, tokens.as_slice(), text.len() as u32)?;
    fit(alloc, tokens.as_slice(), &sentence)?;
    Ok(sentence)
}

/// The sentence that the text spells, where nothing is wrong with it. None says nothing of the text.
#[tactic(auto, using(crate::proofs::Whole::readable))]
fn read_straight(alloc: Global, text: &[u8]) -> Result<Option<Sent>, AllocError>
    requires { length text.now ≤ 4000 }
    ensures read { IfOk result (λ found. IfSome found (λ s. IsReadable text.now s)) }
{
    match sentence(alloc, MOST_PENDING, text) {
        Ok((found, rest)) => {
            if is_spent(rest) && is_fit(&found) {
                return Ok(Some(found));
            }
            Ok(None)
        }
        Err(Refusal::Memory) => Err(AllocError),
        Err(_) => Ok(None),
    }
}

/// Whether nothing but blanks is left.
fn is_spent(rest: &[u8]) -> bool
    ensures value { IsTrue result → after_blanks rest.now ≡ [] }
{
    match trim_start(rest) {
        [] => true,
        _ => false,
    }
}

/// Whether the sentence is within the limits, its block predicates have their places, and its variables are bound.
fn is_fit(sentence: &Sent) -> bool
    ensures value { IsTrue result → IsFit sentence.now }
{
    match within(sentence) {
        Ok(()) => has_places(sentence) && is_closed(sentence),
        Err(_) => false,
    }
}

/// A text spells at most one sentence by the grammar.
pub fn spelled_once()
    ensures once { (text : List ℕ) → (s : Sentence) → (t : Sentence) → SpellsText text s → SpellsText text t → s ≡ t }
{}

/// Each text is readable or has a first refusal, never both, and never two.
pub fn refused_once()
    ensures some { (text : List ℕ) → ((s : Sentence) × IsReadable text s) ⊎ ((fault : Fault) × IsRefused text fault) }
    ensures once { (text : List ℕ) → (fault : Fault) → (other : Fault) → IsRefused text fault → IsRefused text other → fault ≡ other }
    ensures readable { (text : List ℕ) → (s : Sentence) → (fault : Fault) → IsReadable text s → IsRefused text fault → ⊥ }
{}

/// What is readable is well formed, and it is a statement.
pub fn readable_sentences()
    ensures formed { (text : List ℕ) → (s : Sentence) → IsReadable text s → formed s ≡ true }
    ensures statement { (text : List ℕ) → (s : Sentence) → IsReadable text s → IsTrue (statement s) }
{}

/// The sentence that the tokens spell by the grammar, or the first refusal of a token or of the end, whose place is given.
fn spelled(alloc: Global, tokens: &[Placed], end: u32) -> Result<Sent, ReadFault>
    ensures read { IfOk result (λ s. Spells 120 (tokens_of tokens.now) s) }
    ensures fault { IfErr result (λ fault. (fault ≡ ReadFault.Memory) ⊎ IsStopped end tokens.now fault) }
{
    let mut state = State::new(alloc);
    for placed in tokens {
        turn(alloc, &mut state, placed)?;
    }
    ended(alloc, state, end)
}

/// Takes one more token.
fn turn(alloc: Global, state: &mut State, placed: &Placed) -> Result<(), ReadFault>
    ensures value { LeavesAt placed.now.place state.new result (step_of state.old placed.now.token) }
{
    let token = placed.token.copied(alloc)?;
    match state.step(alloc, token) {
        Ok(()) => Ok(()),
        Err(refusal) => Err(refusal.at(placed.place)),
    }
}

/// The sentence, where the text ends here.
fn ended(alloc: Global, state: State, end: u32) -> Result<Sent, ReadFault>
    ensures value { GivesAt end result (ended_of state) }
{
    match state.ended(alloc) {
        Ok(sentence) => Ok(sentence),
        Err(refusal) => Err(refusal.at(end)),
    }
}

/// Whether the sentence that the tokens spell is within the limits, its block predicates have their places, and its
/// variables are bound. The fault is the first of these that fails.
fn fit(alloc: Global, tokens: &[Placed], sentence: &Sent) -> Result<(), ReadFault>
    requires { Spells 120 (tokens_of tokens.now) sentence.now }
    ensures fits { result ≡ Ok tt → IsFit sentence.now }
    ensures fault { IfErr result (λ fault. (fault ≡ ReadFault.Memory) ⊎ IsUnfit tokens.now sentence.now fault) }
{
    are_limits_kept(sentence)?;
    if let Some(place) = wrong_predicate(alloc, tokens, sentence)? {
        return Err(ReadFault::BlockArity(place));
    }
    if let Some(place) = free_variable(alloc, tokens, sentence)? {
        return Err(ReadFault::FreeVariable(place));
    }
    Ok(())
}

/// Whether the sentence is within the limits of depth and of nodes.
fn are_limits_kept(sentence: &Sent) -> Result<(), ReadFault>
    ensures value { result ≡ limit_fault (within_limits sentence.now) }
{
    match within(sentence) {
        Ok(()) => Ok(()),
        Err(SentFault::TooDeep) => Err(ReadFault::TooDeep(0)),
        Err(SentFault::TooMany) => Err(ReadFault::TooMany(0)),
        Err(SentFault::Memory) => Err(ReadFault::Memory),
    }
}

/// The place of the first predicate of the blocks language with another number of places.
fn wrong_predicate(
    alloc: Global,
    tokens: &[Placed],
    sentence: &Sent,
) -> Result<Option<u32>, AllocError>
    ensures value { IfOk result (λ place. place ≡ first_false_of (fitting_of sentence.now) (predicate_places_of tokens.now)) }
{
    let places = predicate_places(alloc, tokens)?;
    let marks = fitting(alloc, sentence)?;
    Ok(first_false(marks.as_slice(), places.as_slice()))
}

/// The place of the first free variable.
fn free_variable(
    alloc: Global,
    tokens: &[Placed],
    sentence: &Sent,
) -> Result<Option<u32>, AllocError>
    ensures value { IfOk result (λ place. place ≡ first_false_of (boundness_of sentence.now []) (term_places_of false tokens.now)) }
{
    let places = term_places(alloc, tokens)?;
    let marks = boundness(alloc, sentence)?;
    Ok(first_false(marks.as_slice(), places.as_slice()))
}
