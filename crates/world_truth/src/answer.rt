ghost use Rattle.std.specs.Prelude.{◌≡◌};
ghost use Rattle.std.specs.List.{list_all};
ghost use Rattle.world_truth.specs.Answers as answers;
ghost use Rattle.worlds.specs.Assignments.{own_names};
ghost use Rattle.world_truth.specs.Places.{given};
ghost use Rattle.worlds.specs.Truth.{val};

use crate::units::work;
use crate::valuation::value;
use fol_core::{Ident, Sent, Term};
use lists::Listed;
use thiserror::Error;
use worlds::{World, predicate_of};

/// The greatest work of a sentence that has an answer.
const MOST_WORK: u64 = 20_000_000;

/// Why a sentence has no answer in a world, in the order in which this is tested.
#[derive(Clone, Copy, Debug, PartialEq, Eq, Error)]
pub enum TruthFault {
    /// A predicate in it is none of the blocks language, or a function stands in it.
    #[error("a predicate or a function is outside the blocks language")]
    NotBlocks,
    /// A name in it is one that no block has.
    #[error("no block has such a name")]
    NoSuchName,
    /// Its work is over 20,000,000.
    #[error("the work is over 20,000,000")]
    TooLarge,
}

/// A variable, with the number of the block that it stands for.
#[derive(Debug, Drop)]
pub struct Place {
    pub variable: Ident,
    /// From 1 to the number of blocks.
    pub block: u32,
}

/// Blocks for variables. The last one for a variable counts.
pub type Places = Listed<Place>;

/// Whether the sentence is true in the world, where each name stands for the block that has it. It takes no memory.
///
/// A sentence that isn't closed is read as one of whose free variables stand for block 1.
pub fn truth(w: &World, s: &Sent) -> Result<bool, TruthFault>
    ensures value { result ≡ answers.truth_of w.now s.now }
{
    if !is_of_blocks(s) {
        return Err(TruthFault::NotBlocks);
    }
    if !are_borne(s, w) {
        return Err(TruthFault::NoSuchName);
    }
    if work(w, s) > MOST_WORK {
        return Err(TruthFault::TooLarge);
    }
    Ok(value(s, w, &[]))
}

/// The value of the sentence, where the places say what its free variables stand for, and each name stands for the block
/// that has it. A predicate outside the blocks language is false of anything, and a function gives block 1 for anything. It
/// takes no memory.
pub fn truth_at(w: &World, s: &Sent, places: &Places) -> bool
    ensures value { result ≡ val w.now (given places.now (own_names w.now)) s.now }
{
    value(s, w, places.as_slice())
}

/// Whether each predicate in the sentence is one of the blocks language, and no function stands in it.
#[cycle(blocks)]
#[tactic(auto, using(crate::proofs::Forms::blocks_and, crate::proofs::Forms::blocks_or))]
fn is_of_blocks(s: &Sent) -> bool
    ensures value { result ≡ answers.in_blocks s.now }
{
    match s {
        Sent::Atom(p, terms) => match predicate_of(p.as_slice()) {
            Some(predicate) => predicate.places() == terms.len() && are_simple(terms.as_slice()),
            None => false,
        },
        Sent::Eq(a, b) => is_simple(a) && is_simple(b),
        Sent::Bottom => true,
        Sent::Not(a) | Sent::All(_, a) | Sent::Ex(_, a) => is_of_blocks(a.get()),
        Sent::And(parts) | Sent::Or(parts) => are_of_blocks(parts.as_slice()),
        Sent::If(a, b) | Sent::Iff(a, b) => is_of_blocks(a.get()) && is_of_blocks(b.get()),
    }
}

#[cycle(blocks)]
fn are_of_blocks(parts: &[Sent]) -> bool
    ensures value { result ≡ list_all answers.in_blocks parts.now }
{
    for part in parts {
        if !is_of_blocks(part) {
            return false;
        }
    }
    true
}

fn are_simple(terms: &[Term]) -> bool
    ensures value { result ≡ list_all answers.is_simple terms.now }
{
    terms.iter().all(|term| is_simple(term))
}

/// Whether the term is a variable or a name.
fn is_simple(term: &Term) -> bool
    ensures value { result ≡ answers.is_simple term.now }
{
    match term {
        Term::Var(_) | Term::Name(_) => true,
        Term::App(_, _) => false,
    }
}

/// Whether each name in the sentence is one that a block has.
#[cycle(borne)]
#[tactic(auto, using(crate::proofs::Forms::borne_and, crate::proofs::Forms::borne_or))]
fn are_borne(s: &Sent, w: &World) -> bool
    ensures value { result ≡ answers.all_borne w.now s.now }
{
    match s {
        Sent::Atom(_, terms) => have_blocks(terms.as_slice(), w),
        Sent::Eq(a, b) => has_block(a, w) && has_block(b, w),
        Sent::Bottom => true,
        Sent::Not(a) | Sent::All(_, a) | Sent::Ex(_, a) => are_borne(a.get(), w),
        Sent::And(parts) | Sent::Or(parts) => are_borne_in_all(parts.as_slice(), w),
        Sent::If(a, b) | Sent::Iff(a, b) => are_borne(a.get(), w) && are_borne(b.get(), w),
    }
}

#[cycle(borne)]
fn are_borne_in_all(parts: &[Sent], w: &World) -> bool
    ensures value { result ≡ list_all (answers.all_borne w.now) parts.now }
{
    for part in parts {
        if !are_borne(part, w) {
            return false;
        }
    }
    true
}

#[cycle(borne_terms)]
fn have_blocks(terms: &[Term], w: &World) -> bool
    ensures value { result ≡ list_all (answers.has_block w.now) terms.now }
{
    for term in terms {
        if !has_block(term, w) {
            return false;
        }
    }
    true
}

/// Whether each name in the term is one that a block has.
#[cycle(borne_terms)]
fn has_block(term: &Term, w: &World) -> bool
    ensures value { result ≡ answers.has_block w.now term.now }
{
    match term {
        Term::Var(_) => true,
        Term::Name(n) => w.has(n.as_slice()),
        Term::App(_, args) => have_blocks(args.as_slice(), w),
    }
}
