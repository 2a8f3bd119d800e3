ghost use Rattle.std.specs.Prelude.{◌≡◌, [], ◌∷◌, ◌++◌, ◌≤◌, length, take, IfOk};
ghost use Rattle.fol_core.specs.declared.sent.Sent.{out-Sent};
ghost use Rattle.tableau_laws.specs.Branch.{stands as stands_on, new_of, terms_on};
ghost use Rattle.tableau_laws.specs.Choices.{is_closed as closed_now, is_contrary as contrary};

use crate::indexed::Indexed;
use crate::terms::{gather, is_term};
use fol_core::{Sent, Term};
use std::alloc::{AllocError, Global};
use std::marker::Model;
use tableau_laws::Literal;

/// What is kept of each front of the branch: how many terms it has, and whether it is closed.
#[derive(Debug, Drop)]
struct Mark {
    terms: usize,
    closed: bool,
}

/// A branch of the tableau, as a list of signed sentences without repetition.
#[derive(Debug, Drop)]
pub struct Branch {
    indexed: Indexed,
    terms: Vec<Term>,
    marks: Vec<Mark>,
}

impl Model for Branch {
    ghost use Rattle.std.specs.Prelude.{List};
    ghost use Rattle.std.specs.Coded.{codes};
    ghost use Rattle.fol_core.specs.contracts.sent.Sent as sentences;
    ghost use Rattle.tableau_laws.specs.declared.literal.Literal.{Literal as Signed};
    ghost use Rattle.tableau_branch.specs.inside.Marks.{IsKept};

    ghost Value = { List Signed };

    ghost coded = { Prim.hlevel (codes, sentences.the_row.coded) };

    ghost view = { λ b. b.indexed };

    ghost invariant = { λ b. IsKept b.indexed b.terms.items b.marks.items };
}

/// Whether the sentence, with this sign, closes a branch by itself.
fn is_contrary(holds: bool, s: &Sent) -> bool
    ensures value { result ≡ contrary holds (out-Sent s.now) }
{
    match s {
        Sent::Bottom => holds,
        Sent::Eq(a, b) => !holds && is_term(a, b),
        _ => false,
    }
}

impl Branch {
    /// The empty branch.
    pub fn new(alloc: Global) -> Result<Branch, AllocError>
        ensures empty { IfOk result (λ branch. branch ≡ []) }
    {
        let mut marks = Vec::new(alloc);
        marks.push(Mark {
            terms: 0,
            closed: false,
        })?;
        Ok(Branch {
            indexed: Indexed::new(alloc)?,
            terms: Vec::new(alloc),
            marks,
        })
    }

    /// What stands on the branch, in order.
    pub fn as_slice(&self) -> &[Literal]
        ensures value { result.now ≡ self.now }
    {
        self.indexed.as_slice()
    }

    /// The mark by which `undo` comes back to here.
    pub fn mark(&self) -> u64
        ensures value { result ≡ length self.now }
    {
        self.indexed.mark()
    }

    /// Whether this sentence stands on the branch with this sign. It is found by its weight.
    pub fn stands(&self, holds: bool, s: &Sent) -> bool
        ensures value { result ≡ stands_on self.now (record { holds = holds; sentence = s.now }) }
    {
        self.indexed.stands(holds, s)
    }

    /// The ground terms on the branch, by their first occurrence.
    pub fn terms(&self) -> &[Term]
        ensures value { result.now ≡ terms_on self.now }
    {
        self.terms.as_slice()
    }

    /// Whether the branch is closed, where there are no clauses.
    pub fn is_closed(&self) -> bool
        ensures value { result ≡ closed_now [] self.now }
    {
        let marks = self.marks.as_slice();
        let at = self.mark() as usize;
        marks[at].closed
    }

    /// Whether it is closed with this item last.
    #[tactic(auto, using(crate::proofs::Marking::closed_more))]
    fn is_closed_with(&self, item: &Literal) -> bool
        ensures value { result ≡ closed_now [] (self.now ++ item.now ∷ []) }
    {
        self.is_closed()
            || (self.stands(!item.holds, &item.sentence) || is_contrary(item.holds, &item.sentence))
    }

    /// The branch with this item last, where it isn't there yet. Where memory is refused, the branch is dropped.
    pub fn add(self, alloc: Global, item: Literal) -> Result<Branch, AllocError>
        ensures value { IfOk result (λ branch. branch ≡ self ++ new_of self (item ∷ [])) }
    {
        if self.stands(item.holds, &item.sentence) {
            return Ok(self);
        }
        let closed = self.is_closed_with(&item);
        let Branch {
            indexed,
            mut terms,
            mut marks,
        } = self;
        gather(alloc, &mut terms, &item.sentence)?;
        marks.push(Mark {
            terms: terms.len(),
            closed,
        })?;
        Ok(Branch {
            indexed: indexed.push(item)?,
            terms,
            marks,
        })
    }

    /// Leaves the first `mark` items.
    pub fn undo(&mut self, mark: u64)
        requires there { mark ≤ length self.old }
        ensures value { self.new ≡ take mark self.old }
    {
        let marks = self.marks.as_slice();
        let count = marks[mark as usize].terms;
        self.terms.truncate(count);
        self.marks.truncate(mark as usize + 1);
        self.indexed.undo(mark);
    }
}
