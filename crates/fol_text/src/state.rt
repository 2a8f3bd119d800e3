ghost use Rattle.std.specs.Prelude.{◌≡◌, []};
ghost use Rattle.fol_text.specs.Machine.{begin as begin_of};

use crate::stack::Stack;
use fol_core::{Ident, Sent, Sents, Term, Terms};
use std::alloc::Global;

/// How many parentheses, `~` and quantifiers may be pending at a token.
pub(crate) const MOST_PENDING: usize = 120;

/// Which quantifier.
#[derive(Clone, Copy, Debug)]
pub(crate) enum Quantifier {
    Universal,
    Existential,
}

/// What stands before a part that isn't complete.
#[derive(Debug, Drop)]
pub(crate) enum Prefix {
    Negation,
    /// With its variable.
    Quantified(Quantifier, Ident),
}

/// What an equation says of its terms.
#[derive(Clone, Copy, Debug)]
pub(crate) enum Relation {
    Same,
    Different,
}

/// What is begun of a sentence that joins parts, up to its last connective.
#[derive(Debug, Drop)]
pub(crate) enum Begun {
    /// No connective yet.
    Nothing,
    /// The parts that an `&` follows.
    Conjunction(Sents),
    /// The parts that a `|` follows.
    Disjunction(Sents),
    /// The antecedent.
    Conditional(Sent),
    /// The left side.
    Biconditional(Sent),
}

/// What is read of a term.
#[derive(Debug, Drop)]
pub(crate) enum Read {
    Variable(Ident),
    /// A name, or a function's symbol where its parenthesis comes.
    Symbol(Ident),
    /// A function with its arguments.
    Function(Term),
}

/// Where a term stands.
#[derive(Debug, Drop)]
pub(crate) enum Spot {
    /// A predicate with the arguments before it.
    Argument(Ident, Terms),
    /// On the left of an equation.
    Left,
    /// On the right of one, with the left term.
    Right(Term, Relation),
}

/// A function whose parenthesis is open, with its arguments so far.
#[derive(Debug, Drop)]
pub(crate) struct Call {
    pub(crate) symbol: Ident,
    pub(crate) arguments: Terms,
}

/// What is there of the part that is being read.
#[derive(Debug, Drop)]
pub(crate) enum Mode {
    /// Nothing but its prefixes.
    WantsPart,
    /// A quantifier's sign, whose variable has to come.
    WantsVariable(Quantifier),
    /// A predicate, which is a whole part unless arguments follow.
    HasPredicate(Ident),
    /// A term has to come at this spot, in these functions, the innermost on top.
    WantsTerm(Spot, Stack<Call>),
    /// A term stands there.
    HasTerm(Spot, Stack<Call>, Read),
    /// The whole part, with its prefixes.
    HasPart(Sent),
}

/// A sentence that is being read, inside parentheses or outermost.
#[derive(Debug, Drop)]
pub(crate) struct Group {
    /// How many may be pending inside it.
    pub(crate) room: usize,
    /// The prefixes of the part that is being read, the innermost on top.
    pub(crate) prefixes: Stack<Prefix>,
    pub(crate) begun: Begun,
}

/// What the tokens so far have come to.
#[derive(Debug, Drop)]
pub(crate) struct State {
    pub(crate) mode: Mode,
    pub(crate) here: Group,
    pub(crate) outer: Stack<Group>,
}

impl State {
    /// Before the first token.
    pub(crate) fn new(alloc: Global) -> State
        ensures value { result ≡ begin_of 120 }
    {
        let here = Group::new(alloc, MOST_PENDING);
        State {
            mode: Mode::WantsPart,
            here,
            outer: Stack::new(alloc),
        }
    }
}

impl Group {
    /// Before the first part, with this room.
    pub(crate) fn new(alloc: Global, room: usize) -> Group
        ensures value { result ≡ record { room = room; prefixes = []; begun = Begun.Nothing } }
    {
        Group {
            room,
            prefixes: Stack::new(alloc),
            begun: Begun::Nothing,
        }
    }
}
