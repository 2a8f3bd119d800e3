use crate::ident::Ident;
use lists::{Listed, Nonempty, Several};
use sqlite_items::Boxed;
use thiserror::Error;

/// What a predicate, an equation or a function is about: a variable, a name, or a function of one term or more.
#[derive(Debug, Drop)]
pub enum Term {
    Var(Ident),
    Name(Ident),
    App(Ident, Args),
}

/// The arguments of a function, in their order. There is at least one.
pub type Args = Nonempty<Term>;

/// The terms of an atomic sentence, in their order.
pub type Terms = Listed<Term>;

/// A sentence of first-order logic. A conjunction or a disjunction joins two parts or more, without brackets between
/// them.
#[derive(Debug, Drop)]
pub enum Sent {
    /// A predicate of its terms. With no term it is a sentence letter.
    Atom(Ident, Terms),
    /// An equation.
    Eq(Term, Term),
    /// Falsum, which is never true.
    Bottom,
    Not(Boxed<Sent>),
    And(Parts),
    Or(Parts),
    /// The conditional, from its antecedent to its consequent.
    If(Boxed<Sent>, Boxed<Sent>),
    Iff(Boxed<Sent>, Boxed<Sent>),
    /// The universal quantifier, with its variable.
    All(Ident, Boxed<Sent>),
    /// The existential quantifier, with its variable.
    Ex(Ident, Boxed<Sent>),
}

/// The parts of a conjunction or a disjunction.
pub type Parts = Several<Sent>;

/// Sentences in their order.
pub type Sents = Listed<Sent>;

/// Why there is no such sentence.
#[derive(Clone, Copy, Debug, PartialEq, Eq, Error)]
pub enum SentFault {
    /// Its depth is over 60.
    #[error("the sentence is deeper than 60")]
    TooDeep,
    /// It has over 400 nodes.
    #[error("the sentence has more than 400 nodes")]
    TooMany,
    /// Memory was refused.
    #[error("out of memory")]
    Memory,
}
