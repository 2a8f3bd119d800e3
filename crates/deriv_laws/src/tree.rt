use crate::rule::Rule;
use fol_core::{Ident, Sent, Sents};
use lists::Listed;
use thiserror::Error;

/// A derivation tree of natural deduction: a node with the derivations that it stands on.
#[derive(Debug, Drop)]
pub struct Tree {
    /// The rule by which the node follows from its parts.
    pub rule: Rule,
    /// What the node concludes.
    pub sentence: Sent,
    /// The boxed constant: there exactly at universal introduction and existential elimination.
    pub boxed: Option<Ident>,
    /// The derivations that the node stands on, in the order of the rule's premises.
    pub parts: Trees,
}

/// Derivation trees, from left to right.
pub type Trees = Listed<Tree>;

/// What a valid derivation shows.
#[derive(Debug, Drop)]
pub struct Concl {
    /// The sentence at the root.
    pub conclusion: Sent,
    /// The assumptions that are open at the root, from left to right, one for each open leaf.
    pub assumptions: Sents,
}

/// Why a tree isn't accepted.
#[derive(Clone, Copy, Debug, PartialEq, Eq, Error)]
pub enum TreeFault {
    /// The node with this number breaks its rule or its eigenconstant condition. Nodes are
    /// counted in preorder from 1, and the least such number is given.
    #[error("node {0} breaks its rule or its eigenconstant condition")]
    BadNode(u32),
    /// Memory ran out.
    #[error("out of memory")]
    Memory,
}
