ghost use Rattle.std.specs.Prelude.{◌≡◌, ℕ, ◌+◌, ◌<◌, List, [], ◌∷◌, ◌++◌, IfOk, IfErr, OnOk, IsTrue, ◌↔◌, map, length, Contains};
ghost use Rattle.std.specs.List.{flat_map, AllByRecursion};
ghost use Rattle.fol_core.specs.declared.sent.Sent.{Sent};
ghost use Rattle.fol_core.specs.declared.sent.Sent.TheVariants.{And};
ghost use Rattle.deriv_laws.specs.Rows.{Row};
ghost use Rattle.deriv_laws.specs.Trees.{concl, node_at, nodes, undischarged};
ghost use Rattle.deriv_laws.specs.Derivable.{Der};
ghost use Rattle.deriv_laws.specs.Valid.{Meets, IsValid};
ghost use Rattle.deriv_laws.specs.Scan.{IsFirstBad, IsScan};
ghost use Rattle.deriv_laws.specs.declared.tree.TreeFault.TheVariants as fault;

use crate::discharge::Dropped;
use crate::eigen::keeps_eigenconstant;
use crate::leaves::put_open;
use crate::rows::follows;
use crate::tree::{Concl, Tree, TreeFault};
use fol_core::{Sents, copy, is_closed};
use lists::Listed;
use std::alloc::{AllocError, Global};

/// Checks a derivation: what it concludes, and from which open assumptions, or its least node in
/// preorder that isn't in order. A tree that isn't valid is refused before any memory is asked for.
pub fn check_tree(alloc: Global, tree: &Tree) -> Result<Concl, TreeFault>
    requires { length (nodes tree.now) < 4294967296 }
    ensures valid { IfOk result (λ c. IsValid tree.now) }
    ensures concludes { IfOk result (λ c. c.conclusion ≡ concl tree.now) }
    ensures assumes { IfOk result (λ c. c.assumptions ≡ undischarged tree.now) }
    ensures derives { IfOk result (λ c. Der c.assumptions c.conclusion) }
    ensures bad { (k : ℕ) → result ≡ Err (fault.BadNode k) → (j : ℕ) × (k ≡ j + 1) × IsFirstBad (nodes tree.now) j }
    ensures refused { (j : ℕ) → IsFirstBad (nodes tree.now) j → result ≡ Err (fault.BadNode (j + 1)) }
{
    match scan(tree) {
        Ok(_) => answer(alloc, tree),
        Err(place) => Err(TreeFault::BadNode(place + 1)),
    }
}

/// How many nodes there are, or the place of the least one in preorder, from 0, that isn't in order.
#[cycle(scan)]
fn scan(tree: &Tree) -> Result<u32, u32>
    ensures scanned { length (nodes tree.now) < 4294967296 → IsScan (nodes tree.now) result }
{
    if !meets(tree) {
        return Err(0);
    }
    match scan_all(tree.parts.as_slice()) {
        Ok(count) => Ok(count.saturating_add(1)),
        Err(place) => Err(place.saturating_add(1)),
    }
}

#[cycle(scan)]
fn scan_all(parts: &[Tree]) -> Result<u32, u32>
    ensures scanned { length (flat_map nodes parts.now) < 4294967296 → IsScan (flat_map nodes parts.now) result }
{
    let mut before: u32 = 0;
    for part in parts {
        match scan(part) {
            Ok(count) => before = before.saturating_add(count),
            Err(place) => return Err(before.saturating_add(place)),
        }
    }
    Ok(before)
}

/// Whether the root is in order.
fn meets(tree: &Tree) -> bool
    ensures value { IsTrue result ↔ Meets (node_at tree.now) }
{
    is_closed(&tree.sentence)
        && follows(
            tree.rule,
            &tree.boxed,
            tree.parts.as_slice(),
            &tree.sentence,
        )
        && keeps_eigenconstant(
            tree.rule,
            &tree.boxed,
            tree.parts.as_slice(),
            &tree.sentence,
        )
}

/// The answer on a valid tree.
fn answer(alloc: Global, tree: &Tree) -> Result<Concl, TreeFault>
    ensures conclusion { IfOk result (λ c. c.conclusion ≡ concl tree.now) }
    ensures assumptions { IfOk result (λ c. c.assumptions ≡ undischarged tree.now) }
    ensures cause { IfErr result (λ e. e ≡ fault.Memory) }
{
    read_off(alloc, tree).map_err(|_| TreeFault::Memory)
}

/// The conclusion and the open assumptions of a tree.
fn read_off(alloc: Global, tree: &Tree) -> Result<Concl, AllocError>
    ensures conclusion { IfOk result (λ c. c.conclusion ≡ concl tree.now) }
    ensures assumptions { IfOk result (λ c. c.assumptions ≡ undischarged tree.now) }
{
    let conclusion = copy(alloc, &tree.sentence)?;
    let mut assumptions: Sents = Listed::new(alloc);
    put_open(alloc, tree, &Dropped::Nothing, &mut assumptions)?;
    Ok(Concl {
        conclusion,
        assumptions,
    })
}
