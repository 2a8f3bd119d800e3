ghost use Rattle.std.specs.Prelude.{◌≡◌, ◌++◌, OnOk, map, [], ◌∷◌};
ghost use Rattle.deriv_laws.specs.Discharge.{without, joined};
ghost use Rattle.deriv_laws.specs.Trees.{undischarged};
ghost use Rattle.deriv_laws.specs.Dropped.{sentences, in_parts};

use crate::discharge::{Discharge, Dropped, discharge_at, discharged_in, is_dropped};
use crate::rule::Rule;
use crate::tree::Tree;
use fol_core::{Sent, Sents, copy};
use std::alloc::{AllocError, Global};

/// Adds the open assumptions of a tree, from left to right, without the dropped ones.
#[cycle(open)]
pub(crate) fn put_open(
    alloc: Global,
    tree: &Tree,
    dropped: &Dropped<'_>,
    assumptions: &mut Sents,
) -> Result<(), AllocError>
    ensures added { OnOk result (assumptions.new ≡ assumptions.old ++ without (sentences dropped.now) (undischarged tree.now)) }
{
    if tree.rule == Rule::Assume {
        put_kept(alloc, &tree.sentence, dropped, assumptions)?;
    }
    let discharge = discharge_at(tree);
    put_open_of_all(
        alloc,
        tree.parts.as_slice(),
        &discharge,
        dropped,
        assumptions,
    )
}

/// Adds what the parts of a node leave open, without what the node discharges and the dropped ones.
#[cycle(open)]
fn put_open_of_all(
    alloc: Global,
    parts: &[Tree],
    discharge: &Discharge<'_>,
    dropped: &Dropped<'_>,
    assumptions: &mut Sents,
) -> Result<(), AllocError>
    ensures added { OnOk result (assumptions.new ≡ assumptions.old ++ without (sentences dropped.now) (joined (map undischarged parts.now) (in_parts discharge.now))) }
{
    for i in 0..parts.len() {
        match discharged_in(discharge, i) {
            None => put_open(alloc, &parts[i], dropped, assumptions)?,
            Some(s) => put_open(alloc, &parts[i], &Dropped::More(s, &*dropped), assumptions)?,
        }
    }
    Ok(())
}

/// Adds the assumption, unless it is a dropped one.
fn put_kept(
    alloc: Global,
    s: &Sent,
    dropped: &Dropped<'_>,
    assumptions: &mut Sents,
) -> Result<(), AllocError>
    ensures added { OnOk result (assumptions.new ≡ assumptions.old ++ without (sentences dropped.now) (s.now ∷ [])) }
{
    if is_dropped(dropped, s) {
        return Ok(());
    }
    assumptions.add(copy(alloc, s)?)
}
