ghost use Rattle.std.specs.Prelude.{◌≡◌, ◌↔◌, ◌-◌, ◌<◌, IsTrue, None, MatchOption};
ghost use Rattle.std.specs.Option.{option_copied};
ghost use Rattle.nested_proofs.specs.Rules.{OneToEight};
ghost use Rattle.rules_quant.specs.Naming as naming;
ghost use Rattle.rules_quant.specs.Rows as rows;

use crate::names::{Names, is_put};
use fol_core::{Ident, Sent, Term, instance_term, is_closed_term, same_ident};

/// The most instances that one step takes in a row.
pub const MOST_INSTANCES: usize = 8;

/// The two quantifiers.
#[derive(Clone, Copy, Debug, PartialEq, Eq)]
pub enum Quantifier {
    Every,
    Exists,
}

/// Whether one to eight instances in a row lead from `q` to `t`, each by some closed term. It takes no memory.
pub fn leads(quantifier: Quantifier, q: &Sent, t: &Sent) -> bool
    ensures exact { IsTrue result ↔ OneToEight (rows.Instance quantifier) q.now t.now }
{
    for count in 0..MOST_INSTANCES {
        if leads_by(quantifier, q, &Names::None, count + 1, t) {
            return true;
        }
    }
    false
}

/// Whether so many of the quantifiers before `q` have ground terms for which `t` is what stands behind them, with these
/// and those known before put in. Terms are read off `t` one after the other; where none is to be read, any will do.
fn leads_by(quantifier: Quantifier, q: &Sent, names: &Names<'_>, count: usize, t: &Sent) -> bool
    requires known_ground { naming.HaveGround (naming.entries names.now) }
    ensures exact { IsTrue result ↔ rows.Rows quantifier count q.now (naming.entries names.now) t.now }
{
    if count == 0 {
        return is_put(q, names, t);
    }
    let Some((x, matrix)) = split(quantifier, q) else {
        return false;
    };
    match read_past(quantifier, x, matrix, count - 1, t) {
        Some(term) => {
            if !is_closed_term(term) {
                return false;
            }
            leads_by(
                quantifier,
                matrix,
                &Names::Known(x, term, &*names),
                count - 1,
                t,
            )
        }
        None => {
            // Any term will do. The name that is spelled as the variable is at hand, and it is an identifier.
            let _spelled = x.as_slice();
            leads_by(
                quantifier,
                matrix,
                &Names::Named(x, x, &*names),
                count - 1,
                t,
            )
        }
    }
}

/// The term that `t` has at the first place where `x` is free in `q` past so many quantifiers.
fn read_past<'a>(
    quantifier: Quantifier,
    x: &Ident,
    q: &Sent,
    count: usize,
    t: &'a Sent,
) -> Option<&'a Term>
    ensures value { option_copied result ≡ rows.read_past quantifier x.now t.now count q.now }
{
    if count == 0 {
        return instance_term(q, x, t);
    }
    match split(quantifier, q) {
        Some((y, matrix)) => {
            if same_ident(y, x) {
                None
            } else {
                read_past(quantifier, x, matrix, count - 1, t)
            }
        }
        None => None,
    }
}

/// The variable and the matrix of a sentence with this quantifier.
fn split(quantifier: Quantifier, q: &Sent) -> Option<(&Ident, &Sent)>
    ensures value { MatchOption result (rows.split quantifier q.now ≡ None) (λ pair. rows.split quantifier q.now ≡ rows.both pair.0.now pair.1.now) }
{
    match (quantifier, q) {
        (Quantifier::Every, Sent::All(x, matrix)) => Some((x, matrix.get())),
        (Quantifier::Exists, Sent::Ex(x, matrix)) => Some((x, matrix.get())),
        _ => None,
    }
}
