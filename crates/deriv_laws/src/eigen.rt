ghost use Rattle.std.specs.Prelude.{◌≡◌, ◌↔◌, IsTrue, Some, not, map, [], ◌∷◌};
ghost use Rattle.deriv_laws.specs.Discharge.{without, joined, instance_of_ex};
ghost use Rattle.deriv_laws.specs.Trees.{concl, undischarged};
ghost use Rattle.deriv_laws.specs.Eigen.{AreWithout, IsEigen};
ghost use Rattle.deriv_laws.specs.Dropped.{sentences, in_parts, avoids};

use crate::discharge::{Discharge, Dropped, discharge_at, discharged_in, instance_by, is_dropped};
use crate::rule::Rule;
use crate::tree::Tree;
use fol_core::{Ident, Sent, occurs};

/// Whether the boxed constant meets the eigenconstant condition, where the rule has one. It takes no memory.
pub(crate) fn keeps_eigenconstant(
    rule: Rule,
    boxed: &Option<Ident>,
    parts: &[Tree],
    s: &Sent,
) -> bool
    ensures value { IsTrue result ↔ IsEigen rule boxed.now (map concl parts.now) (map undischarged parts.now) s.now }
{
    match boxed {
        Some(constant) => keeps_constant(rule, constant, parts, s),
        None => true,
    }
}

/// Whether the constant meets the condition of the rule.
fn keeps_constant(rule: Rule, constant: &Ident, parts: &[Tree], s: &Sent) -> bool
    ensures value { IsTrue result ↔ IsEigen rule (Some constant.now) (map concl parts.now) (map undischarged parts.now) s.now }
{
    match (rule, parts) {
        (Rule::AllIntro, [only]) => is_arbitrary(constant, only) && !occurs(s, constant),
        (Rule::ExElim, [first, second]) => {
            is_arbitrary_but_instance(constant, &first.sentence, second)
                && !occurs(s, constant)
                && !occurs(&first.sentence, constant)
        }
        _ => true,
    }
}

/// Whether the constant occurs in no open assumption of the part.
fn is_arbitrary(constant: &Ident, part: &Tree) -> bool
    ensures value { IsTrue result ↔ AreWithout constant.now (undischarged part.now) }
{
    is_avoided(part, &Dropped::Nothing, constant)
}

/// Whether the constant occurs in no open assumption of the part other than the instance of the sentence by it.
fn is_arbitrary_but_instance(constant: &Ident, s: &Sent, part: &Tree) -> bool
    ensures value { IsTrue result ↔ AreWithout constant.now (without (instance_of_ex constant.now s.now) (undischarged part.now)) }
{
    match instance_by(constant, s) {
        None => is_avoided(part, &Dropped::Nothing, constant),
        Some(removed) => is_avoided(part, &Dropped::More(removed, &Dropped::Nothing), constant),
    }
}

/// Whether the constant occurs in no open assumption of the tree other than the dropped ones.
#[cycle(eigen)]
fn is_avoided(tree: &Tree, dropped: &Dropped<'_>, constant: &Ident) -> bool
    ensures value { result ≡ avoids constant.now (without (sentences dropped.now) (undischarged tree.now)) }
{
    if tree.rule == Rule::Assume && stands_in(&tree.sentence, dropped, constant) {
        return false;
    }
    let discharge = discharge_at(tree);
    is_avoided_in_all(tree.parts.as_slice(), &discharge, dropped, constant)
}

#[cycle(eigen)]
fn is_avoided_in_all(
    parts: &[Tree],
    discharge: &Discharge<'_>,
    dropped: &Dropped<'_>,
    constant: &Ident,
) -> bool
    ensures value { result ≡ avoids constant.now (without (sentences dropped.now) (joined (map undischarged parts.now) (in_parts discharge.now))) }
{
    for i in 0..parts.len() {
        let avoided = match discharged_in(discharge, i) {
            None => is_avoided(&parts[i], dropped, constant),
            Some(s) => is_avoided(&parts[i], &Dropped::More(s, &*dropped), constant),
        };
        if !avoided {
            return false;
        }
    }
    true
}

/// Whether the constant occurs in the assumption, and this isn't a dropped one.
fn stands_in(s: &Sent, dropped: &Dropped<'_>, constant: &Ident) -> bool
    ensures value { result ≡ not (avoids constant.now (without (sentences dropped.now) (s.now ∷ []))) }
{
    occurs(s, constant) && !is_dropped(dropped, s)
}
