ghost use Rattle.std.specs.Prelude.{◌≡◌, IsTrue, ◌↔◌, map, [], ◌∷◌};
ghost use Rattle.std.specs.List.{list_any};
ghost use Rattle.deriv_laws.specs.Discharge.{discharged, alike, under_not, before_if, sides_of_iff, instance_of_ex};
ghost use Rattle.deriv_laws.specs.Trees.{concl, node_at};
ghost use Rattle.deriv_laws.specs.Dropped.{removed, removed_of, sentences, in_parts, list_at, cases_of, instances_of};

use crate::rule::Rule;
use crate::tree::Tree;
use fol_core::{Ident, Sent, is_instance, same};

/// A discharged sentence: one that stands in the tree, or an instance that is never built.
#[derive(Clone, Copy, Drop)]
pub(crate) enum Removed<'a> {
    Whole(&'a Sent),
    /// The instance by a constant, for a variable of a sentence.
    Instance(&'a Ident, &'a Ident, &'a Sent),
}

/// What a node discharges.
#[derive(Drop)]
pub(crate) enum Discharge<'a> {
    /// Nothing.
    Nowhere,
    /// The same in each of so many parts.
    Throughout(Option<Removed<'a>>, usize),
    /// A sentence in the first part, and one in the second.
    Both(&'a Sent, &'a Sent),
    /// Nothing in the first part, and in each later one the sentence in its place.
    Cases(&'a [Sent]),
    /// Nothing but in the second part.
    Second(Option<Removed<'a>>),
}

/// The sentences that are discharged at the nodes around a place, those of the innermost first.
#[derive(Drop)]
pub(crate) enum Dropped<'a> {
    Nothing,
    More(Removed<'a>, &'a Dropped<'a>),
}

/// Whether the sentence is one of the dropped ones.
pub(crate) fn is_dropped(dropped: &Dropped<'_>, s: &Sent) -> bool
    ensures value { result ≡ list_any (λ d. alike d s.now) (sentences dropped.now) }
{
    match dropped {
        Dropped::Nothing => false,
        Dropped::More(d, rest) => is_removed(d, s) || is_dropped(rest, s),
    }
}

/// Whether the sentence is the removed one.
fn is_removed(d: &Removed<'_>, s: &Sent) -> bool
    ensures value { IsTrue result ↔ (removed d.now ≡ s.now) }
{
    match d {
        Removed::Whole(whole) => same(whole, s),
        Removed::Instance(c, x, p) => is_instance(p, x, c, s),
    }
}

/// What the node discharges. It is fixed by the rule, the box and the sentences, also where the node isn't in order.
pub(crate) fn discharge_at(tree: &Tree) -> Discharge<'_>
    ensures value { in_parts result ≡ discharged (node_at tree.now).rule (node_at tree.now).boxed (node_at tree.now).concls (node_at tree.now).sentence }
{
    match tree.rule {
        Rule::NotIntro => Discharge::Throughout(denied(&tree.sentence), tree.parts.len()),
        Rule::IfIntro => Discharge::Throughout(antecedent(&tree.sentence), tree.parts.len()),
        Rule::IffIntro => each_side(&tree.sentence),
        Rule::OrElim => each_case(tree.parts.as_slice()),
        Rule::ExElim => instance_in_second(&tree.boxed, tree.parts.as_slice()),
        _ => Discharge::Nowhere,
    }
}

/// What a negation denies.
fn denied(s: &Sent) -> Option<Removed<'_>>
    ensures value { removed_of result ≡ under_not s.now }
{
    match s {
        Sent::Not(p) => Some(Removed::Whole(p.get())),
        _ => None,
    }
}

/// The antecedent of a conditional.
fn antecedent(s: &Sent) -> Option<Removed<'_>>
    ensures value { removed_of result ≡ before_if s.now }
{
    match s {
        Sent::If(p, _) => Some(Removed::Whole(p.get())),
        _ => None,
    }
}

/// Of a biconditional, its left side in the first part and its right side in the second.
fn each_side(s: &Sent) -> Discharge<'_>
    ensures value { in_parts result ≡ map (λ p. p ∷ []) (sides_of_iff s.now) }
{
    match s {
        Sent::Iff(p, q) => Discharge::Both(p.get(), q.get()),
        _ => Discharge::Nowhere,
    }
}

/// Where the first tree concludes a disjunction, its parts in the later trees.
fn each_case(parts: &[Tree]) -> Discharge<'_>
    ensures value { in_parts result ≡ cases_of (map concl parts.now) }
{
    match parts {
        [] => Discharge::Nowhere,
        [first, ..] => match &first.sentence {
            Sent::Or(cases) => Discharge::Cases(cases.as_slice()),
            _ => Discharge::Cases(&[]),
        },
    }
}

/// Where the first tree concludes an existential sentence, its instance by the boxed constant in the second tree.
fn instance_in_second<'a>(boxed: &'a Option<Ident>, parts: &'a [Tree]) -> Discharge<'a>
    ensures value { in_parts result ≡ instances_of boxed.now (map concl parts.now) }
{
    match (boxed, parts) {
        (Some(constant), [first, ..]) => {
            Discharge::Second(instance_by(constant, &first.sentence))
        }
        _ => Discharge::Nowhere,
    }
}

/// The instance of an existential sentence by the constant.
pub(crate) fn instance_by<'a>(constant: &'a Ident, s: &'a Sent) -> Option<Removed<'a>>
    ensures value { removed_of result ≡ instance_of_ex constant.now s.now }
{
    match s {
        Sent::Ex(x, p) => Some(Removed::Instance(constant, x, p.get())),
        _ => None,
    }
}

/// What is discharged in the part at this place, counted from 0.
pub(crate) fn discharged_in<'a>(discharge: &Discharge<'a>, i: usize) -> Option<Removed<'a>>
    ensures value { removed_of result ≡ list_at (in_parts discharge.now) i }
{
    match discharge {
        Discharge::Nowhere => None,
        Discharge::Throughout(s, count) => if i < *count { *s } else { None },
        Discharge::Both(p, q) => match i {
            0 => Some(Removed::Whole(*p)),
            1 => Some(Removed::Whole(*q)),
            _ => None,
        },
        Discharge::Cases(ps) => case_in(*ps, i),
        Discharge::Second(s) => if i == 1 { *s } else { None },
    }
}

/// The case of the part at this place.
fn case_in<'a>(cases: &'a [Sent], i: usize) -> Option<Removed<'a>>
    ensures value { removed_of result ≡ list_at ([] ∷ map (λ p. p ∷ []) cases.now) i }
{
    if i == 0 {
        return None;
    }
    match cases.get(i - 1) {
        Some(case) => Some(Removed::Whole(case)),
        None => None,
    }
}
