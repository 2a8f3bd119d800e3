ghost use Rattle.std.specs.Prelude.{◌≡◌, ◌++◌, ◌∷◌, [], map, length, IfOk, OnOk, Some, None, false};
ghost use Rattle.std.specs.List.{list_any, list_all};
ghost use Rattle.std.specs.Str.{bytes_eq};
ghost use Rattle.fol_core.specs.Blocks.{has_places as has_places_of, fits as fitting_of, of_one, of_two, of_three};
ghost use Rattle.fol_core.specs.Closed.{is_among};
ghost use Rattle.fol_text.specs.Bound.{words};
ghost use Rattle.fol_text.specs.Occurrences.{first_false as first_false_of, fitting as fitting_marks, boundness as bound_marks, word_marks as words_of_term, predicate_places as predicate_places_of, term_places as term_places_of, joined, names_predicate as predicate_token, names_term as term_token, is_quantifier as quantifier_token};

use crate::token::{Placed, Token};
use crate::word::is_predicate;
use fol_core::{Ident, Sent, Term};
use lists::Listed;
use std::alloc::{AllocError, Global};

/// Whether something holds of each of several places in a sentence, from left to right.
pub(crate) type Marks = Listed<bool>;

/// Places in a text, from left to right.
pub(crate) type Places = Listed<u32>;

/// The place beside the first mark that is false.
pub(crate) fn first_false(marks: &[bool], places: &[u32]) -> Option<u32>
    ensures value { result ≡ first_false_of marks.now places.now }
{
    for (mark, place) in marks.iter().zip(places) {
        if !*mark {
            return Some(*place);
        }
    }
    None
}

/// The places of the predicates.
pub(crate) fn predicate_places(alloc: Global, tokens: &[Placed]) -> Result<Places, AllocError>
    ensures value { IfOk result (λ places. places ≡ predicate_places_of tokens.now) }
{
    let mut places = Listed::new(alloc);
    for placed in tokens {
        if names_predicate(&placed.token) {
            places.add(placed.place)?;
        }
    }
    Ok(places)
}

/// The places of the terms.
pub(crate) fn term_places(alloc: Global, tokens: &[Placed]) -> Result<Places, AllocError>
    ensures value { IfOk result (λ places. places ≡ term_places_of false tokens.now) }
{
    let mut places = Listed::new(alloc);
    let mut is_quantified = false;
    for placed in tokens {
        if !is_quantified && names_term(&placed.token) {
            places.add(placed.place)?;
        }
        is_quantified = is_quantifier(&placed.token);
    }
    Ok(places)
}

/// Whether the token is a predicate.
fn names_predicate(token: &Token) -> bool
    ensures value { result ≡ predicate_token token.now }
{
    match token {
        Token::Identifier(word) => is_predicate(word),
        _ => false,
    }
}

/// Whether the token is a term where it is no quantifier's variable.
fn names_term(token: &Token) -> bool
    ensures value { result ≡ term_token token.now }
{
    match token {
        Token::Identifier(word) => !is_predicate(word),
        _ => false,
    }
}

/// Whether the token is a quantifier's sign.
fn is_quantifier(token: &Token) -> bool
    ensures value { result ≡ quantifier_token token.now }
{
    matches!(token, Token::AllSign | Token::ExistsSign)
}

/// For each predicate of the sentence, whether its number of terms fits it.
pub(crate) fn fitting(alloc: Global, s: &Sent) -> Result<Marks, AllocError>
    ensures value { IfOk result (λ marks. marks ≡ fitting_marks s.now) }
{
    let mut marks = Listed::new(alloc);
    add_fitting(s, &mut marks)?;
    Ok(marks)
}

#[cycle(fitting)]
fn add_fitting(s: &Sent, marks: &mut Marks) -> Result<(), AllocError>
    ensures value { OnOk result (marks.new ≡ marks.old ++ fitting_marks s.now) }
{
    match s {
        Sent::Atom(predicate, terms) => marks.add(fits(predicate.as_slice(), terms.len())),
        Sent::Eq(_, _) | Sent::Bottom => Ok(()),
        Sent::Not(a) | Sent::All(_, a) | Sent::Ex(_, a) => add_fitting(a.get(), marks),
        Sent::And(parts) | Sent::Or(parts) => add_all_fitting(parts.as_slice(), marks),
        Sent::If(a, b) | Sent::Iff(a, b) => {
            add_fitting(a.get(), marks)?;
            add_fitting(b.get(), marks)
        }
    }
}

#[cycle(fitting)]
fn add_all_fitting(parts: &[Sent], marks: &mut Marks) -> Result<(), AllocError>
    ensures value { OnOk result (marks.new ≡ marks.old ++ joined (map fitting_marks parts.now)) }
{
    for part in parts {
        add_fitting(part, marks)?;
    }
    Ok(())
}

/// Whether each block predicate of the sentence has its number of places.
#[cycle(places)]
#[tactic(auto, using(fol_core::proofs::Forms::places_and, fol_core::proofs::Forms::places_or))]
pub(crate) fn has_places(s: &Sent) -> bool
    ensures value { result ≡ has_places_of s.now }
{
    match s {
        Sent::Atom(predicate, terms) => fits(predicate.as_slice(), terms.len()),
        Sent::Eq(_, _) | Sent::Bottom => true,
        Sent::Not(a) | Sent::All(_, a) | Sent::Ex(_, a) => has_places(a.get()),
        Sent::And(parts) | Sent::Or(parts) => have_places(parts.as_slice()),
        Sent::If(a, b) | Sent::Iff(a, b) => has_places(a.get()) && has_places(b.get()),
    }
}

#[cycle(places)]
fn have_places(parts: &[Sent]) -> bool
    ensures value { result ≡ list_all has_places_of parts.now }
{
    for part in parts {
        if !has_places(part) {
            return false;
        }
    }
    true
}

/// For each term of the sentence, whether it is a name or a bound variable.
pub(crate) fn boundness(alloc: Global, s: &Sent) -> Result<Marks, AllocError>
    ensures value { IfOk result (λ marks. marks ≡ bound_marks s.now []) }
{
    let mut marks = Listed::new(alloc);
    add_bound(s, &Bound::None, &mut marks)?;
    Ok(marks)
}

/// The variables of the quantifiers around a place, the innermost first.
#[derive(Drop)]
enum Bound<'a> {
    None,
    More(&'a Ident, &'a Bound<'a>),
}

#[cycle(bound)]
fn add_bound(s: &Sent, bound: &Bound<'_>, marks: &mut Marks) -> Result<(), AllocError>
    ensures value { OnOk result (marks.new ≡ marks.old ++ bound_marks s.now (words bound.now)) }
{
    match s {
        Sent::Atom(_, terms) => add_bound_terms(terms.as_slice(), bound, marks),
        Sent::Eq(a, b) => {
            add_words(a, bound, marks)?;
            add_words(b, bound, marks)
        }
        Sent::Bottom => Ok(()),
        Sent::Not(a) => add_bound(a.get(), bound, marks),
        Sent::And(parts) | Sent::Or(parts) => add_all_bound(parts.as_slice(), bound, marks),
        Sent::If(a, b) | Sent::Iff(a, b) => {
            add_bound(a.get(), bound, marks)?;
            add_bound(b.get(), bound, marks)
        }
        Sent::All(x, a) | Sent::Ex(x, a) => {
            add_bound(a.get(), &Bound::More(&*x, &*bound), marks)
        }
    }
}

#[cycle(bound)]
fn add_all_bound(parts: &[Sent], bound: &Bound<'_>, marks: &mut Marks) -> Result<(), AllocError>
    ensures value { OnOk result (marks.new ≡ marks.old ++ joined (map (λ s. bound_marks s (words bound.now)) parts.now)) }
{
    for part in parts {
        add_bound(part, bound, marks)?;
    }
    Ok(())
}

#[cycle(words)]
fn add_bound_terms(terms: &[Term], bound: &Bound<'_>, marks: &mut Marks) -> Result<(), AllocError>
    ensures value { OnOk result (marks.new ≡ marks.old ++ joined (map (words_of_term (words bound.now)) terms.now)) }
{
    for term in terms {
        add_words(term, bound, marks)?;
    }
    Ok(())
}

/// For each word of the term, whether it is no variable, or one that is bound.
#[cycle(words)]
fn add_words(term: &Term, bound: &Bound<'_>, marks: &mut Marks) -> Result<(), AllocError>
    ensures value { OnOk result (marks.new ≡ marks.old ++ words_of_term (words bound.now) term.now) }
{
    match term {
        Term::Var(x) => marks.add(binds(bound, x)),
        Term::Name(_) => marks.add(true),
        Term::App(_, args) => {
            marks.add(true)?;
            add_bound_terms(args.as_slice(), bound, marks)
        }
    }
}

fn binds(bound: &Bound<'_>, x: &Ident) -> bool
    ensures value { result ≡ is_among x.now (words bound.now) }
{
    match bound {
        Bound::None => false,
        Bound::More(y, rest) => y.as_slice() == x.as_slice() || binds(rest, x),
    }
}
/// Whether a predicate may have so many terms.
#[tactic(auto, unfolding(fol_core::specs::Blocks::fits))]
fn fits(predicate: &[u8], count: usize) -> bool
    ensures value { result ≡ fitting_of predicate.now count }
{
    (count == 1 || !is_of_one(predicate))
        && (count == 2 || !is_of_two(predicate))
        && (count == 3 || !is_of_three(predicate))
}

/// Whether it is a predicate of one block.
fn is_of_one(predicate: &[u8]) -> bool
    ensures value { result ≡ list_any (bytes_eq predicate.now) of_one }
{
    predicate == b"Tet".as_slice()
        || predicate == b"Cube".as_slice()
        || predicate == b"Dodec".as_slice()
        || predicate == b"Small".as_slice()
        || predicate == b"Medium".as_slice()
        || predicate == b"Large".as_slice()
}

/// Whether it is a predicate of two blocks.
fn is_of_two(predicate: &[u8]) -> bool
    ensures value { result ≡ list_any (bytes_eq predicate.now) of_two }
{
    predicate == b"SameSize".as_slice()
        || predicate == b"SameShape".as_slice()
        || predicate == b"SameRow".as_slice()
        || predicate == b"SameCol".as_slice()
        || predicate == b"Larger".as_slice()
        || predicate == b"Smaller".as_slice()
        || predicate == b"LeftOf".as_slice()
        || predicate == b"RightOf".as_slice()
        || predicate == b"FrontOf".as_slice()
        || predicate == b"BackOf".as_slice()
        || predicate == b"Adjoins".as_slice()
}

/// Whether it is the predicate of three blocks.
fn is_of_three(predicate: &[u8]) -> bool
    ensures value { result ≡ list_any (bytes_eq predicate.now) of_three }
{
    predicate == b"Between".as_slice()
}
