use crate::notation::{ident_of, sentence_of, term_of};
use crate::replies::{NoAnswer, listed, printed, printed_term, refused, said, shown};
use cases::bytes_of;
use deriv_laws::{conjunction_rules, connective_rules, quantifier_rules};
use fol_core::{
    Ident, Parts, Sent, Term, contains, copy, copy_term, instance_term, is_closed_term,
    is_instance, is_instance_by, is_some_instance, occurs, replaces, same, same_ident, same_term,
    subst, within,
};
use fol_text::{refused_once, spelled_once};
use std::alloc::Global;
use taut_con::tautology_laws;

/// The identifier that the text spells, copied, or that there is none.
pub fn ident(alloc: Global, text: &str) -> Result<String, NoAnswer> {
    let bytes = bytes_of(alloc, text)?;
    match Ident::make(alloc, bytes.as_slice())? {
        Some(made) => copied(alloc, &made),
        None => said(alloc, "none"),
    }
}

fn copied(alloc: Global, made: &Ident) -> Result<String, NoAnswer> {
    let again = made.copied(alloc)?;
    if !same_ident(made, &again) {
        return said(alloc, "another one");
    }
    Ok(String::from_utf8_lossy(alloc, again.as_slice())?)
}

pub fn are_same_idents(alloc: Global, one: &str, other: &str) -> Result<String, NoAnswer> {
    let one = ident_of(alloc, one)?;
    let other = ident_of(alloc, other)?;
    shown(alloc, &same_ident(&one, &other))
}

/// The copy of the sentence, which is to be the same.
pub fn once_more(alloc: Global, sentence: &Sent) -> Result<String, NoAnswer> {
    let again = copy(alloc, sentence)?;
    if !same(&again, sentence) {
        return said(alloc, "another one");
    }
    printed(alloc, &again)
}

pub fn size(alloc: Global, sentence: &Sent) -> Result<String, NoAnswer> {
    match within(sentence) {
        Ok(()) => said(alloc, "within the limits"),
        Err(fault) => refused(alloc, fault),
    }
}

pub fn is_among(alloc: Global, sentence: &Sent, sentences: &[Sent]) -> Result<String, NoAnswer> {
    shown(alloc, &contains(sentences, sentence))
}

/// The parts of a conjunction or a disjunction of the two.
pub fn parts(alloc: Global, first: &str, second: &str) -> Result<String, NoAnswer> {
    let first = sentence_of(alloc, first)?;
    let second = sentence_of(alloc, second)?;
    let parts = Parts::pair(alloc, first, second)?;
    listed(alloc, parts.as_slice())
}

pub fn stands_in(alloc: Global, sentence: &str, name: &str) -> Result<String, NoAnswer> {
    let sentence = sentence_of(alloc, sentence)?;
    let name = ident_of(alloc, name)?;
    shown(alloc, &occurs(&sentence, &name))
}

/// The sentence with the term put in the place of the variable.
pub fn put_in(
    alloc: Global,
    sentence: &str,
    variable: &str,
    term: &str,
) -> Result<String, NoAnswer> {
    let sentence = sentence_of(alloc, sentence)?;
    let variable = ident_of(alloc, variable)?;
    let term = term_of(alloc, term)?;
    put(alloc, &sentence, &variable, &term)
}

fn put(alloc: Global, sentence: &Sent, variable: &Ident, term: &Term) -> Result<String, NoAnswer> {
    if !is_closed_term(term) {
        return Err(NoAnswer::NoSuchCall);
    }
    match subst(alloc, sentence, variable, term) {
        Ok(whole) => printed(alloc, &whole),
        Err(fault) => refused(alloc, fault),
    }
}

/// Whether the second sentence comes from the first by putting the second term for the first.
pub fn is_replacement(
    alloc: Global,
    sentences: (&str, &str),
    terms: (&str, &str),
) -> Result<String, NoAnswer> {
    let from = sentence_of(alloc, sentences.0)?;
    let to = sentence_of(alloc, sentences.1)?;
    let term = term_of(alloc, terms.0)?;
    let other = term_of(alloc, terms.1)?;
    shown(alloc, &replaces(&from, &to, &term, &other))
}

/// Whether the last sentence is the instance of the first by the name.
pub fn is_by_name(
    alloc: Global,
    sentences: (&str, &str),
    variable: &str,
    name: &str,
) -> Result<String, NoAnswer> {
    let shape = sentence_of(alloc, sentences.0)?;
    let sentence = sentence_of(alloc, sentences.1)?;
    let variable = ident_of(alloc, variable)?;
    let name = ident_of(alloc, name)?;
    shown(alloc, &is_instance(&shape, &variable, &name, &sentence))
}

/// Whether the last sentence is the instance of the first by the term.
pub fn is_by_term(
    alloc: Global,
    sentences: (&str, &str),
    variable: &str,
    term: &str,
) -> Result<String, NoAnswer> {
    let shape = sentence_of(alloc, sentences.0)?;
    let sentence = sentence_of(alloc, sentences.1)?;
    let variable = ident_of(alloc, variable)?;
    let term = term_of(alloc, term)?;
    shown(alloc, &is_instance_by(&shape, &variable, &term, &sentence))
}

/// Whether the last sentence is an instance of the first by some closed term.
pub fn is_by_some_term(
    alloc: Global,
    shape: &str,
    variable: &str,
    sentence: &str,
) -> Result<String, NoAnswer> {
    let shape = sentence_of(alloc, shape)?;
    let variable = ident_of(alloc, variable)?;
    let sentence = sentence_of(alloc, sentence)?;
    shown(alloc, &is_some_instance(&shape, &variable, &sentence))
}

/// The term by which the last sentence may be an instance of the first.
pub fn term_by_which(
    alloc: Global,
    shape: &str,
    variable: &str,
    sentence: &str,
) -> Result<String, NoAnswer> {
    let shape = sentence_of(alloc, shape)?;
    let variable = ident_of(alloc, variable)?;
    let sentence = sentence_of(alloc, sentence)?;
    match instance_term(&shape, &variable, &sentence) {
        Some(term) => printed_term(alloc, term),
        None => said(alloc, "none"),
    }
}

/// Whether the two are one term.
pub fn are_same_terms(alloc: Global, one: &str, other: &str) -> Result<String, NoAnswer> {
    let one = term_of(alloc, one)?;
    let other = term_of(alloc, other)?;
    shown(alloc, &same_term(&one, &other))
}

/// The copy of the term, which is to be the same.
pub fn term_once_more(alloc: Global, term: &str) -> Result<String, NoAnswer> {
    let term = term_of(alloc, term)?;
    let again = copy_term(alloc, &term)?;
    if !same_term(&again, &term) {
        return said(alloc, "another one");
    }
    printed_term(alloc, &again)
}

pub fn is_term_closed(alloc: Global, term: &str) -> Result<String, NoAnswer> {
    let term = term_of(alloc, term)?;
    shown(alloc, &is_closed_term(&term))
}

/// Calls the laws, which do nothing.
pub fn laws(alloc: Global) -> Result<String, NoAnswer> {
    spelled_once();
    refused_once();
    conjunction_rules();
    connective_rules();
    quantifier_rules();
    tautology_laws();
    said(alloc, "called")
}
