use crate::calls::{
    are_same_idents, are_same_terms, ident, is_among, is_by_name, is_by_some_term, is_by_term,
    is_replacement, is_term_closed, laws, once_more, parts, put_in, size, stands_in, term_by_which,
    term_once_more,
};
use crate::notation::{read, sentences_of};
use crate::replies::{NoAnswer, printed, said, shown};
use crate::taut::{follows, is_true_in_row, letters, value};
use crate::trees::checked;
use cases::{call_of, stands_for_itself, texts_of};
use fol_core::{Sents, is_closed, same};
use std::alloc::{AllocError, Global};

/// The reply to a line.
pub fn reply(alloc: Global, line: &str) -> Result<String, AllocError> {
    if stands_for_itself(line) {
        return line.to_string(alloc);
    }
    let texts = texts_of(alloc, line)?;
    match answer(alloc, call_of(line), texts.as_slice()) {
        Ok(answer) => Ok(answer),
        Err(NoAnswer::Fault(fault)) => format!(in alloc; "{fault:?}"),
        Err(NoAnswer::NoSuchCall) => "no such call".to_string(alloc),
        Err(NoAnswer::Memory) => Err(AllocError),
    }
}

/// What the call answers on the texts.
fn answer(alloc: Global, call: &str, texts: &[String]) -> Result<String, NoAnswer> {
    match (call, texts) {
        ("ident", [text]) => ident(alloc, text),
        ("same_ident", [one, other]) => are_same_idents(alloc, one, other),
        ("read_sentence", [text]) => is_read(alloc, text),
        ("check_tree", _) => checked(alloc, texts),
        ("taut_con", _) => follows(alloc, texts),
        ("truth_value", [sentences @ .., signs]) => value(alloc, sentences, signs),
        ("letter_in_row", [letters, row, letter]) => is_true_in_row(alloc, letters, row, letter),
        ("laws", []) => laws(alloc),
        _ => on_names(alloc, call, texts),
    }
}

/// What the call answers on sentences with names and terms.
fn on_names(alloc: Global, call: &str, texts: &[String]) -> Result<String, NoAnswer> {
    match (call, texts) {
        ("pair", [first, second]) => parts(alloc, first, second),
        ("subst", [sentence, variable, term]) => put_in(alloc, sentence, variable, term),
        ("occurs", [sentence, name]) => stands_in(alloc, sentence, name),
        ("replaces", [from, to, term, other]) => {
            is_replacement(alloc, (from, to), (term, other))
        }
        ("is_instance", [shape, variable, name, sentence]) => {
            is_by_name(alloc, (shape, sentence), variable, name)
        }
        ("is_instance_by", [shape, variable, term, sentence]) => {
            is_by_term(alloc, (shape, sentence), variable, term)
        }
        ("is_some_instance", [shape, variable, sentence]) => {
            is_by_some_term(alloc, shape, variable, sentence)
        }
        ("instance_term", [shape, variable, sentence]) => {
            term_by_which(alloc, shape, variable, sentence)
        }
        _ => on_terms(alloc, call, texts),
    }
}

/// What the call answers on terms.
fn on_terms(alloc: Global, call: &str, texts: &[String]) -> Result<String, NoAnswer> {
    match (call, texts) {
        ("same_term", [one, other]) => are_same_terms(alloc, one, other),
        ("copy_term", [term]) => term_once_more(alloc, term),
        ("is_closed_term", [term]) => is_term_closed(alloc, term),
        _ => on_sentences(alloc, call, &sentences_of(alloc, texts)?),
    }
}

/// What the call answers on sentences.
fn on_sentences(alloc: Global, call: &str, sentences: &Sents) -> Result<String, NoAnswer> {
    match (call, sentences.as_slice()) {
        ("print_sentence", [sentence]) => printed(alloc, sentence),
        ("copy", [sentence]) => once_more(alloc, sentence),
        ("is_closed", [sentence]) => shown(alloc, &is_closed(sentence)),
        ("within", [sentence]) => size(alloc, sentence),
        ("same", [one, other]) => shown(alloc, &same(one, other)),
        ("contains", [sentence, others @ ..]) => is_among(alloc, sentence, others),
        ("letters_of", _) => letters(alloc, sentences),
        _ => Err(NoAnswer::NoSuchCall),
    }
}

fn is_read(alloc: Global, text: &str) -> Result<String, NoAnswer> {
    read(alloc, text)?;
    said(alloc, "a sentence")
}
