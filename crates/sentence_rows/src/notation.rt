use crate::replies::NoAnswer;
use cases::bytes_of;
use fol_core::{Ident, Sent, Sents, Term};
use fol_text::read_sentence;
use lists::Listed;
use sqlite_items::Boxed;
use std::alloc::{AllocError, Global};

/// No text of a case has more bytes.
const LONGEST: usize = 1_000_000;

/// The sentence that the text is read as. In front of it and a colon there may be words: a variable is free in it
/// (`x: P(x)`), `60~` puts 60 negations around it, and `9+` puts the name `a` nine more times behind the terms of an
/// atomic sentence.
pub fn sentence_of(alloc: Global, text: &str) -> Result<Sent, NoAnswer> {
    match text.split_once(": ") {
        Some((words, body)) => changed(alloc, words, open(alloc, words, body)?),
        None => read(alloc, text),
    }
}

/// The sentences that the texts are read as.
pub fn sentences_of(alloc: Global, texts: &[String]) -> Result<Sents, NoAnswer> {
    let mut sentences: Sents = Listed::new(alloc);
    for text in texts {
        let sentence = sentence_of(alloc, text)?;
        sentences.add(sentence)?;
    }
    Ok(sentences)
}

pub fn ident_of(alloc: Global, text: &str) -> Result<Ident, NoAnswer> {
    match Ident::make(alloc, text.as_bytes())? {
        Some(ident) => Ok(ident),
        None => Err(NoAnswer::NoSuchCall),
    }
}

/// The term that the text is read as, in an atomic sentence of it alone. Variables may be free in it as in a sentence:
/// `x: f(x)`.
pub fn term_of(alloc: Global, text: &str) -> Result<Term, NoAnswer> {
    let atom = match text.split_once(": ") {
        Some((words, body)) => format!(in alloc; "{words}: P({body})")?,
        None => format!(in alloc; "P({text})")?,
    };
    match sentence_of(alloc, atom.as_str())? {
        Sent::Atom(_, terms) => last_of(terms.into_vec()),
        _ => Err(NoAnswer::NoSuchCall),
    }
}

fn last_of(terms: Vec<Term>) -> Result<Term, NoAnswer> {
    let mut terms = terms;
    terms.pop().ok_or(NoAnswer::NoSuchCall)
}

/// The sentence that the text is read as, by the reader alone.
pub fn read(alloc: Global, text: &str) -> Result<Sent, NoAnswer> {
    let bytes = bytes_of(alloc, text)?;
    if bytes.len() > LONGEST {
        return Err(NoAnswer::NoSuchCall);
    }
    Ok(read_sentence(alloc, bytes.as_slice())?)
}

/// The sentence in which each variable among the words is free: it is read below quantifiers, which are then taken off.
fn open(alloc: Global, words: &str, body: &str) -> Result<Sent, NoAnswer> {
    let text = quantified(alloc, words, body)?;
    let mut sentence = read(alloc, text.as_str())?;
    for word in words.split_whitespace() {
        if is_variable(word) {
            sentence = matrix(sentence)?;
        }
    }
    Ok(sentence)
}

fn is_variable(word: &str) -> bool {
    !word.ends_with('~') && !word.ends_with('+')
}

fn quantified(alloc: Global, words: &str, body: &str) -> Result<String, AllocError> {
    let mut text = String::new(alloc);
    for word in words.split_whitespace() {
        if is_variable(word) {
            text.push_str("@")?;
            text.push_str(word)?;
            text.push_str(" ")?;
        }
    }
    text.push_str("(")?;
    text.push_str(body)?;
    text.push_str(")")?;
    Ok(text)
}

fn matrix(sentence: Sent) -> Result<Sent, NoAnswer> {
    match sentence {
        Sent::All(_, inner) => Ok(inner.into_inner()),
        _ => Err(NoAnswer::NoSuchCall),
    }
}

/// The sentence with the changes that the words say.
fn changed(alloc: Global, words: &str, sentence: Sent) -> Result<Sent, NoAnswer> {
    let mut whole = sentence;
    for word in words.split_whitespace() {
        whole = changed_once(alloc, word, whole)?;
    }
    Ok(whole)
}

fn changed_once(alloc: Global, word: &str, sentence: Sent) -> Result<Sent, NoAnswer> {
    if let Some(times) = word.strip_suffix("~") {
        return Ok(denied(alloc, times_of(times), sentence)?);
    }
    match word.strip_suffix("+") {
        Some(times) => longer(alloc, times_of(times), sentence),
        None => Ok(sentence),
    }
}

fn times_of(digits: &str) -> usize {
    digits.parse().unwrap_or(0)
}

/// So many negations of the sentence.
fn denied(alloc: Global, times: usize, inner: Sent) -> Result<Sent, AllocError> {
    let mut whole = inner;
    for _ in 0..times {
        whole = Sent::Not(Boxed::new(alloc, whole)?);
    }
    Ok(whole)
}

/// The atomic sentence with the name `a` so many times behind its terms.
fn longer(alloc: Global, times: usize, atom: Sent) -> Result<Sent, NoAnswer> {
    let Sent::Atom(predicate, mut terms) = atom else {
        return Err(NoAnswer::NoSuchCall);
    };
    for _ in 0..times {
        terms.add(Term::Name(ident_of(alloc, "a")?))?;
    }
    Ok(Sent::Atom(predicate, terms))
}
