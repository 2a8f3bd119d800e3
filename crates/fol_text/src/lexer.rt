ghost use Rattle.std.specs.Prelude.{◌≡◌, ◌≢◌, ◌≤◌, ◌⊎◌, ◌++◌, ℕ, List, [], None, Some, length, MatchOption, IfOk, IfErr};
ghost use Rattle.fol_text.specs.declared.token.Placed.{Placed as PlacedToken};
ghost use Rattle.std.specs.List.{prefix_len};
ghost use Rattle.fol_core.specs.Word.{goes_on as continues};
ghost use Rattle.fol_text.specs.Tokens.{AreTokens, IsBadAt, typed_sign as typed, symbol as symbol_of};
ghost use Rattle.fol_text.specs.Lexer.{Passes, first_token as first_of, first_sign as first_sign_of, first_typed as first_typed_of, first_symbol as first_symbol_of, first_negation as first_negation_of, after_blank as after_blank_of};

use crate::fault::ReadFault;
use crate::token::{Placed, Token};
use fol_core::Ident;
use lists::Listed;
use std::alloc::{AllocError, Global};

/// The tokens of a text, each with its place, or `BadByte` where none begins.
pub(crate) fn tokens(alloc: Global, text: &[u8]) -> Result<Listed<Placed>, ReadFault>
    requires { length text.now ≤ 4000 }
    ensures tokens { IfOk result (λ ks. AreTokens 0 text.now ks) }
    ensures bad { IfErr result (λ fault. (fault ≡ ReadFault.Memory) ⊎ ((p : ℕ) × ((fault ≡ ReadFault.BadByte p) × IsBadAt 0 text.now p))) }
{
    let mut rest = text;
    let mut found = Listed::new(alloc);
    while !rest.is_empty() {
        let place = (text.len() - rest.len()) as u32;
        rest = turn(alloc, place, rest, &mut found)?;
    }
    Ok(found)
}

/// Passes over a blank in front of the bytes, or takes the token there, which has this place.
fn turn<'a>(
    alloc: Global,
    place: u32,
    rest: &'a [u8],
    found: &mut Listed<Placed>,
) -> Result<&'a [u8], ReadFault>
    requires { rest.now ≢ [] }
    ensures passes { IfOk result (λ after. (ks : List PlacedToken) × ((found.new ≡ found.old ++ ks) × Passes place rest.now ks after.now)) }
    ensures bad { IfErr result (λ fault. (fault ≡ ReadFault.Memory) ⊎ ((fault ≡ ReadFault.BadByte place) × IsBadAt place rest.now place)) }
{
    if let Some(after) = after_blank(rest) {
        return Ok(after);
    }
    let Some((token, after)) = first_token(alloc, rest)? else {
        return Err(ReadFault::BadByte(place));
    };
    found.add(Placed { place, token })?;
    Ok(after)
}

/// The bytes after a blank in front, where there is one.
pub(crate) fn after_blank(text: &[u8]) -> Option<&[u8]>
    ensures value { MatchOption result (after_blank_of text.now ≡ None) (λ after. after_blank_of text.now ≡ Some after.now) }
{
    match text {
        [b' ' | b'\t', after @ ..] => Some(after),
        _ => None,
    }
}

/// The token at the front of the text, and the bytes after it, where there is one. A blank is none.
pub(crate) fn first_token(alloc: Global, text: &[u8]) -> Result<Option<(Token, &[u8])>, AllocError>
    ensures value { IfOk result (λ found. MatchOption found (first_of text.now ≡ None) (λ f. first_of text.now ≡ Some (f.0, f.1.now))) }
{
    let (word, after) = text.split_at(word_len(text));
    if let Some(ident) = Ident::make(alloc, word)? {
        return Ok(Some((Token::Identifier(ident), after)));
    }
    Ok(first_sign(text))
}

/// The sign at the front of the text, and the bytes after it.
pub(crate) fn first_sign(text: &[u8]) -> Option<(Token, &[u8])>
    ensures value { MatchOption result (first_sign_of text.now ≡ None) (λ f. first_sign_of text.now ≡ Some (f.0, f.1.now)) }
{
    match text {
        [0xe2, after @ ..] => first_symbol(after),
        [0xc2, after @ ..] => first_negation(after),
        other => first_typed(other),
    }
}

/// The sign of one byte at the front, as it is typed.
fn first_typed(text: &[u8]) -> Option<(Token, &[u8])>
    ensures value { MatchOption result (first_typed_of text.now ≡ None) (λ f. first_typed_of text.now ≡ Some (f.0, f.1.now)) }
{
    let [byte, after @ ..] = text else {
        return None;
    };
    let token = typed_sign(*byte)?;
    Some((token, after))
}

/// The symbol whose first byte in UTF-8 is 226 stands before the text.
fn first_symbol(text: &[u8]) -> Option<(Token, &[u8])>
    ensures value { MatchOption result (first_symbol_of text.now ≡ None) (λ f. first_symbol_of text.now ≡ Some (f.0, f.1.now)) }
{
    let [second, third, after @ ..] = text else {
        return None;
    };
    let token = symbol(*second, *third)?;
    Some((token, after))
}

/// The symbol for negation, whose first byte in UTF-8 is 194, stands before the text.
fn first_negation(text: &[u8]) -> Option<(Token, &[u8])>
    ensures value { MatchOption result (first_negation_of text.now ≡ None) (λ f. first_negation_of text.now ≡ Some (f.0, f.1.now)) }
{
    match text {
        [0xac, after @ ..] => Some((Token::NotSign, after)),
        _ => None,
    }
}

/// The sign that a byte is.
#[tactic(auto, unfolding(crate::specs::Tokens::typed_sign))]
fn typed_sign(byte: u8) -> Option<Token>
    ensures value { result ≡ typed byte }
{
    match byte {
        b'~' => Some(Token::NotSign),
        b'&' => Some(Token::AndSign),
        b'|' => Some(Token::OrSign),
        b'$' => Some(Token::IfSign),
        b'%' => Some(Token::IffSign),
        b'@' => Some(Token::AllSign),
        b'/' => Some(Token::ExistsSign),
        b'^' => Some(Token::FalsumSign),
        b'=' => Some(Token::Equals),
        b'#' => Some(Token::Unequal),
        b'(' => Some(Token::Open),
        b')' => Some(Token::Close),
        b',' => Some(Token::Comma),
        _ => None,
    }
}

/// The symbol that these two bytes are behind the byte 226.
#[tactic(auto, unfolding(crate::specs::Tokens::symbol))]
fn symbol(second: u8, third: u8) -> Option<Token>
    ensures value { result ≡ symbol_of second third }
{
    match (second, third) {
        (0x88, 0xa7) => Some(Token::AndSign),
        (0x88, 0xa8) => Some(Token::OrSign),
        (0x86, 0x92) => Some(Token::IfSign),
        (0x86, 0x94) => Some(Token::IffSign),
        (0x88, 0x80) => Some(Token::AllSign),
        (0x88, 0x83) => Some(Token::ExistsSign),
        (0x8a, 0xa5) => Some(Token::FalsumSign),
        (0x89, 0xa0) => Some(Token::Unequal),
        _ => None,
    }
}

/// How many bytes at the front of the text may stand in an identifier.
pub(crate) fn word_len(text: &[u8]) -> usize
    ensures value { result ≡ prefix_len continues text.now }
{
    text.iter().take_while(|byte| goes_on(**byte)).count()
}

/// Whether the byte may stand in an identifier.
fn goes_on(byte: u8) -> bool
    ensures value { result ≡ continues byte }
{
    matches!(byte, b'A'..=b'Z' | b'a'..=b'z' | b'0'..=b'9' | b'_')
}
