ghost use Rattle.std.specs.Prelude.{◌≡◌, ◌∷◌, [], Some, IfOk, IfSome};
ghost use Rattle.fol_text.specs.declared.token.Token.TheVariants.{Identifier};
ghost use Rattle.fol_text.specs.Tokens.{typed_sign};
ghost use Rattle.fol_text.specs.Straight.{Begins, SignRead};

use crate::fault::Refusal;
use crate::lexer::{first_sign, word_len};
use crate::token::Token;
use fol_core::Ident;
use std::alloc::Global;
use texts::trim_start;

/// The sign at the front of the text, as the byte that it is typed as, and the text behind it. Another byte that isn't
/// blank may be the answer too.
#[tactic(auto, using(crate::proofs::Taken::sign_behind_blanks))]
pub(crate) fn front(text: &[u8]) -> Option<(u8, &[u8])>
    ensures sign { IfSome result (λ f. SignRead f.0 text.now f.1.now) }
{
    let text = trim_start(text);
    at_front(text)
}

/// What the first byte is of, and the text behind it.
#[tactic(auto, using(crate::proofs::Taken::typed_read))]
fn at_front(text: &[u8]) -> Option<(u8, &[u8])>
    ensures sign { IfSome result (λ f. SignRead f.0 text.now f.1.now) }
{
    let (byte, after) = first_byte(text)?;
    if byte < 128 {
        return Some((byte, after));
    }
    logical(text)
}

fn first_byte(text: &[u8]) -> Option<(u8, &[u8])>
    ensures value { IfSome result (λ f. text.now ≡ f.0 ∷ f.1.now) }
{
    match text {
        [first, after @ ..] => Some((*first, after)),
        [] => None,
    }
}

/// The sign at the front of the text, which the logicians write, as the byte that it is typed as.
#[tactic(auto, using(crate::proofs::Taken::logical_read))]
fn logical(text: &[u8]) -> Option<(u8, &[u8])>
    ensures sign { IfSome result (λ f. SignRead f.0 text.now f.1.now) }
{
    let (token, after) = first_sign(text)?;
    let byte = typed(&token)?;
    Some((byte, after))
}

/// The byte that is typed for the sign.
#[tactic(auto, unfolding(crate::specs::Tokens::typed_sign))]
fn typed(token: &Token) -> Option<u8>
    ensures value { IfSome result (λ byte. typed_sign byte ≡ Some token.now) }
{
    match token {
        Token::NotSign => Some(b'~'),
        Token::AndSign => Some(b'&'),
        Token::OrSign => Some(b'|'),
        Token::IfSign => Some(b'$'),
        Token::IffSign => Some(b'%'),
        Token::AllSign => Some(b'@'),
        Token::ExistsSign => Some(b'/'),
        Token::FalsumSign => Some(b'^'),
        Token::Unequal => Some(b'#'),
        _ => None,
    }
}

/// The text behind the sign, where it stands in front.
pub(crate) fn after_sign(sign: u8, text: &[u8]) -> Option<&[u8]>
    ensures sign { IfSome result (λ after. SignRead sign text.now after.now) }
{
    match front(text) {
        Some((byte, after)) if byte == sign => Some(after),
        _ => None,
    }
}

/// The identifier at the front of the text.
pub(crate) fn word(alloc: Global, text: &[u8]) -> Result<(Ident, &[u8]), Refusal>
    ensures read { IfOk result (λ r. Begins text.now (Identifier r.0 ∷ []) r.1.now) }
{
    let text = trim_start(text);
    let (word, rest) = text.split_at(word_len(text));
    match Ident::make(alloc, word)? {
        Some(word) => Ok((word, rest)),
        None => Err(Refusal::Unexpected),
    }
}
