ghost use Rattle.std.specs.Prelude.{◌≡◌, IfOk};

use fol_core::Ident;
use std::alloc::{AllocError, Global};

/// A sign or an identifier of a text.
#[derive(Debug, Drop)]
pub enum Token {
    NotSign,
    AndSign,
    OrSign,
    IfSign,
    IffSign,
    AllSign,
    ExistsSign,
    FalsumSign,
    Equals,
    Unequal,
    Open,
    Close,
    Comma,
    Identifier(Ident),
}

/// A token and the place of its first byte.
#[derive(Debug, Drop)]
pub struct Placed {
    pub place: u32,
    pub token: Token,
}

impl Token {
    /// The same token once more.
    pub(crate) fn copied(&self, alloc: Global) -> Result<Token, AllocError>
        ensures value { IfOk result (λ copy. copy ≡ self.now) }
    {
        let copy = match self {
            Token::NotSign => Token::NotSign,
            Token::AndSign => Token::AndSign,
            Token::OrSign => Token::OrSign,
            Token::IfSign => Token::IfSign,
            Token::IffSign => Token::IffSign,
            Token::AllSign => Token::AllSign,
            Token::ExistsSign => Token::ExistsSign,
            Token::FalsumSign => Token::FalsumSign,
            Token::Equals => Token::Equals,
            Token::Unequal => Token::Unequal,
            Token::Open => Token::Open,
            Token::Close => Token::Close,
            Token::Comma => Token::Comma,
            Token::Identifier(word) => Token::Identifier(word.copied(alloc)?),
        };
        Ok(copy)
    }
}
