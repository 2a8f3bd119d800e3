ghost use Rattle.std.specs.Prelude.{◌≡◌};
ghost use Rattle.tutor_app.specs.Words as spec;
ghost use Rattle.tutor_app.specs.Words.{AskFor, request_of};

use edge_io::Bytes;
use lists::Listed;
use std::alloc::AllocError;
use std::env;
use std::rt::Env;

/// The words of a command line, without the program's name.
pub type Words = Listed<Bytes>;

/// What a command line asks for.
pub enum Command<'a> {
    /// To check the proof that the input gives.
    Check,
    /// To make the truth table of the sentences that the input lists.
    Table,
    /// To play the game that the input describes.
    Play,
    /// To evaluate the sentences that the input lists in the world of this name.
    World(&'a Bytes),
    /// Nothing that the program knows.
    Refused,
}

/// The command that the words ask for.
pub fn command_of(words: &Words) -> Command<'_>
    ensures asked { AskFor words.now (request_of result) }
{
    match words.as_slice() {
        [word] if word.is(b"check") => Command::Check,
        [word] if word.is(b"table") => Command::Table,
        [word] if word.is(b"play") => Command::Play,
        [word, name] if word.is(b"world") && is_name(name) => Command::World(name),
        _ => Command::Refused,
    }
}

/// Whether the word may be a name: it isn't empty, and doesn't begin with `-`.
fn is_name(word: &Bytes) -> bool
    ensures value { result ≡ spec.is_name word.now }
{
    match word.as_slice() {
        [] => false,
        [first, ..] => *first != b'-',
    }
}

/// The words that the program was given. Where they can't be had, or one isn't UTF-8, there are none.
pub fn words_of_program(rt: &(impl Env + AllocGlobal)) -> Result<Words, AllocError> {
    let mut words = Words::new(rt.alloc());
    let Ok(arguments) = env::args(rt) else {
        return Ok(words);
    };
    for argument in arguments.skip(1) {
        words.add(Bytes::from_vec(argument.into_bytes()))?;
    }
    Ok(words)
}
