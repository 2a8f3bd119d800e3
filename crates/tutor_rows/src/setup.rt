use cases::bytes_of;
use edge_io::Bytes;
use lists::Listed;
use std::alloc::{AllocError, Global};
use tutor_app::words::Words;

/// The words of a run, and what its edges give, take and refuse.
#[derive(Drop)]
pub struct Setup {
    pub words: Words,
    pub input: Vec<u8>,
    /// The most bytes that a call reads.
    pub read_piece: usize,
    /// The most bytes that a call writes.
    pub write_piece: usize,
    /// How many bytes the output has room for.
    pub room: usize,
    /// The calls that fail, of reading, of writing and of the shelf.
    pub reads: Vec<u32>,
    pub writes: Vec<u32>,
    pub gets: Vec<u32>,
}

impl Setup {
    /// No words, no input, and edges that take small pieces and never fail.
    fn new(alloc: Global) -> Setup {
        Setup {
            words: Listed::new(alloc),
            input: Vec::new(alloc),
            read_piece: 7,
            write_piece: 3,
            room: 1_000,
            reads: Vec::new(alloc),
            writes: Vec::new(alloc),
            gets: Vec::new(alloc),
        }
    }
}

/// What the texts of a case say: `input=..`, `piece=..`, `room=..`, `reads=..`, `writes=..` or `gets=..`, and each other
/// text is a word of the command. The input is the quoted one where none is given.
pub fn setup_of(alloc: Global, quoted: &str, texts: &[String]) -> Result<Setup, AllocError> {
    let mut setup = Setup::new(alloc);
    setup.input = quoted.as_bytes().to_vec(alloc)?;
    for text in texts {
        take(alloc, &mut setup, text)?;
    }
    Ok(setup)
}

fn take(alloc: Global, setup: &mut Setup, text: &str) -> Result<(), AllocError> {
    match text.split_once('=') {
        Some(("input", input)) => setup.input = bytes_of(alloc, input)?,
        Some(("piece", piece)) => {
            setup.read_piece = number(piece);
            setup.write_piece = number(piece);
        }
        Some(("room", room)) => setup.room = number(room),
        Some(("reads", calls)) => setup.reads = numbers(alloc, calls)?,
        Some(("writes", calls)) => setup.writes = numbers(alloc, calls)?,
        Some(("gets", calls)) => setup.gets = numbers(alloc, calls)?,
        _ => setup.words.add(Bytes::from_vec(bytes_of(alloc, text)?))?,
    }
    Ok(())
}

pub fn number(text: &str) -> usize {
    text.parse().unwrap_or(0)
}

/// The numbers of the text.
fn numbers(alloc: Global, text: &str) -> Result<Vec<u32>, AllocError> {
    let mut numbers = Vec::new(alloc);
    for word in text.split_whitespace() {
        numbers.push(word.parse().unwrap_or(0))?;
    }
    Ok(numbers)
}
