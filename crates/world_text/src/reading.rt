ghost use Rattle.std.specs.Prelude.{◌≡◌, ◌+◌, ◌≤◌, ◌<◌, ◌⊎◌, [], None, Some, length, IfOk, IfErr};
ghost use Rattle.std.specs.Str.Lines.{lines};
ghost use Rattle.world_text.specs.Lines as spec;
ghost use Rattle.world_text.specs.Lines.{behind_header};
ghost use Rattle.world_text.specs.BlockLines.{blocks_of};
ghost use Rattle.world_text.specs.WorldText.{fault_from, first_fault, world_fault, world_of};
ghost use Rattle.world_text.specs.inside.Squares.{Holds};

use crate::squares::Squares;
use std::alloc::Global;
use texts::{next_line, trim_end};
use thiserror::Error;
use worlds::World;

/// Why a text is no world: the fault of its least faulty physical line. In a line `Form` is tested first, then `OffBoard`,
/// `SquareTaken` and `NameTaken`.
#[derive(Clone, Copy, Debug, PartialEq, Eq, Error)]
pub enum WorldFault {
    /// The first line that isn't blank is another one than `world 1`, or there is none.
    #[error("the header `world 1` is missing")]
    Header,
    /// The line isn't names, shape, size, column and row, with blanks between them and none before them.
    #[error("the line has not the form of a block")]
    Form,
    /// A block of an earlier line stands on the square.
    #[error("a block stands on this square already")]
    SquareTaken,
    /// A name stands twice in the line, or in an earlier one too.
    #[error("a name is given twice")]
    NameTaken,
    /// The column or the row isn't one from 1 to 8.
    #[error("the square is not on the board")]
    OffBoard,
    /// Memory was refused.
    #[error("out of memory")]
    Memory,
}

/// Reads a world: the header `world 1`, and then a line for each block, with blank lines anywhere. A line has names, shape,
/// size, column and row, with blanks between them. A refusal has the number of the least faulty physical line, counted from
/// 1, and its fault. `Memory` says only that memory was refused.
///
/// # Requirements
///
/// The text has fewer than 2^32 bytes, so that the number of a line is a `u32`.
pub fn read_world(alloc: Global, text: &[u8]) -> Result<World, (u32, WorldFault)>
    requires { length text.now < 4294967296 }

    // What is read has no faulty line, and is the blocks of the lines.
    ensures faultless { IfOk result (λ w. world_fault text.now ≡ None) }
    ensures read { IfOk result (λ w. w ≡ world_of text.now) }

    // Else the line is the least faulty one, and the fault its own.
    ensures refused { IfErr result (λ e. (e.1 ≡ WorldFault.Memory) ⊎ (world_fault text.now ≡ Some e)) }
{
    let (place, rest) = match after_header(text) {
        Ok(behind) => behind,
        Err(place) => return Err((place, WorldFault::Header)),
    };
    let squares = read_blocks(place, rest)?;
    match squares.into_world(alloc) {
        Ok(world) => Ok(world),
        Err(_) => Err((place, WorldFault::Memory)),
    }
}

/// The number of the header's line and what follows it; or the number of the line where the header is missing.
fn after_header(text: &[u8]) -> Result<(u32, &[u8]), u32>
    requires { length text.now < 4294967296 }
    ensures fault { IfOk result (λ p. world_fault text.now ≡ first_fault [] (p.0 + 1) (lines p.1.now)) }
    ensures behind { IfOk result (λ p. behind_header (lines text.now) ≡ lines p.1.now) }
    ensures within { IfOk result (λ p. p.0 + length p.1.now ≤ length text.now) }
    ensures missing { IfErr result (λ n. world_fault text.now ≡ Some (n, WorldFault.Header)) }
{
    let mut place = 0;
    let mut rest = text;
    while let Some((line, after)) = next_line(rest) {
        place += 1;
        if !is_blank_line(line) {
            return if is_header(line) {
                Ok((place, after))
            } else {
                Err(place)
            };
        }
        rest = after;
    }
    Err(1)
}

/// The board with the blocks of the lines behind the header, which is the physical line `header`.
#[tactic(auto, using(crate::proofs::LinesRead::reads_start, crate::proofs::LinesRead::reads_blank, crate::proofs::LinesRead::reads_block, crate::proofs::LinesRead::reads_fault, crate::proofs::LinesRead::reads_end))]
fn read_blocks(header: u32, text: &[u8]) -> Result<Squares, (u32, WorldFault)>
    requires { header + length text.now < 4294967296 }
    ensures faultless { IfOk result (λ _. first_fault [] (header + 1) (lines text.now) ≡ None) }
    ensures read { IfOk result (λ squares. Holds (blocks_of (lines text.now)) squares) }
    ensures refused { IfErr result (λ e. first_fault [] (header + 1) (lines text.now) ≡ Some e) }
{
    let mut squares = Squares::new();
    let mut place = header;
    let mut rest = text;
    while let Some((line, after)) = next_line(rest) {
        place += 1;
        if !is_blank_line(line) {
            match squares.put(line) {
                Ok(()) => {}
                Err(fault) => return Err((place, fault)),
            }
        }
        rest = after;
    }
    Ok(squares)
}

fn is_blank_line(line: &[u8]) -> bool
    ensures value { result ≡ spec.is_blank_line line.now }
{
    line.iter().all(|byte| matches!(*byte, b' ' | b'\t'))
}

fn is_header(line: &[u8]) -> bool
    ensures value { result ≡ spec.is_header line.now }
{
    trim_end(line) == b"world 1".as_slice()
}
