ghost use Rattle.std.specs.Prelude.{◌≡◌, ◌<◌, ◌≤◌, ◌++◌, ◌||◌, ℕ, true, [], ◌∷◌, List, None, Some, IfOk, IfErr, OnOk};
ghost use Rattle.worlds.specs.declared.block.Block.{Block as Standing};
ghost use Rattle.std.specs.List.{slice_set, cons_option};
ghost use Rattle.worlds.specs.Geometry as geometry;
ghost use Rattle.world_text.specs.BlockLines.{said_in as says, blocks_of, block_by};
ghost use Rattle.world_text.specs.WorldText.{fault_said, is_square_taken, is_name_taken, repeats_name, by_squares};
ghost use Rattle.world_text.specs.inside.Squares.{Holds, HoldsSome, as_said};

use crate::line::{Said, may_name, names_in, said_in, stands_in};
use crate::reading::WorldFault;
use std::alloc::{AllocError, Global};
use worlds::{Block, Names, World};

/// A board while it is read.
#[derive(Drop)]
pub struct Squares {
    /// What stands on each square, row by row from the front and in a row from the left.
    pub squares: [Option<Block>; 64],
    /// The names of the blocks.
    pub taken: Names,
}

const NO_NAMES: Names = Names {
    a: false,
    b: false,
    c: false,
    d: false,
    e: false,
    f: false,
};

impl Squares {
    /// The empty board.
    pub(crate) fn new() -> Squares
        ensures value { Holds [] result }
    {
        Squares {
            squares: [None; 64],
            taken: NO_NAMES,
        }
    }

    /// Puts the block of the line on its square, or says what is wrong with the line.
    #[tactic(auto, using(crate::proofs::Putting::put_line))]
    pub(crate) fn put(&mut self, line: &[u8]) -> Result<(), WorldFault>
        ensures faultless { OnOk result ((seen : List Standing) → Holds seen self.old → fault_said seen (says line.now) ≡ None) }
        ensures put { OnOk result ((seen : List Standing) → Holds seen self.old → Holds (seen ++ blocks_of (line.now ∷ [])) self.new) }
        ensures refused { IfErr result (λ fault. (seen : List Standing) → Holds seen self.old → fault_said seen (says line.now) ≡ Some fault) }
    {
        match said_in(line) {
            Some(said) => put_said(self, &said),
            None => Err(WorldFault::Form),
        }
    }

    /// The world of the blocks on the board.
    #[tactic(auto, using(crate::proofs::Putting::kept_value, crate::proofs::Putting::kept_world, crate::proofs::Putting::kept_few, crate::proofs::Putting::kept_step))]
    pub(crate) fn into_world(self, alloc: Global) -> Result<World, AllocError>
        requires { HoldsSome self }
        ensures value { IfOk result (λ w. (seen : List Standing) → Holds seen self → w ≡ by_squares seen) }
    {
        let mut blocks = Vec::new(alloc);
        for square in &self.squares {
            add_square(&mut blocks, square)?;
        }
        Ok(World::of(blocks))
    }
}

/// Puts the block of the square last, where there is one.
fn add_square(blocks: &mut Vec<Block>, square: &Option<Block>) -> Result<(), AllocError>
    ensures put { OnOk result (blocks.new.items ≡ blocks.old.items ++ cons_option square.now []) }
{
    if let Some(block) = square {
        blocks.push(*block)?;
    }
    Ok(())
}

/// Puts the block that is said on its square, or says what is wrong with it.
#[tactic(auto, using(crate::proofs::Putting::put_down))]
fn put_said(board: &mut Squares, said: &Said<'_>) -> Result<(), WorldFault>
    ensures faultless { OnOk result ((seen : List Standing) → Holds seen board.old → fault_said seen (Some (as_said said.now)) ≡ None) }
    ensures put { OnOk result ((seen : List Standing) → Holds seen board.old → Holds (seen ++ block_by (as_said said.now) ∷ []) board.new) }
    ensures refused { IfErr result (λ fault. (seen : List Standing) → Holds seen board.old → fault_said seen (Some (as_said said.now)) ≡ Some fault) }
{
    if !is_place(said.column) {
        return Err(WorldFault::OffBoard);
    }
    if !is_place(said.row) {
        return Err(WorldFault::OffBoard);
    }
    if is_taken(board, said.column, said.row) {
        return Err(WorldFault::SquareTaken);
    }
    if repeats_name_on(board, said.names) {
        return Err(WorldFault::NameTaken);
    }
    put_down(board, said);
    Ok(())
}

/// Puts the block that is said on its square.
fn put_down(board: &mut Squares, said: &Said<'_>)
    requires column { geometry.is_place said.now.column ≡ true }
    requires row { geometry.is_place said.now.row ≡ true }
    ensures squares { board.new.squares ≡ slice_set board.old.squares (geometry.square_at said.now.column said.now.row) (Some (block_by (as_said said.now))) }
    ensures names { (l : ℕ) → geometry.bears board.new.taken l ≡ (geometry.bears board.old.taken l || geometry.bears (block_by (as_said said.now)).names l) }
{
    let names = names_in(said.names);
    let square = square_of(said.column, said.row);
    board.squares[square] = Some(Block {
        names,
        shape: said.shape,
        size: said.size,
        column: said.column as u8,
        row: said.row as u8,
    });
    board.taken = both(board.taken, names);
}

/// The number of the square.
#[tactic(auto, using(crate::proofs::Putting::place_parts))]
fn square_of(column: u32, row: u32) -> usize
    requires column { geometry.is_place column ≡ true }
    requires row { geometry.is_place row ≡ true }
    ensures value { result ≡ geometry.square_at column row }
    ensures few { result < 64 }
    ensures column { column ≤ 8 }
    ensures row { row ≤ 8 }
{
    (row.saturating_sub(1) * 8 + column.saturating_sub(1)) as usize
}

/// Whether a block stands on the square.
#[tactic(auto, using(crate::proofs::Putting::taken_at))]
fn is_taken(board: &Squares, column: u32, row: u32) -> bool
    requires column { geometry.is_place column ≡ true }
    requires row { geometry.is_place row ≡ true }
    ensures value { (seen : List Standing) → Holds seen board.now → result ≡ is_square_taken seen (geometry.square_at column row) }
{
    let square = square_of(column, row);
    board.squares[square].is_some()
}

/// Whether a letter of the word is a name on the board, or stands in the word once more.
fn repeats_name_on(board: &Squares, word: &[u8]) -> bool
    ensures value { (seen : List Standing) → Holds seen board.now → result ≡ repeats_name (is_name_taken seen) word.now }
{
    repeats(board.taken, word)
}

/// Whether the number is that of a column and of a row.
fn is_place(number: u32) -> bool
    ensures value { result ≡ geometry.is_place number }
{
    1 <= number && number <= 8
}

/// Whether a letter of the word is a name that is given already, or stands in the word once more.
fn repeats(taken: Names, word: &[u8]) -> bool
    ensures value { result ≡ repeats_name (geometry.bears taken) word.now }
{
    let mut rest = word;
    while let [letter, more @ ..] = rest {
        if may_name(*letter) && (taken.bears(*letter) || stands_in(*letter, more)) {
            return true;
        }
        rest = more;
    }
    false
}

/// The names of both.
fn both(one: Names, other: Names) -> Names
    ensures value { (l : ℕ) → geometry.bears result l ≡ (geometry.bears one l || geometry.bears other l) }
{
    Names {
        a: one.a || other.a,
        b: one.b || other.b,
        c: one.c || other.c,
        d: one.d || other.d,
        e: one.e || other.e,
        f: one.f || other.f,
    }
}
