ghost use Rattle.std.specs.Prelude.{◌≡◌, ◌≤◌, true, length, IfSome};
ghost use Rattle.worlds.specs.Geometry as geometry;
ghost use Rattle.worlds.specs.Worlds as worlds;
ghost use Rattle.worlds.specs.Worlds.{IsWorld};
ghost use Rattle.worlds.specs.Worlds.{is_borne};
ghost use Rattle.worlds.specs.Scales.{measure_of, AreBelow};

use crate::block::Block;
use crate::scales::{Measure, Scales};
use bit_sets::BitSet;
use std::marker::Model;

/// A world: blocks on a board, at most one on a square, in the order of their squares, row by row from the front and in a
/// row from the left. Each name from `a` to `f` is that of one block at most. Contracts see the blocks.
#[derive(Debug, Drop)]
pub struct World {
    blocks: Vec<Block>,
    /// The number of the block that has each name from `a` to `f`; 1 where none has it.
    bearers: [u8; 6],
    scales: Scales,
}

impl Model for World {
    ghost use Rattle.std.specs.Prelude.{List};
    ghost use Rattle.worlds.specs.declared.block.Block.{Block as Standing};
    ghost use Rattle.worlds.specs.Invariants.{IsKept};

    ghost Value = { List Standing };

    ghost view = { λ w. w.blocks.items };

    ghost invariant = { λ w. IsKept w.blocks.items w.bearers w.scales };
}

/// The number of blocks in the world. It takes no memory.
pub fn block_count(w: &World) -> u32
    ensures value { result ≡ length w.now }
    ensures few { result ≤ 64 }
{
    w.blocks.len() as u32
}

impl World {
    /// The world of these blocks.
    pub fn of(blocks: Vec<Block>) -> World
        requires world { IsWorld blocks.items }
        requires few { length blocks.items ≤ 64 }
        ensures value { result ≡ blocks.items }
    {
        let bearers = [
            bearer_in(blocks.as_slice(), b'a'),
            bearer_in(blocks.as_slice(), b'b'),
            bearer_in(blocks.as_slice(), b'c'),
            bearer_in(blocks.as_slice(), b'd'),
            bearer_in(blocks.as_slice(), b'e'),
            bearer_in(blocks.as_slice(), b'f'),
        ];
        let scales = Scales::of(blocks.as_slice());
        World {
            blocks,
            bearers,
            scales,
        }
    }

    /// The blocks in the order of their squares.
    pub fn blocks(&self) -> &[Block]
        ensures value { result.now ≡ self.now }
        ensures world { IsWorld self.now }
        ensures few { length self.now ≤ 64 }
    {
        self.blocks.as_slice()
    }

    /// The block of the number, counted from 1.
    pub fn block(&self, number: u32) -> Option<Block>
        ensures value { result ≡ worlds.block_at self.now number }
        ensures world { IsWorld self.now }
        ensures few { length self.now ≤ 64 }
        ensures on_board { IfSome result (λ b. geometry.is_on_board b ≡ true) }
    {
        self.blocks
            .get((number as usize).saturating_sub(1))
            .copied()
    }

    /// For each number the blocks that measure less.
    pub fn scale(&self, measure: Measure) -> &[BitSet]
        ensures value { AreBelow self.now (measure_of measure) 0 result.now }
    {
        self.scales.scale(measure)
    }

    /// The number of the block that has the name; 1 where none has it.
    #[tactic(auto, using(crate::proofs::Bearing::none_below, crate::proofs::Bearing::none_above))]
    pub fn bearer(&self, letter: u8) -> u32
        ensures value { result ≡ worlds.bearer self.now letter }
    {
        match letter {
            b'a'..=b'f' => u32::from(self.bearers[usize::from(letter - b'a')]),
            _ => 1,
        }
    }

    /// Whether some block has the name.
    pub fn has(&self, name: &[u8]) -> bool
        ensures value { result ≡ is_borne self.now name.now }
    {
        self.blocks.iter().any(|block| is_named(name, block))
    }
}

/// Whether the block has the name.
fn is_named(name: &[u8], block: &Block) -> bool
    ensures value { result ≡ geometry.is_named name.now block.now }
{
    match name {
        [letter] => block.names.bears(*letter),
        _ => false,
    }
}

/// The number of the block that has the name; 1 where none has it.
fn bearer_in(blocks: &[Block], letter: u8) -> u8
    requires { length blocks.now ≤ 64 }
    ensures value { result ≡ worlds.bearer blocks.now letter }
{
    for before in 0..blocks.len() {
        if blocks[before].names.bears(letter) {
            return before as u8 + 1;
        }
    }
    1
}
