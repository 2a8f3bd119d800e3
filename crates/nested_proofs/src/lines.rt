ghost use Rattle.std.specs.Prelude.{◌≡◌, ◌↔◌, ◌<◌, ◌≤◌, [], ◌∷◌, ◌++◌, length, IsTrue, OnOk, OnErr};
ghost use Rattle.nested_proofs.specs.Nesting.{IsShaped};
ghost use Rattle.nested_proofs.specs.Limits.{AreInForm, AreLines, DepthFits, depth_after};
ghost use Rattle.nested_proofs.specs.Enclosing.{IsIndex};
ghost use Rattle.nested_proofs.specs.Enclosing as enclosing;

use crate::nesting::{depth_fits, level};
use deriv_laws::{FlatLine, Rule};
use lists::Listed;
use std::alloc::{AllocError, Global};
use std::marker::Model;

/// The most lines that a proof has.
pub const MOST_LINES: usize = 2000;

/// The lines of one nested proof, as they are written: at most 2,000, each of a depth of at most 30 and with at most
/// 64 cites. Contracts see them as the list of lines.
#[derive(Debug, Drop)]
pub struct Lines {
    items: Listed<FlatLine>,
    /// For each line, the number of the last line before it of a lower level, or 0: with it a look-up takes as many
    /// steps as there are subproofs around a line.
    index: Vec<usize>,
}

impl Model for Lines {
    ghost use Rattle.std.specs.Prelude.{List};
    ghost use Rattle.deriv_laws.specs.declared.line.FlatLine.{FlatLine};
    ghost use Rattle.nested_proofs.specs.Limits.{AreLines};
    ghost use Rattle.nested_proofs.specs.Enclosing.{IsIndex};
    ghost use Rattle.fol_core.specs.contracts.sent.Sent as sentence_row;
    ghost use Rattle.std.specs.Coded.{codes};

    ghost Value = { List FlatLine };

    ghost coded = { Prim.hlevel (codes, sentence_row.the_row.coded) };

    ghost view = { λ l. l.items };

    ghost invariant = { λ l. AreLines l.items × IsIndex l.items l.index.items };
}

impl Lines {
    /// No lines.
    pub fn new(alloc: Global) -> Lines
        ensures empty { result ≡ [] }
    {
        Lines {
            items: Listed::new(alloc),
            index: Vec::new(alloc),
        }
    }

    /// The lines in order.
    pub fn as_slice(&self) -> &[FlatLine]
        ensures value { result.now ≡ self.now }
        ensures lines { AreLines self.now }
    {
        self.items.as_slice()
    }

    /// The number of lines.
    pub fn len(&self) -> usize
        ensures value { result ≡ length self.now }
    {
        self.items.len()
    }

    /// Whether there is room for another line.
    pub fn has_room(&self) -> bool
        ensures room { IsTrue result ↔ (length self.now < 2000) }
    {
        self.items.len() < MOST_LINES
    }

    /// Whether a line of this depth with this rule may come next.
    pub fn may_follow(&self, depth: u8, rule: Rule) -> bool
        ensures exact { IsTrue result ↔ DepthFits (depth_after 1 self.now) rule depth }
    {
        depth_fits(last_depth(self.items.as_slice()), rule, depth)
    }

    /// Puts the line last. Where memory is refused, the line is dropped and the lines stay as they were.
    pub fn push(&mut self, line: FlatLine) -> Result<(), AllocError>
        requires room { length self.old < 2000 }
        requires shape { IsShaped line line.rule }
        requires depth { DepthFits (depth_after 1 self.old) line.rule line.depth }
        requires cites { AreInForm line.cites }
        ensures ok { OnOk result (self.new ≡ self.old ++ line ∷ []) }
        ensures err { OnErr result (self.new ≡ self.old) }
    {
        let before = last_below(
            self.items.as_slice(),
            self.index.as_slice(),
            self.items.len(),
            level(&line),
        );
        self.index.push(before)?;
        match self.items.add(line) {
            Ok(()) => Ok(()),
            Err(refused) => {
                self.index.pop();
                Err(refused)
            }
        }
    }

    /// The number of the last of the first `count` lines whose level is below this depth, or 0 where there is none.
    pub(crate) fn last_below(&self, count: usize, depth: u8) -> usize
        requires within { count ≤ length self.now }
        ensures value { result ≡ enclosing.last_below depth self.now count }
    {
        last_below(self.items.as_slice(), self.index.as_slice(), count, depth)
    }
}

fn last_below(lines: &[FlatLine], index: &[usize], count: usize, depth: u8) -> usize
    requires is_index { IsIndex lines.now index.now }
    requires within { count ≤ length lines.now }
    ensures value { result ≡ enclosing.last_below depth lines.now count }
{
    let mut number = count;
    while number > 0 {
        if level(&lines[number - 1]) < depth {
            return number;
        }
        number = index[number - 1];
    }
    0
}

/// The depth of the last line, or 1 where there is none.
fn last_depth(lines: &[FlatLine]) -> u8
    ensures value { result ≡ depth_after 1 lines.now }
{
    match lines {
        [] => 1,
        [.., last] => last.depth,
    }
}
