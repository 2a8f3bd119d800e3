ghost use Rattle.std.specs.Prelude.{◌≡◌};
ghost use Rattle.std.specs.List.{find, filter};
ghost use Rattle.std.specs.Str.{bytes_eq};
ghost use Rattle.worlds.specs.declared.block.Block.{Block as Standing};
ghost use Rattle.worlds.specs.Predicates as spec;
ghost use Rattle.worlds.specs.inside.Endings.{ends_in};
ghost use Rattle.worlds.specs.Geometry as geometry;

use crate::block::Block;

/// A predicate of the blocks language.
#[derive(Clone, Copy, Debug, PartialEq, Eq)]
pub enum Predicate {
    Tet,
    Cube,
    Dodec,
    Small,
    Medium,
    Large,
    SameSize,
    SameShape,
    SameRow,
    SameCol,
    Larger,
    Smaller,
    LeftOf,
    RightOf,
    FrontOf,
    BackOf,
    Adjoins,
    Between,
}

/// The predicate of the word; none where the word is none of the blocks language.
pub fn predicate_of(word: &[u8]) -> Option<Predicate>
    ensures value { result ≡ spec.predicate_of word.now }
{
    match word {
        [.., letter] => first_of_word(ending_in(*letter), word),
        [] => None,
    }
}

/// The predicates whose words end in the letter.
#[tactic(auto, using(crate::proofs::Ending::none_ends))]
fn ending_in(letter: u8) -> &'static [Predicate]
    ensures value { result.now ≡ filter (ends_in letter) spec.predicates }
{
    match letter {
        b'c' => &[Predicate::Dodec],
        b'e' => &[
            Predicate::Cube,
            Predicate::Large,
            Predicate::SameSize,
            Predicate::SameShape,
        ],
        b'f' => &[
            Predicate::LeftOf,
            Predicate::RightOf,
            Predicate::FrontOf,
            Predicate::BackOf,
        ],
        b'l' => &[Predicate::Small, Predicate::SameCol],
        b'm' => &[Predicate::Medium],
        b'n' => &[Predicate::Between],
        b'r' => &[Predicate::Larger, Predicate::Smaller],
        b's' => &[Predicate::Adjoins],
        b't' => &[Predicate::Tet],
        b'w' => &[Predicate::SameRow],
        _ => &[],
    }
}

/// The first of the predicates that has the word.
fn first_of_word(predicates: &[Predicate], word: &[u8]) -> Option<Predicate>
    ensures value { result ≡ find (λ q. bytes_eq (spec.word_of q) word.now) predicates.now }
{
    for predicate in predicates {
        if predicate.word() == word {
            return Some(*predicate);
        }
    }
    None
}

impl Predicate {
    fn word(self) -> &'static [u8]
        ensures value { result.now ≡ spec.word_of self }
    {
        match self {
            Predicate::Tet => b"Tet",
            Predicate::Cube => b"Cube",
            Predicate::Dodec => b"Dodec",
            Predicate::Small => b"Small",
            Predicate::Medium => b"Medium",
            Predicate::Large => b"Large",
            Predicate::SameSize => b"SameSize",
            Predicate::SameShape => b"SameShape",
            Predicate::SameRow => b"SameRow",
            Predicate::SameCol => b"SameCol",
            Predicate::Larger => b"Larger",
            Predicate::Smaller => b"Smaller",
            Predicate::LeftOf => b"LeftOf",
            Predicate::RightOf => b"RightOf",
            Predicate::FrontOf => b"FrontOf",
            Predicate::BackOf => b"BackOf",
            Predicate::Adjoins => b"Adjoins",
            Predicate::Between => b"Between",
        }
    }

    /// How many blocks the predicate speaks of.
    pub fn places(self) -> usize
        ensures value { result ≡ spec.places_of self }
    {
        match self {
            Predicate::Tet
            | Predicate::Cube
            | Predicate::Dodec
            | Predicate::Small
            | Predicate::Medium
            | Predicate::Large => 1,
            Predicate::Between => 3,
            _ => 2,
        }
    }

    /// The predicate that says the same of two blocks named the other way round.
    pub fn converse(self) -> Predicate
        ensures value { (b c : Standing) → spec.says_of_two result b c ≡ spec.says_of_two self c b }
    {
        match self {
            Predicate::Larger => Predicate::Smaller,
            Predicate::Smaller => Predicate::Larger,
            Predicate::LeftOf => Predicate::RightOf,
            Predicate::RightOf => Predicate::LeftOf,
            Predicate::FrontOf => Predicate::BackOf,
            Predicate::BackOf => Predicate::FrontOf,
            other => other,
        }
    }

    /// What the predicate says of one block.
    pub fn says_of_one(self, b: &Block) -> bool
        ensures value { result ≡ spec.says_of_one self b.now }
    {
        match self {
            Predicate::Tet => b.shape.faces() == 4,
            Predicate::Cube => b.shape.faces() == 6,
            Predicate::Dodec => b.shape.faces() == 12,
            Predicate::Small => b.size.rank() == 1,
            Predicate::Medium => b.size.rank() == 2,
            Predicate::Large => b.size.rank() == 3,
            _ => false,
        }
    }

    /// What the predicate says of two blocks, the first one named first.
    pub fn says_of_two(self, b: &Block, c: &Block) -> bool
        ensures value { result ≡ spec.says_of_two self b.now c.now }
    {
        match self {
            Predicate::SameSize => b.size.rank() == c.size.rank(),
            Predicate::SameShape => b.shape.faces() == c.shape.faces(),
            Predicate::SameRow => b.row == c.row,
            Predicate::SameCol => b.column == c.column,
            Predicate::Larger => b.size.rank() > c.size.rank(),
            Predicate::Smaller => b.size.rank() < c.size.rank(),
            Predicate::LeftOf => b.column < c.column,
            Predicate::RightOf => b.column > c.column,
            Predicate::FrontOf => b.row < c.row,
            Predicate::BackOf => b.row > c.row,
            Predicate::Adjoins => share_side(b, c),
            _ => false,
        }
    }

    /// What the predicate says of three blocks.
    pub fn says_of_three(self, b: &Block, c: &Block, d: &Block) -> bool
        ensures value { result ≡ spec.says_of_three self b.now c.now d.now }
    {
        match self {
            Predicate::Between => is_between(b, c, d),
            _ => false,
        }
    }
}

/// Whether the squares share a side.
fn share_side(b: &Block, c: &Block) -> bool
    ensures value { result ≡ geometry.share_side b.now c.now }
{
    (b.row == c.row && b.column.abs_diff(c.column) == 1)
        || (b.column == c.column && b.row.abs_diff(c.row) == 1)
}

/// Whether the first stands strictly between the two others, in a row, a column or a diagonal.
pub fn is_between(b: &Block, c: &Block, d: &Block) -> bool
    ensures value { result ≡ geometry.is_between b.now c.now d.now }
{
    (b.row == c.row && b.row == d.row && is_inside(b.column, c.column, d.column))
        || (b.column == c.column && b.column == d.column && is_inside(b.row, c.row, d.row))
        || (on_rising(b, c) && on_rising(b, d) && is_inside(b.column, c.column, d.column))
        || (on_falling(b, c) && on_falling(b, d) && is_inside(b.column, c.column, d.column))
}

/// Whether the number lies strictly between the two others.
fn is_inside(k: u8, m: u8, n: u8) -> bool
    ensures value { result ≡ geometry.is_inside k m n }
{
    (m < k && k < n) || (n < k && k < m)
}

/// Whether both stand in one diagonal that rises to the right.
fn on_rising(b: &Block, c: &Block) -> bool
    ensures value { result ≡ geometry.on_rising b.now c.now }
{
    u16::from(b.column) + u16::from(c.row) == u16::from(c.column) + u16::from(b.row)
}

/// Whether both stand in one diagonal that falls to the right.
fn on_falling(b: &Block, c: &Block) -> bool
    ensures value { result ≡ geometry.on_falling b.now c.now }
{
    u16::from(b.column) + u16::from(b.row) == u16::from(c.column) + u16::from(c.row)
}
