ghost use Rattle.std.specs.Prelude.{◌≡◌, ◌∷◌, ◌≤◌, []};
ghost use Rattle.hintikka_game.specs.Plays as plays;

use lists::Listed;

/// What comes next in a game. Alternatives are counted from 1.
#[derive(Clone, Copy, Debug, PartialEq, Eq)]
pub enum Turn {
    /// The player must choose among so many alternatives.
    You(u32),
    /// The machine chooses this alternative.
    Machine(u32),
    /// A negation turns the commitment round.
    Flip,
    /// A conditional is rewritten.
    Rewrite,
    /// The game is over, and whether the player has won it.
    Over(bool),
}

/// A move that was made. Alternatives are counted from 1.
#[derive(Clone, Copy, Debug, PartialEq, Eq)]
pub enum Move {
    /// The player's choice.
    You(u32),
    /// The machine's choice.
    Machine(u32),
    /// A negation turned the commitment round.
    Flip,
    /// A conditional was rewritten.
    Rewrite,
}

/// Moves in the order in which they were made.
pub type Moves = Listed<Move>;

impl Move {
    /// The number of the alternative that the move takes.
    pub(crate) fn taken(self) -> u32
        ensures value { result ≡ plays.taken self }
    {
        match self {
            Move::You(n) | Move::Machine(n) => n,
            Move::Flip | Move::Rewrite => 1,
        }
    }

    /// Whether it is a choice of the player.
    pub(crate) fn is_choice(self) -> bool
        ensures value { result ≡ plays.is_choice self }
    {
        match self {
            Move::You(_) => true,
            Move::Machine(_) | Move::Flip | Move::Rewrite => false,
        }
    }

    /// How many choices of the player it is.
    pub(crate) fn choices(self) -> u32
        ensures value { result ≡ plays.choices (self ∷ []) }
        ensures few { result ≤ 1 }
    {
        if self.is_choice() { 1 } else { 0 }
    }
}
