use fol_core::Sent;
use lists::Listed;
use thiserror::Error;
use world_text::WorldFault;
use worlds::World;

/// The numbers of the alternatives that the player chooses, in order.
pub type Choices = Listed<u32>;

/// What a play begins with, and how the player goes on.
#[derive(Debug, Drop)]
pub struct Play {
    pub sentence: Sent,
    /// Whether the player is committed to the truth of the sentence; else to its falsity.
    pub commitment: bool,
    /// At most 60 numbers, each at most 9999. Whether there are so many alternatives is for the game to say.
    pub choices: Choices,
    pub world: World,
}

/// Why a text is no play: the fault of its least faulty physical line.
#[derive(Clone, Copy, Debug, PartialEq, Eq, Error)]
pub enum PlayFault {
    /// The first line that isn't blank is another one than `play 1`, or there is none.
    #[error("the header `play 1` is missing")]
    Header,
    /// The line isn't the one that is wanted here, or the text ends before it.
    #[error("the line has not the form that is wanted here")]
    Form,
    /// What stands behind `sentence` is refused as a sentence.
    #[error("the sentence is refused")]
    Sentence,
    /// The world's text has this fault, which is never want of memory.
    #[error("{0}")]
    World(WorldFault),
    /// Memory was refused.
    #[error("out of memory")]
    Memory,
}
