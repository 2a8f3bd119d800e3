ghost use Rattle.std.specs.Prelude.{◌≡◌, IfOk};
ghost use Rattle.fault_words.specs.WorldFaults as spec;

use crate::numbered::with_number;
use hintikka_game::GameFault;
use lists::Listed;
use play_text::PlayFault;
use std::alloc::{AllocError, Global};
use world_text::WorldFault;
use world_truth::TruthFault;

/// Why a sentence has no value in a world.
pub fn truth_fault_text(fault: TruthFault) -> &'static [u8]
    ensures text { result.now ≡ spec.truth_fault_text fault }
{
    match fault {
        TruthFault::NotBlocks => b"NotBlocks",
        TruthFault::NoSuchName => b"NoSuchName",
        TruthFault::TooLarge => b"TooLarge",
    }
}

/// The fault of a world text.
pub fn world_fault_text(fault: WorldFault) -> &'static [u8]
    ensures text { result.now ≡ spec.world_fault_text fault }
{
    match fault {
        WorldFault::Header => b"Header",
        WorldFault::Form => b"Form",
        WorldFault::SquareTaken => b"SquareTaken",
        WorldFault::NameTaken => b"NameTaken",
        WorldFault::OffBoard => b"OffBoard",
        WorldFault::Memory => b"Memory",
    }
}

/// The fault of a play text. A refused sentence is told without its refusal.
pub fn play_fault_text(fault: PlayFault) -> &'static [u8]
    ensures text { result.now ≡ spec.play_fault_text fault }
{
    match fault {
        PlayFault::Header => b"Header",
        PlayFault::Form => b"Form",
        PlayFault::Sentence => b"Sentence",
        PlayFault::World(fault) => world_fault_text(fault),
        PlayFault::Memory => b"Memory",
    }
}

/// Why a game or a choice is refused.
pub fn game_fault_text(alloc: Global, fault: GameFault) -> Result<Listed<u8>, AllocError>
    ensures text { IfOk result (λ text. text ≡ spec.game_fault_text fault) }
{
    match fault {
        GameFault::NotYourTurn => Listed::from_slice(alloc, b"NotYourTurn"),
        GameFault::NoSuchChoice(count) => with_number(alloc, b"NoSuchChoice", count),
        GameFault::Over => Listed::from_slice(alloc, b"Over"),
        GameFault::NotMyTurn => Listed::from_slice(alloc, b"NotMyTurn"),
        GameFault::Truth(fault) => Listed::from_slice(alloc, truth_fault_text(fault)),
        GameFault::Memory => Listed::from_slice(alloc, b"Memory"),
    }
}
