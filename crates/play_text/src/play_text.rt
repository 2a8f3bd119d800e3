ghost use Rattle.std.specs.Prelude.{◌≡◌, ◌≤◌, ◌<◌, ◌+◌, ◌⊎◌, Ok, IfOk, IfErr, IsErrAnd, IsTrue, ◌↔◌, length};
ghost use Rattle.std.specs.Str.Lines.{lines as lines_of};
ghost use Rattle.physical_lines.specs.Physical.{AreBlank, IsHeader};
ghost use Rattle.physical_lines.specs.Leading.{LeadsTo};
ghost use Rattle.play_text.specs.declared.play.Play.{Play as Spelled};
ghost use Rattle.play_text.specs.PlayLines.{play_header, IsSentenceLine, IsCommitLine, IsChoicesLine};
ghost use Rattle.play_text.specs.PlayText.{IsWorldText, Next, SpellsBehind, SpellsPlay};
ghost use Rattle.play_text.specs.PlayFaults.{HeaderFails, SentenceFails, CommitFails, ChoicesFails, StopsAt, WorldFails, FailsBehind, IsFirstPlayFault};
ghost use Rattle.play_text.specs.Readers.{IsNext, FailsAtChoices, FailsAtCommit};

use crate::lines::{said_choices, said_commitment, said_sentence};
use crate::play::{Choices, Play, PlayFault};
use fol_core::Sent;
use physical_lines::{Physical, first_line};
use std::alloc::Global;
use texts::trim_end;
use world_text::{WorldFault, read_world};
use worlds::World;

/// Reads a play text: the header `play 1`, the lines `sentence`, `commit` and `choices`, each with what stands behind it,
/// and then a world text, with blank lines anywhere. A refusal has the number of the least faulty physical line, counted
/// from 1 in the whole text, and its fault. A line that is missing at the end is missed one past the last line that isn't
/// blank. `Memory` says only that memory was refused.
///
/// # Requirements
///
/// The text has fewer than 2^32 bytes, so that the number of a line is a `u32`.
pub fn read_play(alloc: Global, text: &[u8]) -> Result<Play, (u32, PlayFault)>
    requires { length text.now < 4294967296 }

    // What is read is what the text spells.
    ensures read { IfOk result (SpellsPlay text.now) }

    // What the text spells is read, unless memory is refused.
    ensures exact { (play : Spelled) → SpellsPlay text.now play → (result ≡ Ok play) ⊎ IsErrAnd result (λ e. e.1 ≡ PlayFault.Memory) }

    // Else the line is the least faulty one, and this is its fault.
    ensures refused { IfErr result (λ e. (e.1 ≡ PlayFault.Memory) ⊎ IsFirstPlayFault text.now e.0 e.1) }

    // A fault of the world is no want of memory.
    ensures plain { IfErr result (λ e. (e.1 ≡ PlayFault.World WorldFault.Memory) → ⊥) }
{
    match header_line(text) {
        Ok(header) => read_behind(alloc, header.place, header.rest),
        Err((number, fault)) => Err((number, fault)),
    }
}

/// The header's line.
fn header_line(text: &[u8]) -> Result<Physical<'_>, (u32, PlayFault)>
    requires { length text.now < 4294967296 }
    ensures found { IfOk result (λ p. IsNext (IsHeader play_header) 0 text.now p.place p.line.now p.rest.now) }
    ensures room { IfOk result (λ p. p.place + length p.rest.now < length text.now) }
    ensures refused { IfErr result (λ e. StopsAt HeaderFails PlayFault.Header 0 text.now e.0 e.1) }
{
    match first_line(text) {
        Some(first) => {
            if is_header(first.line) {
                Ok(first)
            } else {
                Err((first.place, PlayFault::Header))
            }
        }
        None => Err((1, PlayFault::Header)),
    }
}

fn is_header(line: &[u8]) -> bool
    ensures value { IsTrue result ↔ IsHeader play_header line.now }
{
    trim_end(line) == b"play 1".as_slice()
}

/// Reads what follows the header, which is the physical line `place`.
fn read_behind(alloc: Global, place: u32, text: &[u8]) -> Result<Play, (u32, PlayFault)>
    requires { place + length text.now < 4294967295 }
    ensures read { IfOk result (λ play. SpellsBehind play place text.now) }
    ensures refused { IfErr result (λ e. (e.1 ≡ PlayFault.Memory) ⊎ FailsBehind place text.now e.0 e.1) }
{
    match read_sentence_line(alloc, place, text) {
        Ok((sentence, line)) => match read_commitment(alloc, line.place, line.rest) {
            Ok((commitment, choices, world)) => Ok(Play {
                sentence,
                commitment,
                choices,
                world,
            }),
            Err((number, fault)) => Err((number, fault)),
        },
        Err((number, fault)) => Err((number, fault)),
    }
}

/// Reads the commitment and what follows it.
fn read_commitment(
    alloc: Global,
    place: u32,
    text: &[u8],
) -> Result<(bool, Choices, World), (u32, PlayFault)>
    requires { place + length text.now < 4294967295 }
    ensures read { IfOk result (λ p. Next (IsCommitLine p.0) (Next (IsChoicesLine p.1) (IsWorldText p.2)) place text.now) }
    ensures refused { IfErr result (λ e. (e.1 ≡ PlayFault.Memory) ⊎ FailsAtCommit place text.now e.0 e.1) }
{
    match read_commit_line(place, text) {
        Ok((commitment, line)) => match read_choices(alloc, line.place, line.rest) {
            Ok((choices, world)) => Ok((commitment, choices, world)),
            Err((number, fault)) => Err((number, fault)),
        },
        Err((number, fault)) => Err((number, fault)),
    }
}

/// Reads the choices and the world that follows them.
fn read_choices(
    alloc: Global,
    place: u32,
    text: &[u8],
) -> Result<(Choices, World), (u32, PlayFault)>
    requires { place + length text.now < 4294967295 }
    ensures read { IfOk result (λ p. Next (IsChoicesLine p.0) (IsWorldText p.1) place text.now) }
    ensures refused { IfErr result (λ e. (e.1 ≡ PlayFault.Memory) ⊎ FailsAtChoices place text.now e.0 e.1) }
{
    match read_choices_line(alloc, place, text) {
        Ok((choices, line)) => match read_world_behind(alloc, line.place, line.rest) {
            Ok(world) => Ok((choices, world)),
            Err((number, fault)) => Err((number, fault)),
        },
        Err((number, fault)) => Err((number, fault)),
    }
}

/// The first line of the text that isn't blank, where the text follows the physical line `place`; or the number of the line
/// where it is missing.
fn wanted(place: u32, text: &[u8]) -> Result<Physical<'_>, u32>
    requires { place + length text.now < 4294967295 }
    ensures leads { IfOk result (λ p. LeadsTo (place + 1) text.now p.place p.line.now p.rest.now) }
    ensures within { IfOk result (λ p. p.place + length p.rest.now ≤ place + length text.now) }
    ensures fits { IfOk result (λ p. length p.line.now ≤ length text.now) }
    ensures missing { IfErr result (λ n. AreBlank (lines_of text.now) × (n ≡ place + 1)) }
{
    match first_line(text) {
        Some(first) => Ok(Physical {
            place: place + first.place,
            line: first.line,
            rest: first.rest,
        }),
        None => Err(place + 1),
    }
}

/// Reads the sentence's line, which comes next.
fn read_sentence_line(
    alloc: Global,
    place: u32,
    text: &[u8],
) -> Result<(Sent, Physical<'_>), (u32, PlayFault)>
    requires { place + length text.now < 4294967295 }
    ensures read { IfOk result (λ p. IsNext (IsSentenceLine p.0) place text.now p.1.place p.1.line.now p.1.rest.now) }
    ensures within { IfOk result (λ p. p.1.place + length p.1.rest.now ≤ place + length text.now) }
    ensures refused { IfErr result (λ e. (e.1 ≡ PlayFault.Memory) ⊎ StopsAt SentenceFails PlayFault.Form place text.now e.0 e.1) }
{
    match wanted(place, text) {
        Ok(found) => match said_sentence(alloc, found.line) {
            Ok(sentence) => Ok((sentence, found)),
            Err(fault) => Err((found.place, fault)),
        },
        Err(missing) => Err((missing, PlayFault::Form)),
    }
}

/// Reads the commitment's line, which comes next.
fn read_commit_line(place: u32, text: &[u8]) -> Result<(bool, Physical<'_>), (u32, PlayFault)>
    requires { place + length text.now < 4294967295 }
    ensures read { IfOk result (λ p. IsNext (IsCommitLine p.0) place text.now p.1.place p.1.line.now p.1.rest.now) }
    ensures within { IfOk result (λ p. p.1.place + length p.1.rest.now ≤ place + length text.now) }
    ensures refused { IfErr result (λ e. StopsAt CommitFails PlayFault.Form place text.now e.0 e.1) }
{
    match wanted(place, text) {
        Ok(found) => match said_commitment(found.line) {
            Ok(commitment) => Ok((commitment, found)),
            Err(fault) => Err((found.place, fault)),
        },
        Err(missing) => Err((missing, PlayFault::Form)),
    }
}

/// Reads the line of the choices, which comes next.
fn read_choices_line(
    alloc: Global,
    place: u32,
    text: &[u8],
) -> Result<(Choices, Physical<'_>), (u32, PlayFault)>
    requires { place + length text.now < 4294967295 }
    ensures read { IfOk result (λ p. IsNext (IsChoicesLine p.0) place text.now p.1.place p.1.line.now p.1.rest.now) }
    ensures within { IfOk result (λ p. p.1.place + length p.1.rest.now ≤ place + length text.now) }
    ensures refused { IfErr result (λ e. (e.1 ≡ PlayFault.Memory) ⊎ StopsAt ChoicesFails PlayFault.Form place text.now e.0 e.1) }
{
    match wanted(place, text) {
        Ok(found) => match said_choices(alloc, found.line) {
            Ok(choices) => Ok((choices, found)),
            Err(fault) => Err((found.place, fault)),
        },
        Err(missing) => Err((missing, PlayFault::Form)),
    }
}

/// Reads the world, which is all that follows. Its faults are counted on from the line before it.
#[tactic(auto, using(crate::proofs::Worlds::world_place))]
fn read_world_behind(alloc: Global, place: u32, text: &[u8]) -> Result<World, (u32, PlayFault)>
    requires { place + length text.now < 4294967295 }
    ensures read { IfOk result (λ world. IsWorldText world place text.now) }
    ensures refused { IfErr result (λ e. (e.1 ≡ PlayFault.Memory) ⊎ WorldFails place text.now e.0 e.1) }
{
    match read_world(alloc, text) {
        Ok(world) => Ok(world),
        Err((_, WorldFault::Memory)) => Err((place, PlayFault::Memory)),
        Err((line, fault)) => Err((place + line, PlayFault::World(fault))),
    }
}
