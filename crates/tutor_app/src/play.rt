ghost use Rattle.std.specs.Prelude.{◌≡◌, ◌≢◌, ◌++◌, ◌∷◌, [], IfOk, IsTrue, Ok, OnOk, codes};
ghost use Rattle.fol_core.specs.Closed.{closed};
ghost use Rattle.fol_core.specs.Size.{within_limits};
ghost use Rattle.hintikka_game.specs.declared.game.GameFault.TheVariants as fault_of_game;
ghost use Rattle.play_text.specs.declared.play.PlayFault.TheVariants as fault_of_text;
ghost use Rattle.fault_words.specs.Numbered as numbered;
ghost use Rattle.fault_words.specs.WorldFaults as faults;
ghost use Rattle.tutor_app.specs.Play as spec;
ghost use Rattle.tutor_app.specs.Play.{play_answers, IsPlayReply};
ghost use Rattle.tutor_app.specs.PlayLaws.{play_known, play_only};
ghost use Rattle.tutor_app.specs.Report as report;

use crate::report::unreadable;
use crate::tool::{Reply, Tool};
use edge_io::Bytes;
use fault_words::{game_fault_text, play_fault_text, with_number};
use hintikka_game::{GameFault, Move, PlayEnd, Played, replay};
use play_text::{Play, PlayFault, read_play};
use std::alloc::{AllocError, Global};

/// The command `play`: reads a play, and plays the game with the choices that it gives.
pub struct PlayGame;

impl Tool for PlayGame {
    ghost answers = { λ _. play_answers };

    ghost known = { λ _ bytes reply is. play_known bytes reply is };

    ghost only = { λ _ bytes r q is also. play_only bytes r q is also };

    fn answer(&self, alloc: Global, input: &[u8]) -> Result<Reply, AllocError> {
        match read_play(alloc, input) {
            Ok(play) => replayed(alloc, &play),
            Err((line, fault)) => faulty(alloc, line, fault),
        }
    }
}

/// The reply to an input whose physical line `line` has this fault as a play text.
fn faulty(alloc: Global, line: u32, fault: PlayFault) -> Result<Reply, AllocError>
    ensures reply { IfOk result (λ reply. (fault ≢ fault_of_text.Memory) × (reply ≡ report.unreadable_reply line (faults.play_fault_text fault))) }
{
    match fault {
        PlayFault::Memory => Err(AllocError),
        fault => unreadable(
            alloc,
            u64::from(line),
            &Bytes::from_slice(alloc, play_fault_text(fault))?,
        ),
    }
}

/// The reply to a play.
fn replayed(alloc: Global, play: &Play) -> Result<Reply, AllocError>
    requires closed { IsTrue (closed play.now.sentence) }
    requires limits { within_limits play.now.sentence ≡ Ok tt }
    ensures reply { IfOk result (λ reply. IsPlayReply play.now reply) }
{
    let choices = play.choices.as_slice();
    match replay(alloc, &play.world, &play.sentence, play.commitment, choices) {
        Ok(played) => told(alloc, &played),
        Err(fault) => refused(alloc, fault),
    }
}

/// The reply with what was played.
fn told(alloc: Global, played: &Played) -> Result<Reply, AllocError>
    ensures reply { IfOk result (λ reply. reply ≡ spec.played_reply played.now) }
{
    Ok(Reply {
        code: 0,
        text: played_text(alloc, played)?,
    })
}

/// The reply that names a refusal.
fn refused(alloc: Global, fault: GameFault) -> Result<Reply, AllocError>
    ensures reply { IfOk result (λ reply. (fault ≢ fault_of_game.Memory) × (reply ≡ spec.refused_reply (faults.game_fault_text fault))) }
{
    match fault {
        GameFault::Memory => Err(AllocError),
        fault => refusal(alloc, fault),
    }
}

fn refusal(alloc: Global, fault: GameFault) -> Result<Reply, AllocError>
    ensures reply { IfOk result (λ reply. reply ≡ spec.refused_reply (faults.game_fault_text fault)) }
{
    let mut line = Bytes::from_slice(alloc, b"refused ")?;
    line.append(game_fault_text(alloc, fault)?)?;
    line.add(b'\n')?;
    Ok(Reply {
        code: 3,
        text: line,
    })
}

/// A line for each move, a line for the end, and one for the first losing choice, where there is one.
fn played_text(alloc: Global, played: &Played) -> Result<Bytes, AllocError>
    ensures text { IfOk result (λ text. text ≡ spec.played_text played.now) }
{
    let mut text = moves_text(alloc, played.moves.as_slice())?;
    text.append(end_text(alloc, played.end)?)?;
    text.add(b'\n')?;
    text.append(losing_line(alloc, played.first_losing)?)?;
    Ok(text)
}

fn losing_line(alloc: Global, first_losing: Option<u32>) -> Result<Bytes, AllocError>
    ensures text { IfOk result (λ text. text ≡ spec.losing_line first_losing) }
{
    match first_losing {
        Some(choice) => numbered_line(alloc, b"first losing choice", choice),
        None => Ok(Bytes::new(alloc)),
    }
}

/// The word and the number behind it, as a line.
fn numbered_line(alloc: Global, word: &[u8], number: u32) -> Result<Bytes, AllocError>
    ensures text { IfOk result (λ text. text ≡ numbered.with_number word.now number ++ 10 ∷ []) }
{
    let mut line = with_number(alloc, word, number)?;
    line.add(b'\n')?;
    Ok(line)
}

fn moves_text(alloc: Global, moves: &[Move]) -> Result<Bytes, AllocError>
    ensures text { IfOk result (λ text. text ≡ spec.moves_text moves.now) }
{
    let mut text = Bytes::new(alloc);
    for made in moves {
        add_move(alloc, *made, &mut text)?;
    }
    Ok(text)
}

fn add_move(alloc: Global, made: Move, text: &mut Bytes) -> Result<(), AllocError>
    ensures line { OnOk result (text.new ≡ text.old ++ (spec.move_text made ++ 10 ∷ [])) }
{
    text.append(move_text(alloc, made)?)?;
    text.add(b'\n')
}

fn move_text(alloc: Global, made: Move) -> Result<Bytes, AllocError>
    ensures text { IfOk result (λ text. text ≡ spec.move_text made) }
{
    match made {
        Move::You(choice) => with_number(alloc, b"you", choice),
        Move::Machine(choice) => with_number(alloc, b"machine", choice),
        Move::Flip => Bytes::from_slice(alloc, b"flip"),
        Move::Rewrite => Bytes::from_slice(alloc, b"rewrite"),
    }
}

fn end_text(alloc: Global, end: PlayEnd) -> Result<Bytes, AllocError>
    ensures text { IfOk result (λ text. text ≡ spec.end_text end) }
{
    match end {
        PlayEnd::Won => Bytes::from_slice(alloc, b"won"),
        PlayEnd::Lost => Bytes::from_slice(alloc, b"lost"),
        PlayEnd::Waiting(count) => with_number(alloc, b"waiting", count),
    }
}
