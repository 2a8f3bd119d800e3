ghost use Rattle.std.specs.Prelude.{◌≡◌, ◌++◌, ◌∷◌, [], IfOk, OnOk};
ghost use Rattle.tutor_app.specs.World as spec;
ghost use Rattle.tutor_app.specs.World.{world_answers};
ghost use Rattle.tutor_app.specs.WorldLaws.{world_known, world_only};

use crate::report::list_reply;
use crate::tool::{Reply, Tool};
use crate::transfer::INPUT_LIMIT;
use block_world::{TruthFault, World, truth};
use edge_io::Bytes;
use fault_words::truth_fault_text;
use fol_core::Sent;
use sentence_lists::read_sentences;
use std::alloc::{AllocError, Global};

/// The command `world`: reads a list of sentences, and says of each whether it is true in the world.
#[derive(Drop)]
pub struct Evaluate {
    pub world: World,
}

impl Tool for Evaluate {
    ghost answers = { λ tool. world_answers tool.world };

    ghost known = { λ tool bytes reply is. world_known tool.world bytes reply is };

    ghost only = { λ tool bytes r q is also. world_only tool.world bytes r q is also };

    fn answer(&self, alloc: Global, input: &[u8]) -> Result<Reply, AllocError> {
        match read_sentences(alloc, input, INPUT_LIMIT) {
            Ok(sentences) => Ok(Reply {
                code: 0,
                text: answer_lines(alloc, &self.world, sentences.as_slice())?,
            }),
            Err((line, fault)) => list_reply(alloc, line, fault),
        }
    }
}

/// A line for each sentence, in order, with the answer on it in the world.
#[tactic(auto, using(crate::proofs::Evaluating::lines_step))]
fn answer_lines(alloc: Global, world: &World, sentences: &[Sent]) -> Result<Bytes, AllocError>
    ensures lines { IfOk result (λ text. text ≡ spec.answer_lines world.now sentences.now) }
{
    let mut text = Bytes::new(alloc);
    for sentence in sentences {
        add_answer(&mut text, truth(world, sentence))?;
    }
    Ok(text)
}

/// Adds a line with the answer.
fn add_answer(text: &mut Bytes, answer: Result<bool, TruthFault>) -> Result<(), AllocError>
    ensures line { OnOk result (text.new ≡ text.old ++ (spec.answer_word answer ++ 10 ∷ [])) }
{
    text.extend(answer_word(answer))?;
    text.add(b'\n')
}

/// The word for the answer on a sentence.
fn answer_word(answer: Result<bool, TruthFault>) -> &'static [u8]
    ensures word { result.now ≡ spec.answer_word answer }
{
    match answer {
        Ok(true) => b"true",
        Ok(false) => b"false",
        Err(fault) => truth_fault_text(fault),
    }
}
