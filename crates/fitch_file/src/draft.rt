ghost use Rattle.std.specs.Prelude.{◌≡◌, [], None, MatchOption};
ghost use Rattle.fitch_file.specs.Declarations.{nothing};
ghost use Rattle.fitch_file.specs.TaskText.{IsFinished, allowed_of};

use crate::task::{Allowed, Task};
use fol_core::{Sent, Sents};
use lists::Listed;
use std::alloc::Global;

/// What the lines of a task have declared so far.
#[derive(Drop)]
pub struct Draft {
    pub premises: Sents,
    pub goal: Option<Sent>,
    /// The consequence rules, once a line has said which are allowed.
    pub allowed: Option<Allowed>,
}

impl Draft {
    /// Nothing is declared yet.
    pub(crate) fn new(alloc: Global) -> Draft
        ensures { result ≡ nothing }
    {
        Draft {
            premises: Listed::new(alloc),
            goal: None,
            allowed: None,
        }
    }

    /// The task, where a goal is declared.
    pub(crate) fn task(self) -> Option<Task>
        ensures { MatchOption result (self.goal ≡ None) (IsFinished self) }
    {
        let Draft {
            premises,
            goal,
            allowed,
        } = self;
        match goal {
            Some(goal) => Some(Task {
                premises,
                goal,
                allowed: rules_of(allowed),
            }),
            None => None,
        }
    }
}

/// The consequence rules that are allowed: none where no line says so.
fn rules_of(allowed: Option<Allowed>) -> Allowed
    ensures { result ≡ allowed_of allowed }
{
    match allowed {
        Some(rules) => rules,
        None => Allowed {
            taut: false,
            fo: false,
            ana: false,
        },
    }
}
