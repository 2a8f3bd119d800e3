ghost use Rattle.std.specs.Prelude.{◌≡◌, [], ◌∷◌, ◌++◌, ◌≤◌, length, take, OnOk, OnErr, IfErr};

use std::alloc::{AllocError, Global};
use std::marker::Model;
use tableau_laws::Literal;

/// Signed sentences, any number of them and any sentences, that grow at the end and are cut back to a mark. Contracts see the
/// list.
#[derive(Debug, Drop)]
pub struct Trail {
    items: Vec<Literal>,
}

impl Model for Trail {
    ghost use Rattle.std.specs.Prelude.{List};
    ghost use Rattle.std.specs.Coded.{codes};
    ghost use Rattle.fol_core.specs.contracts.sent.Sent as sentences;
    ghost use Rattle.tableau_laws.specs.declared.literal.Literal.{Literal as Signed};

    ghost Value = { List Signed };

    ghost coded = { Prim.hlevel (codes, sentences.the_row.coded) };

    ghost view = { λ t. t.items.items };
}

impl Trail {
    /// The empty trail. It takes no memory until the first item comes.
    pub fn new(alloc: Global) -> Trail
        ensures empty { result ≡ [] }
    {
        Trail {
            items: Vec::new(alloc),
        }
    }

    /// The items in order.
    pub fn as_slice(&self) -> &[Literal]
        ensures value { result.now ≡ self.now }
    {
        self.items.as_slice()
    }

    /// Puts the item last. Where memory is refused, the item comes back and the trail stays as it was.
    pub fn push(&mut self, item: Literal) -> Result<(), (AllocError, Literal)>
        ensures ok { OnOk result (self.new ≡ self.old ++ item ∷ []) }
        ensures err { OnErr result (self.new ≡ self.old) }
        ensures back { IfErr result (λ e. e.1 ≡ item) }
    {
        match self.items.push(item) {
            Ok(()) => Ok(()),
            Err(refused) => Err((AllocError, refused.value)),
        }
    }

    /// The mark by which `undo` comes back to here: the number of items.
    pub fn mark(&self) -> u64
        ensures value { result ≡ length self.now }
    {
        self.items.len() as u64
    }

    /// Leaves the first `mark` items.
    pub fn undo(&mut self, mark: u64)
        requires there { mark ≤ length self.old }
        ensures value { self.new ≡ take mark self.old }
    {
        self.items.truncate(mark as usize);
    }
}
