ghost use Rattle.std.specs.Prelude.{◌≡◌, [], ◌∷◌, ◌++◌, ◌≤◌, length, IfOk, IfErr, OnOk, OnErr};

use crate::listed::Listed;
use std::alloc::{AllocError, Global};
use std::marker::Model;

/// A list of at least two items, as the parts of a conjunction are. Contracts see it as those items.
#[derive(Debug, Drop)]
pub struct Several<T> {
    items: Vec<T>,
}

impl<T> Model for Several<T> {
    ghost use Rattle.std.specs.Coded.{coded_list};
    ghost use Rattle.std.specs.Prelude.{List, length, ◌≤◌};

    ghost Value = { List T };

    ghost coded = { coded_list T.code };

    ghost view = { λ l. l.items.items };

    ghost invariant = { λ l. 2 ≤ length l.items.items };
}

impl<T> Several<T> {
    /// The same items, of which there are two or more. It moves no item.
    pub fn of(items: Listed<T>) -> Several<T>
        requires { 2 ≤ length items }
        ensures value { result ≡ items }
    {
        Several {
            items: items.into_vec(),
        }
    }

    /// The items in order.
    pub fn as_slice(&self) -> &[T]
        ensures value { result.now ≡ self.now }
        ensures two { 2 ≤ length self.now }
    {
        self.items.as_slice()
    }

    /// Puts the item last. Where memory is refused, the item comes back and the list stays as it was.
    pub fn push(&mut self, item: T) -> Result<(), (AllocError, T)>
        ensures ok { OnOk result (self.new ≡ self.old ++ item ∷ []) }
        ensures err { OnErr result (self.new ≡ self.old) }
        ensures back { IfErr result (λ e. e.1 ≡ item) }
    {
        match self.items.push(item) {
            Ok(()) => Ok(()),
            Err(refused) => Err((AllocError, refused.value)),
        }
    }
}

impl<T: Drop> Several<T> {
    /// The list of these two, in this order. Where memory is refused, both are dropped.
    pub fn pair(alloc: Global, first: T, second: T) -> Result<Several<T>, AllocError>
        ensures value { IfOk result (λ both. both ≡ first ∷ second ∷ []) }
    {
        let mut items = Vec::new(alloc);
        items.push(first)?;
        items.push(second)?;
        Ok(Several { items })
    }
}
