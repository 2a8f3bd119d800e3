ghost use Rattle.std.specs.Prelude.{◌≡◌, [], ◌∷◌, ◌++◌, ◌≤◌, length, IfOk, IfErr, OnOk, OnErr};

use crate::listed::Listed;
use std::alloc::{AllocError, Global};
use std::marker::Model;

/// A list of at least one item, as the arguments of a function are. Contracts see it as those items.
#[derive(Debug, Drop)]
pub struct Nonempty<T> {
    items: Vec<T>,
}

impl<T> Model for Nonempty<T> {
    ghost use Rattle.std.specs.Coded.{coded_list};
    ghost use Rattle.std.specs.Prelude.{List, length, ◌≤◌};

    ghost Value = { List T };

    ghost coded = { coded_list T.code };

    ghost view = { λ l. l.items.items };

    ghost invariant = { λ l. 1 ≤ length l.items.items };
}

impl<T> Nonempty<T> {
    /// The same items, of which there is one or more. It moves no item.
    pub fn of(items: Listed<T>) -> Nonempty<T>
        requires { 1 ≤ length items }
        ensures value { result ≡ items }
    {
        Nonempty {
            items: items.into_vec(),
        }
    }

    /// The items in order.
    pub fn as_slice(&self) -> &[T]
        ensures value { result.now ≡ self.now }
        ensures one { 1 ≤ length self.now }
    {
        self.items.as_slice()
    }

    /// Puts the item last. Where memory is refused, the item comes back and the list stays as it was.
    pub fn push(&mut self, item: T) -> Result<(), (AllocError, T)>
        ensures ok { OnOk result (self.new ≡ self.old ++ item ∷ []) }
        ensures err { OnErr result (self.new ≡ self.old) }
        ensures back { IfErr result (λ e. e.1 ≡ item) }
    {
        match self.items.push(item) {
            Ok(()) => Ok(()),
            Err(refused) => Err((AllocError, refused.value)),
        }
    }
}

impl<T: Drop> Nonempty<T> {
    /// The list of this one item. Where memory is refused, it is dropped.
    pub fn one(alloc: Global, item: T) -> Result<Nonempty<T>, AllocError>
        ensures value { IfOk result (λ alone. alone ≡ item ∷ []) }
    {
        let mut items = Vec::new(alloc);
        items.push(item)?;
        Ok(Nonempty { items })
    }
}
