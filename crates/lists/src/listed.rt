ghost use Rattle.std.specs.Prelude.{◌≡◌, [], ◌∷◌, ◌++◌, length, take, IfErr, OnOk, OnErr};

use std::alloc::{AllocError, Global};
use std::marker::Model;

/// A list of any number of items. Contracts see it as those items, so that two lists with the same items are equal.
#[derive(Debug, Drop)]
pub struct Listed<T> {
    pub(crate) items: Vec<T>,
}

impl<T> Model for Listed<T> {
    ghost use Rattle.std.specs.Prelude.{List};
    ghost use Rattle.std.specs.Coded.{coded_list};

    ghost Value = { List T };

    ghost coded = { coded_list T.code };

    ghost view = { λ l. l.items.items };
}

impl<T> Listed<T> {
    /// The empty list. It takes no memory until the first item comes.
    pub fn new(alloc: Global) -> Listed<T>
        ensures empty { result ≡ [] }
    {
        Listed {
            items: Vec::new(alloc),
        }
    }

    /// Wraps the vector, which moves no item.
    pub fn from_vec(items: Vec<T>) -> Listed<T>
        ensures value { result ≡ items.items }
    {
        Listed { items }
    }

    /// The vector inside, which moves no item.
    pub fn into_vec(self) -> Vec<T>
        ensures value { result.items ≡ self }
    {
        let Listed { items } = self;
        items
    }

    /// The items in order.
    pub fn as_slice(&self) -> &[T]
        ensures value { result.now ≡ self.now }
    {
        self.items.as_slice()
    }

    /// The number of items.
    pub fn len(&self) -> usize
        ensures value { result ≡ length self.now }
    {
        self.items.len()
    }

    /// Puts the item last. Where memory is refused, the item comes back and the list stays as it was.
    pub fn push(&mut self, item: T) -> Result<(), (AllocError, T)>
        ensures ok { OnOk result (self.new ≡ self.old ++ item ∷ []) }
        ensures err { OnErr result (self.new ≡ self.old) }
        ensures back { IfErr result (λ e. e.1 ≡ item) }
    {
        match self.items.push(item) {
            Ok(()) => Ok(()),
            Err(refused) => Err((AllocError, refused.value)),
        }
    }
}

impl<T: Drop> Listed<T> {
    /// Puts the item last. Where memory is refused, the item is dropped and the list stays as it was.
    pub fn add(&mut self, item: T) -> Result<(), AllocError>
        ensures ok { OnOk result (self.new ≡ self.old ++ item ∷ []) }
        ensures err { OnErr result (self.new ≡ self.old) }
    {
        self.items.push(item)?;
        Ok(())
    }

    /// Moves the items of `more` to the end. Where memory is refused, `more` is dropped and the list stays as it was.
    pub fn append(&mut self, more: Listed<T>) -> Result<(), AllocError>
        ensures ok { OnOk result (self.new ≡ self.old ++ more) }
        ensures err { OnErr result (self.new ≡ self.old) }
    {
        let Listed { mut items } = more;
        self.items.append(&mut items)
    }

    /// Keeps the first `count` items, or all where there are fewer.
    pub fn truncate(&mut self, count: usize)
        ensures value { self.new ≡ take count self.old }
    {
        self.items.truncate(count);
    }
}
