ghost use Rattle.std.specs.Prelude.{◌≡◌, ◌↔◌, ◌≤◌, ◌<◌, [], ◌∷◌, ◌++◌, length, insert, slice_set, IsTrue, OnOk, OnErr};

use crate::{OutOfMemory, Plain};
use std::alloc::Global;
use std::marker::Model;

/// Items in order. A contract sees the list of them.
#[derive(Debug, Drop)]
pub struct ListOf<T> {
    held: Vec<T>,
}

impl<T> Model for ListOf<T> {
    ghost use Rattle.std.specs.Prelude.{List};
    ghost use Rattle.std.specs.Coded.{coded_list};

    ghost Value = { List T };

    ghost coded = { coded_list T.code };

    ghost view = { λ l. l.held.items };
}

impl<T> ListOf<T> {
    /// The empty list, which takes no memory yet.
    pub fn new(alloc: Global) -> ListOf<T>
        ensures { result ≡ [] }
    {
        ListOf {
            held: Vec::new(alloc),
        }
    }

    /// These items, without a copy.
    pub fn from_vec(held: Vec<T>) -> ListOf<T>
        ensures { result ≡ held.items }
    {
        ListOf { held }
    }

    pub fn items(&self) -> &[T]
        ensures { result.now ≡ self.now }
    {
        self.held.as_slice()
    }

    /// The items, without a copy.
    pub fn into_vec(self) -> Vec<T>
        ensures { result.items ≡ self }
    {
        self.held
    }

    pub fn is_empty(&self) -> bool
        ensures { IsTrue result ↔ (self.now ≡ []) }
    {
        self.held.is_empty()
    }
}

impl<T: Drop> ListOf<T> {
    /// Puts an item at the end.
    pub fn push(&mut self, item: T) -> Result<(), OutOfMemory>
        ensures ok { OnOk result (self.new ≡ self.old ++ item ∷ []) }
        ensures err { OnErr result (self.new ≡ self.old) }
    {
        self.held.push(item)?;
        Ok(())
    }

    /// Puts these items at the end, in order. They are moved, not copied.
    pub fn append(&mut self, more: ListOf<T>) -> Result<(), OutOfMemory>
        ensures ok { OnOk result (self.new ≡ self.old ++ more) }
        ensures err { OnErr result (self.new ≡ self.old) }
    {
        let ListOf { held: mut items } = more;
        self.held.append(&mut items)?;
        Ok(())
    }

    /// Puts an item before the one at that place.
    pub fn insert(&mut self, place: usize, item: T) -> Result<(), OutOfMemory>
        requires { place ≤ length self.old }
        ensures ok { OnOk result (self.new ≡ insert self.old place item) }
        ensures err { OnErr result (self.new ≡ self.old) }
    {
        self.held.insert(place, item)?;
        Ok(())
    }

    /// Puts an item in place of the one there.
    pub fn set(&mut self, place: usize, item: T)
        requires { place < length self.old }
        ensures { self.new ≡ slice_set self.old place item }
    {
        self.held[place] = item;
    }
}

impl<T: Plain> Plain for ListOf<T> {
    fn copy(&self, alloc: Global) -> Result<ListOf<T>, OutOfMemory> {
        let mut held = Vec::with_capacity(alloc, self.held.len())?;
        for item in &self.held {
            held.push(item.copy(alloc)?)?;
        }
        Ok(ListOf { held })
    }
}
