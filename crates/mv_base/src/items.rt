ghost use Rattle.std.specs.Prelude.{◌≡◌, ◌==◌, ◌<◌, ◌≤◌, ◌∷◌, ◌++◌, [], length, slice_get, slice_set, take};
ghost use Rattle.std.specs.Prelude.{option_copied, IfOk, IfNone, IfSome, OnOk, OnErr, IfErr, Some};
ghost use Rattle.std.specs.List.{insert, remove};

use crate::{Memory, Name};
use std::alloc::{AllocFailed, Global};
use std::marker::Model;

/// A list, seen by contracts as its elements and never as the room kept for them.
#[derive(Debug, Drop)]
pub struct Items<T> {
    list: Vec<T>,
}

impl<T> Model for Items<T> {
    ghost use Rattle.std.specs.Prelude.{List};

    ghost Value = { List T };

    ghost view = { λ a. a.list.items };
}

impl<T> Items<T> {
    /// The list without elements. It takes no memory.
    pub fn new(alloc: Global) -> Self
        ensures { result ≡ [] }
    {
        Items {
            list: Vec::new(alloc),
        }
    }

    /// The list without elements, with room for so many.
    pub fn with_room(alloc: Global, room: usize) -> Result<Self, Memory>
        ensures { IfOk result (λ list. list ≡ []) }
    {
        Ok(Items {
            list: Vec::with_capacity(alloc, room)?,
        })
    }

    /// The list of a vector's elements.
    pub fn of(list: Vec<T>) -> Self
        ensures { result ≡ list.items }
    {
        Items { list }
    }

    /// The vector of the list's elements.
    pub fn into_vec(self) -> Vec<T>
        ensures { result.items ≡ self }
    {
        self.list
    }

    /// Gives back the room that no element stands in.
    pub fn shrink_to_fit(&mut self)
        ensures { self.new ≡ self.old }
    {
        self.list.shrink_to_fit();
    }

    /// The elements.
    pub fn as_slice(&self) -> &[T]
        ensures { result.now ≡ self.now }
    {
        self.list.as_slice()
    }

    /// How many elements there are.
    pub fn len(&self) -> usize
        ensures { result ≡ length self.now }
    {
        self.list.len()
    }

    /// The allocator that the list got when it was made.
    pub fn allocator(&self) -> Global {
        *self.list.allocator()
    }

    /// Whether there are no elements.
    pub fn is_empty(&self) -> bool
        ensures { result ≡ (length self.now == 0) }
    {
        self.list.is_empty()
    }

    /// The element at the place, if there is one.
    pub fn get(&self, index: usize) -> Option<&T>
        ensures { option_copied result ≡ slice_get self.now index }
    {
        self.list.get(index)
    }

    /// Adds an element at the end. On an error the list is as before.
    pub fn push(&mut self, item: T) -> Result<(), AllocFailed<T>>
        ensures ok { OnOk result (self.new ≡ self.old ++ item ∷ []) }
        ensures err { OnErr result (self.new ≡ self.old) }
        ensures item { IfErr result (λ failed. failed.value ≡ item) }
    {
        self.list.push(item)
    }

    /// Puts an element at the place, before those from there on. On an error the list is as before.
    pub fn insert(&mut self, index: usize, item: T) -> Result<(), AllocFailed<T>>
        requires { index ≤ length self.old }
        ensures ok { OnOk result (self.new ≡ insert self.old index item) }
        ensures err { OnErr result (self.new ≡ self.old) }
        ensures item { IfErr result (λ failed. failed.value ≡ item) }
    {
        self.list.insert(index, item)
    }

    /// Takes the element at the place; those behind it close up.
    pub fn remove(&mut self, index: usize) -> T
        requires { index < length self.old }
        ensures items { self.new ≡ remove self.old index }
        ensures before { slice_get self.old index ≡ Some result }
    {
        self.list.remove(index)
    }

    /// Keeps the first `len` elements.
    pub fn truncate(&mut self, len: usize)
    where
        T: Drop,
        ensures { self.new ≡ take len self.old }
    {
        self.list.truncate(len);
    }

    /// Takes the last element, if there is one.
    pub fn pop(&mut self) -> Option<T>
        ensures some { IfSome result (λ item. self.old ≡ self.new ++ item ∷ []) }
        ensures none { IfNone result ((self.old ≡ []) × (self.new ≡ [])) }
    {
        self.list.pop()
    }

    /// Puts the element at the place, and answers the one that stood there.
    pub fn replace(&mut self, index: usize, item: T) -> T
        requires { index < length self.old }
        ensures items { self.new ≡ slice_set self.old index item }
        ensures before { slice_get self.old index ≡ Some result }
    {
        std::mem::replace(&mut self.list[index], item)
    }
}

impl<T: Copy> Items<T> {
    /// An equal list.
    pub fn copy(&self) -> Result<Items<T>, Memory>
        ensures { IfOk result (λ c. c ≡ self.now) }
    {
        let list = Vec::from_slice(self.allocator(), self.list.as_slice())?;
        Ok(Items { list })
    }
}

impl Items<Name> {
    /// The list of these names.
    pub fn of_names(alloc: Global, names: &[Name]) -> Result<Items<Name>, Memory>
        ensures { IfOk result (λ list. list ≡ names.now) }
    {
        let mut list = Items::with_room(alloc, names.len())?;
        for name in names {
            list.push(name.copy()?)?;
        }
        Ok(list)
    }

    /// An equal list of names.
    pub fn copy_names(&self) -> Result<Items<Name>, Memory>
        ensures { IfOk result (λ c. c ≡ self.now) }
    {
        Items::of_names(self.allocator(), self.as_slice())
    }
}
