//! Growing lists.
ghost use Rattle.std.specs.Prelude.{◌≡◌, ◌<◌, [], ◌∷◌, ◌++◌, length, set, OnOk, IfOk, IfErr, OnErr, slice_get, Some, option_to_list, ◌↔◌, IsNone, IsTrue};
ghost use Rattle.std.specs.Cmp.Lexicographic.{pointwise, lists_equiv, lists_per};
ghost use Rattle.std.specs.Hash as fed;
ghost use Rattle.std.specs.Hash.{items_Alike};

use std::alloc::{AllocError, Global};
use std::hash::{Hash, Hasher};
use std::marker::Model;
use std::mem;

/// A growing list, which contracts see as the list of its items.
#[derive(Debug, Drop)]
pub struct Items<T> {
    inner: Vec<T>,
}

/// A list of bytes.
pub type ByteList = Items<u8>;

impl<T> Model for Items<T> {
    ghost use Rattle.std.specs.Prelude.{List};
    ghost use Rattle.std.specs.Coded.{coded_list};

    ghost Value = { List T };

    ghost coded = { coded_list T.code };

    ghost view = { λ a. a.inner.items };
}

impl<T> Items<T> {
    /// The list of no items. It takes memory from `alloc` when it grows.
    pub fn new(alloc: Global) -> Items<T>
        ensures { result ≡ [] }
    {
        Items {
            inner: Vec::new(alloc),
        }
    }

    /// The list of no items, with room for `count` of them; `Err` for want of memory.
    pub fn with_capacity(alloc: Global, count: usize) -> Result<Items<T>, AllocError>
        ensures { IfOk result (λ items. items ≡ []) }
    {
        let inner = Vec::with_capacity(alloc, count)?;
        Ok(Items { inner })
    }

    /// The list of the items of `items`, without taking memory.
    pub fn from_vec(items: Vec<T>) -> Items<T>
        ensures { result ≡ items.items }
    {
        Items { inner: items }
    }

    /// The items as a `Vec`, without taking memory.
    pub fn into_vec(self) -> Vec<T>
        ensures { result.items ≡ self }
    {
        let Items { inner } = self;
        inner
    }

    /// Appends an item, or hands it back for want of memory.
    pub fn push(&mut self, item: T) -> Result<(), (T, AllocError)>
        ensures ok { OnOk result (self.new ≡ self.old ++ item ∷ []) }
        ensures err { OnErr result (self.new ≡ self.old) }
        ensures returned { IfErr result (λ error. error.0 ≡ item) }
    {
        match self.inner.push(item) {
            Ok(()) => Ok(()),
            Err(failed) => Err((failed.value, AllocError)),
        }
    }

    /// Moves all items of `more` behind those that are there, or none of them for want of memory.
    pub fn append(&mut self, more: &mut Items<T>) -> Result<(), AllocError>
        ensures ok { OnOk result (self.new ≡ self.old ++ more.old) }
        ensures moved { OnOk result (more.new ≡ []) }
        ensures err { OnErr result ((self.new ≡ self.old) × (more.new ≡ more.old)) }
    {
        self.inner.append(&mut more.inner)
    }

    /// Makes room for `more` items behind those that are there, so that appending them needn't move the list. The items
    /// stay as they are, also on `Err`, want of memory. No contract sees the room: what must not fail later goes into a
    /// `Vec` with room, and `from_vec`.
    pub fn reserve(&mut self, more: usize) -> Result<(), AllocError>
        ensures { self.new ≡ self.old }
    {
        self.inner.reserve(more)
    }

    /// Puts `item` in the place of the one with the number `i`, from 0, and gives the old one back. It takes no memory.
    pub fn replace(&mut self, i: usize, item: T) -> T
        requires { i < length self.old }
        ensures items { self.new ≡ set self.old i item }
        ensures taken { slice_get self.old i ≡ Some result }
    {
        mem::replace(&mut self.inner[i], item)
    }

    /// Takes the last item. It takes no memory.
    pub fn pop(&mut self) -> Option<T>
        ensures items { self.old ≡ self.new ++ option_to_list result }
        ensures none { IsNone result ↔ (self.old ≡ []) }
    {
        self.inner.pop()
    }

    /// The number of items.
    pub fn len(&self) -> usize
        ensures { result ≡ length self.now }
    {
        self.inner.len()
    }

    /// Whether there is no item.
    pub fn is_empty(&self) -> bool
        ensures { IsTrue result ↔ (self.now ≡ []) }
    {
        self.inner.is_empty()
    }

    /// The item with the number `i`, from 0.
    pub fn get(&self, i: usize) -> &T
        requires { i < length self.now }
        ensures { slice_get self.now i ≡ Some result.now }
    {
        &self.inner[i]
    }

    /// The items as a slice.
    pub fn as_slice(&self) -> &[T]
        ensures { result.now ≡ self.now }
    {
        self.inner.as_slice()
    }
}

impl<T: Drop> Items<T> {
    /// Appends an item, or drops it for want of memory.
    pub fn add(&mut self, item: T) -> Result<(), AllocError>
        ensures ok { OnOk result (self.new ≡ self.old ++ item ∷ []) }
        ensures err { OnErr result (self.new ≡ self.old) }
    {
        self.inner.push(item)?;
        Ok(())
    }

    /// Puts `item` in the place of the one with the number `i`, from 0, which is dropped. It takes no memory.
    pub fn set(&mut self, i: usize, item: T)
        requires { i < length self.old }
        ensures { self.new ≡ set self.old i item }
    {
        self.inner[i] = item;
    }
}

/// Lists are equal where they are as long, and their items are equal one by one.
impl<T: PartialEq> PartialEq for Items<T> {
    ghost eq = { pointwise T.eq };

    ghost laws = { lists_per T.laws };

    fn eq(&self, other: &Items<T>) -> bool {
        self.inner == other.inner
    }
}

impl<T: Eq> Eq for Items<T> {
    ghost laws = { lists_equiv T.Eq.laws };
}

/// A list is hashed as a slice of its items.
impl<T: Hash> Hash for Items<T> {
    ghost hash_input = { fed.slice T.hash_input };

    ghost respects_eq = { (items_Alike (record { fed = T.respects_eq })).fed };

    fn hash<H: Hasher>(&self, state: &mut H) {
        self.as_slice().hash(state);
    }
}
