//! A list of items that contracts see as a list: the type behind every list of the crates above.
//!
//! Nothing stands below it. It promises the list as it stands after each call; only what adds or copies items takes
//! memory.
#![tactic(auto)]

ghost use Rattle.std.specs.Prelude.{◌≡◌, ◌<◌, [], ◌∷◌, ◌++◌, length, slice_get, IfOk, OnOk, OnErr};
ghost use Rattle.std.specs.Slice.Iter.{iter_rest};

use std::alloc::{AllocError, Global};
use std::marker::Model;
use std::slice;

/// A value of which an equal one can be made, in memory of its own.
pub trait Duplicate: Drop {
    /// An equal value.
    fn copy(&self) -> Result<Self, AllocError>
        ensures { IfOk result (λ copy. copy ≡ self.now) };
}

/// A list of items, in order. It has no limit of its own.
#[derive(Debug, Drop)]
pub struct ItemList<T> {
    items: Vec<T>,
}

impl<T> Model for ItemList<T> {
    ghost use Rattle.std.specs.Prelude.{List};
    ghost use Rattle.std.specs.Coded.{coded_list};

    ghost Value = { List T };

    ghost coded = { coded_list T.code };

    ghost view = { λ list. list.items.items };
}

impl<T> ItemList<T> {
    /// The empty list, which takes no memory yet.
    pub fn new(alloc: Global) -> ItemList<T>
        ensures { result ≡ [] }
    {
        ItemList {
            items: Vec::new(alloc),
        }
    }

    /// The list of the items of a vector.
    pub fn from_vec(items: Vec<T>) -> ItemList<T>
        ensures { result ≡ items.items }
    {
        ItemList { items }
    }

    /// The number of items.
    pub fn len(&self) -> usize
        ensures { result ≡ length self.now }
    {
        self.items.len()
    }

    /// The item at a place, counted from 0.
    pub fn get(&self, i: usize) -> &T
        requires { i < length self.now }
        ensures { slice_get self.now i ≡ Some result.now }
    {
        &self.items[i]
    }

    /// All items in order.
    pub fn as_slice(&self) -> &[T]
        ensures { result.now ≡ self.now }
    {
        self.items.as_slice()
    }

    /// The items one after the other.
    pub fn iter(&self) -> slice::Iter<'_, T>
        ensures { iter_rest result ≡ self.now }
    {
        self.items.iter()
    }
}

impl<'a, T> IntoIterator for &'a ItemList<T> {
    type Item = &'a T;

    type IntoIter = slice::Iter<'a, T>;

    ghost into_iter_gives = { λ list it. iter_rest it ≡ list.now };

    fn into_iter(self) -> Self::IntoIter {
        self.iter()
    }
}

impl<T: Drop> ItemList<T> {
    /// Puts an item at the end. An error drops the item.
    pub fn push(&mut self, item: T) -> Result<(), AllocError>
        ensures ok { OnOk result (self.new ≡ self.old ++ item ∷ []) }
        ensures err { OnErr result (self.new ≡ self.old) }
    {
        self.items.push(item)?;
        Ok(())
    }
}

impl<T: Copy> ItemList<T> {
    /// The list of copies of the items.
    pub fn from_slice(alloc: Global, items: &[T]) -> Result<ItemList<T>, AllocError>
        ensures { IfOk result (λ list. list ≡ items.now) }
    {
        let mut list = ItemList::new(alloc);
        list.extend_from_slice(items)?;
        Ok(list)
    }

    /// Puts copies of the items at the end, all or none of them.
    pub fn extend_from_slice(&mut self, items: &[T]) -> Result<(), AllocError>
        ensures ok { OnOk result (self.new ≡ self.old ++ items.now) }
        ensures err { OnErr result (self.new ≡ self.old) }
    {
        self.items.extend_from_slice(items)
    }
}

impl<T: Duplicate> ItemList<T> {
    /// The list, and after it copies of the items.
    pub fn extended(mut self, items: &[T]) -> Result<ItemList<T>, AllocError>
        ensures { IfOk result (λ list. list ≡ self ++ items.now) }
    {
        for item in items {
            self.push(item.copy()?)?;
        }
        Ok(self)
    }
}

impl<T: Duplicate> Duplicate for ItemList<T> {
    fn copy(&self) -> Result<ItemList<T>, AllocError> {
        let none = ItemList::new(*self.items.allocator());
        none.extended(self.as_slice())
    }
}

#[cfg(test)]
mod tests {
    use super::*;
    use std::test::Fail;

    #[test]
    fn items_in_order(rt: HostRuntime) -> Result<(), Fail> {
        let list = ItemList::from_slice(rt.alloc(), &[3, 1, 4])?;
        let mut items = Vec::new(rt.alloc());
        for item in &list {
            items.push(*item)?;
        }
        let same = ItemList::from_vec(items);
        assert_eq!(rt; same.as_slice(), list.as_slice());
        Ok(())
    }
}
