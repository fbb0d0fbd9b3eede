// Lists of 1 to 16 items.
ghost use Rattle.std.specs.Prelude.{◌≡◌, [], ◌∷◌, ◌++◌, ◌<◌, ◌≤◌, length, slice_get, Some, IfOk, OnOk, OnErr};
ghost use Rattle.halo_status.specs.Bounds.{IsShort};

use crate::Memory;
use std::alloc::Global;
use std::marker::Model;

/// The most items that a short list can have.
pub const MOST_ITEMS: usize = 16;

/// A list of 1 to 16 items, seen as that list.
#[derive(Debug, Drop)]
pub struct ShortList<T> {
    items: Vec<T>,
}

impl<T> Model for ShortList<T> {
    ghost use Rattle.std.specs.Prelude.{◌≡◌, List, length, true};
    ghost use Rattle.std.specs.Coded.{coded_list};
    ghost use Rattle.halo_status.specs.Bounds.{is_short};

    ghost Value = { List T };

    ghost coded = { coded_list T.code };

    ghost view = { λ list. list.items.items };

    ghost invariant = { λ list. is_short (length list.items.items) ≡ true };
}

impl<T> ShortList<T> {
    /// How many items there are, from 1 to 16.
    pub fn len(&self) -> usize
        ensures value { result ≡ length self.now }
        ensures some { 1 ≤ result }
        ensures few { result ≤ MOST_ITEMS }
    {
        self.items.len()
    }

    /// The item at place `i`, from 0.
    pub fn at(&self, i: usize) -> &T
        requires { i < length self.now }
        ensures { slice_get self.now i ≡ Some result.now }
    {
        &self.items[i]
    }

    // The items in their order.
    pub(crate) fn as_slice(&self) -> &[T]
        ensures items { result.now ≡ self.now }
        ensures short { IsShort (length self.now) }
    {
        self.items.as_slice()
    }
}

impl<T: Drop> ShortList<T> {
    /// A list of one item. Where there is no memory, the item is dropped.
    pub fn new(alloc: Global, first: T) -> Result<ShortList<T>, Memory>
        ensures { IfOk result (λ list. list ≡ first ∷ []) }
    {
        let mut items = Vec::new(alloc);
        items.push(first).map_err(|_| Memory)?;
        Ok(ShortList { items })
    }

    /// Adds an item at the end. Where there is no memory, the list is as before and the item is
    /// dropped.
    pub fn push(&mut self, item: T) -> Result<(), Memory>
        requires { length self.old < MOST_ITEMS }
        ensures added { OnOk result (self.new ≡ self.old ++ item ∷ []) }
        ensures unchanged { OnErr result (self.new ≡ self.old) }
    {
        self.items.push(item).map_err(|_| Memory)?;
        Ok(())
    }
}
