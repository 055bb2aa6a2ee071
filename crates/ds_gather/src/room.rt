//! Lists with room for more: what is put in up to their room takes no memory.
ghost use Rattle.std.specs.Prelude.{◌≡◌, ◌+◌, ◌<◌, ◌≤◌, [], ◌∷◌, ◌++◌, length, OnOk, OnErr};

use std::alloc::{AllocError, Global};
use std::marker::Model;

/// A list and how many items it has room for. A contract sees both.
#[derive(Drop)]
pub(crate) struct Room<T> {
    items: Vec<T>,
    size: usize,
}

impl<T> Model for Room<T> {
    ghost use Rattle.std.specs.Prelude.{◌≡◌, ◌≤◌, List, length, vec_len, vec_capacity};
    ghost use Rattle.ds_gather.specs.Roomy.{Roomy};

    ghost Value = { Roomy T };

    ghost view = { λ r. record { items = r.items.items; size = r.size } };

    ghost invariant = { λ r. r.size ≤ vec_capacity r.items };
}

impl<T> Room<T> {
    /// The empty list with no room, which takes no memory.
    pub(crate) fn new(alloc: Global) -> Room<T>
        ensures { result ≡ record { items = []; size = 0 } }
    {
        Room {
            items: Vec::new(alloc),
            size: 0,
        }
    }

    /// The items.
    pub(crate) fn as_slice(&self) -> &[T]
        ensures { result.now ≡ self.now.items }
    {
        self.items.as_slice()
    }

    /// For how many items there is room.
    pub(crate) fn size(&self) -> usize
        ensures { result ≡ self.now.size }
    {
        self.size
    }

    /// Gives up what is more than this room.
    pub(crate) fn cut_back(&mut self, size: usize)
        requires { size ≤ self.old.size }
        ensures { self.new ≡ record { items = self.old.items; size = size } }
    {
        self.size = size;
    }

    /// The items as a vector.
    pub(crate) fn into_vec(self) -> Vec<T>
        ensures { result.items ≡ self.items }
    {
        self.items
    }
}

impl<T: Drop> Room<T> {
    /// Makes room for `n` more. Want of memory leaves the list and its room as they were.
    pub(crate) fn more(&mut self, n: usize) -> Result<(), AllocError>
        ensures ok { OnOk result (self.new ≡ record { items = self.old.items; size = self.old.size + n }) }
        ensures err { OnErr result (self.new ≡ self.old) }
    {
        let Some(size) = self.size.checked_add(n) else {
            return Err(AllocError);
        };
        self.items.reserve(size)?;
        self.size = size;
        Ok(())
    }

    /// Puts the item at the end, where there is room for it.
    pub(crate) fn push(&mut self, item: T)
        requires { length self.old.items < self.old.size }
        ensures { self.new ≡ record { items = self.old.items ++ item ∷ []; size = self.old.size } }
    {
        match self.items.push(item) {
            Ok(()) => (),
            Err(_) => unreachable!(),
        }
    }

    /// Moves these items to the end, where there is room for them.
    pub(crate) fn append(&mut self, more: Vec<T>)
        requires { length self.old.items + length more.items ≤ self.old.size }
        ensures { self.new ≡ record { items = self.old.items ++ more.items; size = self.old.size } }
    {
        let mut more = more;
        match self.items.append(&mut more) {
            Ok(()) => (),
            Err(_) => unreachable!(),
        }
    }
}
