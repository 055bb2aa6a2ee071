//! When each entry was last used.
ghost use Rattle.std.specs.Prelude.{◌≡◌, ℕ, ◌-◌, ◌^◌, List, [], ◌∷◌, Some, None, OnOk, OnErr, IsSome, nat_eq, nat_lt};
ghost use Rattle.std.specs.List.{IsDistinct};
ghost use Rattle.std.specs.Map.{keys_of};
ghost use Rattle.ds_desc.specs.declared.desc.Info.{Info};
ghost use Rattle.ds_cache.specs.Entries.{Entry, at_serial, without};
ghost use Rattle.ds_cache.specs.Uses.{last_use, AreRanked, Noted, Forgotten};

use std::alloc::{AllocError, Global};
use std::collections::HashMap;

/// The numbers of the last uses. Numbers rise, so of several entries the one with the greatest was
/// used last: the first of them in the order of recency.
#[derive(Drop)]
pub(crate) struct Uses {
    /// Under each entry's serial the number of its last use.
    last: HashMap<u64, u64>,
    /// The number of the next use. At the greatest number none is given any more, and those that
    /// stand tell nothing.
    next: u64,
}

/// Writes the number under a serial that has one.
fn note(last: &mut HashMap<u64, u64>, serial: u64, number: u64)
    ensures { IsSome (last_use serial last.old.entries) → Noted serial number last.old.entries last.new.entries }
{
    if let Some(place) = last.get_mut(&serial) {
        *place = number;
    }
}

/// Puts the number under a serial.
fn note_new(last: &mut HashMap<u64, u64>, serial: u64, number: u64) -> Result<(), AllocError>
    ensures ok { OnOk result (Noted serial number last.old.entries last.new.entries) }
    ensures err { OnErr result (last.new.entries ≡ last.old.entries) }
{
    last.insert(serial, number)?;
    Ok(())
}

/// Drops the number under a serial.
fn forget(last: &mut HashMap<u64, u64>, serial: u64)
    ensures { Forgotten serial last.old.entries last.new.entries }
{
    last.remove(&serial);
}

impl Uses {
    /// No use yet.
    pub(crate) fn new(alloc: Global) -> Uses
        ensures { (es : List Entry) → es ≡ [] → AreRanked result.next result.last.entries es }
    {
        Uses {
            last: HashMap::new(alloc),
            next: 0,
        }
    }

    /// Whether the numbers tell which of several entries was used last.
    pub(crate) fn tell(&self) -> bool
        ensures { result ≡ nat_lt self.now.next (2 ^ 64 - 1) }
    {
        self.next < u64::MAX
    }

    /// The number of the last use of the entry of this serial.
    pub(crate) fn last(&self, serial: u64) -> u64
        ensures { (u : ℕ) → last_use serial self.now.last.entries ≡ Some u → result ≡ u }
    {
        match self.last.get(&serial) {
            Some(number) => *number,
            None => 0,
        }
    }

    /// The entry of this serial is used, and comes to the front.
    pub(crate) fn touch(&mut self, serial: u64)
        ensures { (es : List Entry) (i w : Info) → IsDistinct nat_eq (keys_of es) → at_serial serial es ≡ Some i → AreRanked self.old.next self.old.last.entries es → AreRanked self.new.next self.new.last.entries ((serial, w) ∷ without serial es) }
    {
        if self.next == u64::MAX {
            return;
        }
        note(&mut self.last, serial, self.next);
        self.next += 1;
    }

    /// An entry of this serial is about to be put in front. Nothing changes for the others.
    pub(crate) fn begin(&mut self, serial: u64) -> Result<(), AllocError>
        ensures ok { OnOk result ((es : List Entry) (i : Info) → at_serial serial es ≡ None → AreRanked self.old.next self.old.last.entries es → AreRanked self.new.next self.new.last.entries ((serial, i) ∷ es)) }
        ensures others { (es : List Entry) → at_serial serial es ≡ None → AreRanked self.old.next self.old.last.entries es → AreRanked self.new.next self.new.last.entries es }
    {
        if self.next == u64::MAX {
            return Ok(());
        }
        note_new(&mut self.last, serial, self.next)?;
        self.next += 1;
        Ok(())
    }

    /// The entry of this serial goes.
    pub(crate) fn end(&mut self, serial: u64)
        ensures { (es : List Entry) → IsDistinct nat_eq (keys_of es) → AreRanked self.old.next self.old.last.entries es → AreRanked self.new.next self.new.last.entries (without serial es) }
    {
        forget(&mut self.last, serial);
    }
}
