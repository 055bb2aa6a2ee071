//! The cache.
ghost use Rattle.std.specs.Prelude.{◌≡◌, ◌≤◌, ◌<◌, ◌+◌, ◌-◌, ◌^◌, [], ◌∷◌, take, OnOk, OnErr, IfOk, option_map, option_copied, is_some};
ghost use Rattle.lru.specs.LruCache.{lru_cache};
ghost use Rattle.ds_cache.specs.Entries.{Cache, cache, found, to_front, at_serial, without, IsIndex, IsSound};
ghost use Rattle.ds_cache.specs.declared.inserted.Inserted.TheVariants.{Added};
ghost use Rattle.ds_cache.specs.Insert.{clear_of, put_in, put_all, PutFrom, leased, is_later_than};

use crate::inserted::Inserted;
use crate::nearest::last_before;
use crate::outdated::newer_generation;
use crate::place::{clear_beside, place, trim};
use crate::standing::{lease_entry, renew, standing_at};
use crate::taken::take_out;
use crate::uses::Uses;
use ds_base::{Copies, Dir, Key};
use ds_desc::{Info, Infos, Lease};
use lru::LruCache;
use std::alloc::{AllocError, Global};
use std::collections::BTreeMap;
use std::marker::Model;
use std::num::NonZeroUsize;

/// What a cache knows of ranges: at most `capacity` entries, none overlapping another. A contract
/// sees the entries, the most recently used first, the capacity, and how many serials were given.
#[derive(Drop)]
pub struct RangeCache {
    recency: LruCache<u64, Info>,
    index: BTreeMap<Key, u64>,
    uses: Uses,
    capacity: u32,
    given: u64,
}

impl Model for RangeCache {
    ghost use Rattle.std.specs.Prelude.{◌≡◌, ◌+◌};
    ghost use Rattle.ds_cache.specs.Entries.{Cache, cache, IsIndex, IsSound};
    ghost use Rattle.ds_cache.specs.Uses.{AreRanked};

    ghost Value = { Cache };

    ghost view = { λ c. cache c.recency.entries c.capacity c.given };

    ghost invariant = { λ c. IsSound (cache c.recency.entries c.capacity c.given) × IsIndex c.recency.entries c.index.entries × (c.recency.cap ≡ c.capacity + 1) × AreRanked c.uses.next c.uses.last.entries c.recency.entries };
}

/// The serial of an entry that a call found or made. It is moved, and never copied.
#[derive(Drop)]
pub struct Token {
    serial: u64,
}

impl Model for Token {
    ghost use Rattle.std.specs.Prelude.{ℕ};

    ghost Value = { ℕ };

    ghost view = { λ t. t.serial };
}

impl RangeCache {
    /// An empty cache of at least one place.
    pub fn new(alloc: Global, cap: u32) -> Result<RangeCache, AllocError>
        requires { 1 ≤ cap }
        ensures { IfOk result (λ c. c ≡ cache [] cap 0) }
    {
        let places = match NonZeroUsize::new(cap as usize + 1) {
            Some(places) => places,
            None => unreachable!(),
        };
        Ok(RangeCache {
            recency: LruCache::sparse(alloc, places)?,
            index: BTreeMap::new(alloc),
            uses: Uses::new(alloc),
            capacity: cap,
            given: 0,
        })
    }

    /// Does nothing: its clause tells what every cache keeps.
    pub fn known(&self)
        ensures { IsSound self.now }
    {
        let _ = &self.capacity;
    }

    /// The entry that contains the key in this direction, which comes to the front.
    pub fn find(&mut self, key: &Key, dir: Dir) -> Option<Token>
        ensures token { result ≡ option_map (λ e. e.0) (found dir key.now self.old.entries) }
        ensures cache { self.new ≡ cache (to_front (found dir key.now self.old.entries) self.old.entries) self.old.capacity self.old.given }
    {
        let serial = match last_before(&self.index, key, dir) {
            Some(serial) => serial,
            None => return None,
        };
        match self.recency.peek(&serial) {
            Some(info) => {
                if !info.desc.contains(key, dir) {
                    return None;
                }
            }
            None => return None,
        }
        self.recency.promote(&serial);
        self.uses.touch(serial);
        Some(Token { serial })
    }

    /// The token's entry; `None` exactly where it doesn't stand.
    pub fn info(&self, token: &Token) -> Option<&Info>
        ensures { option_copied result ≡ at_serial token.now self.now.entries }
    {
        self.recency.peek(&token.serial)
    }

    /// Takes the token's entry out, and says whether it stood.
    pub fn evict(&mut self, token: Token) -> bool
        ensures stood { result ≡ is_some (at_serial token self.old.entries) }
        ensures cache { self.new ≡ cache (without token self.old.entries) self.old.capacity self.old.given }
    {
        take_out(
            &mut self.recency,
            &mut self.index,
            &mut self.uses,
            token.serial,
        )
    }

    /// Adds an entry in front. What overlaps it goes, and the last entry too where the capacity
    /// would be passed. Want of memory leaves the cache as it was.
    fn add(&mut self, alloc: Global, info: Info) -> Result<Token, AllocError>
        requires { self.old.given < 2 ^ 64 - 1 }
        ensures token { IfOk result (λ t. t ≡ self.old.given + 1) }
        ensures ok { OnOk result (self.new ≡ cache (take self.old.capacity ((self.old.given + 1, info) ∷ clear_of info self.old.entries)) self.old.capacity (self.old.given + 1)) }
        ensures err { OnErr result (self.new ≡ self.old) }
    {
        let serial = self.given + 1;
        place(
            alloc,
            &mut self.recency,
            &mut self.index,
            &mut self.uses,
            serial,
            info,
        )?;
        clear_beside(&mut self.recency, &mut self.index, &mut self.uses, serial);
        trim(
            &mut self.recency,
            &mut self.index,
            &mut self.uses,
            self.capacity,
        );
        self.given = serial;
        Ok(Token { serial })
    }

    /// Inserts a descriptor with its lease. Want of memory leaves the cache as it was, and comes only
    /// where the descriptor would be [`Added`](Inserted::Added): the other answers take no memory.
    ///
    /// It costs a number of searches in the index that grows by one for each entry that overlaps the
    /// descriptor, each logarithmic in the number of entries, and one more for each that goes. Only
    /// after 2^64 - 1 uses of entries are their numbers at an end, and the entries are gone through.
    pub fn insert(&mut self, alloc: Global, info: Info) -> Result<(Inserted, Token), AllocError>
        ensures ok { IfOk result (λ r. record { inserted = r.0; token = r.1; after = self.new } ≡ put_in info self.old) }
        ensures err { OnErr result (self.new ≡ self.old) }
        ensures wants { OnErr result ((put_in info self.old).inserted ≡ Added) }
    {
        if let Some(by) = newer_generation(&self.recency, &self.index, &self.uses, &info) {
            return Ok((Inserted::Older { by }, Token { serial: 0 }));
        }
        if let Some(serial) = standing_at(&self.recency, &self.index, &info) {
            renew(&mut self.recency, serial, info.lease);
            self.uses.touch(serial);
            return Ok((Inserted::Renewed, Token { serial }));
        }
        if self.given == u64::MAX {
            return Ok((Inserted::Spent, Token { serial: 0 }));
        }
        let token = self.add(alloc, info)?;
        Ok((Inserted::Added, token))
    }

    /// Gives the token's entry this lease, in its place, if it stands and the lease's number is
    /// greater than its own; and says whether it did.
    pub fn update_lease(&mut self, token: &Token, lease: Lease) -> bool
        ensures later { result ≡ is_later_than lease (at_serial token.now self.old.entries) }
        ensures cache { self.new ≡ cache (leased token.now lease self.old.entries) self.old.capacity self.old.given }
    {
        lease_entry(&mut self.recency, token.serial, lease)
    }

    /// Inserts the rows, the last first. After want of memory the last rows are inserted, from some
    /// place on.
    fn insert_all(&mut self, alloc: Global, infos: &Infos) -> Result<(), AllocError>
        ensures ok { OnOk result (self.new ≡ put_all infos.now self.old) }
        ensures err { OnErr result (PutFrom infos.now self.old self.new) }
    {
        let mut i = infos.len();
        'rows: while i > 0 {
            i -= 1;
            let Some(info) = infos.get(i) else {
                unreachable!()
            };
            let info = info.copy(alloc)?;
            self.insert(alloc, info)?;
        }
        Ok(())
    }

    /// Takes the token's entry out, says whether it stood, and inserts the rows in its place, the
    /// last first. After want of memory the entry is gone, and the last rows are inserted, from
    /// some place on.
    pub fn replace(
        &mut self,
        alloc: Global,
        token: Token,
        infos: &Infos,
    ) -> Result<bool, AllocError>
        ensures stood { IfOk result (λ r. r ≡ is_some (at_serial token self.old.entries)) }
        ensures ok { OnOk result (self.new ≡ put_all infos.now (cache (without token self.old.entries) self.old.capacity self.old.given)) }
        ensures err { OnErr result (PutFrom infos.now (cache (without token self.old.entries) self.old.capacity self.old.given) self.new) }
    {
        let stood = self.evict(token);
        self.insert_all(alloc, infos)?;
        Ok(stood)
    }

    /// The entries, each under its serial, the most recently used first.
    pub fn recency(&self) -> &LruCache<u64, Info>
        ensures { result.now ≡ lru_cache self.now.entries (self.now.capacity + 1) }
    {
        &self.recency
    }

    /// The serial of the entry that starts at a key.
    pub fn index(&self) -> &BTreeMap<Key, u64>
        ensures { IsIndex self.now.entries result.now.entries }
    {
        &self.index
    }
}
