//! Keys: byte strings in bytewise order.
ghost use Rattle.std.specs.Prelude.{◌≡◌, ◌<◌, ◌≤◌, ◌↔◌, Some, length, refl, nat_eq, IfOk, IsErrOf};
ghost use Rattle.std.specs.Ordering.{is_gt};
ghost use Rattle.std.specs.Cmp.Lexicographic.{pointwise, nat_list_eq_equiv, nat_list_cmp_total, texts_ties, texts_po};
ghost use Rattle.std.specs.Cmp.{partial_equiv_from_equiv};
ghost use Rattle.ds_base.specs.Order.{key_cmp, bound};

use crate::copies::Copies;
use std::alloc::{AllocError, Global};
use std::cmp::Ordering;
use std::marker::Model;
use thiserror::Error;

/// A key: at most 65 bytes, and not above the bound `ff ff`. A contract sees the list of its bytes.
///
/// A key of a script has at most 64 bytes, so that the key after it is one too.
#[derive(Debug, Drop)]
pub struct Key {
    bytes: Vec<u8>,
}

impl Model for Key {
    ghost use Rattle.std.specs.Prelude.{ℕ, List};
    ghost use Rattle.ds_base.specs.Order.{IsKey};

    ghost Value = { List ℕ };

    ghost view = { λ k. k.bytes.items };

    ghost invariant = { λ k. IsKey k.bytes.items };
}

/// Why bytes are no key, or that memory was wanting. Nothing is made then.
#[derive(Debug, Drop, Error)]
pub enum KeyFault {
    #[error("a key has at most 65 bytes")]
    TooLong,
    #[error("a key is not above ff ff")]
    TooGreat,
    #[error(transparent)]
    Memory(#[from(alloc)] AllocError),
}

const BOUND: [u8; 2] = [255, 255];

impl Key {
    ghost use Rattle.std.specs.Prelude.{true, []};
    ghost use Rattle.ds_base.specs.Order.{after, IsKey, key_lt};

    /// The key of these bytes: `TooLong` exactly above 65 bytes, else `TooGreat` exactly where they
    /// are above `ff ff`.
    pub fn new(alloc: Global, bytes: &[u8]) -> Result<Key, KeyFault>
        ensures ok { IfOk result (λ k. k ≡ bytes.now) }
        ensures too_long { IsErrOf result KeyFault.TooLong ↔ (65 < length bytes.now) }
        ensures too_great { IsErrOf result KeyFault.TooGreat ↔ ((length bytes.now ≤ 65) × (is_gt (key_cmp bytes.now bound) ≡ true)) }
    {
        if bytes.len() > 65 {
            return Err(KeyFault::TooLong);
        }
        if bytes.cmp(BOUND.as_slice()).is_gt() {
            return Err(KeyFault::TooGreat);
        }
        Ok(Key {
            bytes: bytes
                .to_vec(alloc)
                .map_err(|_| KeyFault::Memory(AllocError))?,
        })
    }

    /// The least key, which has no byte and takes no memory.
    pub fn least(alloc: Global) -> Key
        ensures { result ≡ [] }
    {
        Key {
            bytes: Vec::new(alloc),
        }
    }

    /// The bound `ff ff`, at which the key space ends.
    pub fn bound(alloc: Global) -> Result<Key, AllocError>
        ensures { IfOk result (λ k. k ≡ bound) }
    {
        Ok(Key {
            bytes: BOUND.as_slice().to_vec(alloc)?,
        })
    }

    /// Whether the key lies below the bound.
    pub fn is_below_bound(&self) -> bool
        ensures { result ≡ key_lt self.now bound }
    {
        self.bytes.as_slice().cmp(BOUND.as_slice()).is_lt()
    }

    /// The bytes.
    pub fn bytes(&self) -> &[u8]
        ensures value { result.now ≡ self.now }
        ensures key { IsKey self.now }
    {
        self.bytes.as_slice()
    }

    /// Does nothing: its clause tells what every key keeps.
    pub fn known(&self)
        ensures { IsKey self.now }
    {
        let _ = &self.bytes;
    }

    /// The next key: this one with a zero byte more. No key lies between the two.
    pub fn after(&self, alloc: Global) -> Result<Key, AllocError>
        requires short { length self.now ≤ 64 }
        requires below { key_lt self.now bound ≡ true }
        ensures { IfOk result (λ k. k ≡ after self.now) }
    {
        let mut bytes = Vec::with_capacity(alloc, self.bytes.len() + 1)?;
        bytes.extend_from_slice(self.bytes.as_slice())?;
        bytes.push(0)?;
        Ok(Key { bytes })
    }
}

impl Copies for Key {
    fn copy(&self, _alloc: Global) -> Result<Key, AllocError> {
        self.clone()
    }
}

impl Clone for Key {
    ghost is_clone = { λ key copy. copy ≡ key };

    fn clone(&self) -> Result<Key, AllocError> {
        Ok(Key {
            bytes: self.bytes.clone()?,
        })
    }
}

impl PartialEq for Key {
    ghost eq = { pointwise nat_eq };

    ghost laws = { partial_equiv_from_equiv nat_list_eq_equiv };

    fn eq(&self, other: &Key) -> bool {
        self.bytes.as_slice() == other.bytes.as_slice()
    }
}

impl Eq for Key {
    ghost laws = { nat_list_eq_equiv };
}

impl PartialOrd for Key {
    ghost partial_cmp = { λ x y. Some (key_cmp x y) };

    ghost laws = { texts_po };

    fn partial_cmp(&self, other: &Key) -> Option<Ordering> {
        Some(self.cmp(other))
    }
}

impl Ord for Key {
    ghost cmp = { key_cmp };

    ghost total = { nat_list_cmp_total };

    ghost matches_partial_cmp = { λ x y. refl };

    ghost matches_eq = { texts_ties };

    fn cmp(&self, other: &Key) -> Ordering {
        self.bytes.as_slice().cmp(other.bytes.as_slice())
    }
}
