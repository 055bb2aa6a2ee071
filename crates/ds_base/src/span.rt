//! Spans of keys.
ghost use Rattle.std.specs.Prelude.{◌≡◌, ◌≤◌, ◌&&◌, true, false, length, IfOk, MatchOption, MatchResult};
ghost use Rattle.ds_base.specs.Order.{key_lt, key_le, holds, max_key, min_key, bound, after, Extent};

use crate::copies::Copies;
use crate::key::Key;
use std::alloc::{AllocError, Global};
use std::marker::Model;

/// The keys from a start up to an end above it, which the span does not hold.
#[derive(Debug, Drop)]
pub struct Span {
    pub start: Key,
    pub end: Key,
}

impl Model for Span {
    ghost use Rattle.std.specs.Prelude.{◌≡◌, true};
    ghost use Rattle.ds_base.specs.Order.{key_lt, Extent};

    ghost Value = { Extent };

    ghost view = { λ s. record { start = s.start; end = s.end } };

    ghost invariant = { λ s. key_lt s.start s.end ≡ true };
}

/// The start is not below the end.
#[derive(Clone, Copy, Debug, PartialEq, Eq)]
pub struct BadSpan;

impl Span {
    /// The span from the start up to the end; `BadSpan` exactly where the start is not below the end.
    pub fn new(start: Key, end: Key) -> Result<Span, BadSpan>
        ensures { MatchResult result (λ s. (s ≡ record { start = start; end = end }) × (key_lt start end ≡ true)) (λ _. key_lt start end ≡ false) }
    {
        if start >= end {
            return Err(BadSpan);
        }
        Ok(Span { start, end })
    }

    /// Whether the key lies in the span.
    pub fn contains(&self, key: &Key) -> bool
        ensures { result ≡ holds self.now.start self.now.end key.now }
    {
        self.start <= *key && *key < self.end
    }

    /// Whether the whole other span lies in this one.
    pub fn holds(&self, other: &Span) -> bool
        ensures { result ≡ (key_le self.now.start other.now.start && key_le other.now.end self.now.end) }
    {
        self.start <= other.start && other.end <= self.end
    }

    /// Where the two spans overlap, from the greater start to the lesser end; `None` exactly where
    /// no key is in both.
    pub fn meet<'a>(&'a self, other: &'a Span) -> Option<(&'a Key, &'a Key)>
        ensures { MatchOption result (key_lt (max_key self.now.start other.now.start) (min_key self.now.end other.now.end) ≡ false) (λ p. (p.0.now ≡ max_key self.now.start other.now.start) × (p.1.now ≡ min_key self.now.end other.now.end) × (key_lt p.0.now p.1.now ≡ true)) }
    {
        let start = if self.start < other.start {
            &other.start
        } else {
            &self.start
        };
        let end = if other.end < self.end {
            &other.end
        } else {
            &self.end
        };
        if start < end {
            Some((start, end))
        } else {
            None
        }
    }

    /// The span that holds this key alone.
    pub fn point(alloc: Global, key: &Key) -> Result<Span, AllocError>
        requires short { length key.now ≤ 64 }
        requires below { key_lt key.now bound ≡ true }
        ensures { IfOk result (λ s. s ≡ record { start = key.now; end = after key.now }) }
    {
        let end = key.after(alloc)?;
        let start = key.copy(alloc)?;
        Ok(Span { start, end })
    }
}

impl Clone for Span {
    ghost is_clone = { λ span copy. copy ≡ span };

    fn clone(&self) -> Result<Span, AllocError> {
        Ok(Span {
            start: self.start.clone()?,
            end: self.end.clone()?,
        })
    }
}

impl Copies for Span {
    fn copy(&self, _alloc: Global) -> Result<Span, AllocError> {
        self.clone()
    }
}
