//! Sources in memory.
ghost use Rattle.std.specs.Prelude.{◌≡◌, ◌<◌, ◌≤◌, ◌↔◌, ◌++◌, min, Some, Ok, IfOk, IsErr, IsTrue, OnErr, MatchResult, length, take, drop};
ghost use Rattle.std.specs.Io.KnownBytes.{ReadConsumes};
ghost use Rattle.ds_io.specs.Counts.{Counts, raised};
ghost use Rattle.ds_io.specs.Ends.{EndsExactly};
ghost use Rattle.ds_io.specs.Memory.{is_listed};

use crate::stream::{Failed, Source};
use std::marker::Model;

/// Bytes that are given from the first to the last.
#[derive(Drop)]
struct Remaining {
    bytes: Vec<u8>,
    at: usize,
}

// Clauses see the bytes that are left.
impl Model for Remaining {
    ghost use Rattle.std.specs.Prelude.{ℕ, List, ◌≤◌, drop, vec_len};

    ghost Value = { List ℕ };

    ghost view = { λ a. drop a.at a.bytes.items };

    ghost invariant = { λ a. a.at ≤ vec_len a.bytes };
}

impl Remaining {
    fn new(bytes: Vec<u8>) -> Remaining
        ensures { result ≡ bytes.items }
    {
        Remaining { bytes, at: 0 }
    }

    // Gives as many of the bytes as the buffer has room for.
    fn give(&mut self, buf: &mut [u8]) -> usize
        ensures count { result ≡ min (length self.old) (length buf.old) }
        ensures given { buf.new ≡ take result self.old ++ drop result buf.old }
        ensures rest { self.new ≡ drop result self.old }
    {
        let rest = &self.bytes[self.at..];
        let count = rest.len().min(buf.len());
        buf[..count].copy_from_slice(&rest[..count]);
        self.at += count;
        count
    }
}

/// A source over bytes in memory, which fails where it is told to.
///
/// Its takes are numbered from 1. One whose number stands in the list of failing ones fails; every
/// other gives as many of the bytes as the buffer has room for. It takes no memory.
#[derive(Drop)]
pub struct MemSource {
    rest: Remaining,
    fail: Vec<u32>,
    calls: u64,
    faults: u64,
}

impl Model for MemSource {
    ghost use Rattle.ds_io.specs.Memory.{SourceState};

    ghost Value = { SourceState };

    ghost view = { λ a. record { left = a.rest; fail = a.fail.items; calls = a.calls; faults = a.faults } };
}

impl MemSource {
    /// A source that gives these bytes, and whose takes with a number in `fail` fail.
    pub fn new(bytes: Vec<u8>, fail: Vec<u32>) -> MemSource
        ensures { result ≡ record { left = bytes.items; fail = fail.items; calls = 0; faults = 0 } }
    {
        MemSource {
            rest: Remaining::new(bytes),
            fail,
            calls: 0,
            faults: 0,
        }
    }
}

impl Source for MemSource {
    ghost left = { λ s. Some s.left };

    ghost faults = { λ s. s.faults };

    fn take(&mut self, buf: &mut [u8]) -> Result<usize, Failed>
        requires { 0 < length buf.old }
        ensures bound { IfOk result (λ n. n ≤ length buf.new) }
        ensures bytes { ReadConsumes (Some self.old.left) (Some self.new.left) result buf.new }
        ensures end { IfOk result (EndsExactly (Some self.old.left)) }
        ensures counts { Counts result self.old.faults self.new.faults }

        // A count that has stopped at its last value stands in no list of u32s.
        ensures fails { IsErr result ↔ IsTrue (is_listed (raised self.old.calls) self.old.fail) }
        ensures numbered { self.new.calls ≡ raised self.old.calls }
        ensures same { self.new.fail ≡ self.old.fail }

        ensures count { IfOk result (λ n. n ≡ min (length self.old.left) (length buf.old)) }
        ensures given { IfOk result (λ n. buf.new ≡ take n self.old.left ++ drop n buf.old) }
        ensures rest { IfOk result (λ n. self.new.left ≡ drop n self.old.left) }

        ensures raises { OnErr result (self.new.faults ≡ raised self.old.faults) }
        ensures stays { OnErr result (self.new.left ≡ self.old.left) }
        ensures untouched { OnErr result (buf.new ≡ buf.old) }
    {
        self.calls = self.calls.saturating_add(1);
        if is_listed(self.calls, &self.fail) {
            self.faults = self.faults.saturating_add(1);
            return Err(Failed);
        }
        Ok(self.rest.give(buf))
    }
}

/// Whether the call with this number is to fail.
pub(crate) fn is_listed(number: u64, fail: &[u32]) -> bool
    ensures { result ≡ is_listed number fail.now }
{
    fail.iter().any(|listed| u64::from(*listed) == number)
}

/// A source over bytes in memory that never fails: its count of failed takes is always 0.
///
/// A take gives as many of the bytes as the buffer has room for. It takes no memory.
#[derive(Drop)]
pub struct SureSource {
    rest: Remaining,
}

// Clauses see the bytes that are left.
impl Model for SureSource {
    ghost use Rattle.std.specs.Prelude.{ℕ, List};

    ghost Value = { List ℕ };

    ghost view = { λ a. a.rest };
}

impl SureSource {
    /// A source that gives these bytes.
    pub fn new(bytes: Vec<u8>) -> SureSource
        ensures { result ≡ bytes.items }
    {
        SureSource {
            rest: Remaining::new(bytes),
        }
    }
}

impl Source for SureSource {
    ghost left = { λ s. Some s };

    ghost faults = { λ _. 0 };

    fn take(&mut self, buf: &mut [u8]) -> Result<usize, Failed>
        requires { 0 < length buf.old }
        ensures bound { IfOk result (λ n. n ≤ length buf.new) }
        ensures bytes { ReadConsumes (Some self.old) (Some self.new) result buf.new }
        ensures end { IfOk result (EndsExactly (Some self.old)) }
        ensures counts { Counts result 0 0 }

        ensures count { result ≡ Ok (min (length self.old) (length buf.old)) }
        ensures given { IfOk result (λ n. buf.new ≡ take n self.old ++ drop n buf.old) }
        ensures rest { IfOk result (λ n. self.new ≡ drop n self.old) }
    {
        Ok(self.rest.give(buf))
    }
}
