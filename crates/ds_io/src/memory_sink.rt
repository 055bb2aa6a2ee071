//! A sink in memory.
ghost use Rattle.std.specs.Prelude.{◌≡◌, ◌+◌, ◌-◌, ◌<◌, ◌≤◌, ◌↔◌, ◌⊎◌, ◌++◌, [], min, Some, IfOk, IsErr, IsTrue, OnErr, MatchResult, length, take};
ghost use Rattle.std.specs.Io.KnownBytes.{WriteAppends};
ghost use Rattle.ds_io.specs.Counts.{Counts, raised};
ghost use Rattle.ds_io.specs.Memory.{is_listed};

use crate::memory_source::is_listed;
use crate::stream::{Failed, Sink};
use std::alloc::{AllocError, Global};
use std::marker::Model;

/// A sink in memory with room for some bytes, which fails where it is told to.
///
/// Its puts are numbered from 1. One whose number stands in the list of failing ones fails, and so
/// does one that finds no room left; every other takes as many of its bytes as there is room for.
#[derive(Drop)]
pub struct MemSink {
    bytes: Vec<u8>,
    room: usize,
    fail: Vec<u32>,
    calls: u64,
    faults: u64,
}

impl Model for MemSink {
    ghost use Rattle.std.specs.Prelude.{◌+◌, ◌≤◌, vec_len, vec_capacity};
    ghost use Rattle.ds_io.specs.Memory.{SinkState};

    ghost Value = { SinkState };

    ghost view = { λ a. record { held = a.bytes.items; room = a.room; fail = a.fail.items; calls = a.calls; faults = a.faults } };

    // So no put needs more memory.
    ghost invariant = { λ a. vec_len a.bytes + a.room ≤ vec_capacity a.bytes };
}

impl MemSink {
    /// An empty sink with room for `room` bytes, whose puts with a number in `fail` fail.
    ///
    /// The memory for those bytes is taken at once, and none later. An error is want of memory.
    pub fn new(alloc: Global, room: u32, fail: Vec<u32>) -> Result<MemSink, AllocError>
        ensures { IfOk result (λ s. s ≡ record { held = []; room = room; fail = fail.items; calls = 0; faults = 0 }) }
    {
        Ok(MemSink {
            bytes: Vec::with_capacity(alloc, room as usize)?,
            room: room as usize,
            fail,
            calls: 0,
            faults: 0,
        })
    }

    /// The bytes that were taken, in order.
    pub fn bytes(&self) -> &[u8]
        ensures { result.now ≡ self.now.held }
    {
        self.bytes.as_slice()
    }
}

impl Sink for MemSink {
    ghost held = { λ s. Some s.held };

    ghost faults = { λ s. s.faults };

    fn put(&mut self, bytes: &[u8]) -> Result<usize, Failed>
        requires { 0 < length bytes.now }
        ensures some { IfOk result (λ n. 0 < n) }
        ensures bound { IfOk result (λ n. n ≤ length bytes.now) }
        ensures bytes { WriteAppends (Some self.old.held) (Some self.new.held) result bytes.now }
        ensures counts { Counts result self.old.faults self.new.faults }

        // A count that has stopped at its last value stands in no list of u32s.
        ensures fails { IsErr result ↔ (IsTrue (is_listed (raised self.old.calls) self.old.fail) ⊎ (self.old.room ≡ 0)) }
        ensures numbered { self.new.calls ≡ raised self.old.calls }
        ensures same { self.new.fail ≡ self.old.fail }

        ensures count { IfOk result (λ n. n ≡ min (length bytes.now) self.old.room) }
        ensures held { IfOk result (λ n. self.new.held ≡ self.old.held ++ take n bytes.now) }
        ensures room { IfOk result (λ n. self.new.room ≡ self.old.room - n) }

        ensures raises { OnErr result (self.new.faults ≡ raised self.old.faults) }
        ensures stays { OnErr result (self.new.held ≡ self.old.held) }
        ensures same_room { OnErr result (self.new.room ≡ self.old.room) }
    {
        self.calls = self.calls.saturating_add(1);
        if self.room == 0 || is_listed(self.calls, &self.fail) {
            self.faults = self.faults.saturating_add(1);
            return Err(Failed);
        }
        let count = bytes.len().min(self.room);
        self.bytes.extend_from_slice(&bytes[..count]).unwrap();
        self.room -= count;
        Ok(count)
    }
}
