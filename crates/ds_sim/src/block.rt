//! The block that is under way: its events, and its steps so far.
ghost use Rattle.std.specs.Prelude.{◌≡◌, ◌+◌, ◌<◌, ◌-◌, ◌^◌, ◌++◌, ◌∷◌, [], true, false, length, nat_lt, if◌then◌else◌, OnOk, OnErr};
ghost use Rattle.ds_desc.specs.declared.meta.Looked.TheVariants as Looked;
ghost use Rattle.ds_rule.specs.declared.journal.JournalStep.TheVariants.{Look};
ghost use Rattle.ds_rule.specs.Blocks.{all_made, never_fall, woven};
ghost use Rattle.ds_rule.specs.Moves.{IsMove, counts};
ghost use Rattle.ds_rule.specs.Pieces.{Each};
ghost use Rattle.ds_sim.specs.UnderWay.{IsNext, Notes, is_due, passed};

use crate::look::note_look;
use ds_base::{Dir, Key, Stamp};
use ds_desc::Infos;
use ds_rule::{Event, Events, JournalStep, JournalSteps, Timed};
use std::alloc::{AllocError, Global};
use std::marker::Model;
use std::mem;

/// A block with its events by rising step. A contract sees those that were made and those still to come,
/// the steps so far, the stamp that foreign writes lie above, and how many events were made since the
/// cluster began.
#[derive(Drop)]
pub struct BlockState {
    events: Events,
    // so many of the events were made
    made: usize,
    pub(crate) steps: Vec<JournalStep>,
    floor: Stamp,
    count: u64,
}

impl Model for BlockState {
    ghost use Rattle.std.specs.Prelude.{◌≤◌, length};
    ghost use Rattle.ds_sim.specs.UnderWay.{IsUnderWay, UnderWay, under_way};

    ghost Value = { UnderWay };

    ghost view = { λ b. under_way b.made b.events b.steps.items b.floor.0 b.count };

    ghost invariant = { λ b. IsUnderWay (under_way b.made b.events b.steps.items b.floor.0 b.count) × (b.made ≤ length b.events) };
}

/// How many events were made after this one; what names a step is not counted.
fn count_after(event: &Event, count: u64) -> u64
    requires { count < 2 ^ 64 - 1 }
    ensures { result ≡ (if counts event.now then count + 1 else count) }
{
    match event {
        Event::LoseRequest { .. } | Event::LoseReply { .. } | Event::Copy { .. } => count,
        Event::Write { .. }
        | Event::Split { .. }
        | Event::Merge { .. }
        | Event::Lease { .. }
        | Event::Move { .. }
        | Event::Stale { .. }
        | Event::Abort
        | Event::Arrive { .. }
        | Event::Restart { .. } => count + 1,
    }
}

impl BlockState {
    ghost use Rattle.ds_sim.specs.UnderWay.{UnderWay};

    /// No block yet.
    pub(crate) fn new(alloc: Global) -> BlockState
        ensures { result ≡ record { made = []; coming = []; steps = []; floor = 0; count = 0 } }
    {
        BlockState {
            events: Events::new(alloc),
            made: 0,
            steps: Vec::new(alloc),
            floor: Stamp(0),
            count: 0,
        }
    }

    /// A block of these events begins. It takes no memory.
    pub(crate) fn start(&mut self, alloc: Global, events: Events, floor: Stamp)
        requires rising { never_fall 0 events ≡ true }
        requires moves { Each (λ t. IsMove floor.0 t.event) events }
        requires few { (self.old).count + length events < 2 ^ 64 }
        ensures { self.new ≡ record { made = []; coming = events; steps = []; floor = floor.0; count = (self.old).count } }
    {
        let count = self.count;
        *self = BlockState {
            events,
            made: 0,
            steps: Vec::new(alloc),
            floor,
            count,
        };
    }

    /// How many events were made since the cluster began.
    pub(crate) fn count(&self) -> u64
        ensures { result ≡ self.now.count }
    {
        self.count
    }

    /// Whether all events of the block and one more can be counted.
    pub(crate) fn can_count(&self) -> bool
        ensures { result ≡ nat_lt (self.now.count + length (self.now.made ++ self.now.coming)) (2 ^ 64 - 1) }
    {
        self.count < u64::MAX - self.events.len() as u64
    }

    /// Whether an event is due before the next step.
    pub(crate) fn is_due(&self) -> bool
        ensures { result ≡ is_due self.now }
    {
        match self.events.get(self.made) {
            Some(next) => next.at as usize <= 1 + self.steps.len(),
            None => false,
        }
    }

    /// The next event, which is due.
    pub(crate) fn next(&self) -> &Event
        requires { is_due self.now ≡ true }
        ensures { IsNext result.now self.now }
    {
        match self.events.get(self.made) {
            Some(next) => &next.event,
            None => unreachable!(),
        }
    }

    /// The next event, which is due, was made.
    pub(crate) fn pass(&mut self)
        requires { is_due self.old ≡ true }
        ensures { self.new ≡ passed self.old }
    {
        self.events.len();
        self.made += 1;
        self.count += 1;
    }

    /// An event was made that is none of the block's.
    pub(crate) fn count_event(&mut self, event: &Event)
        requires { (self.old).count + length (self.old).coming < 2 ^ 64 - 1 }
        ensures { self.new ≡ record (self.old) { count = (if counts event.now then (self.old).count + 1 else (self.old).count) } }
    {
        self.count = count_after(event, self.count);
    }

    /// Notes the lookup with these rows, before which no event is due. Want of memory leaves all as it was.
    pub(crate) fn note_look(
        &mut self,
        alloc: Global,
        key: &Key,
        dir: Dir,
        infos: &Infos,
    ) -> Result<(), AllocError>
        requires { is_due self.old ≡ false }
        ensures ok { OnOk result (Notes (Look key.now dir (Looked.Rows infos.now)) self.old self.new) }
        ensures err { OnErr result (self.new ≡ self.old) }
    {
        note_look(alloc, key, dir, infos, &mut self.steps)
    }

    /// The block is over: what it was, and none in its place.
    pub(crate) fn finish(&mut self, alloc: Global) -> BlockState
        ensures over { result ≡ self.old }
        ensures none { self.new ≡ record (self.old) { made = []; coming = []; steps = [] } }
    {
        let none = BlockState {
            events: Events::new(alloc),
            made: 0,
            steps: Vec::new(alloc),
            floor: self.floor,
            count: self.count,
        };
        mem::replace(self, none)
    }

    /// The events still to come, which happen after the last step.
    pub(crate) fn coming(&self) -> &[Timed]
        ensures items { result.now ≡ self.now.coming }
        ensures moves { Each (λ t. IsMove self.now.floor t.event) result.now }
        ensures few { self.now.count + length result.now < 2 ^ 64 }
        ensures after { woven 1 (self.now.made ++ result.now) self.now.steps ≡ woven 1 self.now.made self.now.steps ++ all_made result.now }
    {
        &self.events.as_slice()[self.made..]
    }

    /// The steps.
    pub(crate) fn into_steps(self) -> JournalSteps
        ensures { result ≡ self.steps }
    {
        JournalSteps::from_vec(self.steps)
    }
}
