//! The cluster as a wire.
ghost use Rattle.std.specs.Prelude.{◌≡◌, ◌+◌, ◌<◌, ◌-◌, ◌^◌, [], true, false, Some, length, nat_lt, position, refl, IfOk, OnOk, OnErr};
ghost use Rattle.std.specs.List.{list_all};
ghost use Rattle.ds_desc.specs.Contains.{FirstContains, lies_ahead};
ghost use Rattle.ds_kind.specs.Asks.{has_proper_span};
ghost use Rattle.ds_kind.specs.Parts.{requests_of};
ghost use Rattle.ds_rule.specs.declared.journal.JournalStep.TheVariants.{Look, Send};
ghost use Rattle.ds_rule.specs.Begin.{first_world, is_leased, tiles};
ghost use Rattle.ds_rule.specs.Blocks.{never_fall};
ghost use Rattle.ds_rule.specs.Clauses.{Looks, Sends};
ghost use Rattle.ds_rule.specs.Close.{with_begin, close_status, closed};
ghost use Rattle.ds_rule.specs.Moves.{IsMove};
ghost use Rattle.ds_rule.specs.Pieces.{Each};
ghost use Rattle.ds_rule.specs.World.{answers_lookup};
ghost use Rattle.ds_sim.specs.Done.{Delivers};
ghost use Rattle.ds_sim.specs.Looks.{LooksArmed, LooksUp};
ghost use Rattle.ds_sim.specs.State.{ClosesAgain, Ended, EndedShort, refused_after, state_of};
ghost use Rattle.ds_sim.specs.UnderWay.{Notes, is_due};

use crate::block::BlockState;
use crate::deliver::deliver_in;
use crate::look::{armed_at, armed_rows, desc_at, take_away};
use crate::records::{end_last, last_status, settle_last};
use ds_base::{Copies, Dir, Key, Stamp, TxnNo};
use ds_desc::{Looked, Meta, RangeDesc};
use ds_kind::{Piece, TxnStatus};
use ds_ranges::Ranges;
use ds_rule::{Answer, Block, ClusterRange, JournalSteps, RecordStatus, Records, TxnRecord, Wire};
use std::alloc::{AllocError, Global};
use std::collections::VecDeque;

/// The simulated cluster, between and in the blocks of its batches.
#[derive(Drop)]
pub struct Sim {
    /// The ranges with all that they hold.
    pub ranges: Ranges,
    /// Old descriptors that lookups are answered with, the first that contains the key; each once.
    pub armed: Vec<RangeDesc>,
    /// The transactions so far.
    pub records: Records,
    /// The block that was begun last, and how many events were made.
    pub block: BlockState,
    /// How many sends were refused.
    pub refused: u64,
    /// The picks of the block that are still to come.
    pub picks: VecDeque<u32>,
}

/// The count of refusals after this answer; it stays at its last value.
fn refused_after(answer: &Answer, refused: u64) -> u64
    ensures { result ≡ refused_after answer.now refused }
{
    match answer {
        Answer::Refused(_) => {
            if refused < u64::MAX {
                refused + 1
            } else {
                refused
            }
        }
        Answer::Done(_) | Answer::Failed(_) | Answer::Lost => refused,
    }
}

/// Answers the lookup with the armed descriptor at the place, which is armed no longer, and notes it.
fn look_armed(
    alloc: Global,
    armed: &mut Vec<RangeDesc>,
    at: usize,
    key: &Key,
    dir: Dir,
    block: &mut BlockState,
) -> Result<Looked, AllocError>
    requires armed { position (answers_lookup dir key.now) (armed.old).items ≡ Some at }
    requires made { is_due block.old ≡ false }
    ensures looks { IfOk result (λ l. LooksArmed key.now dir (armed.old).items (armed.new).items l) }
    ensures notes { IfOk result (λ l. Notes (Look key.now dir l) block.old block.new) }
    ensures err { OnErr result ((armed.new).items ≡ (armed.old).items) }
    ensures err_block { OnErr result (block.new ≡ block.old) }
{
    let infos = armed_rows(alloc, desc_at(armed.as_slice(), at))?;
    block.note_look(alloc, key, dir, &infos)?;
    take_away(armed, at);
    Ok(Looked::Rows(infos))
}

/// Answers the lookup with the rows of the ranges, and notes it.
fn look_up(
    alloc: Global,
    ranges: &Ranges,
    key: &Key,
    dir: Dir,
    block: &mut BlockState,
) -> Result<Looked, AllocError>
    requires ahead { lies_ahead dir key.now ≡ true }
    requires made { is_due block.old ≡ false }
    ensures looks { IfOk result (λ l. LooksUp key.now dir ranges.now l) }
    ensures notes { IfOk result (λ l. Notes (Look key.now dir l) block.old block.new) }
    ensures err_block { OnErr result (block.new ≡ block.old) }
{
    key.bytes();
    ranges.known();
    let infos = ranges.rows(alloc, key, dir)?;
    block.note_look(alloc, key, dir, &infos)?;
    Ok(Looked::Rows(infos))
}

/// A copy of the picks, to be taken from the front.
fn picks_of(alloc: Global, picks: &[u32]) -> Result<VecDeque<u32>, AllocError>
    ensures { IfOk result (λ q. q.items ≡ picks.now) }
{
    let mut copy = VecDeque::new(alloc);
    'each: for pick in picks {
        copy.push_back(*pick)?;
    }
    Ok(copy)
}

impl Sim {
    ghost use Rattle.ds_sim.specs.declared.sim.Sim.{Sim};

    /// The cluster as these ranges begin it.
    pub fn new(alloc: Global, ranges: &[ClusterRange]) -> Result<Sim, AllocError>
        requires tiled { tiles ranges.now ≡ true }
        requires leased { list_all is_leased ranges.now ≡ true }
        requires few { length ranges.now < 2 ^ 32 - 1 }
        ensures { IfOk result (λ s. state_of s ≡ record { world = first_world ranges.now; past = []; floor = 0; refused = 0; lost = 0; ahead = []; block = [] }) }
    {
        Ok(Sim {
            ranges: Ranges::begin(alloc, ranges)?,
            armed: Vec::new(alloc),
            records: Records::new(alloc),
            block: BlockState::new(alloc),
            refused: 0,
            picks: VecDeque::new(alloc),
        })
    }

    /// How many events were made since the cluster began; what a piece splits or leases is not counted.
    pub fn count(&self) -> u64
        ensures { result ≡ (state_of self.now).world.count }
    {
        self.block.count()
    }

    /// Whether the events of the block and one more can be counted.
    pub fn can_count(&self) -> bool
        ensures { result ≡ nat_lt ((state_of self.now).world.count + length (state_of self.now).block) (2 ^ 64 - 1) }
    {
        self.block.can_count()
    }

    /// A transaction begins: its record is pending. Want of memory leaves all as it was.
    pub fn begin(&mut self, alloc: Global, txn: TxnNo, stamp: Stamp) -> Result<(), AllocError>
        ensures ok { OnOk result (state_of self.new ≡ record (state_of self.old) { world = with_begin (record { number = txn.0; stamp = stamp.0; epoch = 0; last = 0 }) (state_of self.old).world }) }
        ensures err { OnErr result (self.new ≡ self.old) }
    {
        self.records.push(
            alloc,
            TxnRecord {
                txn,
                stamp,
                epoch: 0,
                status: RecordStatus::Pending,
            },
        )
    }

    /// A block begins: no step stands in it yet, its events are still to come, each before its step, its
    /// foreign writes lie above the floor, and its picks are those that come. The events must rise by step,
    /// be ones that a cluster may make by itself, and fit the count of all events. Want of memory leaves all
    /// as it was.
    pub fn start_block(
        &mut self,
        alloc: Global,
        block: &Block,
        floor: Stamp,
    ) -> Result<(), AllocError>
        requires rising { never_fall 0 block.now.events ≡ true }
        requires moves { Each (λ t. IsMove floor.0 t.event) block.now.events }
        requires few { (state_of self.old).world.count + length block.now.events < 2 ^ 64 }
        ensures ok { OnOk result (state_of self.new ≡ record (state_of self.old) { past = []; floor = floor.0; ahead = block.now.picks; block = block.now.events }) }
        ensures err { OnErr result (self.new ≡ self.old) }
    {
        let picks = picks_of(alloc, block.picks.as_slice())?;
        let events = block.events.copy(alloc)?;
        self.block.start(alloc, events, floor);
        self.picks = picks;
        Ok(())
    }

    /// The block ends: the events that are left are made, and picks that were not used come no more. Gives
    /// the block's steps, in order. After want of memory the block is over too, and the first ones of those
    /// events may be made.
    pub fn end_block(&mut self, alloc: Global) -> Result<JournalSteps, AllocError>
        ensures ok { IfOk result (λ ss. Ended ss (state_of self.old) (state_of self.new)) }
        ensures err { OnErr result (EndedShort (state_of self.old) (state_of self.new)) }
    {
        let over = self.block.finish(alloc);
        self.picks = VecDeque::new(alloc);
        self.make_each(alloc, over.coming())?;
        Ok(over.into_steps())
    }

    /// The open transaction, whose record is the last, ends: a record that is not committed becomes
    /// aborted, and every intent of it is settled. The status is the one that it ends with. After want
    /// of memory some intents may be settled and nothing else is changed, so that closing again ends it as
    /// it would have ended.
    pub fn close(&mut self, alloc: Global) -> Result<TxnStatus, AllocError>
        ensures status { IfOk result (λ s. s ≡ close_status (state_of self.old).world) }
        ensures closed { IfOk result (λ s. state_of self.new ≡ record (state_of self.old) { world = closed (state_of self.old).world }) }
        ensures err { OnErr result (ClosesAgain (state_of self.old) (state_of self.new)) }
    {
        let status = last_status(&self.records);
        settle_last(alloc, &mut self.ranges, &self.records)?;
        end_last(&mut self.records);
        Ok(status)
    }

    /// Answers the lookup as the cluster stands, once all events before it were made.
    fn look_now(&mut self, alloc: Global, key: &Key, dir: Dir) -> Result<Looked, AllocError>
        requires ahead { lies_ahead dir key.now ≡ true }
        requires made { is_due (self.old).block ≡ false }
        ensures rows { IfOk result (λ l. FirstContains dir key.now l) }
        ensures looked { Looks (state_of self.old) (state_of self.new) key.now dir result }
    {
        match armed_at(self.armed.as_slice(), key, dir) {
            Some(at) => look_armed(alloc, &mut self.armed, at, key, dir, &mut self.block),
            None => look_up(alloc, &self.ranges, key, dir, &mut self.block),
        }
    }

    /// Delivers the piece as the cluster stands, once all events before it were made.
    fn send_now(&mut self, alloc: Global, node: u8, piece: &Piece) -> Result<Answer, AllocError>
        requires proper { list_all has_proper_span (requests_of piece.now.items) ≡ true }
        requires made { is_due (self.old).block ≡ false }
        ensures { Sends (state_of self.old) (state_of self.new) node piece.now result }
    {
        let answer = deliver_in(
            alloc,
            &mut self.ranges,
            &mut self.records,
            node,
            piece,
            &mut self.block,
        )?;
        self.refused = refused_after(&answer, self.refused);
        Ok(answer)
    }
}

impl Meta for Sim {
    ghost use Rattle.ds_rule.specs.Clauses.{Looks};
    ghost use Rattle.ds_sim.specs.State.{state_of};

    ghost looked = { λ a b k d r. Looks (state_of a) (state_of b) k d r };

    ghost lost = { λ _. 0 };

    fn lookup(&mut self, alloc: Global, key: &Key, dir: Dir) -> Result<Looked, AllocError> {
        self.make_due(alloc)?;
        self.look_now(alloc, key, dir)
    }
}

impl Wire for Sim {
    ghost use Rattle.ds_rule.specs.Clauses.{Looks};
    ghost use Rattle.ds_sim.specs.State.{state_of};

    ghost state = { state_of };

    fn send(&mut self, alloc: Global, node: u8, piece: &Piece) -> Result<Answer, AllocError> {
        self.make_due(alloc)?;
        self.send_now(alloc, node, piece)
    }

    fn pick(&mut self, waiting: u32) -> u32 {
        match self.picks.pop_front() {
            Some(pick) => pick % waiting,
            None => 0,
        }
    }

    ghost look_steps = { λ a b k d r h. h };

    ghost same_losses = { λ a. refl };
}
