//! A range that lies beside the list of ranges, so that a split or a merge moves its slots alone. Each
//! method is the range's own.
ghost use Rattle.std.specs.Prelude.{◌≡◌, ◌<◌, true, map, if◌then◌else◌, IfOk, IfErr, OnOk, OnErr};
ghost use Rattle.std.specs.List.{list_all};
ghost use Rattle.ds_base.specs.Order.{key_lt};
ghost use Rattle.ds_kind.specs.Asks.{has_proper_span, has_room};
ghost use Rattle.ds_kind.specs.Parts.{requests_of};
ghost use Rattle.ds_cell.specs.Ask.{key_of};
ghost use Rattle.ds_cell.specs.Change.{after_foreign};
ghost use Rattle.ds_cell.specs.Store.{put_cell};
ghost use Rattle.ds_range.specs.Evaluates.{answer_to, ended_in, kept_of};
ghost use Rattle.ds_range.specs.Keeps.{restored};
ghost use Rattle.ds_range.specs.Resolves.{PartlyAs, settle_cell};
ghost use Rattle.ds_range.specs.Serves.{after_made};
ghost use Rattle.ds_rule.specs.Close.{settle_range};
ghost use Rattle.ds_rule.specs.Deliver.{answer_made};
ghost use Rattle.ds_rule.specs.Endings.{records_made};
ghost use Rattle.ds_rule.specs.Serve.{serve};
ghost use Rattle.ds_rule.specs.Shifts.{can_lease, can_move, joined, left_part, right_part, with_lease, with_nodes};
ghost use Rattle.ds_rule.specs.World.{Fits, end_of, start_of};
ghost use Rattle.ds_serve.specs.Ends.{reopened};

use ds_base::{Copies, Key, Stamp, TxnNo, Value};
use ds_desc::{Info, Nodes};
use ds_kind::Piece;
use ds_range::{Evaluation, PieceUndo, RangeState};
use ds_rule::Records;
use std::alloc::{AllocError, Global};
use std::marker::Model;

/// A range in memory of its own. A contract sees the range. The memory can be taken before there is a
/// range for it, and kept while a merge may still hand the range back.
#[derive(Drop)]
pub(crate) struct Slot {
    range: Box<Option<RangeState>>,
}

impl Model for Slot {
    ghost use Rattle.std.specs.Prelude.{◌≡◌, true, is_some};
    ghost use Rattle.ds_rule.specs.World.{Range};
    ghost use Rattle.ds_ranges.specs.Slots.{held};

    ghost Value = { Range };

    ghost view = { λ s. held s.range.value };

    ghost invariant = { λ s. is_some s.range.value ≡ true };
}

/// Memory for a range, taken before it is needed.
#[derive(Drop)]
struct Hull {
    room: Box<Option<RangeState>>,
}

impl Hull {
    fn new(alloc: Global) -> Result<Hull, AllocError> {
        Ok(Hull {
            room: Box::new(alloc, None)?,
        })
    }

    /// The range in this memory. It takes no more.
    fn around(self, range: RangeState) -> Slot
        ensures { result ≡ range }
    {
        let mut room = self.room;
        *room = Some(range);
        Slot { range: room }
    }
}

impl Slot {
    ghost use Rattle.ds_rule.specs.World.{Range};

    pub(crate) fn new(alloc: Global, range: RangeState) -> Result<Slot, AllocError>
        ensures { IfOk result (λ s. s ≡ range) }
    {
        let hull = Hull::new(alloc)?;
        Ok(hull.around(range))
    }

    /// The range, and the memory that it lay in.
    fn open(self) -> (RangeState, Hull)
        ensures { result.0 ≡ self }
    {
        let mut room = self.range;
        match room.take() {
            Some(range) => (range, Hull { room }),
            None => unreachable!(),
        }
    }

    pub(crate) fn range(&self) -> &RangeState
        ensures { result.now ≡ self.now }
    {
        match &*self.range {
            Some(range) => range,
            None => unreachable!(),
        }
    }

    pub(crate) fn info(&self) -> &Info
        ensures { result.now ≡ self.now.info }
    {
        self.range().info()
    }

    pub(crate) fn can_move(&self, nodes: &Nodes) -> bool
        ensures { result ≡ can_move nodes.now self.now }
    {
        self.range().can_move(nodes)
    }

    pub(crate) fn foreign(
        &mut self,
        alloc: Global,
        key: &Key,
        stamp: Stamp,
        value: Option<Value>,
    ) -> Result<(), AllocError>
        requires { has_room key.now ≡ true }
        ensures ok { OnOk result (self.new ≡ record (self.old) { cells = put_cell key.now (after_foreign (record { stamp = stamp; value = value })) (self.old).cells }) }
        ensures err { OnErr result (self.new ≡ self.old) }
    {
        match &mut *self.range {
            Some(range) => range.foreign(alloc, key, stamp, value),
            None => unreachable!(),
        }
    }

    pub(crate) fn give_lease(&mut self, node: u8)
        ensures { self.new ≡ (if can_lease node self.old then with_lease node self.old else self.old) }
    {
        match &mut *self.range {
            Some(range) => range.give_lease(node),
            None => unreachable!(),
        }
    }

    pub(crate) fn move_to(&mut self, nodes: Nodes)
        requires { can_move nodes self.old ≡ true }
        ensures { self.new ≡ with_nodes nodes self.old }
    {
        match &mut *self.range {
            Some(range) => range.move_to(nodes),
            None => unreachable!(),
        }
    }

    pub(crate) fn split(&mut self, alloc: Global, key: &Key, id: u32) -> Result<Slot, AllocError>
        requires above { key_lt (start_of self.old) key.now ≡ true }
        requires below { key_lt key.now (end_of self.old) ≡ true }
        requires generation { (self.old).info.desc.generation < 4294967295 }
        ensures left { OnOk result (self.new ≡ left_part key.now self.old) }
        ensures right { IfOk result (λ r. r ≡ right_part id key.now self.old) }
        ensures err { OnErr result (self.new ≡ self.old) }
    {
        let hull = Hull::new(alloc)?;
        match &mut *self.range {
            Some(range) => {
                let right = range.split(alloc, key, id)?;
                Ok(hull.around(right))
            }
            None => unreachable!(),
        }
    }

    /// Want of memory hands the right neighbour back, in the memory that it lay in.
    pub(crate) fn merge(&mut self, alloc: Global, right: Slot) -> Result<(), Slot>
        requires fits { Fits (start_of self.old) self.old }
        requires next { Fits (end_of self.old) right }
        requires generation { (self.old).info.desc.generation < 4294967295 }
        requires right_generation { right.info.desc.generation < 4294967295 }
        ensures ok { OnOk result (self.new ≡ joined self.old right) }
        ensures back { IfErr result (λ same. same ≡ right) }
        ensures err { OnErr result (self.new ≡ self.old) }
    {
        let (right, hull) = right.open();
        match &mut *self.range {
            Some(range) => match range.merge(alloc, right) {
                Ok(()) => Ok(()),
                Err(right) => Err(hull.around(right)),
            },
            None => unreachable!(),
        }
    }

    pub(crate) fn settle(
        &mut self,
        alloc: Global,
        txn: TxnNo,
        commit: Option<Stamp>,
    ) -> Result<(), AllocError>
        ensures ok { OnOk result (self.new ≡ settle_range txn.0 commit self.old) }
        ensures info { (self.new).info ≡ (self.old).info }
        ensures keys { map key_of (self.new).cells ≡ map key_of (self.old).cells }
        ensures partly { PartlyAs (settle_cell txn.0 commit) (self.old).cells (self.new).cells }
    {
        match &mut *self.range {
            Some(range) => range.settle(alloc, txn, commit),
            None => unreachable!(),
        }
    }

    pub(crate) fn apply(
        &mut self,
        alloc: Global,
        records: &mut Records,
        piece: &Piece,
    ) -> Result<Evaluation, AllocError>
        requires { list_all has_proper_span (requests_of piece.now.items) ≡ true }
        ensures answer { IfOk result (λ e. answer_to e ≡ answer_made (serve records.old piece.now.head piece.now.head.left piece.now.items (self.old).cells)) }
        ensures after { OnOk result (self.new ≡ record (self.old) { cells = after_made piece.now.head (serve records.old piece.now.head piece.now.head.left piece.now.items (self.old).cells) (self.old).cells }) }
        ensures records { OnOk result (records.new ≡ records_made piece.now.head piece.now.items (serve records.old piece.now.head piece.now.head.left piece.now.items (self.old).cells) records.old) }
        ensures back { IfOk result (λ e. restored (kept_of e) (self.new).cells ≡ (self.old).cells) }
        ensures records_back { IfOk result (λ e. reopened (ended_in e) records.new ≡ records.old) }
        ensures err { OnErr result (self.new ≡ self.old) }
        ensures err_records { OnErr result (records.new ≡ records.old) }
    {
        match &mut *self.range {
            Some(range) => range.apply(alloc, records, piece),
            None => unreachable!(),
        }
    }

    pub(crate) fn undo(&mut self, records: &mut Records, undo: PieceUndo)
        ensures range { self.new ≡ record (self.old) { cells = restored undo.kept (self.old).cells } }
        ensures records { records.new ≡ reopened undo.ended records.old }
    {
        match &mut *self.range {
            Some(range) => range.undo(records, undo),
            None => unreachable!(),
        }
    }
}

impl Copies for Slot {
    fn copy(&self, alloc: Global) -> Result<Slot, AllocError> {
        let range = self.range().copy(alloc)?;
        Slot::new(alloc, range)
    }
}
