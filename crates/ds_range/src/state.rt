//! The state of one range.
ghost use Rattle.std.specs.Prelude.{◌≡◌, [], ◌&&◌, true, IfOk, OnOk, OnErr, map};
ghost use Rattle.std.specs.List.{list_all};
ghost use Rattle.ds_kind.specs.Asks.{has_room};
ghost use Rattle.ds_cell.specs.Ask.{key_of};
ghost use Rattle.ds_cell.specs.Change.{after_foreign};
ghost use Rattle.ds_cell.specs.Requests.{ask_request};
ghost use Rattle.ds_cell.specs.Store.{put_cell};
ghost use Rattle.ds_rule.specs.Asking.{at_of};
ghost use Rattle.ds_rule.specs.Close.{settle_range};
ghost use Rattle.ds_rule.specs.Deliver.{holds_item};
ghost use Rattle.ds_range.specs.Asks.{asked_of};
ghost use Rattle.ds_range.specs.Resolves.{PartlyAs, settle_cell};

use crate::ask::{Asked, ask_cells};
use crate::change::foreign_at;
use crate::serve::at_of;
use crate::settle::{settle_each, still_written, to_settle};
use ds_base::{Key, Keys, Stamp, TxnNo, Value};
use ds_cell::Cell;
use ds_desc::Info;
use ds_kind::{Bounds, Head, Item};
use std::alloc::{AllocError, Global};
use std::collections::BTreeMap;
use std::marker::Model;

/// A range with all that it holds. A contract sees the descriptor with its lease, and the contents
/// by key. Each key that stands here has room for one more byte.
#[derive(Drop)]
pub struct RangeState {
    pub(crate) info: Info,
    pub(crate) cells: BTreeMap<Key, Cell>,
    // Keys among which are all that have writes of transactions; `None` where they aren't known. So a
    // transaction's end looks at these keys alone.
    pub(crate) written: Option<Keys>,
}

impl Model for RangeState {
    ghost use Rattle.ds_rule.specs.World.{Range};
    ghost use Rattle.ds_range.specs.Rooms.{IsKept};

    ghost Value = { Range };

    ghost view = { λ r. record { info = r.info; cells = r.cells.entries } };

    ghost invariant = { λ r. IsKept r.written r.cells.entries };
}

impl RangeState {
    ghost use Rattle.ds_rule.specs.World.{Range};

    /// A range that holds nothing yet. It takes no memory.
    pub fn new(alloc: Global, info: Info) -> RangeState
        ensures { result ≡ record { info = info; cells = [] } }
    {
        RangeState {
            info,
            cells: BTreeMap::new(alloc),
            written: Some(Keys::new(alloc)),
        }
    }

    /// The descriptor with its lease.
    pub fn info(&self) -> &Info
        ensures { result.now ≡ self.now.info }
    {
        &self.info
    }

    /// A write of another client at a key of the range, which must have room for one more byte. Want of
    /// memory leaves the contents as they were.
    pub fn foreign(
        &mut self,
        alloc: Global,
        key: &Key,
        stamp: Stamp,
        value: Option<Value>,
    ) -> Result<(), AllocError>
        requires { has_room key.now ≡ true }
        ensures ok { OnOk result (self.new ≡ record (self.old) { cells = put_cell key.now (after_foreign (record { stamp = stamp; value = value })) (self.old).cells }) }
        ensures err { OnErr result (self.new ≡ self.old) }
    {
        foreign_at(alloc, &mut self.cells, key, stamp, value)
    }

    /// What the item's request gives of what the range holds, at the keys where it acts.
    pub fn ask(&self, alloc: Global, head: &Head, item: &Item) -> Result<Asked, AllocError>
        ensures { IfOk result (λ a. asked_of a ≡ ask_request item.now.request (at_of head.now item.now.seq.0) self.now.cells) }
    {
        ask_cells(alloc, &self.cells, at_of(head, item.seq), &item.request)
    }

    /// Settles every intent of the transaction: its last write becomes a version at the commit's
    /// stamp, or is dropped where there is no commit. After want of memory each key is as before or
    /// settled, so that settling again settles the rest.
    pub fn settle(
        &mut self,
        alloc: Global,
        txn: TxnNo,
        commit: Option<Stamp>,
    ) -> Result<(), AllocError>
        ensures ok { OnOk result (self.new ≡ settle_range txn.0 commit self.old) }
        ensures info { (self.new).info ≡ (self.old).info }
        ensures keys { map key_of (self.new).cells ≡ map key_of (self.old).cells }
        ensures partly { PartlyAs (settle_cell txn.0 commit) (self.old).cells (self.new).cells }
    {
        let keys = to_settle(alloc, &self.cells, self.written.take())?;
        settle_each(alloc, &mut self.cells, keys.as_slice(), txn, commit)?;
        self.written = still_written(alloc, &self.cells, &keys);
        Ok(())
    }

    /// Whether the item's span lies in the range.
    pub fn holds_item(&self, item: &Item) -> bool
        ensures { result ≡ holds_item self.now item.now }
    {
        let span = &self.info.desc.span;
        match item.request.bounds() {
            Bounds::Point(key) => span.contains(key),
            Bounds::Between(start, end) => span.start <= *start && *end <= span.end,
        }
    }

    /// Whether the range holds each item's span.
    pub fn holds_all(&self, items: &[Item]) -> bool
        ensures { result ≡ list_all (holds_item self.now) items.now }
    {
        items.iter().all(|item| self.holds_item(item))
    }
}
