//! A transaction's intents, settled in all ranges.
ghost use Rattle.std.specs.Prelude.{◌≡◌, ◌<◌, length, map, OnOk};
ghost use Rattle.ds_rule.specs.Close.{settle_range};
ghost use Rattle.ds_ranges.specs.Layout.{layout};
ghost use Rattle.ds_ranges.specs.Alike.{AllAlike};

use crate::ranges::Ranges;
use crate::slot::Slot;
use ds_base::{Stamp, TxnNo};
use std::alloc::{AllocError, Global};

/// Settles the transaction's intents in all ranges. After want of memory some may be settled, so that
/// settling again settles the rest.
fn settle_ranges(
    alloc: Global,
    ranges: &mut Vec<Slot>,
    txn: TxnNo,
    commit: Option<Stamp>,
) -> Result<(), AllocError>
    ensures ok { OnOk result ((ranges.new).items ≡ map (settle_range txn.0 commit) (ranges.old).items) }
    ensures alike { AllAlike (ranges.old).items (ranges.new).items }
    ensures again { map (settle_range txn.0 commit) (ranges.new).items ≡ map (settle_range txn.0 commit) (ranges.old).items }
{
    'each: for i in 0..ranges.len() {
        let range = &mut ranges[i];
        range.settle(alloc, txn, commit)?;
    }
    Ok(())
}

impl Ranges {
    /// Settles every intent of the transaction: its last write at a key becomes a version at the
    /// commit's stamp, or is dropped where there is no commit. After want of memory some may be settled, so
    /// that settling again settles the rest.
    pub fn settle(
        &mut self,
        alloc: Global,
        txn: TxnNo,
        commit: Option<Stamp>,
    ) -> Result<(), AllocError>
        ensures ok { OnOk result (self.new ≡ layout (map (settle_range txn.0 commit) (self.old).ranges) (self.old).descs) }
        ensures again { map (settle_range txn.0 commit) (self.new).ranges ≡ map (settle_range txn.0 commit) (self.old).ranges }
        ensures descs { (self.new).descs ≡ (self.old).descs }
    {
        settle_ranges(alloc, &mut self.items, txn, commit)
    }
}
