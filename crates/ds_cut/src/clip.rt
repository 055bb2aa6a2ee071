//! An item cut between two bounds.
ghost use Rattle.std.specs.Prelude.{◌≡◌, ◌∷◌, true, IfOk};
ghost use Rattle.std.specs.Option.{option_copied, option_to_list};
ghost use Rattle.ds_base.specs.Order.{key_lt, key_le};
ghost use Rattle.ds_kind.specs.Request.{cut_to, span_of};
ghost use Rattle.ds_cover.specs.Cuts.{cut_item};
ghost use Rattle.ds_cover.specs.Clips.{clip, not_below, not_above, passes};

use ds_base::{Copies, Key};
use ds_kind::{Bounds, Item};
use std::alloc::{AllocError, Global};

/// The greater of a key and a bound, if there is one.
fn raised<'a>(bound: Option<&'a Key>, key: &'a Key) -> &'a Key
    ensures { result.now ≡ not_below (option_copied bound.entry) key.now }
{
    match bound {
        Some(bound) => { if bound < key { key } else { bound } }
        None => key,
    }
}

/// The lesser of a key and a bound, if there is one.
fn lowered<'a>(bound: Option<&'a Key>, key: &'a Key) -> &'a Key
    ensures { result.now ≡ not_above (option_copied bound.entry) key.now }
{
    match bound {
        Some(bound) => { if key < bound { key } else { bound } }
        None => key,
    }
}

/// Whether the key lies between the bounds.
fn is_between(low: Option<&Key>, high: Option<&Key>, key: &Key) -> bool
    ensures { result ≡ passes (option_copied low.entry) (option_copied high.entry) key.now }
{
    match (low, high) {
        (Some(low), Some(high)) => low <= key && key < high,
        (Some(low), None) => low <= key,
        (None, Some(high)) => key < high,
        (None, None) => true,
    }
}

/// The item from a start to an end.
fn item_cut(alloc: Global, item: &Item, start: &Key, end: &Key) -> Result<Item, AllocError>
    requires some { key_lt start.now end.now ≡ true }
    requires from { key_le (span_of item.now.request).start start.now ≡ true }
    requires to { key_le end.now (span_of item.now.request).end ≡ true }
    ensures { IfOk result (λ i. i ≡ record (item.now) { request = cut_to start.now end.now item.now.request }) }
{
    Ok(Item {
        pos: item.pos,
        seq: item.seq,
        request: item.request.cut(alloc, start, end)?,
    })
}

/// The item between the bounds; `None` where nothing of it is left.
pub(crate) fn one_cut(
    alloc: Global,
    item: &Item,
    low: Option<&Key>,
    high: Option<&Key>,
) -> Result<Option<Item>, AllocError>
    ensures { IfOk result (λ cut. option_to_list cut ≡ cut_item (clip (option_copied low.entry) (option_copied high.entry)) item.now) }
{
    match item.request.bounds() {
        Bounds::Point(key) => {
            if is_between(low, high, key) {
                Ok(Some(item.copy(alloc)?))
            } else {
                Ok(None)
            }
        }
        Bounds::Between(start, end) => {
            let start = raised(low, start);
            let end = lowered(high, end);
            if start < end {
                Ok(Some(item_cut(alloc, item, start, end)?))
            } else {
                Ok(None)
            }
        }
    }
}
