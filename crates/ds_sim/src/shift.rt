//! What the items of a piece that was served shift: the ranges that they split, and the leases that they move.
ghost use Rattle.std.specs.Prelude.{◌≡◌, ◌++◌, ◌∷◌, [], IfOk, OnOk, OnErr};
ghost use Rattle.ds_ranges.specs.Layout.{Became};
ghost use Rattle.ds_sim.specs.Done.{shift_all, shift_unless, shift_world, shifts_of, with_shift};

use ds_base::{Copies, Key};
use ds_kind::{Item, Reply, Request};
use ds_ranges::Ranges;
use std::alloc::{AllocError, Global};

/// How an item changes in which ranges the keys lie.
#[derive(Drop)]
pub enum Shift {
    /// The range that holds the key is split there.
    Split { key: Key },
    /// The lease of the range that holds the key moves to the node.
    Lease { key: Key, node: u8 },
}

/// What the item shifts, if it was done.
fn shift_of(alloc: Global, item: &Item, reply: &Reply) -> Result<Option<Shift>, AllocError>
    ensures { IfOk result (λ o. o ≡ shift_unless reply.now.resume item.now.request) }
{
    if reply.resume.is_some() {
        return Ok(None);
    }
    match &item.request {
        Request::AdminSplit(args) => Ok(Some(Shift::Split {
            key: args.key.copy(alloc)?,
        })),
        Request::AdminTransferLease(args) => Ok(Some(Shift::Lease {
            key: args.key.copy(alloc)?,
            node: args.node,
        })),
        _ => Ok(None),
    }
}

/// Adds the shift, if there is one.
fn add(shifts: &mut Vec<Shift>, shift: Option<Shift>) -> Result<(), AllocError>
    ensures { OnOk result ((shifts.new).items ≡ (shifts.old).items ++ with_shift shift []) }
{
    match shift {
        Some(shift) => {
            shifts.push(shift)?;
            Ok(())
        }
        None => Ok(()),
    }
}

/// What the items shift, with the reply to each.
pub(crate) fn shifts_of(
    alloc: Global,
    items: &[Item],
    replies: &[Reply],
) -> Result<Vec<Shift>, AllocError>
    ensures { IfOk result (λ ss. ss.items ≡ shifts_of items.now replies.now) }
{
    let mut shifts = Vec::new(alloc);
    'each: for i in 0..items.len().min(replies.len()) {
        let shift = shift_of(alloc, &items[i], &replies[i])?;
        add(&mut shifts, shift)?;
    }
    Ok(shifts)
}

/// Makes one shift. Want of memory changes nothing.
fn make_shift(alloc: Global, ranges: &mut Ranges, shift: &Shift) -> Result<(), AllocError>
    ensures ok { OnOk result (Became (shift_world shift.now) ranges.old ranges.new) }
    ensures err { OnErr result (ranges.new ≡ ranges.old) }
{
    match shift {
        Shift::Split { key } => ranges.split(alloc, key),
        Shift::Lease { key, node } => {
            ranges.lease(key, *node);
            Ok(())
        }
    }
}

/// Makes each shift, one after another. After want of memory some may be made.
fn shift_each(alloc: Global, ranges: &mut Ranges, shifts: &[Shift]) -> Result<(), AllocError>
    ensures { OnOk result (Became (shift_all shifts.now) ranges.old ranges.new) }
{
    'each: for next in shifts {
        make_shift(alloc, ranges, next)?;
    }
    Ok(())
}

/// Makes all shifts. Want of memory changes nothing: where there are several, which no sender asks for,
/// they are made of a copy.
pub(crate) fn make_shifts(
    alloc: Global,
    ranges: &mut Ranges,
    shifts: &[Shift],
) -> Result<(), AllocError>
    ensures ok { OnOk result (Became (shift_all shifts.now) ranges.old ranges.new) }
    ensures err { OnErr result (ranges.new ≡ ranges.old) }
{
    match shifts {
        [] => Ok(()),
        [one] => make_shift(alloc, ranges, one),
        _ => {
            let mut copy = ranges.copy(alloc)?;
            shift_each(alloc, &mut copy, shifts)?;
            *ranges = copy;
            Ok(())
        }
    }
}
