//! The end of a flight whose limit is used up.
ghost use Rattle.std.specs.Prelude.{◌≡◌, true, map, IfOk};
ghost use Rattle.std.specs.Option.{option_copied};
ghost use Rattle.ds_cover.specs.Cuts.{seek_key};
ghost use Rattle.ds_cover.specs.Items.{AreProper};
ghost use Rattle.ds_cover.specs.Laws.{joined};
ghost use Rattle.ds_gather.specs.Gathered.{gathered};
ghost use Rattle.ds_kind.specs.Filled.{filled};
ghost use Rattle.ds_limit.specs.Rests.{are_inside};
ghost use Rattle.ds_retry.specs.declared.outcome.PartOutcome.TheVariants.{Done};
ghost use Rattle.ds_rule.specs.Pieces.{Each};
ghost use Rattle.ds_flight.specs.Sends.{first_met, goes, nearer, IsProperTask};
ghost use Rattle.ds_flight.specs.Works.{items_of};

use crate::work::Task;
use ds_base::{Copies, Dir, Key};
use ds_cut::Cutter;
use ds_gather::Gather;
use ds_kind::{Left, Part, Piece};
use ds_limit::fill_rest;
use ds_retry::PartOutcome;
use std::alloc::{AllocError, Global};

/// The one of two keys that is met first in the direction, if there is one.
fn nearer(dir: Dir, one: Option<Key>, other: Option<Key>) -> Option<Key>
    ensures { result ≡ nearer dir one other }
{
    match (one, other) {
        (Some(one), Some(other)) => Some(first_met(dir, one, other)),
        (Some(one), None) => Some(one),
        (None, other) => other,
    }
}

/// The one of two keys that is met first in the direction.
fn first_met(dir: Dir, one: Key, other: Key) -> Key
    ensures { result ≡ first_met dir one other }
{
    match dir {
        Dir::Forward => { if other < one { other } else { one } }
        Dir::Reverse => { if one < other { other } else { one } }
    }
}

/// The key at which a piece is sought once it is a rest again.
fn seek_again(alloc: Global, piece: &Piece) -> Result<Option<Key>, AllocError>
    requires { AreProper piece.now.items }
    ensures { IfOk result (λ k. k ≡ seek_key piece.now.dir piece.now.items) }
{
    let part = Part::of_piece(alloc, piece)?;
    let rest = Cutter::new(alloc, &part)?;
    copied(alloc, rest.seek())
}

fn copied(alloc: Global, key: Option<&Key>) -> Result<Option<Key>, AllocError>
    ensures { IfOk result (λ k. k ≡ option_copied key.entry) }
{
    match key {
        Some(key) => Ok(Some(key.copy(alloc)?)),
        None => Ok(None),
    }
}

/// The key at which what is left of a task is sought.
fn seek_of(alloc: Global, task: &Task) -> Result<Option<Key>, AllocError>
    requires { AreProper (items_of task.now) }
    ensures { IfOk result (λ k. k ≡ seek_key (goes task.now) (items_of task.now)) }
{
    match task {
        Task::Rest(rest) => copied(alloc, rest.seek()),
        Task::Routed(flying) => seek_again(alloc, &flying.piece),
    }
}

/// The key at which all that is left of a part is sought.
fn seek_left(alloc: Global, dir: Dir, work: &[Task]) -> Result<Option<Key>, AllocError>
    requires { Each (IsProperTask dir) work.now }
    ensures { IfOk result (λ k. k ≡ seek_key dir (joined (map items_of work.now))) }
{
    let mut nearest = None;
    'tasks: for task in work {
        nearest = nearer(dir, nearest, seek_of(alloc, task)?);
    }
    Ok(nearest)
}

/// The limit is used up: what isn't done of each request is its resume span, from where its reply
/// stopped, or else from where the rest of all requests begins.
pub(crate) fn end_short(
    alloc: Global,
    part: &Part,
    gather: Gather,
    left: Left,
    work: Vec<Task>,
) -> Result<PartOutcome, AllocError>
    requires proper { AreProper part.now.items }
    requires ready { Each (IsProperTask part.now.dir) work.items }
    requires inside { are_inside part.now.items (gathered gather.wanted gather.got) ≡ true }
    ensures { IfOk result (λ o. o ≡ Done (filled part.now.dir (seek_key part.now.dir (joined (map items_of work.items))) part.now.items (gathered gather.wanted gather.got)) left) }
{
    let seek = seek_left(alloc, part.dir, work.as_slice())?;
    let mut replies = gather.take();
    fill_rest(alloc, part, &mut replies, seek.as_ref())?;
    Ok(PartOutcome::Done { replies, left })
}
