//! The key at which what is left of a part is sought.
ghost use Rattle.std.specs.Prelude.{◌≡◌, true, None, IfOk, IfSome, length};
ghost use Rattle.ds_cut.specs.Fates.{all_left};
ghost use Rattle.ds_kind.specs.Asks.{is_proper};
ghost use Rattle.ds_kind.specs.Reach.{extent_of, reach_of_bounds};
ghost use Rattle.ds_kind.specs.Request.{reach_of};
ghost use Rattle.ds_cover.specs.Cuts.{seek_key};
ghost use Rattle.ds_cover.specs.Items.{AreProper};
ghost use Rattle.ds_cut.specs.Seek.{IsMetFirst, StaysProper, comes_first, ends_above, first_over, first_with, near_end, near_end_of};

use crate::fate::Fate;
use crate::share::nearest_left;
use ds_base::{Copies, Dir, Key};
use ds_kind::{Bounds, Item, Items};
use std::alloc::{AllocError, Global};

/// The key at which a reach starts.
fn start_of<'a>(bounds: Bounds<'a>) -> &'a Key
    ensures { result.now ≡ (extent_of (reach_of_bounds bounds.entry)).start }
{
    match bounds {
        Bounds::Point(key) => key,
        Bounds::Between(start, _) => start,
    }
}

/// Whether the first of two reaches ends above the other, found without making the key after a
/// point. They may end at one key.
fn ends_above(one: Bounds<'_>, other: Bounds<'_>) -> bool
    ensures { result ≡ ends_above (reach_of_bounds one.entry) (reach_of_bounds other.entry) }
{
    match (one, other) {
        (Bounds::Point(key), Bounds::Point(other)) => other <= key,
        (Bounds::Point(key), Bounds::Between(_, end)) => end <= key,
        (Bounds::Between(_, end), Bounds::Point(other)) => other < end,
        (Bounds::Between(_, end), Bounds::Between(_, other)) => other <= end,
    }
}

/// Whether the first of two reaches is met before the other.
fn comes_first(dir: Dir, one: Bounds<'_>, other: Bounds<'_>) -> bool
    ensures { result ≡ comes_first dir (reach_of_bounds one.entry) (reach_of_bounds other.entry) }
{
    match dir {
        Dir::Forward => start_of(one) <= start_of(other),
        Dir::Reverse => ends_above(one, other),
    }
}

/// Which of two reaches is met first.
fn first_of<'a>(dir: Dir, one: Bounds<'a>, other: Bounds<'a>) -> Bounds<'a>
    ensures near { IsMetFirst dir one.entry other.entry result }
    ensures proper { StaysProper one.entry other.entry result }
{
    if comes_first(dir, one, other) {
        one
    } else {
        other
    }
}

/// What is met first, with one item more.
pub(crate) fn first_with<'a>(dir: Dir, so_far: Option<Bounds<'a>>, item: &'a Item) -> Bounds<'a>
    requires proper { is_proper (reach_of item.now.request) ≡ true }
    requires so_far { IfSome so_far (λ b. is_proper (reach_of_bounds b) ≡ true) }
    ensures near { near_end dir (reach_of_bounds result) ≡ first_with dir (near_end_of dir so_far.entry) (reach_of item.now.request) }
    ensures proper { is_proper (reach_of_bounds result) ≡ true }
{
    let bounds = item.request.bounds();
    match so_far {
        Some(so_far) => first_of(dir, so_far, bounds),
        None => bounds,
    }
}

/// What is met first of all items, if there is one.
fn nearest<'a>(dir: Dir, items: &'a [Item]) -> Option<Bounds<'a>>
    requires { AreProper items.now }
    ensures near { near_end_of dir result ≡ first_over dir None items.now }
    ensures proper { IfSome result (λ b. is_proper (reach_of_bounds b) ≡ true) }
{
    let mut so_far = None;
    'items: for item in items {
        so_far = Some(first_with(dir, so_far, item));
    }
    so_far
}

/// The key at which a reach is met.
fn near_key(alloc: Global, dir: Dir, bounds: Bounds<'_>) -> Result<Key, AllocError>
    requires { is_proper (reach_of_bounds bounds) ≡ true }
    ensures { IfOk result (λ k. k ≡ near_end dir (reach_of_bounds bounds.entry)) }
{
    match (dir, bounds) {
        (Dir::Forward, Bounds::Point(key)) => key.copy(alloc),
        (Dir::Forward, Bounds::Between(start, _)) => start.copy(alloc),
        (Dir::Reverse, Bounds::Point(key)) => key.after(alloc),
        (Dir::Reverse, Bounds::Between(_, end)) => end.copy(alloc),
    }
}

/// The key of what is met first, if anything is.
fn key_of(alloc: Global, dir: Dir, nearest: Option<Bounds<'_>>) -> Result<Option<Key>, AllocError>
    requires { IfSome nearest (λ b. is_proper (reach_of_bounds b) ≡ true) }
    ensures { IfOk result (λ k. k ≡ near_end_of dir nearest.entry) }
{
    match nearest {
        Some(bounds) => {
            let key = near_key(alloc, dir, bounds)?;
            Ok(Some(key))
        }
        None => Ok(None),
    }
}

/// The key at which the items are sought: forward their least start, in reverse their greatest end.
#[tactic(auto, using(crate::proofs::Seeking::over_seek))]
pub fn seek_of(alloc: Global, dir: Dir, items: &Items) -> Result<Option<Key>, AllocError>
    requires { AreProper items.now }
    ensures { IfOk result (λ k. k ≡ seek_key dir items.now) }
{
    let key = key_of(alloc, dir, nearest(dir, items.as_slice()))?;
    Ok(key)
}

/// The key at which what is left of items with these fates is sought.
#[tactic(auto, using(crate::proofs::Seeking::over_seek))]
pub fn seek_left(
    alloc: Global,
    dir: Dir,
    items: &[Item],
    fates: &[Fate],
) -> Result<Option<Key>, AllocError>
    requires same { length fates.now ≡ length items.now }
    requires proper { AreProper (all_left fates.now items.now) }
    ensures { IfOk result (λ k. k ≡ seek_key dir (all_left fates.now items.now)) }
{
    let key = key_of(alloc, dir, nearest_left(dir, items, fates))?;
    Ok(key)
}
