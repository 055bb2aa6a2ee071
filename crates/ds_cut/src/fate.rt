//! What becomes of each item where a range is cut off.
ghost use Rattle.std.specs.Prelude.{◌≡◌, ◌∷◌, ◌++◌, [], ◌&&◌, true, IfOk, OnOk, OnErr};
ghost use Rattle.std.specs.Option.{option_copied, option_to_list};
ghost use Rattle.ds_kind.specs.Asks.{has_proper_span};
ghost use Rattle.ds_kind.specs.Reach.{extent_of, reach_of_bounds};
ghost use Rattle.ds_base.specs.declared.value.Dir.TheVariants.{Forward, Reverse};
ghost use Rattle.ds_cover.specs.Cuts.{cut_item};
ghost use Rattle.ds_cover.specs.Items.{AreProper};
ghost use Rattle.ds_cut.specs.Fates.{far, lies_past, IsFate, AreFates};
ghost use Rattle.ds_cut.specs.Within.{stays_within};

use crate::clip::one_cut;
use crate::within::{ends_up_to, stays_within};
use ds_base::{Dir, Span};
use ds_kind::{Bounds, Item};
use std::alloc::{AllocError, Global};

/// What becomes of an item.
#[derive(Drop)]
pub enum Fate {
    /// It lies in the range, and is cut off as it is.
    Cut,
    /// It lies past the range, and is left as it is.
    Left,
    /// It reaches over an edge of the range: what is cut off of it, and what is left of it.
    Apart {
        cut: Option<Item>,
        left: Option<Item>,
    },
}

/// Whether a reach lies in the span.
fn is_inside(span: &Span, bounds: Bounds<'_>) -> bool
    ensures { result ≡ (stays_within Forward span.now (extent_of (reach_of_bounds bounds.entry)) && stays_within Reverse span.now (extent_of (reach_of_bounds bounds.entry))) }
{
    match bounds {
        Bounds::Point(key) => {
            stays_within(Dir::Forward, span, Bounds::Point(key))
                && stays_within(Dir::Reverse, span, Bounds::Point(key))
        }
        Bounds::Between(start, end) => {
            stays_within(Dir::Forward, span, Bounds::Between(start, end))
                && stays_within(Dir::Reverse, span, Bounds::Between(start, end))
        }
    }
}

/// Whether a reach lies past the span, going in this direction.
fn lies_past(dir: Dir, span: &Span, bounds: Bounds<'_>) -> bool
    ensures { result ≡ lies_past dir span.now (extent_of (reach_of_bounds bounds.entry)) }
{
    match (dir, bounds) {
        (Dir::Forward, Bounds::Point(key)) => &span.end <= key,
        (Dir::Forward, Bounds::Between(start, _)) => &span.end <= start,
        (Dir::Reverse, Bounds::Point(key)) => ends_up_to(key, &span.start),
        (Dir::Reverse, Bounds::Between(_, end)) => end <= &span.start,
    }
}

/// What is left of the item past the span.
fn far_cut(alloc: Global, dir: Dir, span: &Span, item: &Item) -> Result<Option<Item>, AllocError>
    ensures { IfOk result (λ left. option_to_list left ≡ cut_item (far dir span.now) item.now) }
{
    match dir {
        Dir::Forward => one_cut(alloc, item, Some(&span.end), None),
        Dir::Reverse => one_cut(alloc, item, None, Some(&span.start)),
    }
}

/// What becomes of the item. It is copied only where it reaches over an edge of the range.
fn fate_of(alloc: Global, dir: Dir, span: &Span, item: &Item) -> Result<Fate, AllocError>
    requires { has_proper_span item.now.request ≡ true }
    ensures { IfOk result (λ f. IsFate dir span.now item.now f) }
{
    if is_inside(span, item.request.bounds()) {
        return Ok(Fate::Cut);
    }
    if lies_past(dir, span, item.request.bounds()) {
        return Ok(Fate::Left);
    }
    let cut = one_cut(alloc, item, Some(&span.start), Some(&span.end))?;
    let left = far_cut(alloc, dir, span, item)?;
    Ok(Fate::Apart { cut, left })
}

/// Puts the fate at the end.
fn put(fates: &mut Vec<Fate>, fate: Fate) -> Result<(), AllocError>
    ensures { OnOk result (fates.new.items ≡ fates.old.items ++ fate ∷ []) }
{
    fates.push(fate)?;
    Ok(())
}

/// What becomes of each item.
pub(crate) fn fates_of(
    alloc: Global,
    dir: Dir,
    span: &Span,
    items: &[Item],
) -> Result<Vec<Fate>, AllocError>
    requires { AreProper items.now }
    ensures { IfOk result (λ fs. AreFates dir span.now items.now fs.items) }
{
    let mut fates = Vec::with_capacity(alloc, items.len())?;
    'items: for item in items {
        put(&mut fates, fate_of(alloc, dir, span, item)?)?;
    }
    Ok(fates)
}
