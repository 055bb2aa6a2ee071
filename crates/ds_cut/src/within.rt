//! Whether items lie in a span, so that nothing of them is left past it.
ghost use Rattle.std.specs.Prelude.{◌≡◌};
ghost use Rattle.ds_base.specs.Order.{after, key_le};
ghost use Rattle.ds_kind.specs.Reach.{extent_of, reach_of_bounds};
ghost use Rattle.ds_cut.specs.Within.{none_past, stays_within};

use ds_base::{Dir, Key, Span};
use ds_kind::{Bounds, Item};

/// Whether a point ends up to a key, found without making the key after it.
#[tactic(auto, using(crate::proofs::Whole::below_is_within))]
pub(crate) fn ends_up_to(key: &Key, end: &Key) -> bool
    ensures { result ≡ key_le (after key.now) end.now }
{
    key < end
}

/// Whether a reach ends in the span, going in this direction.
pub(crate) fn stays_within(dir: Dir, span: &Span, bounds: Bounds<'_>) -> bool
    ensures { result ≡ stays_within dir span.now (extent_of (reach_of_bounds bounds.entry)) }
{
    match (dir, bounds) {
        (Dir::Forward, Bounds::Point(key)) => ends_up_to(key, &span.end),
        (Dir::Forward, Bounds::Between(_, end)) => end <= &span.end,
        (Dir::Reverse, Bounds::Point(key)) => &span.start <= key,
        (Dir::Reverse, Bounds::Between(start, _)) => &span.start <= start,
    }
}

/// Whether no item reaches past the span on the far side.
pub fn none_past(dir: Dir, span: &Span, items: &[Item]) -> bool
    ensures { result ≡ none_past dir span.now items.now }
{
    'items: for item in items {
        if !stays_within(dir, span, item.request.bounds()) {
            return false;
        }
    }
    true
}
