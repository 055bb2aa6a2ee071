//! What is known of the spans of items, for measures that count keys.
ghost use Rattle.std.specs.Prelude.{◌≡◌, true};
ghost use Rattle.ds_kind.specs.Asks.{has_proper_span};
ghost use Rattle.ds_kind.specs.Request.{reach_of, span_of};
ghost use Rattle.ds_cover.specs.Items.{AreProper};
ghost use Rattle.ds_cover.specs.Measures.{AllSpans, AreKeys, IsSpan};

use ds_kind::{Bounds, Item};

/// The keys of an item's bounds are keys.
fn keys_known(item: &Item)
    ensures { AreKeys (reach_of item.now.request) }
{
    match item.request.bounds() {
        Bounds::Point(key) => key.known(),
        Bounds::Between(start, end) => {
            start.known();
            end.known();
        }
    }
}

/// A proper item's span is a span of keys.
#[tactic(auto, using(crate::proofs::Measuring::its_span))]
fn span_known(item: &Item)
    requires { has_proper_span item.now.request ≡ true }
    ensures { IsSpan (span_of item.now.request) }
{
    keys_known(item);
}

/// The spans of proper items are spans of keys.
pub fn spans_known(items: &[Item])
    requires { AreProper items.now }
    ensures { AllSpans items.now }
{
    'items: for item in items {
        span_known(item);
    }
}
