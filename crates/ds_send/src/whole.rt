//! The least span over all requests of a batch.
ghost use Rattle.std.specs.Prelude.{◌≡◌, ◌<◌, true, length, IfOk};
ghost use Rattle.std.specs.List.{list_all};
ghost use Rattle.ds_base.specs.Order.{min_key, max_key};
ghost use Rattle.ds_kind.specs.Asks.{has_proper_span};
ghost use Rattle.ds_kind.specs.Parts.{requests_of};
ghost use Rattle.ds_kind.specs.Request.{span_of};
ghost use Rattle.ds_kind.specs.WholeSpan.{whole_span, widened};

use ds_base::{Copies, Key, Span};
use ds_kind::{Bounds, Item, Items, Request};
use std::alloc::{AllocError, Global};

/// The keys that the request speaks of.
fn span_of(alloc: Global, request: &Request) -> Result<Span, AllocError>
    requires { has_proper_span request.now ≡ true }
    ensures { IfOk result (λ s. s ≡ span_of request.now) }
{
    match request.bounds() {
        Bounds::Point(key) => Span::point(alloc, key),
        Bounds::Between(start, end) => Ok(Span {
            start: start.copy(alloc)?,
            end: end.copy(alloc)?,
        }),
    }
}

fn lesser(a: Key, b: Key) -> Key
    ensures { result ≡ min_key a b }
{
    if b < a { b } else { a }
}

fn greater(a: Key, b: Key) -> Key
    ensures { result ≡ max_key a b }
{
    if a < b { b } else { a }
}

/// The least span that holds both.
fn wider(span: Span, other: Span) -> Span
    ensures { result ≡ record { start = min_key span.start other.start; end = max_key span.end other.end } }
{
    Span {
        start: lesser(span.start, other.start),
        end: greater(span.end, other.end),
    }
}

/// The least span that holds the span and those of the requests.
fn widened(alloc: Global, span: Span, items: &[Item]) -> Result<Span, AllocError>
    requires { list_all has_proper_span (requests_of items.now) ≡ true }
    ensures { IfOk result (λ s. s ≡ widened span items.now) }
{
    let mut span = span;
    for item in items {
        span = wider(span, span_of(alloc, &item.request)?);
    }
    Ok(span)
}

/// The least span that holds those of all requests.
pub(crate) fn whole_span(alloc: Global, items: &Items) -> Result<Span, AllocError>
    requires some { 0 < length items.now }
    requires proper { list_all has_proper_span (requests_of items.now) ≡ true }
    ensures { IfOk result (λ s. s ≡ whole_span items.now) }
{
    let all = items.as_slice();
    let first = span_of(alloc, &all[0].request)?;
    widened(alloc, first, &all[1..])
}
