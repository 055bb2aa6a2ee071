//! What is left of one request's span.
ghost use Rattle.std.specs.Prelude.{◌≡◌, true, IfOk};
ghost use Rattle.std.specs.Option.{option_copied};
ghost use Rattle.ds_base.specs.Order.{max_key, min_key};
ghost use Rattle.ds_base.specs.declared.value.Dir.TheVariants.{Forward, Reverse};
ghost use Rattle.ds_kind.specs.Asks.{has_proper_span};
ghost use Rattle.ds_kind.specs.Request.{span_of};
ghost use Rattle.ds_kind.specs.Filled.{resumed};
ghost use Rattle.ds_limit.specs.Rests.{is_inside};

use ds_base::{Copies, Dir, Key, Span};
use ds_kind::{Bounds, Request};
use std::alloc::{AllocError, Global};

// The keys that the request speaks of.
fn span_of(alloc: Global, request: &Request) -> Result<Span, AllocError>
    requires { has_proper_span request.now ≡ true }
    ensures { IfOk result (λ s. s ≡ span_of request.now) }
{
    match request.bounds() {
        Bounds::Point(key) => Span::point(alloc, key),
        Bounds::Between(start, end) => Ok(Span {
            start: start.copy(alloc)?,
            end: end.copy(alloc)?,
        }),
    }
}

fn greater(alloc: Global, key: Key, other: &Key) -> Result<Key, AllocError>
    ensures { IfOk result (λ k. k ≡ max_key key other.now) }
{
    if key < *other {
        other.copy(alloc)
    } else {
        Ok(key)
    }
}

fn lesser(alloc: Global, key: Key, other: &Key) -> Result<Key, AllocError>
    ensures { IfOk result (λ k. k ≡ min_key key other.now) }
{
    if *other < key {
        other.copy(alloc)
    } else {
        Ok(key)
    }
}

// From where the reply stopped, or else from the seek key, up to the end.
fn forward(
    alloc: Global,
    span: Span,
    stopped: Option<&Span>,
    seek: Option<&Key>,
) -> Result<Option<Span>, AllocError>
    requires { is_inside span (option_copied stopped) ≡ true }
    ensures { IfOk result (λ r. r ≡ resumed Forward span (option_copied stopped.entry) (option_copied seek.entry)) }
{
    if let Some(stopped) = stopped {
        return Ok(Some(Span {
            start: stopped.start.copy(alloc)?,
            end: span.end,
        }));
    }
    match seek {
        Some(seek) if *seek < span.end => Ok(Some(Span {
            start: greater(alloc, span.start, seek)?,
            end: span.end,
        })),
        _ => Ok(None),
    }
}

// From the start up to where the reply stopped, or else up to the seek key.
fn reverse(
    alloc: Global,
    span: Span,
    stopped: Option<&Span>,
    seek: Option<&Key>,
) -> Result<Option<Span>, AllocError>
    requires { is_inside span (option_copied stopped) ≡ true }
    ensures { IfOk result (λ r. r ≡ resumed Reverse span (option_copied stopped.entry) (option_copied seek.entry)) }
{
    if let Some(stopped) = stopped {
        return Ok(Some(Span {
            start: span.start,
            end: stopped.end.copy(alloc)?,
        }));
    }
    match seek {
        Some(seek) if span.start < *seek => Ok(Some(Span {
            start: span.start,
            end: lesser(alloc, span.end, seek)?,
        })),
        _ => Ok(None),
    }
}

/// What is left of the request's span where its reply stopped at this span's edge, or stopped
/// nowhere and the rest of all requests begins at the seek key.
pub(crate) fn rest_of(
    alloc: Global,
    dir: Dir,
    request: &Request,
    stopped: Option<&Span>,
    seek: Option<&Key>,
) -> Result<Option<Span>, AllocError>
    requires proper { has_proper_span request.now ≡ true }
    requires inside { is_inside (span_of request.now) (option_copied stopped) ≡ true }
    ensures { IfOk result (λ r. r ≡ resumed dir (span_of request.now) (option_copied stopped.entry) (option_copied seek.entry)) }
{
    let span = span_of(alloc, request)?;
    match dir {
        Dir::Forward => forward(alloc, span, stopped, seek),
        Dir::Reverse => reverse(alloc, span, stopped, seek),
    }
}
