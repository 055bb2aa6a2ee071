//! What is known of a span.
ghost use Rattle.ds_cover.specs.Measures.{IsSpan};

use ds_base::Span;

/// A span is one of keys, and not empty.
pub(crate) fn span_known(span: &Span)
    ensures { IsSpan span.now }
{
    span.start.known();
    span.end.known();
}
