//! How two descriptors stand to each other.
ghost use Rattle.std.specs.Prelude.{◌≡◌, true};
ghost use Rattle.ds_base.specs.Order.{IsKey, key_lt};
ghost use Rattle.ds_desc.specs.Descs.{overlap};
ghost use Rattle.ds_desc.specs.Descs.{same_desc};
ghost use Rattle.ds_cache.specs.Insert.{outdates};

use ds_base::{Key, Span};
use ds_desc::{Info, RangeDesc};

/// Where the entry starts.
pub(crate) fn start_of(info: &Info) -> &Key
    ensures key { result.now ≡ info.now.desc.span.start }
    ensures is_key { IsKey info.now.desc.span.start }
{
    let start = &info.desc.span.start;
    start.known();
    start
}

/// Where the entry ends, above its start.
pub(crate) fn end_of(info: &Info) -> &Key
    ensures key { result.now ≡ info.now.desc.span.end }
    ensures is_key { IsKey info.now.desc.span.end }
    ensures above { key_lt info.now.desc.span.start info.now.desc.span.end ≡ true }
{
    let end = &info.desc.span.end;
    end.known();
    end
}

/// Whether some key is in both spans.
pub(crate) fn overlaps(a: &Span, b: &Span) -> bool
    ensures { result ≡ overlap a.now b.now }
{
    a.start < b.end && b.start < a.end
}

/// Whether the two are one descriptor.
pub(crate) fn is_same(a: &RangeDesc, b: &RangeDesc) -> bool
    ensures { result ≡ same_desc a.now b.now }
{
    a.id == b.id
        && a.generation == b.generation
        && a.span.start == b.span.start
        && a.span.end == b.span.end
        && a.nodes.as_slice() == b.nodes.as_slice()
}

/// Whether the entry overlaps the descriptor, is at least as new, and is another.
pub(crate) fn is_newer(info: &Info, entry: &Info) -> bool
    ensures { result ≡ outdates info.now entry.now }
{
    overlaps(&info.desc.span, &entry.desc.span)
        && info.desc.generation <= entry.desc.generation
        && !is_same(&info.desc, &entry.desc)
}
