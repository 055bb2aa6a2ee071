//! What the rules ask of one request, and the first request of which it holds.
ghost use Rattle.std.specs.Prelude.{◌≡◌, ◌<◌, ◌∷◌, [], not, length, IfSome};
ghost use Rattle.std.specs.List.{position, list_any};
ghost use Rattle.ds_kind.specs.Asks as Ask;

use ds_base::Key;
use ds_kind::{Bounds, Request};

/// No point lies at or above it.
const BOUND: [u8; 2] = [255, 255];

/// Whether the key after this one is a key too.
fn has_room(key: &Key) -> bool
    ensures { result ≡ Ask.has_room key.now }
{
    key.bytes().len() <= 64 && key.bytes().cmp(BOUND.as_slice()).is_lt()
}

/// Whether a range rises, or a point's key has room.
fn has_proper_span(request: &Request) -> bool
    ensures { result ≡ Ask.has_proper_span request.now }
{
    match request.bounds() {
        Bounds::Point(key) => has_room(key),
        Bounds::Between(start, end) => start < end,
    }
}

pub fn is_end(request: &Request) -> bool
    ensures { result ≡ Ask.is_end request.now }
{
    matches!(request, Request::EndTxn(_))
}

fn needs_txn(request: &Request) -> bool
    ensures { result ≡ Ask.needs_txn request.now }
{
    matches!(request, Request::EndTxn(_) | Request::QueryIntent(_))
}

fn is_get_or_scan(request: &Request) -> bool
    ensures { result ≡ Ask.is_get_or_scan request.now }
{
    matches!(
        request,
        Request::Get(_) | Request::Scan(_) | Request::ReverseScan(_)
    )
}

fn knows_limit(request: &Request) -> bool
    ensures { result ≡ Ask.knows_limit request.now }
{
    is_get_or_scan(request) || is_delete_range(request)
}

fn is_delete_range(request: &Request) -> bool
    ensures { result ≡ Ask.is_delete_range request.now }
{
    matches!(request, Request::DeleteRange(_))
}

/// Whether it writes, or stands alone.
fn acts(request: &Request) -> bool
    ensures { result ≡ Ask.acts request.now }
{
    let flags = request.flags();
    flags.write || flags.alone
}

pub fn first_improper(requests: &[Request]) -> Option<usize>
    ensures is { result ≡ position (λ r. not (Ask.has_proper_span r)) requests.now }
    ensures within { IfSome result (λ i. i < length requests.now) }
{
    requests.iter().position(|r| !has_proper_span(r))
}

pub fn first_end(requests: &[Request]) -> Option<usize>
    ensures is { result ≡ position Ask.is_end requests.now }
    ensures within { IfSome result (λ i. i < length requests.now) }
{
    requests.iter().position(|r| is_end(r))
}

pub fn first_needing_txn(requests: &[Request]) -> Option<usize>
    ensures is { result ≡ position Ask.needs_txn requests.now }
    ensures within { IfSome result (λ i. i < length requests.now) }
{
    requests.iter().position(|r| needs_txn(r))
}

pub fn first_no_read(requests: &[Request]) -> Option<usize>
    ensures is { result ≡ position (λ r. not (Ask.is_get_or_scan r)) requests.now }
    ensures within { IfSome result (λ i. i < length requests.now) }
{
    requests.iter().position(|r| !is_get_or_scan(r))
}

pub fn first_unlimited(requests: &[Request]) -> Option<usize>
    ensures is { result ≡ position (λ r. not (Ask.knows_limit r)) requests.now }
    ensures within { IfSome result (λ i. i < length requests.now) }
{
    requests.iter().position(|r| !knows_limit(r))
}

pub fn any_delete_range(requests: &[Request]) -> bool
    ensures { result ≡ list_any Ask.is_delete_range requests.now }
{
    requests.iter().any(|r| is_delete_range(r))
}

pub fn any_acts(requests: &[Request]) -> bool
    ensures { result ≡ list_any Ask.acts requests.now }
{
    requests.iter().any(|r| acts(r))
}
