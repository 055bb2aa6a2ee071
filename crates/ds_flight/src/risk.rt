//! Whether nobody knows what a lost send left.
ghost use Rattle.std.specs.Prelude.{◌≡◌};
ghost use Rattle.std.specs.List.{list_any};
ghost use Rattle.ds_flight.specs.Counting.{is_commit, is_risky, is_unrepeatable};

use ds_kind::{Items, Piece, Request};

/// Whether the request commits.
fn is_commit(request: &Request) -> bool
    ensures { result ≡ is_commit request.now }
{
    match request {
        Request::EndTxn(end) => end.commit,
        _ => false,
    }
}

/// Whether doing the request twice isn't doing it once.
fn is_unrepeatable(request: &Request) -> bool
    ensures { result ≡ is_unrepeatable request.now }
{
    let flags = request.flags();
    flags.write && !flags.repeatable
}

/// Whether one of the requests commits.
fn any_commit(items: &Items) -> bool
    ensures { result ≡ list_any (λ i. is_commit i.request) items.now }
{
    items.as_slice().iter().any(|item| is_commit(&item.request))
}

/// Whether doing one of the requests twice isn't doing it once.
fn any_unrepeatable(items: &Items) -> bool
    ensures { result ≡ list_any (λ i. is_unrepeatable i.request) items.now }
{
    items
        .as_slice()
        .iter()
        .any(|item| is_unrepeatable(&item.request))
}

/// Whether nobody knows what a lost send of the piece left: of a transaction where it commits, and
/// without one where it has a write that can't be repeated.
pub(crate) fn is_risky(piece: &Piece) -> bool
    ensures { result ≡ is_risky piece.now }
{
    match piece.head.txn {
        Some(_) => any_commit(&piece.items),
        None => any_unrepeatable(&piece.items),
    }
}
