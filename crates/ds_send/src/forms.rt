//! Which batches can be sent over ranges that may move.
ghost use Rattle.std.specs.Prelude.{◌≡◌};
ghost use Rattle.std.specs.List.{list_all};
ghost use Rattle.ds_kind.specs.Asks.{is_get_or_scan};
ghost use Rattle.ds_send.specs.Forms.{can_ask, can_ask_alone, can_send, is_admin, is_value_write};

use ds_base::Stamp;
use ds_kind::{Batch, Request};

fn is_read(request: &Request) -> bool
    ensures { result ≡ is_get_or_scan request.now }
{
    matches!(
        request,
        Request::Get(_) | Request::Scan(_) | Request::ReverseScan(_)
    )
}

fn is_value_write(request: &Request) -> bool
    ensures { result ≡ is_value_write request.now }
{
    matches!(
        request,
        Request::Put(_)
            | Request::ConditionalPut(_)
            | Request::InitPut(_)
            | Request::Increment(_)
            | Request::Delete(_)
            | Request::DeleteRange(_)
    )
}

fn is_admin(request: &Request) -> bool
    ensures { result ≡ is_admin request.now }
{
    matches!(
        request,
        Request::AdminSplit(_) | Request::AdminTransferLease(_)
    )
}

fn can_ask_alone(request: &Request) -> bool
    ensures { result ≡ can_ask_alone request.now }
{
    is_read(request) || is_value_write(request) || is_admin(request)
}

fn can_ask(at: Option<Stamp>, request: &Request) -> bool
    ensures { result ≡ can_ask at request.now }
{
    match at {
        None => is_read(request),
        Some(_) => can_ask_alone(request),
    }
}

fn can_ask_all(at: Option<Stamp>, requests: &[Request]) -> bool
    ensures { result ≡ list_all (can_ask at) requests.now }
{
    requests.iter().all(|request| can_ask(at, request))
}

/// Whether the batch is of a form that can be sent: no limit; in a transaction gets and scans in
/// either direction, with a stamp writes of values, splits and transfers of a lease too.
pub fn can_send(batch: &Batch) -> bool
    ensures { result ≡ can_send batch.now }
{
    batch.limit.is_none() && can_ask_all(batch.at, batch.requests.as_slice())
}
