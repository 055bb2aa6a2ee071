//! The first request at which something holds of it and those before it.
ghost use Rattle.std.specs.Prelude.{◌≡◌, ◌<◌, length, IfSome, List, Bool};
ghost use Rattle.ds_kind.specs.declared.request.Request.{Request};
ghost use Rattle.ds_legal.specs.Firsts.{FindsFirst};
ghost use Rattle.ds_kind.specs.Asks.{overtakes};
ghost use Rattle.ds_kind.specs.Groups.{first_where};
ghost use Rattle.ds_legal.specs.Rules.{is_misfit, is_overtaken};
ghost use Rattle.ds_kind.specs.Request.{span_of};

use crate::mix::Mix;
use ds_base::Key;
use ds_kind::{Bounds, Request};

/// The first request that does not fit one before it.
pub fn first_misfit(requests: &[Request]) -> Option<usize>
    ensures is { result ≡ first_where is_misfit requests.now }
    ensures within { IfSome result (λ i. i < length requests.now) }
{
    let mut mix = Mix::new();
    for (i, request) in requests.iter().enumerate() {
        let flags = request.flags();
        if !mix.fits(flags) {
            return Some(i);
        }
        mix = mix.with(flags);
    }
    None
}

fn start(request: &Request) -> &Key
    ensures { result.now ≡ (span_of request.now).start }
{
    match request.bounds() {
        Bounds::Point(key) => key,
        Bounds::Between(start, _) => start,
    }
}

/// Whether the first one's span ends above the start of the second one's.
fn overtakes(first: &Request, second: &Request) -> bool
    ensures { result ≡ overtakes first.now second.now }
{
    let start = start(second);
    match first.bounds() {
        // the span of a point ends at the next key
        Bounds::Point(key) => start <= key,
        Bounds::Between(_, end) => start < end,
    }
}

/// The first request at whose start the one before it has not ended.
pub fn first_overtaken(requests: &[Request]) -> Option<usize>
    ensures is { result ≡ first_where is_overtaken requests.now }
    ensures within { IfSome result (λ i. i < length requests.now) }
{
    for i in 1..requests.len() {
        if overtakes(&requests[i - 1], &requests[i]) {
            return Some(i);
        }
    }
    None
}

/// Does nothing: its clause tells what it means to be named by a search for the first request.
pub fn first_is_least()
    ensures { (test : List Request → Request → Bool) (requests : List Request) → FindsFirst test requests }
{}
