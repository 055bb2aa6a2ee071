//! Finds the route of a rest.
ghost use Rattle.std.specs.Prelude.{◌≡◌, ◌<◌, length, IfOk, OnErr};
ghost use Rattle.ds_flight.specs.Causes.{GoesOn};
ghost use Rattle.ds_flight.specs.Routes.{RouteContains, RouteCounts, RouteFound, RouteSought};
ghost use Rattle.ds_flight.specs.Searches.{course};

use ds_base::Dir;
use ds_cache::{RangeCache, Token};
use ds_cut::Cutter;
use ds_desc::Info;
use ds_iter::{Sought, seek};
use ds_retry::Attempts;
use ds_rule::Wire;
use std::alloc::{AllocError, Global};

/// What came of the search for a route.
#[derive(Drop)]
pub(crate) enum Routing {
    /// The route, and the entry of the cache that it was found by.
    Found { info: Info, token: Token },
    /// The lookup was lost, and may be made again.
    Again,
    /// The lookup was lost, and the budget is used up.
    Spent,
}

/// Seeks the route of the first key of a rest that has something left: in the cache, or else by one
/// lookup, whose loss is counted.
pub(crate) fn route<W: Wire>(
    alloc: Global,
    cache: &mut RangeCache,
    wire: &mut W,
    attempts: &mut Attempts,
    rest: &Cutter,
    dir: Dir,
) -> Result<Routing, AllocError>
    requires direction { rest.now.dir ≡ dir }
    requires some { 0 < length rest.now.items }
    requires goes_on { GoesOn attempts.old }
    ensures found { IfOk result (λ r. RouteFound dir (course (W.state wire.old) cache.old.entries attempts.old) (course (W.state wire.new) cache.new.entries attempts.new) r) }
    ensures contains { IfOk result (λ r. RouteContains dir rest.now.items r) }
    ensures counts { IfOk result (λ r. RouteCounts attempts.old attempts.new r) }
    ensures sought { OnErr result (RouteSought dir (course (W.state wire.old) cache.old.entries attempts.old) (course (W.state wire.new) cache.new.entries attempts.new)) }
    ensures tries { OnErr result (GoesOn attempts.new) }
{
    rest.known();
    let Some(key) = rest.seek() else {
        unreachable!()
    };
    match seek(alloc, cache, wire, key, dir)? {
        Sought::Found { info, token } => Ok(Routing::Found { info, token }),
        Sought::Lost => {
            if attempts.lose(false) {
                Ok(Routing::Spent)
            } else {
                Ok(Routing::Again)
            }
        }
    }
}
