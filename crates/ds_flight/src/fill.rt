//! Routes the rests of a flight.
ghost use Rattle.std.specs.Prelude.{◌≡◌, ◌≤◌, ◌∷◌, Some, length, IfOk, OnOk, OnErr};
ghost use Rattle.ds_rule.specs.Pieces.{Each};
ghost use Rattle.ds_flight.specs.Causes.{GoesOn};
ghost use Rattle.ds_flight.specs.Fills.{AddsOne, FilledTo, FillingCounts, IsReady, LessensIfOn, RestsRouted, RestsSought};
ghost use Rattle.ds_flight.specs.Places.{is_rest};
ghost use Rattle.std.specs.List.{position};
ghost use Rattle.ds_flight.specs.Queues.{KeepsQueue, RestPlaced};
ghost use Rattle.ds_flight.specs.Routes.{RouteSought};
ghost use Rattle.ds_flight.specs.Searches.{course};
ghost use Rattle.ds_flight.specs.declared.work.Task.TheVariants.{Rest};

use crate::cut::{cut_at, lies_in_one};
use crate::places::{first_rest, routed_count};
use crate::route::{Routing, route};
use crate::span::span_known;
use crate::work::Task;
use ds_base::Dir;
use ds_cache::RangeCache;
use ds_cut::Cutter;
use ds_desc::RangeDesc;
use ds_kind::Head;
use ds_retry::{Attempts, Rule};
use ds_rule::Wire;
use std::alloc::{AllocError, Global};

/// What came of routing.
#[derive(Drop)]
pub(crate) enum Filling {
    /// The flight goes on.
    On,
    /// What must lie in one range doesn't lie in this one.
    NotWhole { desc: RangeDesc },
    /// The budget is used up by a lost lookup.
    Spent,
}

/// Routes a rest of the work, and puts what comes of it in this place.
fn route_rest<W: Wire>(
    alloc: Global,
    cache: &mut RangeCache,
    wire: &mut W,
    attempts: &mut Attempts,
    work: &mut Vec<Task>,
    at: usize,
    rest: Cutter,
    head: &Head,
    rule: &Rule,
    dir: Dir,
) -> Result<Filling, AllocError>
    requires place { at ≤ length work.old.items }
    requires ready { Each (IsReady dir) (Rest rest ∷ work.old.items) }
    requires goes_on { GoesOn attempts.old }
    ensures routed { IfOk result (λ r. RestsRouted dir rule.now.whole (course (W.state wire.old) cache.old.entries attempts.old) (course (W.state wire.new) cache.new.entries attempts.new) (Rest rest ∷ work.old.items) work.new.items r) }
    ensures counts { IfOk result (λ r. FillingCounts attempts.new r) }
    ensures ready { OnOk result (Each (IsReady dir) work.new.items) }
    ensures less { IfOk result (λ r. LessensIfOn attempts.old attempts.new (Rest rest ∷ work.old.items) work.new.items r) }
    ensures few { OnOk result (AddsOne (Rest rest ∷ work.old.items) work.new.items) }
    ensures placed { IfOk result (λ r. RestPlaced rest at work.old.items work.new.items r) }
    ensures sought { OnErr result (RouteSought dir (course (W.state wire.old) cache.old.entries attempts.old) (course (W.state wire.new) cache.new.entries attempts.new)) }
    ensures tries { OnErr result (GoesOn attempts.new) }
{
    rest.known();
    match route(alloc, cache, wire, attempts, &rest, dir)? {
        Routing::Found { info, token } => {
            span_known(&info.desc.span);
            if !lies_in_one(rule, &info.desc.span) {
                return Ok(Filling::NotWhole { desc: info.desc });
            }
            cut_at(alloc, work, at, rest, head, &info, token)?;
            Ok(Filling::On)
        }
        Routing::Again => {
            work.insert(at, Task::Rest(rest))?;
            Ok(Filling::On)
        }
        Routing::Spent => Ok(Filling::Spent),
    }
}

/// Routes the rest at this place of the work.
fn route_at<W: Wire>(
    alloc: Global,
    cache: &mut RangeCache,
    wire: &mut W,
    attempts: &mut Attempts,
    work: &mut Vec<Task>,
    at: usize,
    head: &Head,
    rule: &Rule,
    dir: Dir,
) -> Result<Filling, AllocError>
    requires place { position is_rest work.old.items ≡ Some at }
    requires ready { Each (IsReady dir) work.old.items }
    requires goes_on { GoesOn attempts.old }
    ensures routed { IfOk result (λ r. RestsRouted dir rule.now.whole (course (W.state wire.old) cache.old.entries attempts.old) (course (W.state wire.new) cache.new.entries attempts.new) work.old.items work.new.items r) }
    ensures counts { IfOk result (λ r. FillingCounts attempts.new r) }
    ensures ready { OnOk result (Each (IsReady dir) work.new.items) }
    ensures less { IfOk result (λ r. LessensIfOn attempts.old attempts.new work.old.items work.new.items r) }
    ensures few { OnOk result (AddsOne work.old.items work.new.items) }
    ensures queue { IfOk result (λ r. KeepsQueue dir work.old.items work.new.items r) }
    ensures sought { OnErr result (RouteSought dir (course (W.state wire.old) cache.old.entries attempts.old) (course (W.state wire.new) cache.new.entries attempts.new)) }
    ensures tries { OnErr result (GoesOn attempts.new) }
{
    match work.remove(at) {
        Task::Rest(rest) => route_rest(
            alloc, cache, wire, attempts, work, at, rest, head, rule, dir,
        ),
        Task::Routed(_) => unreachable!(),
    }
}

/// Routes rests, the first one each time, while there are any and fewer than `most` pieces wait.
/// Lost lookups are counted and made again. After want of memory the work isn't whole.
pub(crate) fn fill<W: Wire>(
    alloc: Global,
    cache: &mut RangeCache,
    wire: &mut W,
    attempts: &mut Attempts,
    work: &mut Vec<Task>,
    most: usize,
    head: &Head,
    rule: &Rule,
    dir: Dir,
) -> Result<Filling, AllocError>
    requires ready { Each (IsReady dir) work.old.items }
    requires goes_on { GoesOn attempts.old }
    ensures routed { IfOk result (λ r. RestsRouted dir rule.now.whole (course (W.state wire.old) cache.old.entries attempts.old) (course (W.state wire.new) cache.new.entries attempts.new) work.old.items work.new.items r) }
    ensures counts { IfOk result (λ r. FillingCounts attempts.new r) }
    ensures queue { IfOk result (λ r. KeepsQueue dir work.old.items work.new.items r) }
    ensures filled { IfOk result (λ r. FilledTo most attempts.old attempts.new work.old.items work.new.items r) }
    ensures sought { OnErr result (RestsSought dir rule.now.whole (course (W.state wire.old) cache.old.entries attempts.old) (course (W.state wire.new) cache.new.entries attempts.new) work.old.items) }
    ensures tries { OnErr result (GoesOn attempts.new) }
{
    'rests: while routed_count(work.as_slice()) < most {
        let Some(at) = first_rest(work.as_slice()) else {
            return Ok(Filling::On);
        };
        match route_at(alloc, cache, wire, attempts, work, at, head, rule, dir)? {
            Filling::On => {}
            Filling::NotWhole { desc } => return Ok(Filling::NotWhole { desc }),
            Filling::Spent => return Ok(Filling::Spent),
        }
    }
    Ok(Filling::On)
}
