//! The rules over the lines of a script, judged one line after another.
ghost use Rattle.std.specs.Prelude.{◌≡◌};
ghost use Rattle.std.specs.List.{list_all};
ghost use Rattle.ds_fields.specs.Fault.{Gives};
ghost use Rattle.ds_rule.specs.Blocks.{never_fall};
ghost use Rattle.ds_script.specs.Rules.{leads, reads_only, may_stand_beside, batch_belongs, event_belongs, block_belongs, belongs, number_of, lost_after, claims, copies_after, floor, is_above, high_enough, may_begin, turn};

use crate::line::Line;
use crate::state::{CopySteps, OpenTxn, State, Step};
use ds_base::{Copies, Stamp};
use ds_fields::{FaultKind, LineFault};
use ds_kind::{Batch, KindName, Request};
use ds_rule::{Block, Event, Timed};
use std::alloc::Global;

fn leads(state: &State, line: &Line) -> bool
    ensures { result ≡ leads state.now.nodes line.now }
{
    match (state.nodes, line) {
        (None, Line::Cluster(_)) => true,
        (None, _) => false,
        (Some(_), Line::Cluster(_)) => false,
        (Some(_), _) => true,
    }
}

fn reads_only(kind: KindName) -> bool
    ensures { result ≡ reads_only kind }
{
    match kind {
        KindName::Get | KindName::Scan | KindName::ReverseScan => true,
        _ => false,
    }
}

fn may_stand_beside(txn: Stamp, at: Stamp, request: &Request) -> bool
    ensures { result ≡ may_stand_beside txn.0 at.0 request.now }
{
    !request.flags().txn || (reads_only(request.kind()) && at.0 < txn.0)
}

fn all_beside(txn: Stamp, at: Stamp, requests: &[Request]) -> bool
    ensures { result ≡ list_all (may_stand_beside txn.0 at.0) requests.now }
{
    requests
        .iter()
        .all(|request| may_stand_beside(txn, at, request))
}

fn batch_belongs(state: &State, batch: &Batch) -> bool
    ensures { result ≡ batch_belongs state.now.txn batch.now.at batch.now.requests }
{
    match (&state.txn, batch.at) {
        (None, None) => false,
        (None, Some(_)) => true,
        (Some(_), None) => true,
        (Some(open), Some(at)) => all_beside(open.stamp, at, batch.requests.as_slice()),
    }
}

fn event_belongs(state: &State, event: &Event) -> bool
    ensures { result ≡ event_belongs state.now.txn event.now }
{
    match event {
        Event::Abort => state.txn.is_some(),
        _ => true,
    }
}

fn events_belong(state: &State, events: &[Timed]) -> bool
    ensures { result ≡ list_all (λ t. event_belongs state.now.txn t.event) events.now }
{
    events
        .iter()
        .all(|timed| event_belongs(state, &timed.event))
}

fn never_fall(events: &[Timed]) -> bool
    ensures { result ≡ never_fall 0 events.now }
{
    let mut last = 0;
    for timed in events {
        if timed.at < last {
            return false;
        }
        last = timed.at;
    }
    true
}

fn block_belongs(state: &State, block: &Block) -> bool
    ensures { result ≡ block_belongs state.now.txn block.now }
{
    let events = block.events.as_slice();
    never_fall(events) && events_belong(state, events)
}

fn belongs(state: &State, line: &Line) -> bool
    ensures { result ≡ belongs state.now.txn line.now }
{
    match line {
        Line::Abort | Line::Close | Line::Restart => state.txn.is_some(),
        Line::Batch { batch, block } => batch_belongs(state, batch) && block_belongs(state, block),
        _ => true,
    }
}

fn number_of(lost: u32, timed: &Timed) -> Option<u32>
    ensures { result ≡ number_of lost timed.now.at timed.now.event }
{
    match &timed.event {
        Event::LoseRequest { copy } | Event::LoseReply { copy } => {
            if timed.at == lost { None } else { *copy }
        }
        Event::Copy { copy } => Some(*copy),
        _ => None,
    }
}

fn lost_after(lost: u32, timed: &Timed) -> u32
    ensures { result ≡ lost_after lost timed.now.at timed.now.event }
{
    match &timed.event {
        Event::LoseRequest { copy: _ } | Event::LoseReply { copy: _ } => timed.at,
        _ => lost,
    }
}

fn claim_all(copies: &mut CopySteps, line: u32, events: &[Timed]) -> Result<(), LineFault>
    ensures { Gives (λ _. copies.new) result (claims line 0 events.now copies.old) }
{
    let mut lost = 0;
    for timed in events {
        if let Some(copy) = number_of(lost, timed) {
            copies.claim(copy, Step { line, at: timed.at })?;
        }
        lost = lost_after(lost, timed);
    }
    Ok(())
}

fn claim_line(copies: &mut CopySteps, number: u32, line: &Line) -> Result<(), LineFault>
    ensures { Gives (λ _. copies.new) result (copies_after number line.now copies.old) }
{
    match line {
        Line::Batch { batch: _, block } => claim_all(copies, number, block.events.as_slice()),
        _ => Ok(()),
    }
}

fn floor(state: &State, at: Option<Stamp>) -> u64
    ensures { result ≡ floor state.now.txn at }
{
    match (&state.txn, at) {
        (None, None) => 0,
        (None, Some(at)) => at.0,
        (Some(open), None) => open.stamp.0,
        (Some(open), Some(at)) => {
            if open.stamp.0 < at.0 {
                at.0
            } else {
                open.stamp.0
            }
        }
    }
}

fn is_above(low: u64, event: &Event) -> bool
    ensures { result ≡ is_above low event.now }
{
    match event {
        Event::Write {
            key: _,
            stamp,
            value: _,
        } => low < stamp.0,
        _ => true,
    }
}

fn all_above(low: u64, events: &[Timed]) -> bool
    ensures { result ≡ list_all (λ t. is_above low t.event) events.now }
{
    events.iter().all(|timed| is_above(low, &timed.event))
}

fn high_enough(state: &State, line: &Line) -> bool
    ensures { result ≡ high_enough state.now.txn line.now }
{
    match line {
        Line::Write {
            key: _,
            stamp,
            value: _,
        } => floor(state, None) < stamp.0,
        Line::Batch { batch, block } => {
            all_above(floor(state, batch.at), block.events.as_slice())
        }
        _ => true,
    }
}

fn may_begin(state: &State, line: &Line) -> bool
    ensures { result ≡ may_begin state.now.txn line.now }
{
    match (&state.txn, line) {
        (Some(_), Line::Begin { stamp: _, key: _ }) => false,
        _ => true,
    }
}

/// The line of this number after the others: its fault, `Order`, `LowWrite` or `TxnOpen`, or what
/// is known after it. After a fault the state is of no use.
#[tactic(auto, unfolding(crate::specs::Rules::turn))]
pub fn turn(alloc: Global, state: &mut State, number: u32, line: &Line) -> Result<(), LineFault>
    ensures { Gives (λ _. state.new) result (turn number line.now state.old) }
{
    if !leads(state, line) || !belongs(state, line) {
        return Err(LineFault::Bad(FaultKind::Order));
    }
    claim_line(&mut state.copies, number, line)?;
    if !high_enough(state, line) {
        return Err(LineFault::Bad(FaultKind::LowWrite));
    }
    if !may_begin(state, line) {
        return Err(LineFault::Bad(FaultKind::TxnOpen));
    }
    match line {
        Line::Cluster(cluster) => state.nodes = Some(cluster.nodes),
        Line::Begin { stamp, key } => {
            state.txn = Some(OpenTxn {
                stamp: *stamp,
                anchor: key.copy(alloc)?,
                line: number,
            });
        }
        Line::Close => state.txn = None,
        _ => {}
    }
    Ok(())
}
