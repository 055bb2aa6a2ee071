//! Which scripts are built so far.
ghost use Rattle.std.specs.Prelude.{◌≡◌, option_map, Some, None, if◌then◌else◌};
ghost use Rattle.std.specs.List.{list_all, list_any};
ghost use Rattle.ds_desc.specs.Replicas.{are_replicas};
ghost use Rattle.ds_kind.specs.Asks as Asks;
ghost use Rattle.ds_mean.specs.Ready.{goes_beside};
ghost use Rattle.ds_rule.specs.Blocks.{never_fall};
ghost use Rattle.ds_script.specs.Runs.{event_of};
ghost use Rattle.ds_replay.specs.Built.{Stage, Start, Running, next_stage, line_stage, begin_stage, close_stage, is_cluster, is_sent, is_made, first_unbuilt};
ghost use Rattle.ds_replay.specs.Forming.{belongs, floor_at, goes_below, is_move, may_happen};
ghost use Rattle.ds_replay.specs.Forms.{form_stage, stamp_by};

use ds_base::{Key, Stamp};
use ds_desc::Nodes;
use ds_kind::{Batch, Request};
use ds_rule::{Block, ClusterRange, Event, Timed};
use ds_script::{Line, Script};
use ds_send::can_send;
use ds_sim::{are_leased, tiles};

/// How far a script has come, as far as its form goes: with the stamp of the transaction that is
/// open, if one is.
#[derive(Clone, Copy, Debug, PartialEq, Eq)]
enum Form {
    Start,
    Running(Option<Stamp>),
}

fn is_cluster(ranges: &[ClusterRange]) -> bool
    ensures { result ≡ is_cluster ranges.now }
{
    tiles(ranges) && ranges.len() <= 1024 && are_leased(ranges)
}

/// Whether the key after this one is a key too.
fn has_room(key: &Key) -> bool
    ensures { result ≡ Asks.has_room key.now }
{
    key.bytes().len() <= 64 && key.is_below_bound()
}

/// Whether these nodes can hold a range, as they always can.
fn are_replicas(nodes: &Nodes) -> bool
    ensures { result ≡ are_replicas nodes.now }
{
    nodes.len() > 0
}

// ---- batches

fn is_get_or_scan(request: &Request) -> bool
    ensures { result ≡ Asks.is_get_or_scan request.now }
{
    matches!(
        request,
        Request::Get(_) | Request::Scan(_) | Request::ReverseScan(_)
    )
}

/// Whether the request needs no transaction, or only reads.
fn goes_beside(request: &Request) -> bool
    ensures { result ≡ goes_beside request.now }
{
    !request.flags().txn || is_get_or_scan(request)
}

fn all_beside(requests: &[Request]) -> bool
    ensures { result ≡ list_all goes_beside requests.now }
{
    requests.iter().all(goes_beside)
}

fn any_reads(requests: &[Request]) -> bool
    ensures { result ≡ list_any Asks.is_get_or_scan requests.now }
{
    requests.iter().any(is_get_or_scan)
}

fn belongs(opened: Option<Stamp>, at: Option<Stamp>) -> bool
    ensures { result ≡ belongs (stamp_by opened) at }
{
    match (opened, at) {
        (None, None) => false,
        (None, Some(_)) => true,
        (Some(_), _) => true,
    }
}

fn goes_below(opened: Option<Stamp>, at: Option<Stamp>, requests: &[Request]) -> bool
    ensures { result ≡ goes_below (stamp_by opened) at requests.now }
{
    match (opened, at) {
        (_, None) => true,
        (None, Some(_)) => true,
        (Some(txn), Some(at)) => all_beside(requests) && (!any_reads(requests) || at < txn),
    }
}

/// The stamp that other clients' writes stay above.
pub(crate) fn floor_at(opened: Option<Stamp>, at: Option<Stamp>) -> Stamp
    ensures { result.0 ≡ floor_at (stamp_by opened) at }
{
    match (opened, at) {
        (None, None) => Stamp(0),
        (None, Some(at)) => at,
        (Some(txn), None) => txn,
        (Some(txn), Some(at)) => Stamp(txn.0.max(at.0)),
    }
}

// ---- what happens

fn is_move(floor: Stamp, event: &Event) -> bool
    ensures { result ≡ is_move floor.0 event.now }
{
    match event {
        Event::Write { key, stamp, .. } => floor < *stamp && has_room(key),
        Event::Split { .. } => true,
        Event::Merge { .. } => true,
        Event::Lease { .. } => true,
        Event::Move { nodes, .. } => are_replicas(nodes),
        Event::Stale { .. } => true,
        Event::Abort => false,
        Event::Arrive { .. } => false,
        Event::LoseRequest { .. } => false,
        Event::LoseReply { .. } => false,
        Event::Copy { .. } => false,
        Event::Restart { .. } => false,
    }
}

fn all_moves(floor: Stamp, events: &[Timed]) -> bool
    ensures { result ≡ list_all (λ t. is_move floor.0 t.event) events.now }
{
    events.iter().all(|timed| is_move(floor, &timed.event))
}

/// Whether the steps of the events never fall.
fn never_fall(events: &[Timed]) -> bool
    ensures { result ≡ never_fall 0 events.now }
{
    let mut last = 0;
    'events: for timed in events {
        if timed.at < last {
            return false;
        }
        last = timed.at;
    }
    true
}

fn may_happen(floor: Stamp, events: &[Timed]) -> bool
    ensures { result ≡ may_happen floor.0 events.now }
{
    never_fall(events) && all_moves(floor, events) && events.len() <= 1000
}

fn is_sent(opened: Option<Stamp>, batch: &Batch, block: &Block) -> bool
    ensures { result ≡ is_sent (stamp_by opened) batch.now block.now }
{
    belongs(opened, batch.at)
        && can_send(batch)
        && goes_below(opened, batch.at, batch.requests.as_slice())
        && may_happen(floor_at(opened, batch.at), block.events.as_slice())
}

/// Whether the line is an event that may happen by itself.
fn is_made(opened: Option<Stamp>, line: &Line) -> bool
    ensures { result ≡ is_made (stamp_by opened) (event_of line.now) }
{
    match line {
        Line::Write { key, stamp, .. } => floor_at(opened, None) < *stamp && has_room(key),
        Line::Split { .. } => true,
        Line::Merge { .. } => true,
        Line::Lease { .. } => true,
        Line::Move { nodes, .. } => are_replicas(nodes),
        Line::Stale { .. } => true,
        _ => false,
    }
}

// ---- lines

fn only_if(holds: bool, form: Form) -> Option<Form>
    ensures { result ≡ (if holds then Some form else None) }
{
    if holds { Some(form) } else { None }
}

fn after_start(line: &Line) -> Option<Form>
    ensures { option_map form_stage result ≡ next_stage Start line.now }
{
    match line {
        Line::Cluster(cluster) => {
            only_if(is_cluster(cluster.ranges.as_slice()), Form::Running(None))
        }
        _ => None,
    }
}

fn after_begin(opened: Option<Stamp>, stamp: Stamp) -> Option<Form>
    ensures { option_map form_stage result ≡ begin_stage (stamp_by opened) stamp.0 }
{
    match opened {
        None => Some(Form::Running(Some(stamp))),
        Some(_) => None,
    }
}

fn after_close(opened: Option<Stamp>) -> Option<Form>
    ensures { option_map form_stage result ≡ close_stage (stamp_by opened) }
{
    match opened {
        None => None,
        Some(_) => Some(Form::Running(None)),
    }
}

fn after_line(opened: Option<Stamp>, line: &Line) -> Option<Form>
    ensures { option_map form_stage result ≡ line_stage (stamp_by opened) line.now }
{
    match line {
        Line::Begin { stamp, .. } => after_begin(opened, *stamp),
        Line::Close => after_close(opened),
        Line::Batch { batch, block } => only_if(
            is_sent(opened, batch, block),
            Form::Running(opened),
        ),
        _ => only_if(is_made(opened, line), Form::Running(opened)),
    }
}

fn next_form(form: Form, line: &Line) -> Option<Form>
    ensures { option_map form_stage result ≡ next_stage (form_stage form) line.now }
{
    match form {
        Form::Start => after_start(line),
        Form::Running(opened) => after_line(opened, line),
    }
}

/// The number of the script's first line of a form that isn't built yet; none where all are built.
pub fn first_unbuilt(script: &Script) -> Option<u32>
    ensures { result ≡ first_unbuilt script.now.lines }
{
    let mut form = Form::Start;
    'lines: for numbered in script.lines.as_slice() {
        form = match next_form(form, &numbered.line) {
            Some(next) => next,
            None => return Some(numbered.number),
        };
    }
    None
}
