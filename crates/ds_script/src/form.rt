//! The forms of lines: what the JSON of one line says.
ghost use Rattle.std.specs.Prelude.{◌≡◌, [], Some, option_map};
ghost use Rattle.serde_json.specs.View.{view};
ghost use Rattle.ds_fields.specs.Fault.{Reads, map3};
ghost use Rattle.ds_fields.specs.Members.{optional};
ghost use Rattle.ds_fields.specs.Lists.{list_of};
ghost use Rattle.ds_fields.specs.Scalars.{number_of};
ghost use Rattle.ds_line.specs.Events.{timed_of};
ghost use Rattle.ds_line.specs.Requests.{request_of};
ghost use Rattle.ds_script.specs.Forms.{cluster_of, range, range_of, begin_of, close_of, restart_of, at_of, block_of, asked_of, batch_of, alone, line_of, line_by, form_of};

use crate::line::Line;
use ds_base::{Copies, Key, Stamp};
use ds_desc::Nodes;
use ds_fields::{
    FaultKind, LineFault, Reader, byte_of, flag_of, has_only, key_of, list_of, member, nodes_of,
    op_of, optional_member, small_if_there, small_list_of, whole_of,
};
use ds_kind::{Batch, Requests};
use ds_line::{EventReader, RequestReader, happening_of};
use ds_rule::{Block, Cluster, ClusterRange, Event, Events, Picks};
use serde_json::Value as Json;
use std::alloc::Global;

/// What the JSON of one line says; `Bad(Shape)` exactly where it is no line of a script, and
/// `Ok(None)` where something in it is more than its type can hold. An end of the transaction has
/// the anchor as its key.
#[tactic(auto, unfolding(crate::specs::Forms::form_of))]
pub fn form_of(alloc: Global, anchor: &Key, json: &Json) -> Result<Option<Line>, LineFault>
    ensures { Reads result (form_of anchor.now (view json.now)) }
{
    line_by(alloc, anchor, op_of(json)?, json)
}

#[tactic(auto, unfolding(crate::specs::Forms::line_by))]
fn line_by(alloc: Global, anchor: &Key, op: &str, json: &Json) -> Result<Option<Line>, LineFault>
    ensures { Reads result (line_by anchor.now op.now (view json.now)) }
{
    match op {
        "cluster" => cluster_of(alloc, json),
        "begin" => begin_of(alloc, json),
        "close" => close_of(json),
        "restart" => restart_of(json),
        "batch" => batch_of(alloc, anchor, json),
        _ => match happening_of(alloc, json, &["op"], op)? {
            Some(event) => alone(event),
            None => Ok(None),
        },
    }
}

fn alone(event: Event) -> Result<Option<Line>, LineFault>
    ensures { Reads result (alone (Some event)) }
{
    match line_of(event) {
        Some(line) => Ok(Some(line)),
        None => Err(LineFault::Bad(FaultKind::Shape)),
    }
}

/// The line on which an event happens by itself; one that names a step of a batch has none.
fn line_of(event: Event) -> Option<Line>
    ensures { result ≡ line_of event }
{
    match event {
        Event::Write { key, stamp, value } => Some(Line::Write { key, stamp, value }),
        Event::Split { key } => Some(Line::Split { key }),
        Event::Merge { key } => Some(Line::Merge { key }),
        Event::Lease { key, node } => Some(Line::Lease { key, node }),
        Event::Move { key, nodes } => Some(Line::Move { key, nodes }),
        Event::Stale { key, back } => Some(Line::Stale { key, back }),
        Event::Abort => Some(Line::Abort),
        Event::Arrive { copy } => Some(Line::Arrive { copy }),
        Event::LoseRequest { .. }
        | Event::LoseReply { .. }
        | Event::Copy { .. }
        | Event::Restart { .. } => None,
    }
}

#[tactic(auto, unfolding(crate::specs::Forms::cluster_of))]
fn cluster_of(alloc: Global, json: &Json) -> Result<Option<Line>, LineFault>
    ensures { Reads result (cluster_of (view json.now)) }
{
    if !has_only(json, &["op"], &["nodes", "ranges"]) {
        return Err(LineFault::Bad(FaultKind::Shape));
    }
    let nodes = byte_of(member(json, "nodes")?)?;
    let ranges = list_of(alloc, &RangeReader, member(json, "ranges")?)?;
    match (nodes, ranges) {
        (Some(nodes), Some(ranges)) => Ok(Some(Line::Cluster(Cluster { nodes, ranges }))),
        _ => Ok(None),
    }
}

/// Reads a range of the cluster line.
#[derive(Drop)]
pub struct RangeReader;

impl Reader for RangeReader {
    type Item = ClusterRange;

    ghost reads = { λ _ d. range_of d };

    #[tactic(auto, unfolding(crate::specs::Forms::range_of))]
    fn read(&self, alloc: Global, json: &Json) -> Result<Option<ClusterRange>, LineFault> {
        if !has_only(json, &[], &["start", "nodes", "lease"]) {
            return Err(LineFault::Bad(FaultKind::Shape));
        }
        let lease = byte_of(member(json, "lease")?)?;
        let nodes = nodes_of(alloc, member(json, "nodes")?)?;
        let start = key_of(alloc, member(json, "start")?)?;
        Ok(range(start, nodes, lease))
    }
}

/// The range of these, where each is within what its type can hold.
fn range(start: Option<Key>, nodes: Option<Nodes>, lease: Option<u8>) -> Option<ClusterRange>
    ensures { result ≡ map3 range start nodes lease }
{
    match (start, nodes, lease) {
        (Some(start), Some(nodes), Some(lease)) => Some(ClusterRange {
            start,
            nodes,
            lease,
        }),
        _ => None,
    }
}

#[tactic(auto, unfolding(crate::specs::Forms::begin_of))]
fn begin_of(alloc: Global, json: &Json) -> Result<Option<Line>, LineFault>
    ensures { Reads result (begin_of (view json.now)) }
{
    if !has_only(json, &["op"], &["stamp", "key"]) {
        return Err(LineFault::Bad(FaultKind::Shape));
    }
    let stamp = whole_of(member(json, "stamp")?)?;
    let key = key_of(alloc, member(json, "key")?)?;
    match (stamp, key) {
        (Some(stamp), Some(key)) => Ok(Some(Line::Begin {
            stamp: Stamp(stamp),
            key,
        })),
        _ => Ok(None),
    }
}

#[tactic(auto, unfolding(crate::specs::Forms::close_of))]
fn close_of(json: &Json) -> Result<Option<Line>, LineFault>
    ensures { Reads result (close_of (view json.now)) }
{
    if !has_only(json, &["op"], &[]) {
        return Err(LineFault::Bad(FaultKind::Shape));
    }
    Ok(Some(Line::Close))
}

#[tactic(auto, unfolding(crate::specs::Forms::restart_of))]
fn restart_of(json: &Json) -> Result<Option<Line>, LineFault>
    ensures { Reads result (restart_of (view json.now)) }
{
    if !has_only(json, &["op"], &[]) {
        return Err(LineFault::Bad(FaultKind::Shape));
    }
    Ok(Some(Line::Restart))
}

/// The stamp of a batch, or none for one of the transaction: exactly one of the two is said.
#[tactic(auto, unfolding(crate::specs::Forms::at_of))]
fn at_of(txn: Option<&Json>, stamp: Option<&Json>) -> Result<Option<Option<Stamp>>, LineFault>
    ensures { Reads result (at_of (option_map (λ v. view v.now) txn.entry) (option_map (λ v. view v.now) stamp.entry)) }
{
    match (txn, stamp) {
        (Some(txn), None) => match txn.as_bool() {
            Some(true) => Ok(Some(None)),
            _ => Err(LineFault::Bad(FaultKind::Shape)),
        },
        (None, Some(stamp)) => match whole_of(stamp)? {
            Some(stamp) => Ok(Some(Some(Stamp(stamp)))),
            None => Ok(None),
        },
        _ => Err(LineFault::Bad(FaultKind::Shape)),
    }
}

fn events_of(alloc: Global, json: Option<&Json>) -> Result<Option<Events>, LineFault>
    ensures { Reads result (optional (list_of timed_of) [] (option_map (λ v. view v.now) json.entry)) }
{
    match json {
        Some(events) => list_of(alloc, &EventReader, events),
        None => Ok(Some(Events::new(alloc))),
    }
}

fn picks_of(alloc: Global, json: Option<&Json>) -> Result<Option<Picks>, LineFault>
    ensures { Reads result (optional (list_of (number_of 32)) [] (option_map (λ v. view v.now) json.entry)) }
{
    match json {
        Some(picks) => small_list_of(alloc, picks),
        None => Ok(Some(Picks::new(alloc))),
    }
}

#[tactic(auto, unfolding(crate::specs::Forms::block_of))]
fn block_of(alloc: Global, json: &Json) -> Result<Option<Block>, LineFault>
    ensures { Reads result (block_of (view json.now)) }
{
    let events = events_of(alloc, optional_member(json, "events"))?;
    let picks = picks_of(alloc, optional_member(json, "picks"))?;
    match (events, picks) {
        (Some(events), Some(picks)) => Ok(Some(Block { events, picks })),
        _ => Ok(None),
    }
}

fn requests_of(alloc: Global, anchor: &Key, json: &Json) -> Result<Option<Requests>, LineFault>
    ensures { Reads result (list_of (request_of anchor.now) (view json.now)) }
{
    let reader = RequestReader {
        anchor: anchor.copy(alloc)?,
    };
    list_of(alloc, &reader, json)
}

#[tactic(auto, unfolding(crate::specs::Forms::asked_of))]
fn asked_of(alloc: Global, anchor: &Key, json: &Json) -> Result<Option<Batch>, LineFault>
    ensures { Reads result (asked_of anchor.now (view json.now)) }
{
    let at = at_of(optional_member(json, "txn"), optional_member(json, "stamp"))?;
    let consistent = flag_of(optional_member(json, "consistent"), true)?;
    let limit = small_if_there(optional_member(json, "limit"))?;
    let requests = requests_of(alloc, anchor, member(json, "requests")?)?;
    match (at, consistent, limit, requests) {
        (Some(at), Some(consistent), Some(limit), Some(requests)) => Ok(Some(Batch {
            at,
            consistent,
            limit,
            requests,
        })),
        _ => Ok(None),
    }
}

const BATCH: [&str; 7] = [
    "txn",
    "stamp",
    "requests",
    "consistent",
    "limit",
    "events",
    "picks",
];

#[tactic(auto, unfolding(crate::specs::Forms::batch_of))]
fn batch_of(alloc: Global, anchor: &Key, json: &Json) -> Result<Option<Line>, LineFault>
    ensures { Reads result (batch_of anchor.now (view json.now)) }
{
    if !has_only(json, &["op"], &BATCH) {
        return Err(LineFault::Bad(FaultKind::Shape));
    }
    let batch = asked_of(alloc, anchor, json)?;
    let block = block_of(alloc, json)?;
    match (batch, block) {
        (Some(batch), Some(block)) => Ok(Some(Line::Batch { batch, block })),
        _ => Ok(None),
    }
}
