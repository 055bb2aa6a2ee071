//! The limits of a script's lines. `nodes` is the number of nodes that the cluster has.
ghost use Rattle.std.specs.Prelude.{◌≡◌};
ghost use Rattle.std.specs.List.{list_all};
ghost use Rattle.ds_script.specs.Limits.{key_fits, span_fits, point_fits, stamp_fits, count_fits, node_fits, value_fits, if_some, request_fits, write_fits, lease_fits, move_fits, stale_fits, event_fits, timed_fits, pick_fits, range_fits, rise_above, rise, cluster_fits, batch_fits, block_fits, line_fits};

use crate::line::Line;
use ds_base::{Key, Stamp, Value};
use ds_desc::Nodes;
use ds_kind::{Batch, Request};
use ds_rule::{Block, Cluster, ClusterRange, Event, Timed};

const BOUND: [u8; 2] = [255, 255];

fn key_fits(key: &Key) -> bool
    ensures { result ≡ key_fits key.now }
{
    key.bytes().len() <= 64
}

fn span_fits(start: &Key, end: &Key) -> bool
    ensures { result ≡ span_fits start.now end.now }
{
    key_fits(start) && key_fits(end)
}

fn point_fits(key: &Key) -> bool
    ensures { result ≡ point_fits key.now }
{
    key_fits(key) && key.bytes().cmp(BOUND.as_slice()).is_lt()
}

fn stamp_fits(stamp: Stamp) -> bool
    ensures { result ≡ stamp_fits stamp }
{
    1 <= stamp.0 && stamp.0 <= 1_000_000_000
}

fn count_fits(count: u32) -> bool
    ensures { result ≡ count_fits count }
{
    1 <= count && count <= 1_000_000
}

fn node_fits(nodes: u8, node: u8) -> bool
    ensures { result ≡ node_fits nodes node }
{
    1 <= node && node <= nodes
}

fn value_fits(value: &Value) -> bool
    ensures { result ≡ value_fits value.now }
{
    match value {
        Value::Text(text) => text.as_str().len() <= 256,
        Value::Int(_) => true,
    }
}

fn value_fits_if_some(value: &Option<Value>) -> bool
    ensures { result ≡ if_some value_fits value.now }
{
    match value {
        Some(value) => value_fits(value),
        None => true,
    }
}

fn count_fits_if_some(count: Option<u32>) -> bool
    ensures { result ≡ if_some count_fits count }
{
    match count {
        Some(count) => count_fits(count),
        None => true,
    }
}

fn stamp_fits_if_some(stamp: Option<Stamp>) -> bool
    ensures { result ≡ if_some stamp_fits stamp }
{
    match stamp {
        Some(stamp) => stamp_fits(stamp),
        None => true,
    }
}

fn request_fits(nodes: u8, request: &Request) -> bool
    ensures { result ≡ request_fits nodes request.now }
{
    match request {
        Request::Get(args) => key_fits(&args.key),
        Request::Scan(args) => span_fits(&args.start, &args.end),
        Request::ReverseScan(args) => span_fits(&args.start, &args.end),
        Request::Put(args) => key_fits(&args.key) && value_fits(&args.value),
        Request::ConditionalPut(args) => {
            key_fits(&args.key) && value_fits(&args.value) && value_fits_if_some(&args.expect)
        }
        Request::InitPut(args) => key_fits(&args.key) && value_fits(&args.value),
        Request::Increment(args) => key_fits(&args.key),
        Request::Delete(args) => key_fits(&args.key),
        Request::DeleteRange(args) => span_fits(&args.start, &args.end),
        Request::EndTxn(args) => key_fits(&args.key) && args.in_flight.len() == 0,
        Request::QueryIntent(args) => key_fits(&args.key) && count_fits(args.seq.0),
        Request::ResolveIntent(args) => key_fits(&args.key) && count_fits(args.txn.0),
        Request::ResolveIntentRange(args) => {
            span_fits(&args.start, &args.end) && count_fits(args.txn.0)
        }
        Request::AdminSplit(args) => key_fits(&args.key),
        Request::AdminTransferLease(args) => key_fits(&args.key) && node_fits(nodes, args.node),
    }
}

fn write_fits(key: &Key, stamp: Stamp, value: &Option<Value>) -> bool
    ensures { result ≡ write_fits key.now stamp value.now }
{
    point_fits(key) && stamp_fits(stamp) && value_fits_if_some(value)
}

fn lease_fits(nodes: u8, key: &Key, node: u8) -> bool
    ensures { result ≡ lease_fits nodes key.now node }
{
    point_fits(key) && node_fits(nodes, node)
}

fn nodes_fit(nodes: u8, replicas: &Nodes) -> bool
    ensures { result ≡ list_all (node_fits nodes) replicas.now }
{
    replicas
        .as_slice()
        .iter()
        .all(|node| node_fits(nodes, *node))
}

fn move_fits(nodes: u8, key: &Key, replicas: &Nodes) -> bool
    ensures { result ≡ move_fits nodes key.now replicas.now }
{
    point_fits(key) && nodes_fit(nodes, replicas)
}

fn stale_fits(key: &Key, back: u32) -> bool
    ensures { result ≡ stale_fits key.now back }
{
    point_fits(key) && count_fits(back)
}

fn event_fits(nodes: u8, event: &Event) -> bool
    ensures { result ≡ event_fits nodes event.now }
{
    match event {
        Event::Write { key, stamp, value } => write_fits(key, *stamp, value),
        Event::Split { key } => point_fits(key),
        Event::Merge { key } => point_fits(key),
        Event::Lease { key, node } => lease_fits(nodes, key, *node),
        Event::Move {
            key,
            nodes: replicas,
        } => move_fits(nodes, key, replicas),
        Event::Stale { key, back } => stale_fits(key, *back),
        Event::Abort => true,
        Event::Arrive { copy } => count_fits(*copy),
        Event::LoseRequest { copy } => count_fits_if_some(*copy),
        Event::LoseReply { copy } => count_fits_if_some(*copy),
        Event::Copy { copy } => count_fits(*copy),
        Event::Restart { txn: _ } => false,
    }
}

fn timed_fits(nodes: u8, timed: &Timed) -> bool
    ensures { result ≡ timed_fits nodes timed.now }
{
    count_fits(timed.at) && event_fits(nodes, &timed.event)
}

fn pick_fits(pick: u32) -> bool
    ensures { result ≡ pick_fits pick }
{
    pick <= 1_000_000
}

fn range_fits(nodes: u8, range: &ClusterRange) -> bool
    ensures { result ≡ range_fits nodes range.now }
{
    point_fits(&range.start) && nodes_fit(nodes, &range.nodes) && range.nodes.contains(range.lease)
}

fn ranges_fit(nodes: u8, ranges: &[ClusterRange]) -> bool
    ensures { result ≡ list_all (range_fits nodes) ranges.now }
{
    ranges.iter().all(|range| range_fits(nodes, range))
}

fn requests_fit(nodes: u8, requests: &[Request]) -> bool
    ensures { result ≡ list_all (request_fits nodes) requests.now }
{
    requests.iter().all(|request| request_fits(nodes, request))
}

fn events_fit(nodes: u8, events: &[Timed]) -> bool
    ensures { result ≡ list_all (timed_fits nodes) events.now }
{
    events.iter().all(|timed| timed_fits(nodes, timed))
}

fn picks_fit(picks: &[u32]) -> bool
    ensures { result ≡ list_all pick_fits picks.now }
{
    picks.iter().all(|pick| pick_fits(*pick))
}

/// Whether each start is above the one before it, the first above `start`.
fn rise_above(start: &Key, ranges: &[ClusterRange]) -> bool
    ensures { result ≡ rise_above start.now ranges.now }
{
    let mut last = start;
    for range in ranges {
        if *last >= range.start {
            return false;
        }
        last = &range.start;
    }
    true
}

/// Whether the first range starts with the empty key, and each later one above the one before it.
fn rise(ranges: &[ClusterRange]) -> bool
    ensures { result ≡ rise ranges.now }
{
    match ranges.split_first() {
        Some((first, others)) => first.start.bytes().is_empty() && rise_above(&first.start, others),
        None => false,
    }
}

fn cluster_fits(cluster: &Cluster) -> bool
    ensures { result ≡ cluster_fits cluster.now }
{
    let nodes = cluster.nodes;
    let ranges = cluster.ranges.as_slice();
    1 <= nodes
        && nodes <= 64
        && 1 <= ranges.len()
        && ranges.len() <= 1024
        && ranges_fit(nodes, ranges)
        && rise(ranges)
}

fn batch_fits(nodes: u8, batch: &Batch) -> bool
    ensures { result ≡ batch_fits nodes batch.now }
{
    stamp_fits_if_some(batch.at)
        && count_fits_if_some(batch.limit)
        && batch.requests.len() <= 1000
        && requests_fit(nodes, batch.requests.as_slice())
}

fn block_fits(nodes: u8, block: &Block) -> bool
    ensures { result ≡ block_fits nodes block.now }
{
    block.events.len() <= 1000
        && events_fit(nodes, block.events.as_slice())
        && block.picks.len() <= 1000
        && picks_fit(block.picks.as_slice())
}

/// Whether everything on the line is within its limits.
pub fn line_fits(nodes: u8, line: &Line) -> bool
    ensures { result ≡ line_fits nodes line.now }
{
    match line {
        Line::Cluster(cluster) => cluster_fits(cluster),
        Line::Write { key, stamp, value } => write_fits(key, *stamp, value),
        Line::Split { key } => point_fits(key),
        Line::Merge { key } => point_fits(key),
        Line::Lease { key, node } => lease_fits(nodes, key, *node),
        Line::Move {
            key,
            nodes: replicas,
        } => move_fits(nodes, key, replicas),
        Line::Stale { key, back } => stale_fits(key, *back),
        Line::Abort => true,
        Line::Arrive { copy } => count_fits(*copy),
        Line::Begin { stamp, key } => stamp_fits(*stamp) && point_fits(key),
        Line::Close => true,
        Line::Restart => true,
        Line::Batch { batch, block } => batch_fits(nodes, batch) && block_fits(nodes, block),
    }
}
