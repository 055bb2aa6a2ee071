//! The requests of a batch line: each is an object of one member, whose name says the kind.
ghost use Rattle.std.specs.Prelude.{◌≡◌};
ghost use Rattle.serde_json.specs.View.{view};
ghost use Rattle.ds_fields.specs.Fault.{Reads, map2, map4};
ghost use Rattle.ds_line.specs.Requests.{request_of, request_by, keys_of, key_and_value_of, key_and_number_of, put_of, init_put_of, conditional_put_of, increment_of, end_of, query_intent_of, resolve_of, resolve_range_of, admin_lease_of, scan_of, reverse_scan_of, delete_range_of, get_of, delete_of, admin_split_of, conditional_put, end};

use ds_base::{Copies, Key, Seq, TxnNo, Value};
use ds_fields::{
    FaultKind, LineFault, Reader, byte_of, flag_of, has_only, int_of, key_of, member,
    optional_member, pair, small_of, sole, triple, value_of, value_or_null_of,
};
use ds_kind::kinds::{
    AdminSplitArgs, AdminTransferLeaseArgs, ConditionalPutArgs, DeleteArgs, DeleteRangeArgs,
    EndTxnArgs, GetArgs, IncrementArgs, InitPutArgs, PutArgs, QueryIntentArgs, ResolveIntentArgs,
    ResolveIntentRangeArgs, ReverseScanArgs, ScanArgs,
};
use ds_kind::{Flights, Request};
use serde_json::Value as Json;
use std::alloc::Global;

/// Reads a request. An end of the transaction has the anchor as its key.
#[derive(Drop)]
pub struct RequestReader {
    pub anchor: Key,
}

impl Reader for RequestReader {
    type Item = Request;

    ghost reads = { λ r d. request_of r.anchor d };

    #[tactic(auto, unfolding(crate::specs::Requests::request_of))]
    fn read(&self, alloc: Global, json: &Json) -> Result<Option<Request>, LineFault> {
        let (name, value) = sole(json)?;
        request_by(alloc, &self.anchor, name, value)
    }
}

#[tactic(auto, unfolding(crate::specs::Requests::request_by))]
fn request_by(
    alloc: Global,
    anchor: &Key,
    name: &str,
    json: &Json,
) -> Result<Option<Request>, LineFault>
    ensures { Reads result (request_by anchor.now name.now (view json.now)) }
{
    match name {
        "get" => get_of(alloc, json),
        "scan" => scan_of(alloc, json),
        "reverse_scan" => reverse_scan_of(alloc, json),
        "put" => put_of(alloc, json),
        "cput" => conditional_put_of(alloc, json),
        "init_put" => init_put_of(alloc, json),
        "increment" => increment_of(alloc, json),
        "delete" => delete_of(alloc, json),
        "delete_range" => delete_range_of(alloc, json),
        "end" => end_of(alloc, anchor, json),
        "query_intent" => query_intent_of(alloc, json),
        "resolve" => resolve_of(alloc, json),
        "resolve_range" => resolve_range_of(alloc, json),
        "admin_split" => admin_split_of(alloc, json),
        "admin_lease" => admin_lease_of(alloc, json),
        _ => Err(LineFault::Bad(FaultKind::Shape)),
    }
}

#[tactic(auto, unfolding(crate::specs::Requests::keys_of))]
fn keys_of(alloc: Global, json: &Json) -> Result<Option<(Key, Key)>, LineFault>
    ensures { Reads result (keys_of (view json.now)) }
{
    let (first, second) = pair(json)?;
    let start = key_of(alloc, first)?;
    let end = key_of(alloc, second)?;
    match (start, end) {
        (Some(start), Some(end)) => Ok(Some((start, end))),
        _ => Ok(None),
    }
}

#[tactic(auto, unfolding(crate::specs::Requests::key_and_value_of))]
fn key_and_value_of(alloc: Global, json: &Json) -> Result<Option<(Key, Value)>, LineFault>
    ensures { Reads result (key_and_value_of (view json.now)) }
{
    let (first, second) = pair(json)?;
    let key = key_of(alloc, first)?;
    let value = value_of(alloc, second)?;
    match (key, value) {
        (Some(key), Some(value)) => Ok(Some((key, value))),
        _ => Ok(None),
    }
}

#[tactic(auto, unfolding(crate::specs::Requests::key_and_number_of))]
fn key_and_number_of(alloc: Global, json: &Json) -> Result<Option<(Key, u32)>, LineFault>
    ensures { Reads result (key_and_number_of (view json.now)) }
{
    let (first, second) = pair(json)?;
    let number = small_of(second)?;
    let key = key_of(alloc, first)?;
    match (key, number) {
        (Some(key), Some(number)) => Ok(Some((key, number))),
        _ => Ok(None),
    }
}

#[tactic(auto, unfolding(crate::specs::Requests::get_of))]
fn get_of(alloc: Global, json: &Json) -> Result<Option<Request>, LineFault>
    ensures { Reads result (get_of (view json.now)) }
{
    match key_of(alloc, json)? {
        Some(key) => Ok(Some(Request::Get(GetArgs { key }))),
        None => Ok(None),
    }
}

#[tactic(auto, unfolding(crate::specs::Requests::scan_of))]
fn scan_of(alloc: Global, json: &Json) -> Result<Option<Request>, LineFault>
    ensures { Reads result (scan_of (view json.now)) }
{
    match keys_of(alloc, json)? {
        Some((start, end)) => Ok(Some(Request::Scan(ScanArgs { start, end }))),
        None => Ok(None),
    }
}

#[tactic(auto, unfolding(crate::specs::Requests::reverse_scan_of))]
fn reverse_scan_of(alloc: Global, json: &Json) -> Result<Option<Request>, LineFault>
    ensures { Reads result (reverse_scan_of (view json.now)) }
{
    match keys_of(alloc, json)? {
        Some((start, end)) => Ok(Some(Request::ReverseScan(ReverseScanArgs { start, end }))),
        None => Ok(None),
    }
}

#[tactic(auto, unfolding(crate::specs::Requests::put_of))]
fn put_of(alloc: Global, json: &Json) -> Result<Option<Request>, LineFault>
    ensures { Reads result (put_of (view json.now)) }
{
    match key_and_value_of(alloc, json)? {
        Some((key, value)) => Ok(Some(Request::Put(PutArgs { key, value }))),
        None => Ok(None),
    }
}

#[tactic(auto, unfolding(crate::specs::Requests::conditional_put_of))]
fn conditional_put_of(alloc: Global, json: &Json) -> Result<Option<Request>, LineFault>
    ensures { Reads result (conditional_put_of (view json.now)) }
{
    if !has_only(json, &[], &["key", "value", "expect", "allow_absent"]) {
        return Err(LineFault::Bad(FaultKind::Shape));
    }
    let allow_absent = flag_of(optional_member(json, "allow_absent"), false)?;
    let key = key_of(alloc, member(json, "key")?)?;
    let value = value_of(alloc, member(json, "value")?)?;
    let expect = value_or_null_of(alloc, member(json, "expect")?)?;
    Ok(conditional_put(key, value, expect, allow_absent))
}

/// The put of these, where each is within what its type can hold.
fn conditional_put(
    key: Option<Key>,
    value: Option<Value>,
    expect: Option<Option<Value>>,
    allow_absent: Option<bool>,
) -> Option<Request>
    ensures { result ≡ map4 conditional_put key value expect allow_absent }
{
    match (key, value, expect, allow_absent) {
        (Some(key), Some(value), Some(expect), Some(allow_absent)) => {
            Some(Request::ConditionalPut(ConditionalPutArgs {
                key,
                value,
                expect,
                allow_absent,
            }))
        }
        _ => None,
    }
}

#[tactic(auto, unfolding(crate::specs::Requests::init_put_of))]
fn init_put_of(alloc: Global, json: &Json) -> Result<Option<Request>, LineFault>
    ensures { Reads result (init_put_of (view json.now)) }
{
    match key_and_value_of(alloc, json)? {
        Some((key, value)) => Ok(Some(Request::InitPut(InitPutArgs { key, value }))),
        None => Ok(None),
    }
}

#[tactic(auto, unfolding(crate::specs::Requests::increment_of))]
fn increment_of(alloc: Global, json: &Json) -> Result<Option<Request>, LineFault>
    ensures { Reads result (increment_of (view json.now)) }
{
    let (first, second) = pair(json)?;
    let by = int_of(second)?;
    let key = key_of(alloc, first)?;
    match (key, by) {
        (Some(key), Some(by)) => Ok(Some(Request::Increment(IncrementArgs { key, by }))),
        _ => Ok(None),
    }
}

#[tactic(auto, unfolding(crate::specs::Requests::delete_of))]
fn delete_of(alloc: Global, json: &Json) -> Result<Option<Request>, LineFault>
    ensures { Reads result (delete_of (view json.now)) }
{
    match key_of(alloc, json)? {
        Some(key) => Ok(Some(Request::Delete(DeleteArgs { key }))),
        None => Ok(None),
    }
}

#[tactic(auto, unfolding(crate::specs::Requests::delete_range_of))]
fn delete_range_of(alloc: Global, json: &Json) -> Result<Option<Request>, LineFault>
    ensures { Reads result (delete_range_of (view json.now)) }
{
    match keys_of(alloc, json)? {
        Some((start, end)) => Ok(Some(Request::DeleteRange(DeleteRangeArgs { start, end }))),
        None => Ok(None),
    }
}

#[tactic(auto, unfolding(crate::specs::Requests::end_of))]
fn end_of(alloc: Global, anchor: &Key, json: &Json) -> Result<Option<Request>, LineFault>
    ensures { Reads result (end_of anchor.now (view json.now)) }
{
    if !has_only(json, &[], &["commit", "one_phase", "parallel"]) {
        return Err(LineFault::Bad(FaultKind::Shape));
    }
    let Some(commit) = member(json, "commit")?.as_bool() else {
        return Err(LineFault::Bad(FaultKind::Shape));
    };
    let one_phase = flag_of(optional_member(json, "one_phase"), false)?;
    let parallel = flag_of(optional_member(json, "parallel"), false)?;
    let key = anchor.copy(alloc)?;
    Ok(end(alloc, key, commit, one_phase, parallel))
}

/// The end with these flags, where both are within what their type can hold.
fn end(
    alloc: Global,
    key: Key,
    commit: bool,
    one_phase: Option<bool>,
    parallel: Option<bool>,
) -> Option<Request>
    ensures { result ≡ map2 (end key commit) one_phase parallel }
{
    match (one_phase, parallel) {
        (Some(one_phase), Some(parallel)) => Some(Request::EndTxn(EndTxnArgs {
            key,
            commit,
            one_phase,
            parallel,
            in_flight: Flights::new(alloc),
        })),
        _ => None,
    }
}

#[tactic(auto, unfolding(crate::specs::Requests::query_intent_of))]
fn query_intent_of(alloc: Global, json: &Json) -> Result<Option<Request>, LineFault>
    ensures { Reads result (query_intent_of (view json.now)) }
{
    match key_and_number_of(alloc, json)? {
        Some((key, seq)) => Ok(Some(Request::QueryIntent(QueryIntentArgs { key, seq: Seq(seq) }))),
        None => Ok(None),
    }
}

#[tactic(auto, unfolding(crate::specs::Requests::resolve_of))]
fn resolve_of(alloc: Global, json: &Json) -> Result<Option<Request>, LineFault>
    ensures { Reads result (resolve_of (view json.now)) }
{
    match key_and_number_of(alloc, json)? {
        Some((key, txn)) => Ok(Some(Request::ResolveIntent(ResolveIntentArgs {
            key,
            txn: TxnNo(txn),
        }))),
        None => Ok(None),
    }
}

#[tactic(auto, unfolding(crate::specs::Requests::resolve_range_of))]
fn resolve_range_of(alloc: Global, json: &Json) -> Result<Option<Request>, LineFault>
    ensures { Reads result (resolve_range_of (view json.now)) }
{
    let (first, second, third) = triple(json)?;
    let txn = small_of(third)?;
    let start = key_of(alloc, first)?;
    let end = key_of(alloc, second)?;
    match (start, end, txn) {
        (Some(start), Some(end), Some(txn)) => {
            Ok(Some(Request::ResolveIntentRange(ResolveIntentRangeArgs {
                start,
                end,
                txn: TxnNo(txn),
            })))
        }
        _ => Ok(None),
    }
}

#[tactic(auto, unfolding(crate::specs::Requests::admin_split_of))]
fn admin_split_of(alloc: Global, json: &Json) -> Result<Option<Request>, LineFault>
    ensures { Reads result (admin_split_of (view json.now)) }
{
    match key_of(alloc, json)? {
        Some(key) => Ok(Some(Request::AdminSplit(AdminSplitArgs { key }))),
        None => Ok(None),
    }
}

#[tactic(auto, unfolding(crate::specs::Requests::admin_lease_of))]
fn admin_lease_of(alloc: Global, json: &Json) -> Result<Option<Request>, LineFault>
    ensures { Reads result (admin_lease_of (view json.now)) }
{
    let (first, second) = pair(json)?;
    let node = byte_of(second)?;
    let key = key_of(alloc, first)?;
    match (key, node) {
        (Some(key), Some(node)) => Ok(Some(Request::AdminTransferLease(AdminTransferLeaseArgs {
            key,
            node,
        }))),
        _ => Ok(None),
    }
}
