//! Replies and failures in JSON.
ghost use Rattle.std.specs.Prelude.{◌≡◌, IfOk};
ghost use Rattle.serde_json.specs.View.{view, members_view};
ghost use Rattle.ds_text.specs.Replies.{row_data, reply_data, gone_members, body_members, failure_data, status_text, status_data, condition_data, too_old_data, at_data};

use crate::to_json::{ToJson, bare, lone, only, only_in, put_some};
use ds_base::{Key, Keys, Stamp, Value};
use ds_kind::{Body, Failure, Reply, Row, TxnStatus};
use serde_json::{Map, Value as Json, json};
use std::alloc::{AllocError, Global};

impl ToJson for TxnStatus {
    ghost form = { λ s. status_data s };

    fn to_json(&self, alloc: Global) -> Result<Json, AllocError> {
        Json::try_from_str(alloc, status_name(*self))
    }
}

impl ToJson for Row {
    ghost form = { λ r. row_data r };

    fn to_json(&self, alloc: Global) -> Result<Json, AllocError> {
        let key = self.key.to_json(alloc)?;
        let value = self.value.to_json(alloc)?;
        json!(in alloc; [key, value])
    }
}

impl ToJson for Reply {
    ghost form = { λ r. reply_data r };

    fn to_json(&self, alloc: Global) -> Result<Json, AllocError> {
        let mut members = body_members(alloc, &self.body)?;
        put_some(&mut members, alloc, "resume", &self.resume)?;
        Ok(Json::Object(members))
    }
}

impl ToJson for Failure {
    ghost form = { λ f. failure_data f };

    fn to_json(&self, alloc: Global) -> Result<Json, AllocError> {
        match self {
            Failure::Condition { i, actual } => condition_json(alloc, *i, actual),
            Failure::TooOld { i, key, stamp } => too_old_json(alloc, *i, key, *stamp),
            Failure::NotInteger { i } => at_json(alloc, "not_integer", *i),
            Failure::Overflow { i } => at_json(alloc, "overflow", *i),
            Failure::Aborted => bare(alloc, "txn_aborted"),
            Failure::Committed => bare(alloc, "txn_committed"),
        }
    }
}

/// The name of a transaction's status.
fn status_name(status: TxnStatus) -> &'static str
    ensures { result.now ≡ status_text status }
{
    match status {
        TxnStatus::Committed => "committed",
        TxnStatus::Aborted => "aborted",
        TxnStatus::Unknown => "unknown",
        TxnStatus::Staging => "staging",
    }
}

/// The members that say what a reply's body does.
fn body_members(alloc: Global, body: &Body) -> Result<Map<String, Json>, AllocError>
    ensures { IfOk result (λ m. members_view m.entries ≡ body_members body.now) }
{
    match body {
        Body::Got(value) => lone(alloc, "value", value.to_json(alloc)?),
        Body::Rows(rows) => lone(alloc, "rows", rows.to_json(alloc)?),
        Body::Unit => Ok(Map::new(alloc)),
        Body::Number(n) => lone(alloc, "value", Json::from(*n)),
        Body::Gone(keys) => gone_members(alloc, keys),
        Body::Ended(status) => lone(alloc, "status", status.to_json(alloc)?),
        Body::Found(found) => lone(alloc, "found", Json::from(*found)),
    }
}

/// The keys that were deleted, and their number.
fn gone_members(alloc: Global, keys: &Keys) -> Result<Map<String, Json>, AllocError>
    ensures { IfOk result (λ m. members_view m.entries ≡ gone_members keys.now) }
{
    let mut members = lone(alloc, "keys", keys.to_json(alloc)?)?;
    serde_json::put(&mut members, alloc, "num", Json::from(keys.len()))?;
    Ok(members)
}

/// Another value was seen than the one expected.
pub(crate) fn condition_json(
    alloc: Global,
    i: u32,
    actual: &Option<Value>,
) -> Result<Json, AllocError>
    ensures { IfOk result (λ j. view j ≡ condition_data i actual.now) }
{
    let actual = actual.to_json(alloc)?;
    only(
        alloc,
        "condition_failed",
        json!(in alloc; {"actual": actual, "i": i})?,
    )
}

/// A version at this stamp stands at or above the write's.
pub(crate) fn too_old_json(
    alloc: Global,
    i: u32,
    key: &Key,
    stamp: Stamp,
) -> Result<Json, AllocError>
    ensures { IfOk result (λ j. view j ≡ too_old_data i key.now stamp.0) }
{
    let key = key.to_json(alloc)?;
    let stamp = stamp.0;
    only(
        alloc,
        "write_too_old",
        json!(in alloc; {"i": i, "key": key, "stamp": stamp})?,
    )
}

/// A cause that names nothing but the position of the request in its batch.
pub(crate) fn at_json(alloc: Global, cause: &str, i: u32) -> Result<Json, AllocError>
    ensures { IfOk result (λ j. view j ≡ at_data cause.now i) }
{
    only_in(alloc, cause, "i", &i)
}
