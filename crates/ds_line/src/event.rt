//! The events of a block.
ghost use Rattle.std.specs.Prelude.{◌≡◌};
ghost use Rattle.serde_json.specs.View.{view};
ghost use Rattle.ds_fields.specs.Fault.{Reads};
ghost use Rattle.ds_line.specs.Events.{timed_of, event_by, kept_copy_of, lose_request_of, lose_reply_of, copy_of};

use crate::happening::{happening_of, lone_copy_of};
use ds_fields::{
    FaultKind, LineFault, Reader, has_only, member, op_of, optional_member, small_if_there,
    small_of,
};
use ds_rule::{Event, Timed};
use serde_json::Value as Json;
use std::alloc::Global;

/// Reads an event of a block.
#[derive(Drop)]
pub struct EventReader;

impl Reader for EventReader {
    type Item = Timed;

    ghost reads = { λ _ d. timed_of d };

    #[tactic(auto, unfolding(crate::specs::Events::timed_of))]
    fn read(&self, alloc: Global, json: &Json) -> Result<Option<Timed>, LineFault> {
        let op = op_of(json)?;
        let at = small_of(member(json, "at")?)?;
        let event = event_by(alloc, json, op)?;
        match (at, event) {
            (Some(at), Some(event)) => Ok(Some(Timed { at, event })),
            _ => Ok(None),
        }
    }
}

#[tactic(auto, unfolding(crate::specs::Events::event_by))]
fn event_by(alloc: Global, json: &Json, op: &str) -> Result<Option<Event>, LineFault>
    ensures { Reads result (event_by op.now (view json.now)) }
{
    match op {
        "lose_request" => lose_request_of(json),
        "lose_reply" => lose_reply_of(json),
        "copy" => copy_of(json),
        _ => happening_of(alloc, json, &["op", "at"], op),
    }
}

/// The copy that stays of what is lost, if one does.
#[tactic(auto, unfolding(crate::specs::Events::kept_copy_of))]
fn kept_copy_of(json: &Json) -> Result<Option<Option<u32>>, LineFault>
    ensures { Reads result (kept_copy_of (view json.now)) }
{
    if !has_only(json, &["op", "at"], &["copy"]) {
        return Err(LineFault::Bad(FaultKind::Shape));
    }
    small_if_there(optional_member(json, "copy"))
}

#[tactic(auto, unfolding(crate::specs::Events::lose_request_of))]
fn lose_request_of(json: &Json) -> Result<Option<Event>, LineFault>
    ensures { Reads result (lose_request_of (view json.now)) }
{
    match kept_copy_of(json)? {
        Some(copy) => Ok(Some(Event::LoseRequest { copy })),
        None => Ok(None),
    }
}

#[tactic(auto, unfolding(crate::specs::Events::lose_reply_of))]
fn lose_reply_of(json: &Json) -> Result<Option<Event>, LineFault>
    ensures { Reads result (lose_reply_of (view json.now)) }
{
    match kept_copy_of(json)? {
        Some(copy) => Ok(Some(Event::LoseReply { copy })),
        None => Ok(None),
    }
}

#[tactic(auto, unfolding(crate::specs::Events::copy_of))]
fn copy_of(json: &Json) -> Result<Option<Event>, LineFault>
    ensures { Reads result (copy_of (view json.now)) }
{
    match lone_copy_of(json, &["op", "at"])? {
        Some(copy) => Ok(Some(Event::Copy { copy })),
        None => Ok(None),
    }
}
