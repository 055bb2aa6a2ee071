//! The object of each line: a step, an answer, a close or a restart.
ghost use Rattle.std.specs.Prelude.{◌≡◌, ◌++◌, true, map, codes, IfOk, OnOk};
ghost use Rattle.serde_json.specs.View.{view, members_view};
ghost use Rattle.ds_kind.specs.Request.{span_of};
ghost use Rattle.ds_text.specs.Simple.{with_member};
ghost use Rattle.ds_text.specs.Lines.{item_data, ends_data, waits, is_staged, if_true, answer_data, step_data, look_members, send_members, code_of, place_of, illegal_data, has_text, exhausted_data, outcome_data, answer_line, close_line, restart_line, fault_line};

use crate::replies::{at_json, condition_json, too_old_json};
use crate::to_json::{
    ToJson, after_text, bare, dir_name, key_text, lone, only, only_in, only_of, put_some,
};
use ds_base::{Dir, Key};
use ds_desc::Looked;
use ds_kind::{Bounds, Illegal, Item, Piece, Request, TxnStatus};
use ds_rule::{Answer, JournalStep, Outcome};
use serde_json::{Map, Value as Json, json};
use std::alloc::{AllocError, Global};

/// The object of a step: the batch's line in the script, and the step's number in the batch. The
/// one refusal is want of memory.
pub fn step_object(
    alloc: Global,
    line: u32,
    number: u32,
    step: &JournalStep,
) -> Result<Json, AllocError>
    ensures { IfOk result (λ j. view j ≡ step_data line number step.now) }
{
    step_json(alloc, line, u64::from(number), step)
}

/// A step, whose number may be any.
pub(crate) fn step_json(
    alloc: Global,
    line: u32,
    number: u64,
    step: &JournalStep,
) -> Result<Json, AllocError>
    ensures { IfOk result (λ j. view j ≡ step_data line number step.now) }
{
    match step {
        JournalStep::Look { key, dir, looked } => {
            let members = look_members(alloc, line, number, key, *dir, looked)?;
            Ok(Json::Object(members))
        }
        JournalStep::Send {
            node,
            piece,
            answer,
        } => {
            let mut members = send_members(alloc, line, number, *node, piece, answer)?;
            put_staged(&mut members, alloc, piece)?;
            Ok(Json::Object(members))
        }
    }
}

/// What a lookup's object has.
fn look_members(
    alloc: Global,
    line: u32,
    number: u64,
    key: &Key,
    dir: Dir,
    looked: &Looked,
) -> Result<Map<String, Json>, AllocError>
    ensures { IfOk result (λ m. members_view m.entries ≡ look_members line number key.now dir looked.now) }
{
    let mut members = lone(alloc, "dir", Json::try_from_str(alloc, dir_name(dir))?)?;
    serde_json::put(&mut members, alloc, "key", key.to_json(alloc)?)?;
    serde_json::put(&mut members, alloc, "line", Json::from(line))?;
    serde_json::put(&mut members, alloc, "look", looked.to_json(alloc)?)?;
    serde_json::put(&mut members, alloc, "step", Json::from(number))?;
    Ok(members)
}

/// Says of a piece that holds a commit in flight that it does.
fn put_staged(
    members: &mut Map<String, Json>,
    alloc: Global,
    piece: &Piece,
) -> Result<(), AllocError>
    ensures { OnOk result (members_view members.new.entries ≡ with_member (codes "staged") (if_true (is_staged piece.now.items)) (members_view members.old.entries)) }
{
    if is_staged(piece) {
        return serde_json::put(members, alloc, "staged", Json::Bool(true));
    }
    Ok(())
}

/// What a send's object has in any case.
fn send_members(
    alloc: Global,
    line: u32,
    number: u64,
    node: u8,
    piece: &Piece,
    answer: &Answer,
) -> Result<Map<String, Json>, AllocError>
    ensures { IfOk result (λ m. members_view m.entries ≡ send_members line number node piece.now answer.now) }
{
    let mut members = lone(alloc, "left", piece.head.left.to_json(alloc)?)?;
    serde_json::put(&mut members, alloc, "line", Json::from(line))?;
    serde_json::put(&mut members, alloc, "node", Json::from(node))?;
    serde_json::put(&mut members, alloc, "piece", piece.items.to_json(alloc)?)?;
    serde_json::put(&mut members, alloc, "range", Json::from(piece.range))?;
    serde_json::put(&mut members, alloc, "send", answer.to_json(alloc)?)?;
    serde_json::put(&mut members, alloc, "step", Json::from(number))?;
    Ok(members)
}

/// Whether the piece holds a commit that waits for writes in flight.
fn is_staged(piece: &Piece) -> bool
    ensures { result ≡ is_staged piece.now.items }
{
    piece
        .items
        .as_slice()
        .iter()
        .any(|item| waits(&item.request))
}

/// Whether the request is a commit that waits for writes in flight.
fn waits(request: &Request) -> bool
    ensures { result ≡ waits request.now }
{
    match request {
        Request::EndTxn(args) => args.in_flight.len() > 0,
        _ => false,
    }
}

impl ToJson for Item {
    ghost form = { λ i. item_data i };

    fn to_json(&self, alloc: Global) -> Result<Json, AllocError> {
        let mut items = Vec::new(alloc);
        items.push(Json::from(self.pos))?;
        add_ends(alloc, &mut items, &self.request)?;
        items.push(Json::from(self.seq.0))?;
        Ok(Json::Array(items))
    }
}

/// Adds where the request's span starts and ends.
fn add_ends(alloc: Global, items: &mut Vec<Json>, request: &Request) -> Result<(), AllocError>
    ensures { OnOk result (map view (items.new).items ≡ map view (items.old).items ++ ends_data (span_of request.now)) }
{
    match request.bounds() {
        Bounds::Point(key) => {
            items.push(Json::String(key_text(alloc, key)?))?;
            Ok(items.push(Json::String(after_text(alloc, key)?))?)
        }
        Bounds::Between(start, end) => {
            items.push(Json::String(key_text(alloc, start)?))?;
            Ok(items.push(Json::String(key_text(alloc, end)?))?)
        }
    }
}

impl ToJson for Answer {
    ghost form = { λ a. answer_data a };

    fn to_json(&self, alloc: Global) -> Result<Json, AllocError> {
        match self {
            Answer::Done(replies) => only_of(alloc, "done", replies),
            Answer::Failed(failure) => only_of(alloc, "failed", failure),
            Answer::Refused(refusal) => refusal.to_json(alloc),
            Answer::Lost => Json::try_from_str(alloc, "lost"),
        }
    }
}

/// The number of the rule that a batch breaks.
fn code_of(illegal: &Illegal) -> u8
    ensures { result ≡ code_of illegal.now }
{
    match illegal {
        Illegal::Empty => 1,
        Illegal::TooMany => 2,
        Illegal::BadSpan { .. } => 3,
        Illegal::EndTxnPlace { .. } => 4,
        Illegal::NeedsTxn { .. } => 5,
        Illegal::InconsistentTxn => 6,
        Illegal::InconsistentWrite { .. } => 7,
        Illegal::LimitKind { .. } => 8,
        Illegal::LimitMixed { .. } => 9,
        Illegal::LimitOrder { .. } => 10,
        Illegal::NoTxnParts => 11,
    }
}

/// The position that breaks it, where the rule names one.
fn place_of(illegal: &Illegal) -> Option<u32>
    ensures { result ≡ place_of illegal.now }
{
    match illegal {
        Illegal::BadSpan { i }
        | Illegal::EndTxnPlace { i }
        | Illegal::NeedsTxn { i }
        | Illegal::InconsistentWrite { i }
        | Illegal::LimitKind { i }
        | Illegal::LimitMixed { i }
        | Illegal::LimitOrder { i } => Some(*i),
        Illegal::Empty | Illegal::TooMany | Illegal::InconsistentTxn | Illegal::NoTxnParts => None,
    }
}

impl ToJson for Illegal {
    ghost form = { λ x. illegal_data x };

    fn to_json(&self, alloc: Global) -> Result<Json, AllocError> {
        let mut members = lone(alloc, "code", Json::from(code_of(self)))?;
        put_some(&mut members, alloc, "i", &place_of(self))?;
        Ok(Json::Object(members))
    }
}

/// The budget of refusals and losses was used up.
fn exhausted_json(alloc: Global, refused: u32, lost: u32) -> Result<Json, AllocError>
    ensures { IfOk result (λ j. view j ≡ exhausted_data refused lost) }
{
    only(
        alloc,
        "retry_exhausted",
        json!(in alloc; {"lost": lost, "refused": refused})?,
    )
}

/// What a batch comes to.
fn outcome_json(alloc: Global, outcome: &Outcome) -> Result<Json, AllocError>
    requires { has_text outcome.now ≡ true }
    ensures { IfOk result (λ j. view j ≡ outcome_data outcome.now) }
{
    match outcome {
        Outcome::Ok { replies } => only_of(alloc, "ok", replies),
        Outcome::Illegal(illegal) => only_of(alloc, "illegal", illegal),
        Outcome::MustRollBack { since } => only_in(alloc, "must_roll_back", "since", since),
        Outcome::TxnOver { status } => only_in(alloc, "txn_over", "status", status),
        Outcome::OpRequiresTxn { desc } => only_in(alloc, "op_requires_txn", "desc", desc),
        Outcome::NotOnePhase { desc } => only_in(alloc, "not_one_phase", "desc", desc),
        Outcome::ConditionFailed { i, actual } => condition_json(alloc, *i, actual),
        Outcome::WriteTooOld { i, key, stamp } => too_old_json(alloc, *i, key, *stamp),
        Outcome::NotInteger { i } => at_json(alloc, "not_integer", *i),
        Outcome::Overflow { i } => at_json(alloc, "overflow", *i),
        Outcome::TxnAborted => bare(alloc, "txn_aborted"),
        Outcome::Ambiguous { lost } => only_in(alloc, "ambiguous", "lost", lost),
        Outcome::RetryExhausted { refused, lost } => exhausted_json(alloc, *refused, *lost),
        Outcome::OutOfMemory => unreachable!(),
    }
}

/// The object of a batch's answer. The outcome may not be want of memory, which has no text. The
/// one refusal is want of memory for the object.
pub fn answer_object(alloc: Global, line: u32, outcome: &Outcome) -> Result<Json, AllocError>
    requires { has_text outcome.now ≡ true }
    ensures { IfOk result (λ j. view j ≡ answer_line line outcome.now) }
{
    let answer = outcome_json(alloc, outcome)?;
    json!(in alloc; {"answer": answer, "line": line})
}

/// The object of a close, with the status that it left. The one refusal is want of memory.
pub fn closed_object(alloc: Global, line: u32, status: TxnStatus) -> Result<Json, AllocError>
    ensures { IfOk result (λ j. view j ≡ close_line line status) }
{
    let status = status.to_json(alloc)?;
    json!(in alloc; {"close": status, "line": line})
}

/// The object of a restart, with the transaction's epoch after it. The one refusal is want of
/// memory.
pub fn restarted_object(alloc: Global, line: u32, epoch: u32) -> Result<Json, AllocError>
    ensures { IfOk result (λ j. view j ≡ restart_line line epoch) }
{
    json!(in alloc; {"epoch": epoch, "line": line})
}

/// The object of a fault: its kind, and the line of the script. The one refusal is want of memory.
pub fn fault_object(alloc: Global, kind: &str, line: u32) -> Result<Json, AllocError>
    ensures { IfOk result (λ j. view j ≡ fault_line kind.now line) }
{
    json!(in alloc; {"fault": kind, "line": line})
}
