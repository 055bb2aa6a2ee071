//! A piece delivered to a node.
ghost use Rattle.std.specs.Prelude.{◌≡◌, ◌++◌, ◌∷◌, [], None, Some, find, true, false, IfOk, OnOk, OnErr};
ghost use Rattle.std.specs.List.{list_all};
ghost use Rattle.std.specs.Option.{option_map};
ghost use Rattle.ds_kind.specs.Asks.{has_proper_span};
ghost use Rattle.ds_kind.specs.Parts.{requests_of};
ghost use Rattle.ds_rule.specs.declared.answer.Answer.TheVariants.{Done};
ghost use Rattle.ds_rule.specs.declared.journal.JournalStep.TheVariants.{Send};
ghost use Rattle.ds_rule.specs.Asking.{txn_of};
ghost use Rattle.ds_rule.specs.Deliver.{is_rollback, status_stops, stop_answer, stops_as};
ghost use Rattle.ds_rule.specs.Records.{record_of};
ghost use Rattle.ds_rule.specs.World.{has_id};
ghost use Rattle.ds_ranges.specs.Layout.{Became};
ghost use Rattle.ds_sim.specs.Done.{Delivers, shift_all, shifts_of, stops_at};
ghost use Rattle.ds_sim.specs.UnderWay.{Notes, is_due};

use crate::block::BlockState;
use crate::shift::{make_shifts, shifts_of};
use ds_base::{Copies, TxnNo};
use ds_desc::Refusal;
use ds_kind::{Failure, Head, Item, Piece, Replies, Request};
use ds_range::{Evaluation, RangeState};
use ds_ranges::Ranges;
use ds_rule::{Answer, JournalStep, RecordStatus, Records};
use std::alloc::{AllocError, Global};

/// The number of the transaction that a piece is of, 0 without one.
fn txn_of(head: &Head) -> TxnNo
    ensures { result.0 ≡ txn_of head.now }
{
    match head.txn {
        Some(txn) => txn,
        None => TxnNo(0),
    }
}

/// Whether these are one end of a transaction that does not commit, and nothing else.
fn is_rollback(items: &[Item]) -> bool
    ensures { result ≡ is_rollback (requests_of items.now) }
{
    match items {
        [one] => match &one.request {
            Request::EndTxn(args) => !args.commit,
            _ => false,
        },
        _ => false,
    }
}

/// A committed record takes no more pieces, and an aborted one a rollback alone.
fn stops_as(status: &RecordStatus, rollback: bool) -> Option<Failure>
    ensures { result ≡ stops_as status.now rollback }
{
    match status {
        RecordStatus::Committed => Some(Failure::Committed),
        RecordStatus::Aborted => {
            if rollback {
                None
            } else {
                Some(Failure::Aborted)
            }
        }
        RecordStatus::Pending | RecordStatus::Staging(_) => None,
    }
}

/// Why the record of its transaction, if there is one, takes the piece no more.
fn stopped_by(records: &Records, piece: &Piece) -> Option<Failure>
    ensures { result ≡ status_stops (record_of (txn_of piece.now.head) records.now) piece.now }
{
    match records.find(txn_of(&piece.head)) {
        Some(record) => stops_as(&record.status, is_rollback(piece.items.as_slice())),
        None => None,
    }
}

/// The answer of a range that does not serve the piece; none where it does.
fn turned_by(
    alloc: Global,
    range: &RangeState,
    ranges: &Ranges,
    records: &Records,
    node: u8,
    piece: &Piece,
) -> Result<Option<Answer>, AllocError>
    ensures { IfOk result (λ o. o ≡ option_map stop_answer (stops_at ranges.now records.now node piece.now (Some range.now))) }
{
    let info = range.info();
    if !info.desc.nodes.contains(node) {
        return Ok(Some(Answer::Refused(Refusal::NotFound)));
    }
    if info.lease.node != node {
        return Ok(Some(Answer::Refused(Refusal::NotLease { lease: info.lease })));
    }
    if !range.holds_all(piece.items.as_slice()) {
        let infos = ranges.overlapping(alloc, &piece.items, piece.dir)?;
        return Ok(Some(Answer::Refused(Refusal::Mismatch { infos })));
    }
    match stopped_by(records, piece) {
        Some(failure) => Ok(Some(Answer::Failed(failure))),
        None => Ok(None),
    }
}

/// The answer of the range with the piece's id, where that does not serve it.
fn refusal(
    alloc: Global,
    ranges: &Ranges,
    records: &Records,
    node: u8,
    piece: &Piece,
) -> Result<Option<Answer>, AllocError>
    ensures { IfOk result (λ o. o ≡ option_map stop_answer (stops_at ranges.now records.now node piece.now (find (has_id piece.now.range) ranges.now.ranges))) }
{
    match ranges.get(piece.range) {
        Some(range) => turned_by(alloc, range, ranges, records, node, piece),
        None => Ok(None),
    }
}

fn send_step(
    alloc: Global,
    node: u8,
    piece: &Piece,
    answer: &Answer,
) -> Result<JournalStep, AllocError>
    ensures { IfOk result (λ s. s ≡ Send node piece.now answer.now) }
{
    Ok(JournalStep::Send {
        node,
        piece: piece.copy(alloc)?,
        answer: answer.copy(alloc)?,
    })
}

/// Notes the step with its answer.
fn noted(
    alloc: Global,
    node: u8,
    piece: &Piece,
    answer: Answer,
    steps: &mut Vec<JournalStep>,
) -> Result<Answer, AllocError>
    ensures answer { IfOk result (λ a. a ≡ answer) }
    ensures steps { IfOk result (λ a. (steps.new).items ≡ (steps.old).items ++ Send node piece.now a ∷ []) }
    ensures err { OnErr result ((steps.new).items ≡ (steps.old).items) }
{
    let step = send_step(alloc, node, piece, &answer)?;
    steps.push(step)?;
    Ok(answer)
}

/// Notes the step of a piece that was served, and makes what its items shift. Want of memory leaves
/// the ranges and the steps as they were.
fn complete(
    alloc: Global,
    ranges: &mut Ranges,
    node: u8,
    piece: &Piece,
    replies: Replies,
    steps: &mut Vec<JournalStep>,
) -> Result<Answer, AllocError>
    ensures answer { IfOk result (λ a. a ≡ Done replies) }
    ensures shifted { OnOk result (Became (shift_all (shifts_of piece.now.items replies)) ranges.old ranges.new) }
    ensures steps { IfOk result (λ a. (steps.new).items ≡ (steps.old).items ++ Send node piece.now a ∷ []) }
    ensures err { OnErr result (ranges.new ≡ ranges.old) }
    ensures err_steps { OnErr result ((steps.new).items ≡ (steps.old).items) }
{
    let shifts = shifts_of(alloc, piece.items.as_slice(), replies.as_slice())?;
    let answer = Answer::Done(replies);
    let step = send_step(alloc, node, piece, &answer)?;
    steps.reserve(1)?;
    make_shifts(alloc, ranges, shifts.as_slice())?;
    steps.push_reserved(step);
    Ok(answer)
}

/// Lets the range with the piece's id serve it, and notes the step. Want of memory leaves all as it was.
fn serve(
    alloc: Global,
    ranges: &mut Ranges,
    records: &mut Records,
    node: u8,
    piece: &Piece,
    steps: &mut Vec<JournalStep>,
) -> Result<Answer, AllocError>
    requires proper { list_all has_proper_span (requests_of piece.now.items) ≡ true }
    requires goes { None ≡ option_map stop_answer (stops_at ranges.old records.old node piece.now (find (has_id piece.now.range) (ranges.old).ranges)) }
    ensures delivers { IfOk result (λ a. Delivers node piece.now ranges.old ranges.new records.old records.new a) }
    ensures steps { IfOk result (λ a. (steps.new).items ≡ (steps.old).items ++ Send node piece.now a ∷ []) }
    ensures err { OnErr result (ranges.new ≡ ranges.old) }
    ensures err_records { OnErr result (records.new ≡ records.old) }
    ensures err_steps { OnErr result ((steps.new).items ≡ (steps.old).items) }
{
    ranges.known();
    match ranges.apply(alloc, records, piece)? {
        None => noted(
            alloc,
            node,
            piece,
            Answer::Refused(Refusal::NotFound),
            steps,
        ),
        Some(Evaluation::Failed(failure)) => {
            noted(alloc, node, piece, Answer::Failed(failure), steps)
        }
        Some(Evaluation::Served { replies, undo }) => {
            match complete(alloc, ranges, node, piece, replies, steps) {
                Ok(answer) => Ok(answer),
                Err(err) => {
                    ranges.undo(records, piece.range, undo);
                    Err(err)
                }
            }
        }
    }
}

/// Delivers the piece to the range with its id, and notes the step. Want of memory leaves all as it was.
fn deliver(
    alloc: Global,
    ranges: &mut Ranges,
    records: &mut Records,
    node: u8,
    piece: &Piece,
    steps: &mut Vec<JournalStep>,
) -> Result<Answer, AllocError>
    requires { list_all has_proper_span (requests_of piece.now.items) ≡ true }
    ensures delivers { IfOk result (λ a. Delivers node piece.now ranges.old ranges.new records.old records.new a) }
    ensures steps { IfOk result (λ a. (steps.new).items ≡ (steps.old).items ++ Send node piece.now a ∷ []) }
    ensures err { OnErr result (ranges.new ≡ ranges.old) }
    ensures err_records { OnErr result (records.new ≡ records.old) }
    ensures err_steps { OnErr result ((steps.new).items ≡ (steps.old).items) }
{
    match refusal(alloc, ranges, records, node, piece)? {
        Some(answer) => noted(alloc, node, piece, answer, steps),
        None => serve(alloc, ranges, records, node, piece, steps),
    }
}

/// Delivers the piece to the range with its id, in the block, before whose next step no event is due. Want of
/// memory leaves all as it was.
pub(crate) fn deliver_in(
    alloc: Global,
    ranges: &mut Ranges,
    records: &mut Records,
    node: u8,
    piece: &Piece,
    block: &mut BlockState,
) -> Result<Answer, AllocError>
    requires proper { list_all has_proper_span (requests_of piece.now.items) ≡ true }
    requires made { is_due block.old ≡ false }
    ensures delivers { IfOk result (λ a. Delivers node piece.now ranges.old ranges.new records.old records.new a) }
    ensures notes { IfOk result (λ a. Notes (Send node piece.now a) block.old block.new) }
    ensures err { OnErr result (ranges.new ≡ ranges.old) }
    ensures err_records { OnErr result (records.new ≡ records.old) }
    ensures err_block { OnErr result (block.new ≡ block.old) }
{
    deliver(alloc, ranges, records, node, piece, &mut block.steps)
}
