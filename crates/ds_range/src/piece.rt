//! What a range answers a piece, and does, by the records of transactions and with what is left of the
//! piece's limit.
ghost use Rattle.std.specs.Prelude.{◌≡◌, ◌∷◌, [], ◌++◌, map, true, IfOk, OnOk, OnErr};
ghost use Rattle.std.specs.List.{list_all};
ghost use Rattle.ds_kind.specs.Asks.{has_proper_span};
ghost use Rattle.ds_kind.specs.Parts.{requests_of};
ghost use Rattle.ds_cell.specs.Replies.{body_of};
ghost use Rattle.ds_cell.specs.Store.{put_cell};
ghost use Rattle.ds_rule.specs.declared.answer.Answer.TheVariants.{Done};
ghost use Rattle.ds_rule.specs.Asking.{ask_item};
ghost use Rattle.ds_rule.specs.Deliver.{answer_made};
ghost use Rattle.ds_rule.specs.Endings.{all_ended, records_made};
ghost use Rattle.ds_rule.specs.Limited.{with_rest};
ghost use Rattle.ds_rule.specs.Pieces.{Each};
ghost use Rattle.ds_rule.specs.Serve.{serve};
ghost use Rattle.ds_serve.specs.Ends.{reopened};
ghost use Rattle.ds_serve.specs.Shares.{ask_share, CanResume, HasRoom};
ghost use Rattle.ds_range.specs.Asks.{wrote_each, wrote_once};
ghost use Rattle.ds_range.specs.Covers.{CoversIf};
ghost use Rattle.ds_range.specs.Evaluates.{answer_to, kept_of, ended_in, MadeOne, ServedItem, ServedNext, ServedItems};
ghost use Rattle.ds_range.specs.Keeps.{restored};
ghost use Rattle.ds_range.specs.Serves.{after_made, finished_at, Tries};

use crate::ask::{Asked, Writes, ask_cells};
use crate::change::{Write, ordered};
use crate::keep::{Undo, change_kept, put_all_back};
use crate::resolve::resolve_left;
use crate::serve::{Tried, at_of, failure_of};
use crate::settle::{settle_keys, with_kept};
use crate::state::RangeState;
use ds_base::{Key, Keys, Span, TxnNo};
use ds_cell::{At, Bits, Cell, body_of};
use ds_kind::{Body, Failure, Head, Item, Piece, Replies, Reply};
use ds_rule::Records;
use ds_serve::{Share, end_all, left_after, reopen, share_of};
use std::alloc::{AllocError, Global};
use std::collections::BTreeMap;

/// What it takes to undo a piece.
#[derive(Drop)]
pub struct PieceUndo {
    /// What was kept of the contents.
    pub kept: Undo,
    /// The transaction whose pending record the piece ended, if it ended one.
    pub ended: Option<TxnNo>,
}

/// What became of a piece.
#[derive(Drop)]
pub enum Evaluation {
    /// It was served whole: one reply for each item, in order, and what it takes to undo it.
    Served { replies: Replies, undo: PieceUndo },
    /// It failed, and changed nothing.
    Failed(Failure),
}

/// What became of one item.
#[derive(Drop)]
pub(crate) enum One {
    Replied(Reply),
    Failed(Failure),
}

/// Makes a write of a request, and notes its key.
fn write_noted(
    alloc: Global,
    cells: &mut BTreeMap<Key, Cell>,
    key: Key,
    write: Write,
    undo: &mut Undo,
    keys: &mut Keys,
) -> Result<(), AllocError>
    ensures ok { OnOk result (cells.new.entries ≡ put_cell key (wrote_once write.at write.value) cells.old.entries) }
    ensures keys { OnOk result (keys.new ≡ keys.old ++ key ∷ []) }
    ensures back { restored undo.new cells.new.entries ≡ restored undo.old cells.old.entries }
{
    change_kept(alloc, cells, &key, write, undo)?;
    keys.push(alloc, key)
}

/// Makes the writes of a request, one after another, and notes their keys.
fn write_all_noted(
    alloc: Global,
    cells: &mut BTreeMap<Key, Cell>,
    at: At,
    writes: Writes,
    undo: &mut Undo,
    keys: &mut Keys,
) -> Result<(), AllocError>
    ensures ok { OnOk result (cells.new.entries ≡ wrote_each at writes cells.old.entries) }
    ensures keys { OnOk result (keys.new ≡ keys.old ++ map (λ p. p.0) writes) }
    ensures back { restored undo.new cells.new.entries ≡ restored undo.old cells.old.entries }
{
    'writes: for (key, value) in writes.into_vec() {
        write_noted(alloc, cells, key, Write { at, value }, undo, keys)?;
    }
    Ok(())
}

/// Makes the writes of a request that was not refused, and gives what its reply says.
fn write_answered(
    alloc: Global,
    cells: &mut BTreeMap<Key, Cell>,
    at: At,
    item: &Item,
    bits: Bits,
    writes: Writes,
    undo: &mut Undo,
    keys: &mut Keys,
) -> Result<Body, AllocError>
    ensures body { IfOk result (λ b. b ≡ body_of item.now.request bits) }
    ensures ok { OnOk result (cells.new.entries ≡ wrote_each at writes cells.old.entries) }
    ensures keys { OnOk result (keys.new ≡ keys.old ++ map (λ p. p.0) writes) }
    ensures back { restored undo.new cells.new.entries ≡ restored undo.old cells.old.entries }
{
    let body = body_of(alloc, &item.request, bits)?;
    write_all_noted(alloc, cells, at, writes, undo, keys)?;
    Ok(body)
}

/// Serves the item over all of its span, and says in its reply what is left of a greater one.
#[tactic(auto, using(crate::proofs::Evaluating::one_refused))]
fn serve_whole(
    alloc: Global,
    cells: &mut BTreeMap<Key, Cell>,
    head: &Head,
    item: &Item,
    rest: Option<Span>,
    undo: &mut Undo,
    keys: &mut Keys,
) -> Result<One, AllocError>
    ensures one { IfOk result (λ o. MadeOne (with_rest rest (ask_item head.now item.now cells.old.entries)) cells.new.entries keys.old keys.new o) }
    ensures back { restored undo.new cells.new.entries ≡ restored undo.old cells.old.entries }
{
    ordered(cells);
    let at = at_of(head, item.seq);
    match ask_cells(alloc, cells, at, &item.request)? {
        Asked::Failed { key, fault } => Ok(One::Failed(failure_of(item.pos, key, fault))),
        Asked::Gave { bits, writes } => {
            let body = write_answered(alloc, cells, at, item, bits, writes, undo, keys)?;
            Ok(One::Replied(Reply { body, resume: rest }))
        }
    }
}

/// Serves the share of the item.
#[tactic(auto, using(crate::proofs::Evaluating::nothing_made, ds_serve::proofs::Limits::no_bits, ds_serve::proofs::Limits::nothing_left))]
fn serve_share(
    alloc: Global,
    cells: &mut BTreeMap<Key, Cell>,
    head: &Head,
    item: &Item,
    share: Share,
    undo: &mut Undo,
    keys: &mut Keys,
) -> Result<One, AllocError>
    ensures one { IfOk result (λ o. MadeOne (ask_share head.now item.now share cells.old.entries) cells.new.entries keys.old keys.new o) }
    ensures back { restored undo.new cells.new.entries ≡ restored undo.old cells.old.entries }
{
    match share {
        Share::Whole => serve_whole(alloc, cells, head, item, None, undo, keys),
        Share::Part { part, rest } => serve_whole(
            alloc,
            cells,
            head,
            &part,
            Some(rest),
            undo,
            keys,
        ),
        Share::Nothing { rest } => Ok(One::Replied(Reply {
            body: body_of(alloc, &item.request, Bits::new(alloc))?,
            resume: Some(rest),
        })),
    }
}

/// Serves one item with what is left of the limit, and settles what it resolves; or tells why it
/// failed.
#[tactic(auto, using(crate::proofs::Evaluating::served_not))]
fn serve_item(
    alloc: Global,
    cells: &mut BTreeMap<Key, Cell>,
    records: &Records,
    head: &Head,
    left: Option<u32>,
    item: &Item,
    undo: &mut Undo,
    keys: &mut Keys,
) -> Result<One, AllocError>
    requires { CanResume left (item.now ∷ []) cells.old.entries }
    ensures one { IfOk result (λ o. ServedItem records.now head.now left item.now cells.old.entries cells.new.entries keys.old keys.new o) }
    ensures back { restored undo.new cells.new.entries ≡ restored undo.old cells.old.entries }
{
    let share = share_of(alloc, cells, at_of(head, item.seq), left, item)?;
    match serve_share(alloc, cells, head, item, share, undo, keys)? {
        One::Replied(reply) => {
            resolve_left(alloc, cells, records, left, &item.request, undo)?;
            Ok(One::Replied(reply))
        }
        One::Failed(failure) => Ok(One::Failed(failure)),
    }
}

/// Serves the next item, adds its reply and takes it off the limit; or tells why it failed.
fn serve_next(
    alloc: Global,
    cells: &mut BTreeMap<Key, Cell>,
    records: &Records,
    head: &Head,
    left: &mut Option<u32>,
    item: &Item,
    undo: &mut Undo,
    keys: &mut Keys,
    replies: &mut Replies,
) -> Result<Option<Failure>, AllocError>
    requires { CanResume left.old (item.now ∷ []) cells.old.entries }
    ensures next { IfOk result (λ f. ServedNext records.now head.now left.old left.new item.now cells.old.entries cells.new.entries keys.old keys.new replies.old replies.new f) }
    ensures back { restored undo.new cells.new.entries ≡ restored undo.old cells.old.entries }
{
    match serve_item(alloc, cells, records, head, *left, item, undo, keys)? {
        One::Replied(reply) => {
            *left = left_after(*left, &reply);
            replies.push(alloc, reply)?;
            Ok(None)
        }
        One::Failed(failure) => Ok(Some(failure)),
    }
}

/// Serves the items in order, up to the first that fails.
#[tactic(auto, using(crate::proofs::Evaluating::underway_first, crate::proofs::Evaluating::underway_resume, crate::proofs::Evaluating::underway_failed, crate::proofs::Evaluating::underway_done))]
fn serve_items(
    alloc: Global,
    cells: &mut BTreeMap<Key, Cell>,
    records: &Records,
    head: &Head,
    items: &[Item],
    undo: &mut Undo,
    keys: &mut Keys,
) -> Result<Tried, AllocError>
    requires kept { undo.old ≡ [] }
    requires none { keys.old ≡ [] }
    requires resume { CanResume head.now.left items.now cells.old.entries }
    ensures all { IfOk result (λ t. ServedItems records.now head.now items.now cells.old.entries cells.new.entries keys.new t) }
    ensures back { restored undo.new cells.new.entries ≡ cells.old.entries }
{
    let mut left = head.left;
    let mut replies = Replies::new(alloc);
    'items: for item in items {
        let failed = serve_next(
            alloc,
            cells,
            records,
            head,
            &mut left,
            item,
            undo,
            keys,
            &mut replies,
        )?;
        if let Some(failure) = failed {
            return Ok(Tried::Failed(failure));
        }
    }
    Ok(Tried::Replied(replies))
}

/// Commits what a piece without a transaction wrote at these keys.
fn finish_at(
    alloc: Global,
    cells: &mut BTreeMap<Key, Cell>,
    head: &Head,
    keys: &Keys,
    undo: &mut Undo,
) -> Result<(), AllocError>
    ensures ok { OnOk result (cells.new.entries ≡ finished_at head.now keys.now cells.old.entries) }
    ensures back { restored undo.new cells.new.entries ≡ restored undo.old cells.old.entries }
{
    match head.txn {
        Some(_) => Ok(()),
        None => settle_keys(alloc, cells, keys.as_slice(), TxnNo(0), Some(head.at), undo),
    }
}

/// Serves the piece's items and commits what they wrote. What it takes to undo all of it is kept.
fn try_items(
    alloc: Global,
    cells: &mut BTreeMap<Key, Cell>,
    records: &Records,
    piece: &Piece,
    undo: &mut Undo,
) -> Result<Tried, AllocError>
    requires kept { undo.old ≡ [] }
    requires resume { CanResume piece.now.head.left piece.now.items cells.old.entries }
    ensures tried { IfOk result (λ t. Tries piece.now.head (serve records.now piece.now.head piece.now.head.left piece.now.items cells.old.entries) cells.old.entries cells.new.entries t) }
    ensures back { restored undo.new cells.new.entries ≡ cells.old.entries }
{
    let mut keys = Keys::new(alloc);
    let tried = serve_items(
        alloc,
        cells,
        records,
        &piece.head,
        piece.items.as_slice(),
        undo,
        &mut keys,
    )?;
    match tried {
        Tried::Failed(failure) => Ok(Tried::Failed(failure)),
        Tried::Replied(replies) => {
            finish_at(alloc, cells, &piece.head, &keys, undo)?;
            Ok(Tried::Replied(replies))
        }
    }
}

/// Makes the ends of its transaction in a piece that was served.
fn end_served(records: &mut Records, piece: &Piece, replies: Replies, kept: Undo) -> Evaluation
    ensures answer { answer_to result ≡ Done replies }
    ensures records { records.new ≡ all_ended piece.now.head piece.now.items replies records.old }
    ensures kept { kept_of result ≡ kept }
    ensures back { reopened (ended_in result) records.new ≡ records.old }
{
    let ended = end_all(
        records,
        &piece.head,
        piece.items.as_slice(),
        replies.as_slice(),
    );
    Evaluation::Served {
        replies,
        undo: PieceUndo { kept, ended },
    }
}

/// Serves the piece whole, or leaves the contents and the records as they were.
#[tactic(auto, using(crate::proofs::Evaluating::answered_records))]
fn evaluate(
    alloc: Global,
    cells: &mut BTreeMap<Key, Cell>,
    records: &mut Records,
    piece: &Piece,
) -> Result<Evaluation, AllocError>
    requires { CanResume piece.now.head.left piece.now.items cells.old.entries }
    ensures answer { IfOk result (λ e. answer_to e ≡ answer_made (serve records.old piece.now.head piece.now.head.left piece.now.items cells.old.entries)) }
    ensures after { OnOk result (cells.new.entries ≡ after_made piece.now.head (serve records.old piece.now.head piece.now.head.left piece.now.items cells.old.entries) cells.old.entries) }
    ensures records { OnOk result (records.new ≡ records_made piece.now.head piece.now.items (serve records.old piece.now.head piece.now.head.left piece.now.items cells.old.entries) records.old) }
    ensures back { IfOk result (λ e. restored (kept_of e) cells.new.entries ≡ cells.old.entries) }
    ensures records_back { IfOk result (λ e. reopened (ended_in e) records.new ≡ records.old) }
    ensures err { OnErr result (cells.new.entries ≡ cells.old.entries) }
    ensures err_records { OnErr result (records.new ≡ records.old) }
{
    let mut kept = Undo::new(alloc);
    match try_items(alloc, cells, records, piece, &mut kept) {
        Ok(Tried::Replied(replies)) => Ok(end_served(records, piece, replies, kept)),
        Ok(Tried::Failed(failure)) => {
            put_all_back(cells, kept);
            Ok(Evaluation::Failed(failure))
        }
        Err(err) => {
            put_all_back(cells, kept);
            Err(err)
        }
    }
}

/// The keys at which writes can stand after a piece of which this became, by those before it.
fn still_covered(
    alloc: Global,
    cells: &BTreeMap<Key, Cell>,
    written: Option<Keys>,
    evaluation: &Evaluation,
) -> Option<Keys>
    ensures { CoversIf written (restored (kept_of evaluation.now) cells.now.entries) → CoversIf result cells.now.entries }
{
    match evaluation {
        Evaluation::Served { undo, .. } => with_kept(alloc, cells, written, &undo.kept),
        Evaluation::Failed(_) => written,
    }
}

impl RangeState {
    /// Serves the piece's items in order, by the records and with what is left of the piece's limit, each
    /// on what those before it left, and commits what it wrote unless it is of a transaction. Then the
    /// piece's ends change the record of its transaction. A failure and want of memory leave the range and
    /// the records as they were.
    ///
    /// The span of each request must be proper, so that what is left of it under a limit is a span of keys.
    pub fn apply(
        &mut self,
        alloc: Global,
        records: &mut Records,
        piece: &Piece,
    ) -> Result<Evaluation, AllocError>
        requires { list_all has_proper_span (requests_of piece.now.items) ≡ true }
        ensures answer { IfOk result (λ e. answer_to e ≡ answer_made (serve records.old piece.now.head piece.now.head.left piece.now.items (self.old).cells)) }
        ensures after { OnOk result (self.new ≡ record (self.old) { cells = after_made piece.now.head (serve records.old piece.now.head piece.now.head.left piece.now.items (self.old).cells) (self.old).cells }) }
        ensures records { OnOk result (records.new ≡ records_made piece.now.head piece.now.items (serve records.old piece.now.head piece.now.head.left piece.now.items (self.old).cells) records.old) }
        ensures back { IfOk result (λ e. restored (kept_of e) (self.new).cells ≡ (self.old).cells) }
        ensures records_back { IfOk result (λ e. reopened (ended_in e) records.new ≡ records.old) }
        ensures err { OnErr result (self.new ≡ self.old) }
        ensures err_records { OnErr result (records.new ≡ records.old) }
    {
        let evaluation = evaluate(alloc, &mut self.cells, records, piece)?;
        let written = self.written.take();
        self.written = still_covered(alloc, &self.cells, written, &evaluation);
        Ok(evaluation)
    }

    /// Puts back what was kept, the last first, and the record that was ended. It takes no memory.
    pub fn undo(&mut self, records: &mut Records, undo: PieceUndo)
        ensures range { self.new ≡ record (self.old) { cells = restored undo.kept (self.old).cells } }
        ensures records { records.new ≡ reopened undo.ended records.old }
    {
        self.written = None;
        reopen(records, undo.ended);
        put_all_back(&mut self.cells, undo.kept);
    }
}
