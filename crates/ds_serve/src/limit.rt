//! How much of an item may be asked, with what is left of a limit.
ghost use Rattle.std.specs.Prelude.{◌≡◌, ◌∷◌, [], true, false, IfOk, Some, MatchOption};
ghost use Rattle.ds_base.specs.Order.{key_lt, key_le, holds};
ghost use Rattle.ds_kind.specs.Asks.{has_proper_span, has_room};
ghost use Rattle.ds_kind.specs.Bodies.{goes_down};
ghost use Rattle.ds_kind.specs.Left.{taken_in, left_after};
ghost use Rattle.ds_kind.specs.Reach.{Over};
ghost use Rattle.ds_kind.specs.Request.{reach_of, span_of};
ghost use Rattle.ds_kind.specs.declared.batch.Head.{Head};
ghost use Rattle.ds_cell.specs.Ask.{Cells};
ghost use Rattle.ds_cell.specs.Requests.{deed_of};
ghost use Rattle.ds_rule.specs.Asking.{at_of};
ghost use Rattle.ds_rule.specs.Pieces.{Each};
ghost use Rattle.ds_rule.specs.Limited.{takes, in_turn, taken_keys, last_taken, item_in, ask_up_to, ask_left};
ghost use Rattle.ds_serve.specs.Shares.{ask_share, CanResume, HasRoom};

use ds_base::{Copies, Key, Span};
use ds_cell::{At, Bit, Cell, Verdict, decide_request};
use ds_kind::{Body, Bounds, Head, Item, Reply, Request};
use std::alloc::{AllocError, Global};
use std::collections::BTreeMap;
use std::collections::btree_map::Range;

/// How much of an item is asked.
#[derive(Drop)]
pub enum Share {
    /// All of it.
    Whole,
    /// A part of it, and so much of its span is left.
    Part { part: Item, rest: Span },
    /// Nothing of it: all of its span is left.
    Nothing { rest: Span },
}

// Whether it takes one of the limit where a request decides so.
fn takes(verdict: &Verdict) -> bool
    ensures { result ≡ takes verdict.now }
{
    match verdict {
        Verdict::Keep(Bit::Value(Some(_))) | Verdict::Keep(Bit::Gone) => true,
        Verdict::Keep(Bit::Nothing) | Verdict::Keep(Bit::Value(None)) | Verdict::Keep(Bit::Hit) => {
            false
        }
        Verdict::Put(_, Bit::Gone) => true,
        Verdict::Put(_, Bit::Nothing)
        | Verdict::Put(_, Bit::Value(_))
        | Verdict::Put(_, Bit::Hit) => false,
        Verdict::Refuse(_) => true,
    }
}

// Whether a request takes one of the limit at a key.
fn takes_at(alloc: Global, cell: &Cell, at: At, request: &Request) -> Result<bool, AllocError>
    ensures { IfOk result (λ t. t ≡ takes (deed_of request.now at cell.now)) }
{
    let verdict = decide_request(alloc, cell, at, request)?;
    Ok(takes(&verdict))
}

// The next of the cells that are left, from the lowest up or from the highest down.
#[tactic(auto, using(crate::proofs::Limits::next_down, crate::proofs::Limits::next_up))]
fn next_in<'a>(cells: &mut Range<'a, Key, Cell>, down: bool) -> Option<(&'a Key, &'a Cell)>
    ensures { MatchOption result (cells.old ≡ []) (λ p. in_turn down cells.old ≡ (p.0.now, p.1.now) ∷ in_turn down cells.new) }
{
    if down {
        cells.next_back()
    } else {
        cells.next()
    }
}

// The key at which a limit of one more than `more` is used up, if it is. What lies beyond it isn't
// looked at.
#[tactic(auto, using(crate::proofs::Limits::taking_first, crate::proofs::Limits::taking_past, crate::proofs::Limits::taking_more, crate::proofs::Limits::taking_found, crate::proofs::Limits::taking_done, crate::proofs::Limits::shorter))]
fn last_taken(
    alloc: Global,
    cells: &BTreeMap<Key, Cell>,
    at: At,
    request: &Request,
    start: &Key,
    end: &Key,
    more: u32,
) -> Result<Option<Key>, AllocError>
    requires some { key_lt start.now end.now ≡ true }
    requires reach { reach_of request.now ≡ Over start.now end.now }
    ensures { IfOk result (λ k. k ≡ last_taken more (taken_keys request.now at cells.now.entries)) }
{
    let down = request.flags().reverse;
    let mut rest = cells.range(start..end);
    let mut left = more;
    'rest: while let Some((key, cell)) = next_in(&mut rest, down) {
        if takes_at(alloc, cell, at, request)? {
            if left == 0 {
                return Ok(Some(key.copy(alloc)?));
            }
            left -= 1;
        }
    }
    Ok(None)
}

// The keys that the request speaks of.
fn span_of(alloc: Global, request: &Request) -> Result<Span, AllocError>
    requires { has_proper_span request.now ≡ true }
    ensures { IfOk result (λ e. e ≡ span_of request.now) }
{
    match request.bounds() {
        Bounds::Point(key) => Span::point(alloc, key),
        Bounds::Between(start, end) => Ok(Span {
            start: start.copy(alloc)?,
            end: end.copy(alloc)?,
        }),
    }
}

// The item's request on a part of its span.
fn cut_item(alloc: Global, item: &Item, start: &Key, end: &Key) -> Result<Item, AllocError>
    requires some { key_lt start.now end.now ≡ true }
    requires from { key_le (span_of item.now.request).start start.now ≡ true }
    requires to { key_le end.now (span_of item.now.request).end ≡ true }
    ensures { IfOk result (λ i. i ≡ item_in (record { start = start.now; end = end.now }) item.now) }
{
    Ok(Item {
        pos: item.pos,
        seq: item.seq,
        request: item.request.cut(alloc, start, end)?,
    })
}

// The share of an item up to and with the key, from the lowest key up.
#[tactic(auto, using(crate::proofs::Limits::part_up, crate::proofs::Limits::whole_up))]
fn share_up(
    alloc: Global,
    item: &Item,
    start: &Key,
    end: &Key,
    last: &Key,
) -> Result<Share, AllocError>
    requires way { goes_down item.now.request ≡ false }
    requires room { has_room last.now ≡ true }
    requires reach { reach_of item.now.request ≡ Over start.now end.now }
    requires inside { holds start.now end.now last.now ≡ true }
    ensures { IfOk result (λ s. (h : Head) → (cells : Cells) → ask_share h item.now s cells ≡ ask_up_to h (Some last.now) item.now cells) }
{
    let next = last.after(alloc)?;
    if next < *end {
        return Ok(Share::Part {
            part: cut_item(alloc, item, start, &next)?,
            rest: Span {
                start: next,
                end: end.copy(alloc)?,
            },
        });
    }
    Ok(Share::Whole)
}

// The same from the highest key down.
#[tactic(auto, using(crate::proofs::Limits::part_down, crate::proofs::Limits::whole_down))]
fn share_down(
    alloc: Global,
    item: &Item,
    start: &Key,
    end: &Key,
    last: &Key,
) -> Result<Share, AllocError>
    requires way { goes_down item.now.request ≡ true }
    requires reach { reach_of item.now.request ≡ Over start.now end.now }
    requires inside { holds start.now end.now last.now ≡ true }
    ensures { IfOk result (λ s. (h : Head) → (cells : Cells) → ask_share h item.now s cells ≡ ask_up_to h (Some last.now) item.now cells) }
{
    if *start < *last {
        return Ok(Share::Part {
            part: cut_item(alloc, item, last, end)?,
            rest: Span {
                start: start.copy(alloc)?,
                end: last.copy(alloc)?,
            },
        });
    }
    Ok(Share::Whole)
}

// The same in the request's direction.
fn share_to(
    alloc: Global,
    item: &Item,
    start: &Key,
    end: &Key,
    last: &Key,
) -> Result<Share, AllocError>
    requires room { has_room last.now ≡ true }
    requires reach { reach_of item.now.request ≡ Over start.now end.now }
    requires inside { holds start.now end.now last.now ≡ true }
    ensures { IfOk result (λ s. (h : Head) → (cells : Cells) → ask_share h item.now s cells ≡ ask_up_to h (Some last.now) item.now cells) }
{
    if item.request.flags().reverse {
        share_down(alloc, item, start, end, last)
    } else {
        share_up(alloc, item, start, end, last)
    }
}

// The share of an item that acts over a span, with one more than `more` left of a limit.
#[tactic(auto, using(crate::proofs::Limits::taken_inside))]
fn share_over(
    alloc: Global,
    cells: &BTreeMap<Key, Cell>,
    at: At,
    item: &Item,
    start: &Key,
    end: &Key,
    more: u32,
) -> Result<Share, AllocError>
    requires some { key_lt start.now end.now ≡ true }
    requires room { Each HasRoom cells.now.entries }
    requires reach { reach_of item.now.request ≡ Over start.now end.now }
    ensures { IfOk result (λ s. (h : Head) → ask_share h item.now s cells.now.entries ≡ ask_up_to h (last_taken more (taken_keys item.now.request at cells.now.entries)) item.now cells.now.entries) }
{
    match last_taken(alloc, cells, at, &item.request, start, end, more)? {
        Some(last) => share_to(alloc, item, start, end, &last),
        None => Ok(Share::Whole),
    }
}

// The share of an item, with one more than `more` left of a limit. A point is asked whole.
#[tactic(auto, using(crate::proofs::Limits::point_share))]
fn share_with(
    alloc: Global,
    cells: &BTreeMap<Key, Cell>,
    at: At,
    item: &Item,
    more: u32,
) -> Result<Share, AllocError>
    requires proper { has_proper_span item.now.request ≡ true }
    requires room { Each HasRoom cells.now.entries }
    ensures { IfOk result (λ s. (h : Head) → ask_share h item.now s cells.now.entries ≡ ask_up_to h (last_taken more (taken_keys item.now.request at cells.now.entries)) item.now cells.now.entries) }
{
    match item.request.bounds() {
        Bounds::Point(_) => Ok(Share::Whole),
        Bounds::Between(start, end) => share_over(alloc, cells, at, item, start, end, more),
    }
}

/// How much of the item may be asked, with what is left of the limit: up to the key at which it is used
/// up, in the request's direction, and nothing where nothing is left. Keys beyond that one aren't looked
/// at.
#[tactic(auto, using(crate::proofs::Limits::some_left, crate::proofs::Limits::none_left))]
pub fn share_of(
    alloc: Global,
    cells: &BTreeMap<Key, Cell>,
    at: At,
    left: Option<u32>,
    item: &Item,
) -> Result<Share, AllocError>
    requires { CanResume left (item.now ∷ []) cells.now.entries }
    ensures { IfOk result (λ s. (h : Head) → at ≡ at_of h item.now.seq.0 → ask_share h item.now s cells.now.entries ≡ ask_left h left item.now cells.now.entries) }
{
    match left {
        None => Ok(Share::Whole),
        Some(left) => {
            if left == 0 {
                let rest = span_of(alloc, &item.request)?;
                return Ok(Share::Nothing { rest });
            }
            share_with(alloc, cells, at, item, left - 1)
        }
    }
}

// How many rows, deleted keys and found gets the body holds.
fn taken_in(body: &Body) -> usize
    ensures { result ≡ taken_in body.now }
{
    match body {
        Body::Got(Some(_)) => 1,
        Body::Rows(rows) => rows.len(),
        Body::Gone(keys) => keys.len(),
        Body::Got(None) | Body::Unit | Body::Number(_) | Body::Ended(_) | Body::Found(_) => 0,
    }
}

/// What the reply leaves of the limit; nothing where it takes more.
#[tactic(auto, using(crate::proofs::Limits::less_left, crate::proofs::Limits::used_up))]
pub fn left_after(left: Option<u32>, reply: &Reply) -> Option<u32>
    ensures { result ≡ left_after left (reply.now ∷ []) }
{
    match left {
        Some(rest) => {
            let taken = taken_in(&reply.body);
            if taken < rest as usize {
                return Some(rest - taken as u32);
            }
            Some(0)
        }
        None => None,
    }
}
