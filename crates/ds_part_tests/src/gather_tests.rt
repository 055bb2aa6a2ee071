//! Each public call, on parts of one request and of two.
ghost use Rattle.std.specs.Prelude.{◌≡◌, IfOk};
ghost use Rattle.ds_cover.specs.Items.{PositionsRise};

use ds_base::{Dir, Key, Keys, Seq, Span, Stamp, Value};
use ds_gather::Gather;
use ds_kind::kinds::{DeleteRangeArgs, ReverseScanArgs, ScanArgs};
use ds_kind::{Body, Head, Item, Items, Part, Piece, Replies, Reply, Request, Row, Rows};
use std::alloc::Global;
use std::test::Fail;

#[derive(Clone, Copy)]
enum Op {
    Scan,
    Back,
    Delete,
}

fn key(alloc: Global, bytes: &[u8]) -> Result<Key, Fail> {
    Ok(Key::new(alloc, bytes).map_err(|_| "a key")?)
}

fn dir_of(op: Op) -> Dir {
    match op {
        Op::Back => Dir::Reverse,
        Op::Scan | Op::Delete => Dir::Forward,
    }
}

// The item at the position with the request from one key up to another.
fn item(alloc: Global, op: Op, pos: u32, start: &[u8], end: &[u8]) -> Result<Item, Fail>
    ensures { IfOk result (λ i. i.pos ≡ pos) }
{
    let start = key(alloc, start)?;
    let end = key(alloc, end)?;
    Ok(Item {
        pos,
        seq: Seq(pos),
        request: match op {
            Op::Scan => Request::Scan(ScanArgs { start, end }),
            Op::Back => Request::ReverseScan(ReverseScanArgs { start, end }),
            Op::Delete => Request::DeleteRange(DeleteRangeArgs { start, end }),
        },
    })
}

// A part of one request, from a up to z.
fn part(alloc: Global, op: Op) -> Result<Part, Fail>
    ensures { IfOk result (λ p. PositionsRise p.items) }
{
    let one = item(alloc, op, 0, b"a", b"z")?;
    let mut items = Items::new(alloc);
    items.push(alloc, one)?;
    Ok(Part {
        items,
        dir: dir_of(op),
    })
}

// A part of a scan and a deletion, from a up to z.
fn part_of_two(alloc: Global) -> Result<Part, Fail>
    ensures { IfOk result (λ p. PositionsRise p.items) }
{
    let one = item(alloc, Op::Scan, 3, b"a", b"z")?;
    let other = item(alloc, Op::Delete, 5, b"a", b"z")?;
    Ok(Part {
        items: Items::from_vec(vec![in alloc; one, other]?),
        dir: Dir::Forward,
    })
}

// Where the piece ends that starts at this byte.
fn end_of(byte: u8) -> &'static [u8] {
    match byte {
        b'a' => b"b",
        b'b' => b"c",
        _ => b"z",
    }
}

fn piece_with(items: Items, dir: Dir) -> Piece {
    Piece {
        head: Head {
            at: Stamp(10),
            txn: None,
            left: None,
            epoch: 0,
        },
        range: 1,
        items,
        dir,
    }
}

fn piece(alloc: Global, op: Op, byte: u8) -> Result<Piece, Fail> {
    let mut items = Items::new(alloc);
    items.push(alloc, item(alloc, op, 0, &[byte], end_of(byte))?)?;
    Ok(piece_with(items, dir_of(op)))
}

// The deletion stands before the scan in the piece.
fn piece_of_two(alloc: Global, byte: u8) -> Result<Piece, Fail> {
    let mut items = Items::new(alloc);
    items.push(alloc, item(alloc, Op::Delete, 5, &[byte], end_of(byte))?)?;
    items.push(alloc, item(alloc, Op::Scan, 3, &[byte], end_of(byte))?)?;
    Ok(piece_with(items, Dir::Forward))
}

// What one piece is answered: a row or a deleted key at the key of this byte.
fn body(alloc: Global, op: Op, byte: u8) -> Result<Body, Fail> {
    let key = key(alloc, &[byte])?;
    match op {
        Op::Scan | Op::Back => {
            let mut rows = Rows::new(alloc);
            let value = Value::Int(1);
            rows.push(alloc, Row { key, value })?;
            Ok(Body::Rows(rows))
        }
        Op::Delete => {
            let mut keys = Keys::new(alloc);
            keys.push(alloc, key)?;
            Ok(Body::Gone(keys))
        }
    }
}

fn answer(alloc: Global, op: Op, byte: u8, resume: Option<Span>) -> Result<Replies, Fail> {
    let mut replies = Replies::new(alloc);
    let body = body(alloc, op, byte)?;
    replies.push(alloc, Reply { body, resume })?;
    Ok(replies)
}

fn answer_of_two(alloc: Global, byte: u8) -> Result<Replies, Fail> {
    let mut replies = answer(alloc, Op::Delete, byte, None)?;
    let body = body(alloc, Op::Scan, byte)?;
    replies.push(alloc, Reply { body, resume: None })?;
    Ok(replies)
}

fn are_rows(rows: &[Row], want: &[u8]) -> bool {
    rows.len() == want.len()
        && rows
            .iter()
            .zip(want)
            .all(|(row, byte)| row.key.bytes() == [*byte].as_slice())
}

fn are_keys(keys: &[Key], want: &[u8]) -> bool {
    keys.len() == want.len()
        && keys
            .iter()
            .zip(want)
            .all(|(key, byte)| key.bytes() == [*byte].as_slice())
}

fn shows(op: Op, body: &Body, want: &[u8]) -> bool {
    match (op, body) {
        (Op::Scan | Op::Back, Body::Rows(rows)) => are_rows(rows.as_slice(), want),
        (Op::Delete, Body::Gone(keys)) => are_keys(keys.as_slice(), want),
        _ => false,
    }
}

fn is_reply(op: Op, reply: Option<&Reply>, want: &[u8]) -> bool {
    match reply {
        Some(reply) => shows(op, &reply.body, want) && reply.resume.is_none(),
        None => false,
    }
}

// Puts what one piece is answered.
fn put(
    alloc: Global,
    gather: &mut Gather,
    op: Op,
    byte: u8,
    resume: Option<Span>,
) -> Result<(), Fail> {
    let answer = answer(alloc, op, byte, resume)?;
    let piece = piece(alloc, op, byte)?;
    Ok(gather.put(alloc, &piece, answer)?)
}

// The same for both requests of a part.
fn put_both(alloc: Global, gather: &mut Gather, byte: u8) -> Result<(), Fail> {
    let answer = answer_of_two(alloc, byte)?;
    let piece = piece_of_two(alloc, byte)?;
    Ok(gather.put(alloc, &piece, answer)?)
}

// Whether the answers of these pieces, put in this order, gather to the one reply with these.
fn gathers(alloc: Global, op: Op, order: &[u8], want: &[u8]) -> Result<bool, Fail> {
    let mut gather = Gather::new(alloc, &part(alloc, op)?)?;
    for byte in order {
        put(alloc, &mut gather, op, *byte, None)?;
    }
    let replies = gather.take();
    Ok(replies.len() == 1 && is_reply(op, replies.get(0), want))
}

// The replies of both requests of a part, after the answers of these pieces in this order.
fn gathered_both(alloc: Global, order: &[u8]) -> Result<Replies, Fail> {
    let mut gather = Gather::new(alloc, &part_of_two(alloc)?)?;
    for byte in order {
        put_both(alloc, &mut gather, *byte)?;
    }
    Ok(gather.take())
}

// Whether they are the two replies with these.
fn are_both(replies: &Replies, want: &[u8]) -> bool {
    replies.len() == 2
        && is_reply(Op::Scan, replies.get(0), want)
        && is_reply(Op::Delete, replies.get(1), want)
}

fn gathers_both(alloc: Global, order: &[u8], want: &[u8]) -> Result<bool, Fail> {
    let replies = gathered_both(alloc, order)?;
    Ok(are_both(&replies, want))
}

fn span(alloc: Global, start: &[u8], end: &[u8]) -> Result<Span, Fail> {
    let start = key(alloc, start)?;
    let end = key(alloc, end)?;
    Ok(Span::new(start, end).map_err(|_| "a span")?)
}

// The replies of a scan after one piece, whose answer left this span to resume.
fn gathered_with(alloc: Global, start: &[u8], end: &[u8]) -> Result<Replies, Fail> {
    let mut gather = Gather::new(alloc, &part(alloc, Op::Scan)?)?;
    let resume = span(alloc, start, end)?;
    put(alloc, &mut gather, Op::Scan, b'a', Some(resume))?;
    Ok(gather.take())
}

// Whether the one reply has a resume span from the first key up to the second.
fn resumes(replies: &Replies, start: &[u8], end: &[u8]) -> bool {
    match replies.get(0) {
        Some(reply) => match &reply.resume {
            Some(span) => span.start.bytes() == start && span.end.bytes() == end,
            None => false,
        },
        None => false,
    }
}

const ORDERS: [&[u8]; 6] = [b"abc", b"acb", b"bac", b"bca", b"cab", b"cba"];

#[test]
fn each_order_gathers_the_same(rt: HostRuntime) -> Result<(), Fail> {
    for order in ORDERS {
        assert!(rt; gathers(rt.alloc(), Op::Scan, order, b"abc")?);
        assert!(rt; gathers(rt.alloc(), Op::Back, order, b"cba")?);
        assert!(rt; gathers(rt.alloc(), Op::Delete, order, b"abc")?);
    }
    Ok(())
}

#[test]
fn each_request_has_its_own(rt: HostRuntime) -> Result<(), Fail> {
    for order in ORDERS {
        assert!(rt; gathers_both(rt.alloc(), order, b"abc")?);
    }
    Ok(())
}

#[test]
fn nothing_put_is_the_empty_reply(rt: HostRuntime) -> Result<(), Fail> {
    assert!(rt; gathers(rt.alloc(), Op::Scan, b"", b"")?);
    assert!(rt; gathers(rt.alloc(), Op::Delete, b"", b"")?);
    assert!(rt; gathers_both(rt.alloc(), b"", b"")?);
    Ok(())
}

#[test]
fn a_resume_span_is_kept(rt: HostRuntime) -> Result<(), Fail> {
    let replies = gathered_with(rt.alloc(), b"a\0", b"b")?;
    assert!(rt; resumes(&replies, b"a\0", b"b"));
    Ok(())
}
