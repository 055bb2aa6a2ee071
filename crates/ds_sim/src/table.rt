//! A small cluster through splits, merges, leases, moves, old descriptors and the ends of transactions, step
//! by step. A row is what is done, and after `=` what it comes to.
ghost use Rattle.std.specs.Prelude.{◌≡◌, true, IfOk, OnOk};
ghost use Rattle.std.specs.List.{list_all};
ghost use Rattle.ds_kind.specs.Asks.{has_proper_span, has_room};
ghost use Rattle.ds_kind.specs.Parts.{requests_of};
ghost use Rattle.ds_sim.specs.Made.{CanBeMade};

use crate::sim::Sim;
use ds_base::{Dir, Key, Seq, Stamp, TxnNo, Value};
use ds_desc::{Info, Looked, Meta, Nodes, Refusal};
use ds_kind::kinds::{
    AdminSplitArgs, EndTxnArgs, GetArgs, IncrementArgs, PutArgs, ResolveIntentArgs, ScanArgs,
};
use ds_kind::{
    Body, Bounds, Failure, Flights, Head, Item, Items, Piece, Reply, Request, TxnStatus,
};
use ds_ranges::{are_leased, tiles};
use ds_rule::{Answer, ClusterRange, Event, Wire};
use std::alloc::Global;
use std::test::Fail;

// Three ranges at three nodes, with borders g and p and the leases at nodes 1, 2 and 3. A key is its one
// letter, `-` the least. A lookup comes to the first row's id, generation, lease and lease number, and the
// count of rows.
const ROWS: &str = "look f m = 2 1 2 1 2
look r m = 2 1 2 1 2
look f a = 1 1 1 1 3
stale a 1 = made
look f a = 1 1 1 1 3
split m _ = made
look f a = 1 1 1 1 4
look f h = 2 2 2 1 3
look f m = 4 2 2 1 2
split m _ = made
look f m = 4 2 2 1 2
send 2 2 0 get h _ = done none
send 2 2 0 get n _ = mismatch 4 1
send 1 2 0 get h _ = lease 2 1
send 1 9 0 get h _ = not_found
lease h 1 = made
look f h = 2 2 1 2 3
send 2 2 0 get h _ = lease 1 2
lease h 5 = made
look f h = 2 2 1 2 3
move h 12 = made
look f h = 2 3 1 2 3
send 3 2 0 get h _ = not_found
move h 32 = made
look f h = 2 4 3 3 3
stale h 2 = made
look f h = 2 2 1 0 1
look f h = 2 4 3 3 3
merge p _ = made
look f p = 3 1 3 1 1
merge h _ = made
look f m = 2 5 3 3 2
send 2 4 0 get m _ = not_found
write a 7 = made
send 1 1 0 get a _ = done 7
send 1 1 0 put a 8 = done unit
send 1 1 0 get a _ = done 8
begin 1 _ = made
send 1 1 1 put b 4 = done unit
send 1 1 1 increment c 1 put a 9 = failed too_old
send 1 1 0 get c _ = done none
send 1 1 1 put b 5 put t 1 = mismatch 1 3
send 1 1 0 resolve b 1 = done unit
send 1 1 1 get b _ = done 4
abort _ _ = made
send 1 1 1 get b _ = failed aborted
send 1 1 1 end b _ = done aborted
send 1 1 1 end b _ get b _ = failed aborted
close _ _ = aborted
send 1 1 0 get b _ = done none
begin 2 _ = made
send 1 1 2 put b 3 = done unit
send 1 1 2 commit b _ = done committed
send 1 1 2 get b _ = failed committed
close _ _ = committed
send 1 1 0 get b _ = done 3
send 1 1 0 scan a f = done rows 2
send 1 1 0 split e _ = done unit
look f e = 5 2 1 1 3
send 1 1 0 scan a f = mismatch 1 2
send 1 1 0 scan a e = done rows 2
send 1 5 0 scan e f = done rows 0
";

fn all_nodes(alloc: Global) -> Nodes {
    Nodes::of(alloc, &[1, 2, 3])
}

fn key_of(alloc: Global, word: &str) -> Result<Key, &'static str> {
    if word == "-" {
        return Ok(Key::least(alloc));
    }
    Key::new(alloc, word.as_bytes()).map_err(|_| "a key")
}

fn range(alloc: Global, start: &str, lease: u8) -> Result<ClusterRange, &'static str> {
    Ok(ClusterRange {
        start: key_of(alloc, start)?,
        nodes: all_nodes(alloc),
        lease,
    })
}

fn cluster(alloc: Global) -> Result<Sim, Fail> {
    let ranges = [
        range(alloc, "-", 1)?,
        range(alloc, "g", 2)?,
        range(alloc, "p", 3)?,
    ];
    if tiles(&ranges) && are_leased(&ranges) {
        return Ok(Sim::new(alloc, &ranges)?);
    }
    Err(Fail::new("no cluster"))
}

// The first word, and what follows it.
fn first_word(text: &str) -> (&str, &str) {
    text.split_once(' ').unwrap_or((text, ""))
}

fn number(word: &str) -> u32 {
    word.parse().unwrap_or(0)
}

fn has_room(key: &Key) -> bool
    ensures { result ≡ has_room key.now }
{
    key.bytes().len() <= 64 && key.is_below_bound()
}

// The nodes of a number of two digits.
fn nodes_of(alloc: Global, number: u32) -> Nodes {
    if number == 12 {
        Nodes::of(alloc, &[1, 2])
    } else {
        Nodes::of(alloc, &[3, 2])
    }
}

fn event_of(alloc: Global, name: &str, key: Key, number: u32) -> Event {
    match name {
        "split" => Event::Split { key },
        "merge" => Event::Merge { key },
        "stale" => Event::Stale { key, back: number },
        "lease" => Event::Lease {
            key,
            node: u8::try_from(number).unwrap_or(0),
        },
        "move" => Event::Move {
            key,
            nodes: nodes_of(alloc, number),
        },
        "write" => Event::Write {
            key,
            stamp: Stamp(5),
            value: Some(Value::Int(i64::from(number))),
        },
        _ => Event::Abort,
    }
}

fn can_be_made(event: &Event) -> bool
    ensures { result ≡ true → CanBeMade event.now }
{
    match event {
        Event::Write { key, .. } => has_room(key),
        _ => true,
    }
}

// Makes the event of this name.
fn happens(alloc: Global, sim: &mut Sim, name: &str, rest: &str) -> Result<(), Fail> {
    let (key, word) = first_word(rest);
    let event = event_of(alloc, name, key_of(alloc, key)?, number(word));
    if can_be_made(&event) && sim.can_count() {
        sim.event(alloc, &event)?;
    }
    Ok(())
}

fn is_row(info: &Info, count: usize, want: &str) -> bool {
    let (id, want) = first_word(want);
    let (generation, want) = first_word(want);
    let (node, want) = first_word(want);
    let (lease, rows) = first_word(want);
    info.desc.id == number(id)
        && info.desc.generation == number(generation)
        && u32::from(info.lease.node) == number(node)
        && info.lease.number == number(lease)
        && count == number(rows) as usize
}

// Whether the lookup comes to this row and so many rows.
fn looks(alloc: Global, sim: &mut Sim, rest: &str, want: &str) -> Result<bool, Fail> {
    let (way, word) = first_word(rest);
    let dir = if way == "r" {
        Dir::Reverse
    } else {
        Dir::Forward
    };
    let key = key_of(alloc, word)?;
    if !key.is_below_bound() || key.bytes().is_empty() {
        return Ok(false);
    }
    match sim.lookup(alloc, &key, dir)? {
        Looked::Rows(infos) => match infos.get(0) {
            Some(info) => Ok(is_row(info, infos.len(), want)),
            None => Ok(false),
        },
        Looked::Lost => Ok(false),
    }
}

fn end(alloc: Global, key: Key, commit: bool) -> Request {
    Request::EndTxn(EndTxnArgs {
        key,
        commit,
        one_phase: false,
        parallel: false,
        in_flight: Flights::new(alloc),
    })
}

fn request_of(alloc: Global, name: &str, key: Key, word: &str) -> Result<Request, &'static str> {
    let n = number(word);
    let by = i64::from(n);
    match name {
        "get" => Ok(Request::Get(GetArgs { key })),
        "put" => Ok(Request::Put(PutArgs {
            key,
            value: Value::Int(by),
        })),
        "increment" => Ok(Request::Increment(IncrementArgs { key, by })),
        "scan" => Ok(Request::Scan(ScanArgs {
            start: key,
            end: key_of(alloc, word)?,
        })),
        "resolve" => Ok(Request::ResolveIntent(ResolveIntentArgs { key, txn: TxnNo(n) })),
        "split" => Ok(Request::AdminSplit(AdminSplitArgs { key })),
        "commit" => Ok(end(alloc, key, true)),
        _ => Ok(end(alloc, key, false)),
    }
}

fn is_proper(request: &Request) -> bool
    ensures { result ≡ has_proper_span request.now }
{
    match request.bounds() {
        Bounds::Point(key) => has_room(key),
        Bounds::Between(start, end) => start < end,
    }
}

// Adds the request that the text begins with, and gives what follows it.
fn add<'a>(alloc: Global, items: &mut Items, text: &'a str) -> Result<&'a str, Fail>
    requires { list_all has_proper_span (requests_of items.old) ≡ true }
    ensures { OnOk result (list_all has_proper_span (requests_of items.new) ≡ true) }
{
    let (name, text) = first_word(text);
    let (key, text) = first_word(text);
    let (word, rest) = first_word(text);
    let request = request_of(alloc, name, key_of(alloc, key)?, word)?;
    let pos = if items.len() == 0 { 0 } else { 1 };
    if is_proper(&request) {
        items.push(
            alloc,
            Item {
                pos,
                seq: Seq(pos + 1),
                request,
            },
        )?;
    }
    Ok(rest)
}

// The stamp of a transaction; what is sent without one is at stamp 40.
fn stamp_of(txn: u32) -> u64 {
    10 + 10 * u64::from(txn)
}

fn piece_of(alloc: Global, range: u32, txn: u32, text: &str) -> Result<Piece, Fail>
    ensures { IfOk result (λ p. list_all has_proper_span (requests_of p.items) ≡ true) }
{
    let mut items = Items::new(alloc);
    let rest = add(alloc, &mut items, text)?;
    if !rest.is_empty() {
        add(alloc, &mut items, rest)?;
    }
    let head = Head {
        at: Stamp(if txn == 0 { 40 } else { stamp_of(txn) }),
        txn: if txn == 0 { None } else { Some(TxnNo(txn)) },
        left: None,
        epoch: 0,
    };
    Ok(Piece {
        head,
        range,
        items,
        dir: Dir::Forward,
    })
}

fn is_status(status: &TxnStatus, want: &str) -> bool {
    match status {
        TxnStatus::Committed => want == "committed",
        TxnStatus::Aborted => want == "aborted",
        TxnStatus::Unknown | TxnStatus::Staging => false,
    }
}

fn is_body(body: &Body, want: &str) -> bool {
    match body {
        Body::Unit => want == "unit",
        Body::Got(None) => want == "none",
        Body::Got(Some(Value::Int(n))) | Body::Number(n) => *n == i64::from(number(want)),
        Body::Rows(rows) => rows.len() == number(first_word(want).1) as usize,
        Body::Ended(status) => is_status(status, want),
        _ => false,
    }
}

fn is_reply(reply: Option<&Reply>, want: &str) -> bool {
    match reply {
        Some(reply) => is_body(&reply.body, want),
        None => false,
    }
}

fn is_failure(failure: &Failure, want: &str) -> bool {
    match failure {
        Failure::Aborted => want == "aborted",
        Failure::Committed => want == "committed",
        Failure::TooOld { .. } => want == "too_old",
        _ => false,
    }
}

fn is_refusal(refusal: &Refusal, name: &str, rest: &str) -> bool {
    let (first, second) = first_word(rest);
    match refusal {
        Refusal::NotFound => name == "not_found",
        Refusal::NotLease { lease } => {
            name == "lease"
                && u32::from(lease.node) == number(first)
                && lease.number == number(second)
        }
        Refusal::Mismatch { infos } => match infos.get(0) {
            Some(info) => {
                name == "mismatch"
                    && info.desc.id == number(first)
                    && infos.len() == number(second) as usize
            }
            None => false,
        },
    }
}

fn is_answer(answer: &Answer, want: &str) -> bool {
    let (name, rest) = first_word(want);
    match answer {
        Answer::Done(replies) => name == "done" && is_reply(replies.get(0), rest),
        Answer::Failed(failure) => name == "failed" && is_failure(failure, rest),
        Answer::Refused(refusal) => is_refusal(refusal, name, rest),
        Answer::Lost => false,
    }
}

fn sends(alloc: Global, sim: &mut Sim, rest: &str, want: &str) -> Result<bool, Fail> {
    let (node, rest) = first_word(rest);
    let (range, rest) = first_word(rest);
    let (txn, text) = first_word(rest);
    let piece = piece_of(alloc, number(range), number(txn), text)?;
    let answer = sim.send(alloc, u8::try_from(number(node)).unwrap_or(0), &piece)?;
    Ok(is_answer(&answer, want))
}

// Whether the row's step comes to what it says.
fn step(alloc: Global, sim: &mut Sim, row: &str) -> Result<bool, Fail> {
    let (text, want) = row.split_once(" = ").unwrap_or((row, ""));
    let (name, rest) = first_word(text);
    match name {
        "look" => looks(alloc, sim, rest, want),
        "send" => sends(alloc, sim, rest, want),
        "close" => Ok(is_status(&sim.close(alloc)?, want)),
        "begin" => {
            let n = number(first_word(rest).0);
            sim.begin(alloc, TxnNo(n), Stamp(stamp_of(n)))?;
            Ok(true)
        }
        _ => {
            happens(alloc, sim, name, rest)?;
            Ok(true)
        }
    }
}

#[test]
fn steps_of_a_small_cluster(rt: HostRuntime) -> Result<(), Fail> {
    let alloc = rt.alloc();
    let mut sim = cluster(alloc)?;
    for row in ROWS.lines() {
        assert!(rt; step(alloc, &mut sim, row)?, "{row}");
    }
    Ok(())
}
