//! Each kind of request: where it acts, and what it is answered on a cell that shows 4, also when it
//! is repeated. The requests are read from a line.
use crate::cases::filled;
use ds_base::{Copies, Key, Seq, Stamp, TxnNo, Value};
use ds_cell::{ActFault, At, Bit, Bits, Cell, act_request, body_of};
use ds_kind::{Body, Bounds, Request};
use ds_script::{Line, LineFault, read_line};
use std::alloc::{AllocError, Global};
use std::test::Fail;

fn bit_name(bit: &Bit) -> &'static str {
    match bit {
        Bit::Value(Some(Value::Int(4))) => "4",
        Bit::Value(Some(Value::Int(7))) => "7",
        Bit::Nothing => "nothing",
        Bit::Gone => "gone",
        _ => "another",
    }
}

fn body_name(body: &Body) -> &'static str {
    match body {
        Body::Got(Some(Value::Int(4))) => "got 4",
        Body::Rows(rows) => { if rows.len() == 1 { "a row" } else { "rows" } }
        Body::Number(7) => "number 7",
        Body::Gone(keys) => { if keys.len() == 1 { "a key" } else { "keys" } }
        Body::Ended(_) => "ended",
        Body::Found(false) => "not found",
        Body::Unit => "unit",
        _ => "another",
    }
}

// Transaction 1 at stamp 10, at its first number.
fn at() -> At {
    At {
        stamp: Stamp(10),
        txn: TxnNo(1),
        seq: Seq(1),
        epoch: 0,
    }
}

/// What the request is answered on a cell that shows 4, after it was answered so many times.
fn bit_after(alloc: Global, request: &Request, times: u32) -> Result<Bit, ActFault> {
    let mut cell = Cell::new(alloc);
    cell.foreign(alloc, Stamp(1), Some(Value::Int(4)))
        .map_err(|_| ActFault::Memory(AllocError))?;
    for _ in 0..times {
        act_request(alloc, &Key::least(alloc), &mut cell, at(), request)?;
    }
    act_request(alloc, &Key::least(alloc), &mut cell, at(), request)
}

fn named(bit: Result<Bit, ActFault>) -> &'static str {
    match bit {
        Ok(bit) => bit_name(&bit),
        Err(_) => "refused",
    }
}

/// The name of the body of the request's one answer.
fn body_after(alloc: Global, request: &Request) -> Result<&'static str, Fail> {
    let bit = bit_after(alloc, request, 0).map_err(|_| "refused")?;
    let mut bits = Bits::new(alloc);
    bits.push(alloc, (Key::least(alloc), bit))?;
    let body = body_of(alloc, request, bits)?;
    Ok(body_name(&body))
}

/// Whether the request is answered so, twice, and its body is so.
fn answers(alloc: Global, request: &Request, bit: &str, body: &str) -> Result<bool, Fail> {
    let first = named(bit_after(alloc, request, 0)) == bit;
    let second = named(bit_after(alloc, request, 1)) == bit;
    Ok(first && second && body_after(alloc, request)? == body)
}

/// The line of a batch of the one request.
fn line_of(alloc: Global, request: &str) -> Result<String, AllocError> {
    filled(
        alloc,
        r#"{"op":"batch","txn":true,"requests":[%]}"#,
        request,
        1,
    )
}

/// The first request of the line, which is a batch.
fn first_of(line: &Result<Line, LineFault>) -> Option<&Request> {
    match line {
        Ok(Line::Batch { batch, block: _ }) => batch.requests.get(0),
        _ => None,
    }
}

/// The same of a row: the answer, the body, and the request.
fn is_right(alloc: Global, row: &str) -> Result<bool, Fail> {
    let Some((bit, rest)) = row.split_once(", ") else {
        return Ok(false);
    };
    let Some((body, request)) = rest.split_once(": ") else {
        return Ok(false);
    };
    let line = line_of(alloc, request)?;
    let read = read_line(alloc, line.as_str().as_bytes(), 3);
    match first_of(&read) {
        Some(request) => answers(alloc, request, bit, body),
        None => Ok(false),
    }
}

const KINDS: &str = r#"4, got 4: {"get":""}
4, a row: {"scan":["",""]}
4, a row: {"reverse_scan":["",""]}
nothing, unit: {"put":["",5]}
nothing, unit: {"cput":{"key":"","value":5,"expect":4}}
nothing, unit: {"init_put":["",4]}
7, number 7: {"increment":["",3]}
nothing, unit: {"delete":""}
gone, a key: {"delete_range":["",""]}
nothing, ended: {"end":{"commit":true}}
nothing, not found: {"query_intent":["",1]}
nothing, unit: {"resolve":["",1]}
nothing, unit: {"resolve_range":["","",1]}
nothing, unit: {"admin_split":""}
nothing, unit: {"admin_lease":["",2]}"#;

#[test]
fn every_kind(rt: HostRuntime) -> Result<(), Fail> {
    for row in KINDS.lines() {
        assert!(rt; is_right(rt.alloc(), row)?, "{row}");
    }
    Ok(())
}

/// Whether the request acts at this key alone, or from the first of two keys up to the second.
fn acts_at(request: &Request, keys: &str) -> bool {
    match request.bounds() {
        Bounds::Point(at) => at.bytes() == keys.as_bytes(),
        Bounds::Between(from, to) => match keys.split_once('-') {
            Some((start, end)) => {
                from.bytes() == start.as_bytes() && to.bytes() == end.as_bytes()
            }
            None => false,
        },
    }
}

/// Whether the request is of the kind of this name, has its flags, and acts there.
fn is_of(alloc: Global, request: &Request, name: &str, keys: &str) -> Result<bool, Fail> {
    let kind = request.kind();
    let text = format!(in alloc; "{kind:?}")?;
    Ok(text.as_str() == name && request.flags() == kind.flags() && acts_at(request, keys))
}

/// Whether the request and its copy are of that kind and act there.
fn are_of(alloc: Global, request: &Request, name: &str, keys: &str) -> Result<bool, Fail> {
    let copy = is_of(alloc, &request.copy(alloc)?, name, keys)?;
    Ok(copy && is_of(alloc, request, name, keys)?)
}

/// The same of a row: the kind, the key or the two keys, and the request.
fn acts_right(alloc: Global, row: &str) -> Result<bool, Fail> {
    let Some((name, rest)) = row.split_once(' ') else {
        return Ok(false);
    };
    let Some((keys, request)) = rest.split_once(": ") else {
        return Ok(false);
    };
    let line = line_of(alloc, request)?;
    let read = read_line(alloc, line.as_str().as_bytes(), 3);
    match first_of(&read) {
        Some(request) => are_of(alloc, request, name, keys),
        None => Ok(false),
    }
}

const PLACES: &str = r#"Get k: {"get":"k"}
Scan a-z: {"scan":["a","z"]}
ReverseScan a-z: {"reverse_scan":["a","z"]}
Put k: {"put":["k",5]}
ConditionalPut k: {"cput":{"key":"k","value":5,"expect":null,"allow_absent":true}}
InitPut k: {"init_put":["k",5]}
Increment k: {"increment":["k",-2]}
Delete k: {"delete":"k"}
DeleteRange a-z: {"delete_range":["a","z"]}
QueryIntent k: {"query_intent":["k",3]}
ResolveIntent k: {"resolve":["k",7]}
ResolveIntentRange a-z: {"resolve_range":["a","z",7]}
AdminSplit k: {"admin_split":"k"}
AdminTransferLease k: {"admin_lease":["k",2]}"#;

#[test]
fn where_every_kind_acts(rt: HostRuntime) -> Result<(), Fail> {
    for row in PLACES.lines() {
        assert!(rt; acts_right(rt.alloc(), row)?, "{row}");
    }
    Ok(())
}
