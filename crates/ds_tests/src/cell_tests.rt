//! Cells: what each change does to one, and that it is given back. A row is what is done to an empty
//! cell, step by step, and what is seen then. The kinds of request have a table in `ds_text_tests`.
use ds_base::{Copies, Key, Seq, Stamp, TxnNo, Value};
use ds_cell::{
    At, Bit, Bits, Cell, Taken, Verdict, body_of, decide_request, laws, request_laws, unnoticed,
};
use ds_kind::kinds::{Get, GetArgs, PutArgs, ReverseScanArgs};
use ds_kind::{Body, Request};
use std::alloc::{AllocError, Global};
use std::test::Fail;

/// Transaction 1 at stamp 10.
fn at(seq: u32, epoch: u32) -> At {
    At {
        stamp: Stamp(10),
        txn: TxnNo(1),
        seq: Seq(seq),
        epoch,
    }
}

fn int(n: u32) -> Option<Value> {
    Some(Value::Int(i64::from(n)))
}

fn is_int(value: Option<&Value>, n: u32) -> bool {
    matches!(value, Some(Value::Int(m)) if *m == i64::from(n))
}

/// The two numbers of a step, 0 for one that isn't there.
fn numbers(text: &str) -> (u32, u32) {
    let (first, second) = text.split_once(' ').unwrap_or((text, "0"));
    (first.parse().unwrap_or(0), second.parse().unwrap_or(0))
}

/// Does the change of this name, and gives what it took.
fn change(
    alloc: Global,
    cell: &mut Cell,
    name: &str,
    first: u32,
    second: u32,
) -> Result<Taken, AllocError> {
    match name {
        "write" => cell.write(alloc, at(first, 0), int(second)),
        "anew" => cell.write(alloc, at(first, 1), int(second)),
        "commit" => cell.settle_kept(alloc, TxnNo(1), Some(Stamp(u64::from(first)))),
        _ => cell.settle_kept(alloc, TxnNo(1), None),
    }
}

fn has_version(cell: &Cell, place: u32, stamp: u32) -> bool {
    match cell.version(place as usize) {
        Some((at, _)) => at.0 == u64::from(stamp),
        None => stamp == 0,
    }
}

/// Whether what the step says is so.
fn is_so(cell: &Cell, name: &str, first: u32, second: u32) -> bool {
    cell.known(at(first, 0));
    match name {
        "sees" => is_int(cell.seen(at(first, 0)), second),
        "sees_anew" => is_int(cell.seen(at(first, 1)), second),
        "version" => has_version(cell, first, second),
        "intent" => cell.has_writes(),
        _ => !cell.has_writes(),
    }
}

/// Does the change and gives it back, on a copy: the cell is as it was.
fn comes_back(alloc: Global, cell: &Cell, name: &str, numbers: (u32, u32)) -> Result<bool, Fail> {
    let mut copy = cell.copy(alloc)?;
    let taken = change(alloc, &mut copy, name, numbers.0, numbers.1)?;
    copy.give_back(taken);
    Ok(is_int(copy.seen(at(9, 0)), 5) == is_int(cell.seen(at(9, 0)), 5))
}

/// One step: a change, or what is so then. Whether it is right.
fn step(alloc: Global, cell: &mut Cell, text: &str) -> Result<bool, Fail> {
    let (name, rest) = text.split_once(' ').unwrap_or((text, ""));
    let (first, second) = numbers(rest);
    match name {
        "foreign" => {
            cell.foreign(alloc, Stamp(u64::from(first)), int(second))?;
            Ok(true)
        }
        "drop" => {
            cell.settle(alloc, TxnNo(1), None)?;
            Ok(true)
        }
        "write" | "anew" | "commit" => {
            let back = comes_back(alloc, cell, name, (first, second))?;
            change(alloc, cell, name, first, second)?;
            Ok(back)
        }
        _ => Ok(is_so(cell, name, first, second)),
    }
}

/// Whether each step of the row is right.
fn are_right(alloc: Global, row: &str) -> Result<bool, Fail> {
    let mut cell = Cell::new(alloc);
    for text in row.split(", ") {
        if !step(alloc, &mut cell, text)? {
            return Ok(false);
        }
    }
    Ok(true)
}

const CELLS: &str = "foreign 1 4, sees 1 4, none
write 1 5, sees 1 5, write 2 6, sees 2 6, sees 1 5, intent
write 1 5, write 1 7, sees 1 5
write 1 5, anew 1 6, sees_anew 1 6, intent
write 1 5, foreign 11 7, version 0 0, commit 10, version 0 10, version 1 11, none
foreign 1 1, write 1 5, foreign 11 7, drop, version 0 1, version 1 11, version 2 0, none";

#[test]
fn changes_of_a_cell(rt: HostRuntime) -> Result<(), Fail> {
    for row in CELLS.lines() {
        assert!(rt; are_right(rt.alloc(), row)?, "{row}");
    }
    Ok(())
}

/// Whether a put of 5 on this cell is decided so, before it is written.
fn puts(alloc: Global, cell: &Cell) -> Result<bool, AllocError> {
    let request = Request::Put(PutArgs {
        key: Key::least(alloc),
        value: Value::Int(5),
    });
    let verdict = decide_request(alloc, cell, at(1, 0), &request)?;
    Ok(matches!(verdict, Verdict::Put(Some(Value::Int(5)), Bit::Nothing)))
}

#[test]
fn a_put_is_decided_before_it_is_written(rt: HostRuntime) -> Result<(), Fail> {
    let cell = Cell::new(rt.alloc());
    assert!(rt; puts(rt.alloc(), &cell)?);
    Ok(())
}

fn shown(alloc: Global, key: Key, n: u32, bits: &mut Bits) -> Result<(), AllocError> {
    bits.push(alloc, (key, Bit::Value(int(n))))
}

fn first_is(body: &Body, n: i64) -> bool {
    match body {
        Body::Rows(rows) => match rows.get(0) {
            Some(row) => matches!(row.value, Value::Int(m) if m == n),
            None => false,
        },
        _ => false,
    }
}

/// The body of a scan in reverse of two keys that show 1 and 2.
fn reverse_body(alloc: Global) -> Result<Body, Fail> {
    let mut bits = Bits::new(alloc);
    shown(alloc, Key::least(alloc), 1, &mut bits)?;
    shown(alloc, Key::bound(alloc)?, 2, &mut bits)?;
    let request = Request::ReverseScan(ReverseScanArgs {
        start: Key::least(alloc),
        end: Key::bound(alloc)?,
    });
    Ok(body_of(alloc, &request, bits)?)
}

#[test]
fn a_scan_in_reverse_gives_the_greatest_key_first(rt: HostRuntime) -> Result<(), Fail> {
    let body = reverse_body(rt.alloc())?;
    assert!(rt; first_is(&body, 2));
    Ok(())
}

#[test]
fn calls_that_carry_laws(rt: HostRuntime) {
    let args = GetArgs {
        key: Key::least(rt.alloc()),
    };
    laws::<Get>(&args);
    request_laws(&Request::Get(args));
    unnoticed(at(0, 0));
}
