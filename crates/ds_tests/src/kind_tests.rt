//! The table of the kinds against one written out, and what batches, pieces and replies are made of.
use ds_base::{Copies, Dir, Key, Seq, Span, Stamp, Value};
use ds_kind::kinds::GetArgs;
use ds_kind::{
    Body, Failure, Flags, Flight, Head, Item, Items, KindName, KindTable, Part, Piece, Reply,
    Request, Row, Rows, compatible, compatible_both_ways,
};
use std::alloc::Global;
use std::test::Fail;

fn key(alloc: Global, bytes: &[u8]) -> Result<Key, &'static str> {
    Key::new(alloc, bytes).map_err(|_| "a key")
}

fn is_key(key: &Key, bytes: &[u8]) -> bool {
    key.bytes() == bytes
}

// Each kind's flags, in the order read, write, range, reverse, txn, alone, prefix, repeatable.
const FLAGS: [&str; 15] = [
    "r---t--e", // Get
    "r-g-t--e", // Scan
    "r-gvt--e", // ReverseScan
    "-w--t---", // Put
    "rw--t---", // ConditionalPut
    "rw--t---", // InitPut
    "rw--t---", // Increment
    "-w--t---", // Delete
    "rwg-t---", // DeleteRange
    "-w--ta--", // EndTxn
    "r---t-pe", // QueryIntent
    "-w-----e", // ResolveIntent
    "-wg----e", // ResolveIntentRange
    "-----a-e", // AdminSplit
    "-----a-e", // AdminTransferLease
];

// For each kind which kinds may stand beside it in one part, in the order of the table.
const FITS: [&str; 15] = [
    "yyy-------y----", // Get
    "yy--------y----", // Scan
    "y-y-------y----", // ReverseScan
    "---yyyyyy--yy--", // Put
    "---yyyyyy--yy--", // ConditionalPut
    "---yyyyyy--yy--", // InitPut
    "---yyyyyy--yy--", // Increment
    "---yyyyyy--yy--", // Delete
    "---yyyyyy--yy--", // DeleteRange
    "---------------", // EndTxn
    "yyy-------y----", // QueryIntent
    "---yyyyyy--yy--", // ResolveIntent
    "---yyyyyy--yy--", // ResolveIntentRange
    "---------------", // AdminSplit
    "---------------", // AdminTransferLease
];

fn letters(flags: Flags) -> [bool; 8] {
    [
        flags.read,
        flags.write,
        flags.range,
        flags.reverse,
        flags.txn,
        flags.alone,
        flags.prefix,
        flags.repeatable,
    ]
}

#[test]
fn flags_are_the_table(rt: HostRuntime) {
    let table = KindTable::kinds();
    for (flags, row) in table.flags.iter().zip(FLAGS.iter()) {
        for (set, letter) in letters(*flags).iter().zip(row.as_bytes().iter()) {
            assert_eq!(rt; *set, *letter != b'-', "{row}");
        }
    }
}

#[test]
fn fits_are_the_table(rt: HostRuntime) {
    let table = KindTable::kinds();
    for (fits, row) in table.fits.iter().zip(FITS.iter()) {
        for (fit, letter) in fits.iter().zip(row.as_bytes().iter()) {
            assert_eq!(rt; *fit, *letter == b'y', "{row}");
        }
    }
}

#[test]
fn kinds_that_go_together(rt: HostRuntime) {
    compatible_both_ways(KindName::Put, KindName::Scan);
    assert!(rt; compatible(KindName::Put, KindName::DeleteRange));
    assert!(rt; !compatible(KindName::Scan, KindName::ReverseScan));
    assert!(rt; KindName::Delete.flags().is_numbered());
    assert!(rt; !KindName::EndTxn.flags().is_numbered());
}

fn piece(alloc: Global) -> Result<Piece, Fail> {
    let get = Request::Get(GetArgs {
        key: key(alloc, b"k")?,
    });
    let item = Item {
        pos: 3,
        seq: Seq(2),
        request: get,
    };
    let head = Head {
        at: Stamp(9),
        txn: None,
        left: None,
        epoch: 0,
    };
    Ok(Piece {
        head,
        range: 4,
        items: Items::from_vec(vec![in alloc; item]?),
        dir: Dir::Reverse,
    })
}

fn has_item(part: &Part) -> bool {
    match part.items.get(0) {
        Some(item) => item.pos == 3 && item.seq == Seq(2),
        None => false,
    }
}

#[test]
fn a_piece_is_a_part(rt: HostRuntime) -> Result<(), Fail> {
    let alloc = rt.alloc();
    let piece = piece(alloc)?;
    let part = Part::of_piece(alloc, &piece)?;
    assert_eq!(rt; part.dir, Dir::Reverse);
    assert!(rt; has_item(&part));
    Ok(())
}

#[test]
fn parts_and_pieces_are_copied(rt: HostRuntime) -> Result<(), Fail> {
    let alloc = rt.alloc();
    let piece = piece(alloc)?.copy(alloc)?;
    let part = Part::of_piece(alloc, &piece)?.copy(alloc)?;
    assert!(rt; has_item(&part));
    Ok(())
}

#[test]
fn a_table_of_some_kinds(rt: HostRuntime) {
    let kinds = [KindName::EndTxn, KindName::Put, KindName::Delete];
    let table = KindTable::of(kinds);
    assert!(rt; table.kinds == kinds);
    let [end, put, delete] = table.fits;
    assert!(rt; end == [false, false, false]);
    assert!(rt; put == [false, true, true]);
    assert!(rt; delete == [false, true, true]);
}

fn row(alloc: Global) -> Result<Row, &'static str> {
    Ok(Row {
        key: key(alloc, b"k")?,
        value: Value::Int(5),
    })
}

#[test]
fn rows_and_flights_are_copied(rt: HostRuntime) -> Result<(), Fail> {
    let alloc = rt.alloc();
    let row = row(alloc)?.copy(alloc)?;
    assert!(rt; is_key(&row.key, b"k") && row.value.is_same(&Value::Int(5)));
    let flight = Flight {
        key: row.key,
        seq: Seq(3),
    };
    let copy = flight.copy(alloc)?;
    assert!(rt; is_key(&copy.key, b"k") && copy.seq == Seq(3));
    Ok(())
}

/// Whether the body is a list of one row, at k.
fn has_row(body: &Body) -> bool {
    match body {
        Body::Rows(rows) => matches!(rows.get(0), Some(row) if is_key(&row.key, b"k")),
        _ => false,
    }
}

/// Whether the reply has such a body, and stopped before the span from b up to c.
fn stopped_at_b(reply: &Reply) -> bool {
    match &reply.resume {
        Some(span) => is_key(&span.start, b"b") && has_row(&reply.body),
        None => false,
    }
}

fn reply(alloc: Global) -> Result<Reply, Fail> {
    let rest = Span::new(key(alloc, b"b")?, key(alloc, b"c")?).map_err(|_| "a span")?;
    Ok(Reply {
        body: Body::Rows(Rows::from_vec(vec![in alloc; row(alloc)?]?)),
        resume: Some(rest),
    })
}

#[test]
fn replies_are_copied(rt: HostRuntime) -> Result<(), Fail> {
    let copy = reply(rt.alloc())?.copy(rt.alloc())?;
    assert!(rt; stopped_at_b(&copy));
    Ok(())
}

fn is_too_old(failure: &Failure) -> bool {
    match failure {
        Failure::TooOld { i, key, stamp } => *i == 2 && is_key(key, b"k") && *stamp == Stamp(9),
        _ => false,
    }
}

#[test]
fn failures_are_copied(rt: HostRuntime) -> Result<(), Fail> {
    let alloc = rt.alloc();
    let failure = Failure::TooOld {
        i: 2,
        key: key(alloc, b"k")?,
        stamp: Stamp(9),
    };
    assert!(rt; is_too_old(&failure.copy(alloc)?));
    Ok(())
}
