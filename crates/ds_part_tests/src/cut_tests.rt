//! A part of two gets and a scan, cut range by range in both directions, against pieces written out.
ghost use Rattle.std.specs.Prelude.{◌≡◌, true, IfOk, OnOk};
ghost use Rattle.ds_base.specs.Order.{key_lt};
ghost use Rattle.ds_kind.specs.Asks.{has_proper_span, has_room};
ghost use Rattle.ds_cover.specs.Items.{AreProper};
ghost use Rattle.ds_cut.specs.Pieces.{ContainsSeek};

use ds_base::{Dir, Key, Seq, Span, Stamp};
use ds_cut::Cutter;
use ds_desc::{Nodes, RangeDesc};
use ds_kind::kinds::{GetArgs, ReverseScanArgs, ScanArgs};
use ds_kind::{Bounds, Head, Item, Items, Part, Piece, Request};
use std::alloc::Global;
use std::test::Fail;

const HEAD: Head = Head {
    at: Stamp(5),
    txn: None,
    left: Some(8),
    epoch: 3,
};

/// A piece as it should be: the key at which it is sought, if any, and its items, each by position,
/// start and end, which is empty for a point.
struct Wanted {
    seek: Option<&'static [u8]>,
    items: &'static [(u32, &'static [u8], &'static [u8])],
}

fn key(alloc: Global, bytes: &[u8]) -> Result<Key, &'static str> {
    Key::new(alloc, bytes).map_err(|_| "a key")
}

fn range(alloc: Global, id: u32, start: &[u8], end: &[u8]) -> Result<RangeDesc, &'static str> {
    let span = Span::new(key(alloc, start)?, key(alloc, end)?).map_err(|_| "a span")?;
    Ok(RangeDesc {
        id,
        span,
        nodes: Nodes::of(alloc, &[1]),
        generation: 1,
    })
}

/// Whether there is room for the key after it.
fn is_point(key: &Key) -> bool
    ensures { result ≡ has_room key.now }
{
    key.bytes().len() <= 64 && key.is_below_bound()
}

/// The number of the request at a position.
fn seq_at(pos: u32) -> Seq {
    match pos {
        0 => Seq(4),
        1 => Seq(6),
        _ => Seq(9),
    }
}

fn get_of(pos: u32, key: Key) -> Item
    requires { has_room key ≡ true }
    ensures { has_proper_span result.request ≡ true }
{
    Item {
        pos,
        seq: seq_at(pos),
        request: Request::Get(GetArgs { key }),
    }
}

fn get(alloc: Global, pos: u32, bytes: &[u8]) -> Result<Item, &'static str>
    ensures { IfOk result (λ i. has_proper_span i.request ≡ true) }
{
    let key = key(alloc, bytes)?;
    if is_point(&key) {
        Ok(get_of(pos, key))
    } else {
        Err("a point")
    }
}

fn scan_of(pos: u32, dir: Dir, start: Key, end: Key) -> Item
    requires { key_lt start end ≡ true }
    ensures { has_proper_span result.request ≡ true }
{
    Item {
        pos,
        seq: seq_at(pos),
        request: match dir {
            Dir::Forward => Request::Scan(ScanArgs { start, end }),
            Dir::Reverse => Request::ReverseScan(ReverseScanArgs { start, end }),
        },
    }
}

fn scan(alloc: Global, pos: u32, dir: Dir, start: &[u8], end: &[u8]) -> Result<Item, &'static str>
    ensures { IfOk result (λ i. has_proper_span i.request ≡ true) }
{
    let start = key(alloc, start)?;
    let end = key(alloc, end)?;
    if start < end {
        Ok(scan_of(pos, dir, start, end))
    } else {
        Err("a span")
    }
}

/// A get of h, a scan from a up to the end in the direction of the part, and a get of b.
fn part(alloc: Global, dir: Dir, end: &[u8]) -> Result<Part, Fail>
    ensures { IfOk result (λ p. (AreProper p.items) × (p.dir ≡ dir)) }
{
    let first = get(alloc, 0, b"h")?;
    let second = scan(alloc, 1, dir, b"a", end)?;
    let third = get(alloc, 2, b"b")?;
    Ok(Part {
        items: Items::from_vec(vec![in alloc; first, second, third]?),
        dir,
    })
}

/// Whether the request is a get, or a scan in the direction of the part.
fn is_kind(request: &Request, dir: Dir, is_point: bool) -> bool {
    match request {
        Request::Get(_) => is_point,
        Request::Scan(_) => !is_point && dir == Dir::Forward,
        Request::ReverseScan(_) => !is_point && dir == Dir::Reverse,
        _ => false,
    }
}

fn is_span(request: &Request, start: &[u8], end: &[u8]) -> bool {
    match request.bounds() {
        Bounds::Point(key) => key.bytes() == start && end.is_empty(),
        Bounds::Between(from, to) => from.bytes() == start && to.bytes() == end,
    }
}

fn is_item(item: &Item, dir: Dir, pos: u32, start: &[u8], end: &[u8]) -> bool {
    item.pos == pos
        && item.seq == seq_at(pos)
        && is_kind(&item.request, dir, end.is_empty())
        && is_span(&item.request, start, end)
}

/// Whether the piece is this, or there is none where nothing is wanted.
fn is_piece(piece: &Option<Piece>, range: u32, dir: Dir, wanted: &Wanted) -> bool {
    match piece {
        Some(piece) => {
            piece.range == range
                && piece.head == HEAD
                && piece.dir == dir
                && piece.items.len() == wanted.items.len()
                && piece.items.as_slice().iter().zip(wanted.items).all(|(
                    item,
                    (pos, start, end),
                )| is_item(item, dir, *pos, start, end))
        }
        None => wanted.items.is_empty(),
    }
}

/// Whether what is left is sought at this key, or nothing is left where there is none.
fn seeks(cutter: &Cutter, wanted: &Wanted) -> bool {
    match (cutter.seek(), wanted.seek) {
        (Some(key), Some(bytes)) => key.bytes() == bytes,
        (None, None) => true,
        _ => false,
    }
}

/// Whether the range contains the key at which what is left is sought, if anything is left.
fn is_sought(cutter: &Cutter, dir: Dir, desc: &RangeDesc) -> bool
    requires { cutter.now.dir ≡ dir }
    ensures { result ≡ true → ContainsSeek desc.now cutter.now }
{
    match cutter.seek() {
        Some(key) => desc.contains(key, dir),
        None => true,
    }
}

/// The next piece, cut at a range that contains the key at which it is sought.
fn next(
    alloc: Global,
    cutter: &mut Cutter,
    dir: Dir,
    desc: &RangeDesc,
) -> Result<Option<Piece>, Fail>
    requires { cutter.old.dir ≡ dir }
    ensures { OnOk result (cutter.new.dir ≡ dir) }
{
    if is_sought(cutter, dir, desc) {
        let piece = cutter.next(alloc, &HEAD, desc)?;
        Ok(piece)
    } else {
        Err("the range contains the key")?
    }
}

/// The next piece, and whether it was sought where it should be.
fn cuts_next(
    alloc: Global,
    cutter: &mut Cutter,
    dir: Dir,
    desc: &RangeDesc,
    wanted: &Wanted,
) -> Result<bool, Fail>
    requires { cutter.old.dir ≡ dir }
    ensures { OnOk result (cutter.new.dir ≡ dir) }
{
    let is_sought_there = seeks(cutter, wanted);
    let piece = next(alloc, cutter, dir, desc)?;
    Ok(is_sought_there && is_piece(&piece, desc.id, dir, wanted))
}

/// Whether the part with a scan up to this end is cut so, first at one range and then at the other,
/// and nothing is left then.
fn is_cut_so(
    alloc: Global,
    dir: Dir,
    end: &[u8],
    ranges: [&RangeDesc; 2],
    wanted: [&Wanted; 2],
) -> Result<bool, Fail> {
    let part = part(alloc, dir, end)?;
    let mut cutter = Cutter::new(alloc, &part)?;
    let is_first = cuts_next(alloc, &mut cutter, dir, ranges[0], wanted[0])?;
    let is_second = cuts_next(alloc, &mut cutter, dir, ranges[1], wanted[1])?;
    Ok(is_first && is_second && cutter.seek().is_none())
}

const FORWARD_LOW: Wanted = Wanted {
    seek: Some(b"a"),
    items: &[(1, b"a", b"g"), (2, b"b", b"")],
};

const FORWARD_HIGH: Wanted = Wanted {
    seek: Some(b"g"),
    items: &[(0, b"h", b""), (1, b"g", b"z")],
};

const REVERSE_HIGH: Wanted = Wanted {
    seek: Some(b"z"),
    items: &[(0, b"h", b""), (1, b"g", b"z")],
};

const REVERSE_LOW: Wanted = Wanted {
    seek: Some(b"g"),
    items: &[(1, b"a", b"g"), (2, b"b", b"")],
};

#[test]
fn a_part_is_cut_range_by_range(rt: HostRuntime) -> Result<(), Fail> {
    let low = range(rt.alloc(), 1, b"", b"g")?;
    let high = range(rt.alloc(), 2, b"g", b"\xff\xff")?;
    let up = [&FORWARD_LOW, &FORWARD_HIGH];
    let down = [&REVERSE_HIGH, &REVERSE_LOW];
    assert!(rt; is_cut_so(rt.alloc(), Dir::Forward, b"z", [&low, &high], up)?);
    assert!(rt; is_cut_so(rt.alloc(), Dir::Reverse, b"z", [&high, &low], down)?);
    Ok(())
}

const NOTHING: Wanted = Wanted {
    seek: None,
    items: &[],
};

const ALL_FORWARD: Wanted = Wanted {
    seek: Some(b"a"),
    items: &[(0, b"h", b""), (1, b"a", b"z"), (2, b"b", b"")],
};

const ALL_REVERSE: Wanted = Wanted {
    seek: Some(b"z"),
    items: &[(0, b"h", b""), (1, b"a", b"z"), (2, b"b", b"")],
};

#[test]
fn a_wider_range_takes_all(rt: HostRuntime) -> Result<(), Fail> {
    let wide = range(rt.alloc(), 3, b"", b"\xff\xff")?;
    let up = [&ALL_FORWARD, &NOTHING];
    let down = [&ALL_REVERSE, &NOTHING];
    assert!(rt; is_cut_so(rt.alloc(), Dir::Forward, b"z", [&wide, &wide], up)?);
    assert!(rt; is_cut_so(rt.alloc(), Dir::Reverse, b"z", [&wide, &wide], down)?);
    Ok(())
}

const UP_TO_H: Wanted = Wanted {
    seek: Some(b"a"),
    items: &[(1, b"a", b"h"), (2, b"b", b"")],
};

const FROM_H: Wanted = Wanted {
    seek: Some(b"h"),
    items: &[(0, b"h", b""), (1, b"h", b"z")],
};

const DOWN_TO_H: Wanted = Wanted {
    seek: Some(b"z"),
    items: &[(0, b"h", b""), (1, b"h", b"z")],
};

const BELOW_H: Wanted = Wanted {
    seek: Some(b"h"),
    items: &[(1, b"a", b"h"), (2, b"b", b"")],
};

#[test]
fn a_range_ends_at_a_point(rt: HostRuntime) -> Result<(), Fail> {
    let low = range(rt.alloc(), 1, b"", b"h")?;
    let high = range(rt.alloc(), 2, b"h", b"z")?;
    let up = [&UP_TO_H, &FROM_H];
    let down = [&DOWN_TO_H, &BELOW_H];
    assert!(rt; is_cut_so(rt.alloc(), Dir::Forward, b"z", [&low, &high], up)?);
    assert!(rt; is_cut_so(rt.alloc(), Dir::Reverse, b"z", [&high, &low], down)?);
    Ok(())
}

const POINT_H: Wanted = Wanted {
    seek: Some(b"h\0"),
    items: &[(0, b"h", b"")],
};

const UP_TO_C: Wanted = Wanted {
    seek: Some(b"c"),
    items: &[(1, b"a", b"c"), (2, b"b", b"")],
};

/// In reverse a point is sought at the key after it, also where a range ends there.
#[test]
fn a_point_is_met_first_in_reverse(rt: HostRuntime) -> Result<(), Fail> {
    let low = range(rt.alloc(), 1, b"", b"h")?;
    let high = range(rt.alloc(), 2, b"h", b"h\0")?;
    let down = [&POINT_H, &UP_TO_C];
    assert!(rt; is_cut_so(rt.alloc(), Dir::Reverse, b"c", [&high, &low], down)?);
    Ok(())
}
