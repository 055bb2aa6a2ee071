//! Limits that are used up, and what they leave, in both directions.
ghost use Rattle.std.specs.Prelude.{◌≡◌, ◌∷◌, [], true, Some, IfOk};
ghost use Rattle.ds_kind.specs.Asks.{has_proper_span};
ghost use Rattle.ds_kind.specs.Left.{taken_by};
ghost use Rattle.ds_kind.specs.declared.reply.Body.TheVariants.{Got};
ghost use Rattle.ds_kind.specs.Reach.{Over};
ghost use Rattle.ds_kind.specs.Request.{reach_of, span_of};
ghost use Rattle.ds_limit.specs.Rests.{is_inside};

use ds_base::{Dir, Key, Seq, Span, Value};
use ds_kind::kinds::{ReverseScanArgs, ScanArgs};
use ds_kind::{Body, Item, Items, Left, Part, Replies, Reply, Request, Rows};
use ds_limit::fill_rest;
use std::alloc::Global;
use std::test::Fail;

fn key(alloc: Global, bytes: &[u8]) -> Result<Key, &'static str>
    ensures { IfOk result (λ k. k ≡ bytes.now) }
{
    Key::new(alloc, bytes).map_err(|_| "a key")
}

/// A scan from a up to z, in this direction.
fn from_a_to_z(alloc: Global, dir: Dir) -> Result<Request, &'static str>
    ensures { IfOk result (λ r. reach_of r ≡ Over (97 ∷ []) (122 ∷ [])) }
{
    let start = key(alloc, b"a")?;
    let end = key(alloc, b"z")?;
    Ok(match dir {
        Dir::Forward => Request::Scan(ScanArgs { start, end }),
        Dir::Reverse => Request::ReverseScan(ReverseScanArgs { start, end }),
    })
}

/// The span from g up to h.
fn from_g_to_h(alloc: Global) -> Result<Span, &'static str>
    ensures { IfOk result (λ s. s ≡ record { start = 103 ∷ []; end = 104 ∷ [] }) }
{
    Span::new(key(alloc, b"g")?, key(alloc, b"h")?).map_err(|_| "a span")
}

/// What is left of a part of one request, of which the reply left this span.
fn left_of(
    alloc: Global,
    dir: Dir,
    request: Request,
    stopped: Option<Span>,
    seek: Option<&Key>,
) -> Result<Option<Span>, Fail>
    requires proper { has_proper_span request ≡ true }
    requires inside { is_inside (span_of request) stopped ≡ true }
{
    let item = Item {
        pos: 0,
        seq: Seq(0),
        request,
    };
    let reply = Reply {
        body: Body::Rows(Rows::new(alloc)),
        resume: stopped,
    };
    let part = Part {
        items: Items::from_vec(vec![in alloc; item]?),
        dir,
    };
    let mut replies = Replies::from_vec(vec![in alloc; reply]?);
    fill_rest(alloc, &part, &mut replies, seek)?;
    match replies.into_vec().pop() {
        Some(reply) => Ok(reply.resume),
        None => Ok(None),
    }
}

fn is_span(left: &Option<Span>, start: &[u8], end: &[u8]) -> bool {
    match left {
        Some(left) => left.start.bytes() == start && left.end.bytes() == end,
        None => false,
    }
}

/// What is left of the scan from a up to z where the rest begins at this key.
fn left_at(alloc: Global, dir: Dir, seek: &[u8]) -> Result<Option<Span>, Fail> {
    let seek = key(alloc, seek)?;
    left_of(alloc, dir, from_a_to_z(alloc, dir)?, None, Some(&seek))
}

/// What is left of the scan from a up to z where its reply left the span from g up to h.
fn left_of_stopped(alloc: Global, dir: Dir) -> Result<Option<Span>, Fail> {
    let stopped = from_g_to_h(alloc)?;
    left_of(alloc, dir, from_a_to_z(alloc, dir)?, Some(stopped), None)
}

#[test]
fn the_seek_key_cuts_forward(rt: HostRuntime) -> Result<(), Fail> {
    let alloc = rt.alloc();
    assert!(rt; is_span(&left_at(alloc, Dir::Forward, b"f")?, b"f", b"z"));
    assert!(rt; is_span(&left_at(alloc, Dir::Forward, b"")?, b"a", b"z"));
    assert!(rt; left_at(alloc, Dir::Forward, b"z")?.is_none());
    Ok(())
}

#[test]
fn the_seek_key_cuts_in_reverse(rt: HostRuntime) -> Result<(), Fail> {
    let alloc = rt.alloc();
    assert!(rt; is_span(&left_at(alloc, Dir::Reverse, b"f")?, b"a", b"f"));
    assert!(rt; is_span(&left_at(alloc, Dir::Reverse, b"zz")?, b"a", b"z"));
    assert!(rt; left_at(alloc, Dir::Reverse, b"a")?.is_none());
    Ok(())
}

#[test]
fn a_reply_that_stopped_goes_on_there(rt: HostRuntime) -> Result<(), Fail> {
    let alloc = rt.alloc();
    assert!(rt; is_span(&left_of_stopped(alloc, Dir::Forward)?, b"g", b"z"));
    assert!(rt; is_span(&left_of_stopped(alloc, Dir::Reverse)?, b"a", b"h"));
    Ok(())
}

#[test]
fn without_a_seek_key_nothing_is_left(rt: HostRuntime) -> Result<(), Fail> {
    let alloc = rt.alloc();
    let scan = from_a_to_z(alloc, Dir::Forward)?;
    assert!(rt; left_of(alloc, Dir::Forward, scan, None, None)?.is_none());
    let back = from_a_to_z(alloc, Dir::Reverse)?;
    assert!(rt; left_of(alloc, Dir::Reverse, back, None, None)?.is_none());
    Ok(())
}

fn got(value: Option<Value>) -> Reply
    ensures { result.body ≡ Got value }
{
    Reply {
        body: Body::Got(value),
        resume: None,
    }
}

/// Two gets that found a value, and one that found none.
fn three_gets(alloc: Global) -> Result<Replies, Fail>
    ensures { IfOk result (λ rs. taken_by rs ≡ 2) }
{
    let gets = [
        got(Some(Value::Int(1))),
        got(None),
        got(Some(Value::Int(2))),
    ];
    Ok(Replies::from_vec(Vec::from_array(alloc, gets)?))
}

#[test]
fn found_gets_are_counted(rt: HostRuntime) -> Result<(), Fail> {
    let gets = three_gets(rt.alloc())?;
    let mut two = Left::new(Some(2));
    assert!(rt; two.spend(&gets));
    assert_eq!(rt; two.rest(), Some(0));
    let mut three = Left::new(Some(3));
    assert!(rt; !three.spend(&gets));
    assert_eq!(rt; three.rest(), Some(1));
    assert!(rt; !Left::new(None).spend(&gets));
    Ok(())
}
