//! Each public call, on a cluster of one range.
ghost use Rattle.std.specs.Prelude.{◌≡◌, true, length, IfOk};
ghost use Rattle.std.specs.List.{list_all};
ghost use Rattle.ds_kind.specs.Asks.{has_proper_span};
ghost use Rattle.ds_kind.specs.Parts.{requests_of};
ghost use Rattle.ds_rule.specs.Blocks.{never_fall};
ghost use Rattle.ds_rule.specs.Moves.{IsMove};
ghost use Rattle.ds_rule.specs.Pieces.{Each};
ghost use Rattle.ds_sim.specs.Made.{CanBeMade};

use crate::sim::Sim;
use ds_base::{Dir, Key, Seq, Stamp, TxnNo, Value};
use ds_desc::{Looked, Meta, Nodes};
use ds_kind::kinds::{GetArgs, IncrementArgs};
use ds_kind::{Body, Head, Item, Items, Piece, Request, TxnStatus};
use ds_ranges::{are_leased, tiles};
use ds_rule::{Answer, Block, ClusterRange, Event, Events, Picks, Timed, Wire};
use std::alloc::Global;
use std::test::Fail;

// All keys, at node 1.
fn whole(alloc: Global) -> ClusterRange {
    ClusterRange {
        start: Key::least(alloc),
        nodes: Nodes::of(alloc, &[1]),
        lease: 1,
    }
}

fn piece(alloc: Global, txn: Option<TxnNo>, request: Request) -> Result<Piece, Fail>
    requires { has_proper_span request ≡ true }
    ensures { IfOk result (λ p. list_all has_proper_span (requests_of p.items) ≡ true) }
{
    let head = Head {
        at: Stamp(10),
        txn,
        left: None,
        epoch: 0,
    };
    let mut items = Items::new(alloc);
    items.push(
        alloc,
        Item {
            pos: 0,
            seq: Seq(1),
            request,
        },
    )?;
    Ok(Piece {
        head,
        range: 1,
        items,
        dir: Dir::Forward,
    })
}

fn get(alloc: Global) -> Request
    ensures { has_proper_span result ≡ true }
{
    Request::Get(GetArgs {
        key: Key::least(alloc),
    })
}

fn increment(alloc: Global) -> Request
    ensures { has_proper_span result ≡ true }
{
    Request::Increment(IncrementArgs {
        key: Key::least(alloc),
        by: 5,
    })
}

fn shows(answer: &Answer, n: i64) -> bool {
    match answer {
        Answer::Done(replies) => match replies.get(0) {
            Some(reply) => match &reply.body {
                Body::Got(Some(Value::Int(m))) => *m == n,
                Body::Number(m) => *m == n,
                _ => false,
            },
            None => false,
        },
        Answer::Failed(_) | Answer::Refused(_) | Answer::Lost => false,
    }
}

fn is_mine(looked: &Looked) -> bool {
    match looked {
        Looked::Rows(infos) => match infos.get(0) {
            Some(info) => info.desc.id == 1,
            None => false,
        },
        Looked::Lost => false,
    }
}

// A write of another client at the least key.
fn write(alloc: Global, n: i64) -> Event
    ensures made { CanBeMade result }
    ensures moves { IsMove 0 result }
{
    Event::Write {
        key: Key::least(alloc),
        stamp: Stamp(1),
        value: Some(Value::Int(n)),
    }
}

// Picks one after another, of three that wait.
fn picks_of(alloc: Global) -> Result<Picks, Fail> {
    let mut picks = Picks::new(alloc);
    picks.push(alloc, 2)?;
    picks.push(alloc, 7)?;
    Ok(picks)
}

#[test]
fn a_write_is_seen_in_a_block(rt: HostRuntime) -> Result<(), Fail> {
    let alloc = rt.alloc();
    let ranges = [whole(alloc)];
    if tiles(&ranges) && are_leased(&ranges) {
        let mut sim = Sim::new(alloc, &ranges)?;
        let block = Block {
            events: Events::new(alloc),
            picks: Picks::new(alloc),
        };
        sim.start_block(alloc, &block, Stamp(0))?;
        if sim.can_count() {
            sim.event(alloc, &write(alloc, 4))?;
        }
        let answer = sim.send(alloc, 1, &piece(alloc, None, get(alloc))?)?;
        assert!(rt; shows(&answer, 4));
        assert!(rt; sim.end_block(alloc)?.len() == 1);
    }
    Ok(())
}

#[test]
fn an_open_transaction_is_aborted(rt: HostRuntime) -> Result<(), Fail> {
    let alloc = rt.alloc();
    let ranges = [whole(alloc)];
    if tiles(&ranges) && are_leased(&ranges) {
        let mut sim = Sim::new(alloc, &ranges)?;
        sim.begin(alloc, TxnNo(1), Stamp(10))?;
        let answer = sim.send(alloc, 1, &piece(alloc, Some(TxnNo(1)), increment(alloc))?)?;
        assert!(rt; shows(&answer, 5));
        let status = sim.close(alloc)?;
        assert!(rt; matches!(status, TxnStatus::Aborted));
    }
    Ok(())
}

#[test]
fn the_first_row_is_the_range(rt: HostRuntime) -> Result<(), Fail> {
    let alloc = rt.alloc();
    let ranges = [whole(alloc)];
    if tiles(&ranges) && are_leased(&ranges) {
        let mut sim = Sim::new(alloc, &ranges)?;
        let looked = sim.lookup(alloc, &Key::least(alloc), Dir::Forward)?;
        assert!(rt; is_mine(&looked));
        assert!(rt; sim.pick(2) == 0);
    }
    Ok(())
}

#[test]
fn a_block_s_picks_are_followed(rt: HostRuntime) -> Result<(), Fail> {
    let alloc = rt.alloc();
    let ranges = [whole(alloc)];
    if tiles(&ranges) && are_leased(&ranges) {
        let mut sim = Sim::new(alloc, &ranges)?;
        let block = Block {
            events: Events::new(alloc),
            picks: picks_of(alloc)?,
        };
        sim.start_block(alloc, &block, Stamp(0))?;
        assert!(rt; sim.pick(3) == 2);
        assert!(rt; sim.pick(3) == 1);
        assert!(rt; sim.pick(3) == 0);
    }
    Ok(())
}

// A write before the first step, and a split before the third.
fn two_events(alloc: Global) -> Result<Events, Fail>
    ensures rising { IfOk result (λ ts. never_fall 0 ts ≡ true) }
    ensures moves { IfOk result (λ ts. Each (λ t. IsMove 0 t.event) ts) }
    ensures two { IfOk result (λ ts. length ts ≡ 2) }
{
    let mut events = Events::new(alloc);
    events.push(
        alloc,
        Timed {
            at: 1,
            event: write(alloc, 4),
        },
    )?;
    events.push(
        alloc,
        Timed {
            at: 3,
            event: Event::Split {
                key: letter(alloc)?,
            },
        },
    )?;
    Ok(events)
}

fn letter(alloc: Global) -> Result<Key, Fail> {
    match Key::new(alloc, b"m") {
        Ok(key) => Ok(key),
        Err(_) => Ok(Key::least(alloc)),
    }
}

#[test]
fn events_are_made_when_they_are_due(rt: HostRuntime) -> Result<(), Fail> {
    let alloc = rt.alloc();
    let ranges = [whole(alloc)];
    if tiles(&ranges) && are_leased(&ranges) {
        let mut sim = Sim::new(alloc, &ranges)?;
        let block = Block {
            events: two_events(alloc)?,
            picks: Picks::new(alloc),
        };
        if sim.count() < 1000 {
            sim.start_block(alloc, &block, Stamp(0))?;
            let answer = sim.send(alloc, 1, &piece(alloc, None, get(alloc))?)?;
            assert!(rt; shows(&answer, 4));
            assert!(rt; sim.count() == 1);
            assert!(rt; sim.end_block(alloc)?.len() == 1);
            assert!(rt; sim.ranges.len() == 2);
        }
    }
    Ok(())
}
