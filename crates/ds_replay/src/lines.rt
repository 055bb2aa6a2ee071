//! The lines of a script, one after another.
ghost use Rattle.std.specs.Prelude.{◌≡◌, ◌<◌, ◌≤◌, ◌+◌, ◌^◌, ◌-◌, ◌++◌, ◌∷◌, [], true, Some, None, ℕ, length, IfOk, OnOk, IsSome};
ghost use Rattle.ds_coord.specs.Client.{asker_in};
ghost use Rattle.ds_rule.specs.declared.event.Event.TheVariants as Event;
ghost use Rattle.ds_rule.specs.declared.journal.Entry.TheVariants as entries;
ghost use Rattle.ds_rule.specs.Close.{closed, close_status};
ghost use Rattle.ds_script.specs.Runs.{event_of};
ghost use Rattle.ds_sim.specs.Made.{CanBeMade};
ghost use Rattle.ds_sim.specs.State.{state_of};
ghost use Rattle.ds_text.specs.Log.{has_texts};
ghost use Rattle.ds_replay.specs.Built.{Stage, Start, next_stage};
ghost use Rattle.ds_replay.specs.Stages.{stage_of, IsWithin};
ghost use Rattle.ds_replay.specs.Taken.{HasMade, Taken};
ghost use Rattle.ds_replay.specs.declared.state.State.TheVariants as State;

use crate::asking::ask;
use crate::state::State;
use ds_base::{Copies, Key, Stamp, TxnNo, Value};
use ds_coord::Txn;
use ds_desc::Nodes;
use ds_rule::{Entry, Event, RunLog};
use ds_script::{Line, Numbered};
use ds_send::Sender;
use ds_sim::Sim;
use std::alloc::{AllocError, Global};

/// A write of another client.
fn write_of(
    alloc: Global,
    key: &Key,
    stamp: Stamp,
    value: &Option<Value>,
) -> Result<Event, AllocError>
    ensures { IfOk result (λ e. e ≡ Event.Write key.now stamp value.now) }
{
    Ok(Event::Write {
        key: key.copy(alloc)?,
        stamp,
        value: value.copy(alloc)?,
    })
}

/// A move of the range that holds the key.
fn move_of(alloc: Global, key: &Key, nodes: &Nodes) -> Result<Event, AllocError>
    ensures { IfOk result (λ e. e ≡ Event.Move key.now nodes.now) }
{
    Ok(Event::Move {
        key: key.copy(alloc)?,
        nodes: nodes.copy(alloc)?,
    })
}

/// The event that the line is, if it is one.
fn event_of(alloc: Global, line: &Line) -> Result<Option<Event>, AllocError>
    ensures { IfOk result (λ o. o ≡ event_of line.now) }
{
    match line {
        Line::Write { key, stamp, value } => Ok(Some(write_of(alloc, key, *stamp, value)?)),
        Line::Split { key } => Ok(Some(Event::Split {
            key: key.copy(alloc)?,
        })),
        Line::Merge { key } => Ok(Some(Event::Merge {
            key: key.copy(alloc)?,
        })),
        Line::Lease { key, node } => Ok(Some(Event::Lease {
            key: key.copy(alloc)?,
            node: *node,
        })),
        Line::Move { key, nodes } => Ok(Some(move_of(alloc, key, nodes)?)),
        Line::Stale { key, back } => Ok(Some(Event::Stale {
            key: key.copy(alloc)?,
            back: *back,
        })),
        Line::Abort => Ok(Some(Event::Abort)),
        Line::Arrive { copy } => Ok(Some(Event::Arrive { copy: *copy })),
        _ => Ok(None),
    }
}

/// Makes an event of the cluster's own.
fn make(
    alloc: Global,
    sim: Sim,
    txn: Option<Txn>,
    begun: u32,
    event: Event,
) -> Result<State, AllocError>
    requires few { (state_of sim).world.count + length (state_of sim).block < 2 ^ 64 - 1 }
    requires made { CanBeMade event }
    ensures { IfOk result (λ new. HasMade sim txn begun event new) }
{
    let mut sim = sim;
    sim.event(alloc, &event)?;
    Ok(State::Running { sim, txn, begun })
}

/// Notes how a transaction was closed.
fn note_close(alloc: Global, sim: &mut Sim, line: u32, log: &mut RunLog) -> Result<(), AllocError>
    requires { has_texts log.old ≡ true }
    ensures world { IfOk result (λ _. state_of sim.new ≡ record (state_of sim.old) { world = closed (state_of sim.old).world }) }
    ensures logged { IfOk result (λ _. log.new ≡ log.old ++ entries.Closed line (close_status (state_of sim.old).world) ∷ []) }
    ensures texts { IfOk result (λ _. has_texts log.new ≡ true) }
{
    let status = sim.close(alloc)?;
    log.push(alloc, Entry::Closed { line, status })
}

fn from_start(alloc: Global, numbered: &Numbered, log: &RunLog) -> Result<State, AllocError>
    requires { IsSome (next_stage Start numbered.now.line) }
    ensures stage { IfOk result (λ new. Some (stage_of new) ≡ next_stage Start numbered.now.line) }
    ensures within { IfOk result (λ new. (n : ℕ) → IsWithin new n) }
    ensures taken { IfOk result (λ new. (budget : ℕ) → Taken budget State.Start new numbered.now log.now log.now) }
{
    match &numbered.line {
        Line::Cluster(cluster) => Ok(State::Running {
            sim: Sim::new(alloc, cluster.ranges.as_slice())?,
            txn: None,
            begun: 0,
        }),
        _ => unreachable!(),
    }
}

/// Replays a begin, a close or a batch.
fn from_running(
    alloc: Global,
    sim: Sim,
    txn: Option<Txn>,
    begun: u32,
    sender: &mut Sender,
    numbered: &Numbered,
    log: &mut RunLog,
) -> Result<State, AllocError>
    requires alone { event_of numbered.now.line ≡ None }
    requires built { IsSome (next_stage (stage_of (State.Running sim txn begun)) numbered.now.line) }
    requires within { IsWithin (State.Running sim txn begun) 20000 }
    requires texts { has_texts log.old ≡ true }
    ensures stage { IfOk result (λ new. Some (stage_of new) ≡ next_stage (stage_of (State.Running sim txn begun)) numbered.now.line) }
    ensures within { IfOk result (λ new. (n : ℕ) → IsWithin (State.Running sim txn begun) n → IsWithin new (n + 1)) }
    ensures taken { IfOk result (λ new. Taken (sender.old).budget (State.Running sim txn begun) new numbered.now log.old log.new) }
    ensures texts { IfOk result (λ _. has_texts log.new ≡ true) }
    ensures kept { IfOk result (λ _. (sender.new).budget ≡ (sender.old).budget) }
{
    let mut sim = sim;
    match &numbered.line {
        Line::Begin { stamp, .. } => {
            let begun = begun + 1;
            let number = TxnNo(begun);
            sim.begin(alloc, number, *stamp)?;
            let txn = Some(Txn::begin(number, *stamp));
            Ok(State::Running { sim, txn, begun })
        }
        Line::Close => {
            note_close(alloc, &mut sim, numbered.number, log)?;
            let txn = None;
            Ok(State::Running { sim, txn, begun })
        }
        Line::Batch { batch, block } => {
            let mut txn = txn;
            ask(
                alloc,
                &mut sim,
                sender,
                &mut txn,
                numbered.number,
                batch,
                block,
                log,
            )?;
            Ok(State::Running { sim, txn, begun })
        }
        _ => unreachable!(),
    }
}

/// Replays a line after the cluster's.
fn from_cluster(
    alloc: Global,
    sim: Sim,
    txn: Option<Txn>,
    begun: u32,
    sender: &mut Sender,
    numbered: &Numbered,
    log: &mut RunLog,
) -> Result<State, AllocError>
    requires built { IsSome (next_stage (stage_of (State.Running sim txn begun)) numbered.now.line) }
    requires within { IsWithin (State.Running sim txn begun) 20000 }
    requires texts { has_texts log.old ≡ true }
    ensures stage { IfOk result (λ new. Some (stage_of new) ≡ next_stage (stage_of (State.Running sim txn begun)) numbered.now.line) }
    ensures within { IfOk result (λ new. (n : ℕ) → IsWithin (State.Running sim txn begun) n → IsWithin new (n + 1)) }
    ensures taken { IfOk result (λ new. Taken (sender.old).budget (State.Running sim txn begun) new numbered.now log.old log.new) }
    ensures texts { IfOk result (λ _. has_texts log.new ≡ true) }
    ensures kept { IfOk result (λ _. (sender.new).budget ≡ (sender.old).budget) }
{
    match event_of(alloc, &numbered.line)? {
        Some(event) => make(alloc, sim, txn, begun, event),
        None => from_running(alloc, sim, txn, begun, sender, numbered, log),
    }
}

/// Replays one line.
pub(crate) fn take(
    alloc: Global,
    state: State,
    sender: &mut Sender,
    numbered: &Numbered,
    log: &mut RunLog,
) -> Result<State, AllocError>
    requires built { IsSome (next_stage (stage_of state) numbered.now.line) }
    requires within { IsWithin state 20000 }
    requires texts { has_texts log.old ≡ true }
    ensures stage { IfOk result (λ new. Some (stage_of new) ≡ next_stage (stage_of state) numbered.now.line) }
    ensures within { IfOk result (λ new. (n : ℕ) → IsWithin state n → IsWithin new (n + 1)) }
    ensures taken { IfOk result (λ new. Taken (sender.old).budget state new numbered.now log.old log.new) }
    ensures texts { IfOk result (λ _. has_texts log.new ≡ true) }
    ensures kept { IfOk result (λ _. (sender.new).budget ≡ (sender.old).budget) }
{
    match state {
        State::Start => from_start(alloc, numbered, log),
        State::Running { sim, txn, begun } => {
            from_cluster(alloc, sim, txn, begun, sender, numbered, log)
        }
    }
}
