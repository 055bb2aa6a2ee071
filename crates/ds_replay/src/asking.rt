//! One batch of a replay.
ghost use Rattle.std.specs.Prelude.{◌≡◌, ◌+◌, ◌≤◌, ◌<◌, ◌^◌, ◌++◌, ◌∷◌, [], true, Some, None, map, length, IfOk, OnOk, MatchResult};
ghost use Rattle.ds_cell.specs.Store.{Asker};
ghost use Rattle.ds_coord.specs.Client.{asker_in, noted, refusal_by};
ghost use Rattle.ds_legal.specs.Rules.{first_illegal};
ghost use Rattle.ds_rule.specs.declared.journal.Entry.TheVariants as entries;
ghost use Rattle.ds_rule.specs.Asking.{Asking, asking};
ghost use Rattle.ds_rule.specs.Law.{IsGiven};
ghost use Rattle.ds_rule.specs.Plain.{if_of_txn};
ghost use Rattle.ds_sim.specs.State.{state_of};
ghost use Rattle.ds_text.specs.Log.{has_texts};
ghost use Rattle.ds_replay.specs.Asked.{AskedBy, Done, refused_as};
ghost use Rattle.ds_replay.specs.Forming.{floor_at, may_happen, stamp_in};
ghost use Rattle.ds_send.specs.Asked as Sent;
ghost use Rattle.ds_send.specs.Forms.{can_send};
ghost use Rattle.ds_send.specs.Asked.{IsOpenFor};

use crate::built::floor_at;
use ds_base::Stamp;
use ds_coord::Txn;
use ds_kind::Batch;
use ds_legal::check;
use ds_rule::{Block, Entry, JournalSteps, Outcome, RunLog};
use ds_send::{Sender, Txn as SentTxn};
use ds_sim::Sim;
use std::alloc::{AllocError, Global};

/// Above which stamp foreign writes stay beside a batch.
fn floor_of(txn: &Option<Txn>, at: Option<Stamp>) -> Stamp
    ensures { result.0 ≡ floor_at (stamp_in (asker_in txn.now)) at }
{
    match txn {
        None => floor_at(None, at),
        Some(txn) => floor_at(Some(txn.stamp), at),
    }
}

/// The transaction as the sender takes it.
fn sending(txn: &Option<Txn>) -> Option<SentTxn>
    ensures { Sent.asker_in result ≡ asker_in txn.now }
{
    match txn {
        None => None,
        Some(txn) => Some(SentTxn {
            number: txn.number,
            stamp: txn.stamp,
            epoch: txn.epoch,
            last: txn.last,
        }),
    }
}

/// What the transaction answers to a batch of it that may not be sent.
fn refusal(txn: &Option<Txn>, batch: &Batch) -> Option<Outcome>
    ensures { result ≡ refusal_by batch.now.at batch.now.requests txn.now }
{
    match (batch.at, txn) {
        (Some(_), _) => None,
        (None, None) => None,
        (None, Some(txn)) => match txn.admit(batch) {
            Ok(()) => None,
            Err(outcome) => Some(outcome),
        },
    }
}

/// What a batch is answered that its transaction refuses: the first rule that it breaks before that.
fn refused(batch: &Batch, outcome: Outcome) -> Outcome
    ensures { result ≡ refused_as (first_illegal batch.now) outcome }
{
    match check(batch) {
        Ok(_) => outcome,
        Err(illegal) => Outcome::Illegal(illegal),
    }
}

/// What the batch is answered: its first broken rule, its transaction's refusal, or what came of
/// sending it.
fn answer(
    alloc: Global,
    sim: &mut Sim,
    sender: &mut Sender,
    txn: &Option<Txn>,
    batch: &Batch,
) -> Outcome
    requires built { can_send batch.now ≡ true }
    requires open { IsOpenFor batch.now.at (asker_in txn.now) }
    ensures done { IsGiven result → Done txn.now batch.now (sender.old).budget (state_of sim.old) (state_of sim.new) result }
    ensures kept { (sender.new).budget ≡ (sender.old).budget }
{
    match refusal(txn, batch) {
        Some(outcome) => refused(batch, outcome),
        None => {
            let mut sent = sending(txn);
            sender.send(alloc, sim, &mut sent, batch)
        }
    }
}

/// An outcome that isn't want of memory.
fn given(outcome: Outcome) -> Result<Outcome, AllocError>
    ensures { IfOk result (λ o. (o ≡ outcome) × IsGiven o) }
{
    match outcome {
        Outcome::OutOfMemory => Err(AllocError),
        outcome => Ok(outcome),
    }
}

/// Begins the block of a batch.
fn begin_block(alloc: Global, sim: &mut Sim, block: &Block, floor: Stamp) -> Result<(), AllocError>
    requires happens { may_happen floor.0 block.now.events ≡ true }
    requires few { (state_of sim.old).world.count + 1000 < 2 ^ 64 }
    ensures { OnOk result (state_of sim.new ≡ record (state_of sim.old) { past = []; floor = floor.0; ahead = block.now.picks; block = block.now.events }) }
{
    sim.start_block(alloc, block, floor)
}

/// The transaction notes what a batch was answered.
fn note_in(txn: &mut Option<Txn>, at: Option<Stamp>, outcome: &Outcome)
    ensures { txn.new ≡ if_of_txn at (noted outcome.now None) txn.old }
{
    match (at, txn) {
        (None, Some(txn)) => txn.note(outcome, None),
        _ => {}
    }
}

/// Notes a batch's steps and what it came to.
fn note(
    alloc: Global,
    log: &mut RunLog,
    line: u32,
    steps: JournalSteps,
    outcome: Outcome,
) -> Result<(), AllocError>
    requires given { IsGiven outcome }
    requires texts { has_texts log.old ≡ true }
    ensures logged { OnOk result (log.new ≡ log.old ++ entries.Batch line steps outcome ∷ []) }
    ensures texts { IfOk result (λ _. has_texts log.new ≡ true) }
{
    log.push(
        alloc,
        Entry::Batch {
            line,
            steps,
            outcome,
        },
    )
}

/// Answers the batch in its block, and notes its steps and what it came to.
pub(crate) fn ask(
    alloc: Global,
    sim: &mut Sim,
    sender: &mut Sender,
    txn: &mut Option<Txn>,
    line: u32,
    batch: &Batch,
    block: &Block,
    log: &mut RunLog,
) -> Result<(), AllocError>
    requires happens { may_happen (floor_at (stamp_in (asker_in txn.old)) batch.now.at) block.now.events ≡ true }
    requires few { (state_of sim.old).world.count + 1000 < 2 ^ 64 }
    requires built { can_send batch.now ≡ true }
    requires open { IsOpenFor batch.now.at (asker_in txn.old) }
    requires texts { has_texts log.old ≡ true }
    ensures asked { IfOk result (λ _. AskedBy (state_of sim.old) (state_of sim.new) (sender.old).budget txn.old txn.new batch.now block.now line log.old log.new) }
    ensures texts { IfOk result (λ _. has_texts log.new ≡ true) }
    ensures kept { IfOk result (λ _. (sender.new).budget ≡ (sender.old).budget) }
{
    let floor = floor_of(txn, batch.at);
    begin_block(alloc, sim, block, floor)?;
    let outcome = given(answer(alloc, sim, sender, txn, batch))?;
    let steps = sim.end_block(alloc)?;
    note_in(txn, batch.at, &outcome);
    note(alloc, log, line, steps, outcome)
}
