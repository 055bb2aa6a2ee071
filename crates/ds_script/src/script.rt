//! Reading a whole script.
ghost use Rattle.std.specs.Prelude.{◌≡◌, Ok, IfOk};
ghost use Rattle.ds_script.specs.Rules.{judge};
ghost use Rattle.ds_fields.specs.Fault.{Gives};
ghost use Rattle.ds_script.specs.Script.{at, anchor, next, ended, script_of};
ghost use Rattle.ds_script.specs.ScriptGives.{Finds};

use crate::accepted::Script;
use crate::fault::ScriptFault;
use crate::line::{Line, Lines, Numbered};
use crate::read::line_under;
use crate::rules::turn;
use crate::split::{first_line, is_blank, says_nothing};
use crate::state::State;
use ds_base::{Copies, Key};
use ds_fields::{FaultKind, LineFault};
use std::alloc::{AllocError, Global};

/// Reads a script.
///
/// `Bad` names the first line at fault and the first kind of fault on it: `TooLong` at line 0 above
/// 4,194,304 bytes, and at line 20,001; `Order` at line 1 where no line says anything; `TxnOpen` at
/// the begin of a transaction that the script leaves open; else what is wrong on the line.
#[tactic(auto, unfolding(crate::specs::Script::script_of))]
pub fn read_script(alloc: Global, bytes: &[u8]) -> Result<Script, ScriptFault>
    ensures { Finds (λ s. s.lines) result (script_of bytes.now) }
{
    if bytes.len() > 4_194_304 {
        return Err(bad(0, FaultKind::TooLong));
    }
    if says_nothing(bytes) {
        return Err(bad(1, FaultKind::Order));
    }
    let mut found = Lines::new(alloc);
    let mut state = State::new(alloc);
    let mut rest = bytes;
    let mut number = 1u32;
    'lines: while !rest.is_empty() {
        let (bytes, after) = first_line(rest);
        if number > 20_000 {
            return Err(bad(number, FaultKind::TooLong));
        }
        if !is_blank(bytes) {
            let line = next(alloc, number, bytes, &mut state)?;
            found.push(alloc, Numbered { number, line })?;
        }
        number += 1;
        rest = after;
    }
    ended(&state)?;
    Ok(Script { lines: found })
}

fn bad(line: u32, kind: FaultKind) -> ScriptFault
    ensures { result ≡ ScriptFault.Bad line kind }
{
    ScriptFault::Bad { line, kind }
}

/// What the bytes say as the line of this number, and then what is known after it.
fn next(alloc: Global, number: u32, bytes: &[u8], state: &mut State) -> Result<Line, ScriptFault>
    ensures read { Finds (λ line. (line, state.new)) result (at number (next number bytes.now state.old)) }
    ensures judged { IfOk result (λ line. judge number line state.old ≡ Ok state.new) }
{
    match next_line(alloc, number, bytes, state) {
        Ok(line) => Ok(line),
        Err(LineFault::Bad(kind)) => Err(bad(number, kind)),
        Err(LineFault::Memory(e)) => Err(ScriptFault::Memory(e)),
    }
}

fn next_line(alloc: Global, number: u32, bytes: &[u8], state: &mut State) -> Result<Line, LineFault>
    ensures read { Gives (λ line. (line, state.new)) result (next number bytes.now state.old) }
    ensures judged { IfOk result (λ line. judge number line state.old ≡ Ok state.new) }
{
    let anchor = anchor_of(alloc, state)?;
    let line = line_under(alloc, &anchor, state.top(), bytes)?;
    turn(alloc, state, number, &line)?;
    Ok(line)
}

/// The key of an end of the transaction: the anchor of the open one.
fn anchor_of(alloc: Global, state: &State) -> Result<Key, AllocError>
    ensures { IfOk result (λ k. k ≡ anchor state.now.txn) }
{
    match &state.txn {
        Some(open) => open.anchor.copy(alloc),
        None => Ok(Key::least(alloc)),
    }
}

/// What is wrong with a script that ends so.
fn ended(state: &State) -> Result<(), ScriptFault>
    ensures { Finds (λ _. tt) result (ended state.now.nodes state.now.txn) }
{
    match (state.nodes, &state.txn) {
        (None, _) => Err(bad(1, FaultKind::Order)),
        (Some(_), None) => Ok(()),
        (Some(_), Some(open)) => Err(bad(open.line, FaultKind::TxnOpen)),
    }
}
