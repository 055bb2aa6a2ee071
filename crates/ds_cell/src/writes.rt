//! The kinds that write.
ghost use Rattle.std.specs.Prelude.{◌≡◌, IfOk};
ghost use Rattle.std.specs.Option.{option_copied};
ghost use Rattle.ds_cell.specs.Kinds.{expected, put_if, sum_of, put_number, raised_by};

use crate::acts::Acts;
use crate::cell::Cell;
use crate::entry::At;
use crate::reads::copy_of;
use crate::verdict::{ActFault, Bit, Verdict};
use ds_base::{Copies, Seq, Value};
use ds_kind::kinds::{
    ConditionalPut, ConditionalPutArgs, Delete, DeleteArgs, DeleteRange, DeleteRangeArgs,
    Increment, IncrementArgs, InitPut, InitPutArgs, Put, PutArgs,
};
use std::alloc::{AllocError, Global};

impl Acts for Put {
    ghost use Rattle.ds_kind.specs.declared.request.Request.TheVariants.{Put as Of};
    ghost use Rattle.ds_cell.specs.Kinds.{judge_put, nothing, flagged};
    ghost use Rattle.ds_cell.specs.Replies.{body_of};
    ghost use Rattle.ds_cell.specs.Requests.{respond_to};
    ghost use Rattle.ds_cell.specs.RequestProofs.{laws_of};

    ghost ask = { λ a. respond_to (Of a) };

    ghost cut = { λ s e a. a };

    ghost judge = { judge_put };

    ghost again = { nothing };

    ghost body = { λ a. body_of (Of a) };

    fn judge(
        alloc: Global,
        args: &PutArgs,
        _cell: &Cell,
        _at: At,
        _look: Seq,
    ) -> Result<Verdict, AllocError> {
        Ok(Verdict::Put(Some(args.value.copy(alloc)?), Bit::Nothing))
    }

    fn again(_alloc: Global, _written: Option<&Value>) -> Result<Bit, AllocError> {
        Ok(Bit::Nothing)
    }

    ghost flagged = { λ _. flagged _ };

    ghost lawful = { λ a. laws_of (Of a) };
}

// Whether the value seen is the expected one, or none is seen and that is allowed.
fn is_expected(expect: Option<&Value>, allow_absent: bool, seen: Option<&Value>) -> bool
    ensures { result ≡ expected (option_copied expect.entry) allow_absent (option_copied seen.entry) }
{
    match (expect, seen) {
        (None, None) => true,
        (Some(_), None) => allow_absent,
        (None, Some(_)) => false,
        (Some(wanted), Some(value)) => value.is_same(wanted),
    }
}

// Writes the value on a condition, and tells what was seen where it does not hold.
fn put_if(
    alloc: Global,
    holds: bool,
    value: &Value,
    seen: Option<&Value>,
) -> Result<Verdict, AllocError>
    ensures { IfOk result (λ v. v ≡ put_if holds value.now (option_copied seen.entry)) }
{
    if holds {
        return Ok(Verdict::Put(Some(value.copy(alloc)?), Bit::Nothing));
    }
    Ok(Verdict::Refuse(ActFault::Condition {
        actual: copy_of(alloc, seen)?,
    }))
}

impl Acts for ConditionalPut {
    ghost use Rattle.ds_kind.specs.declared.request.Request.TheVariants.{ConditionalPut as Of};
    ghost use Rattle.ds_cell.specs.Kinds.{judge_conditional, nothing, flagged};
    ghost use Rattle.ds_cell.specs.Replies.{body_of};
    ghost use Rattle.ds_cell.specs.Requests.{respond_to};
    ghost use Rattle.ds_cell.specs.RequestProofs.{laws_of};

    ghost ask = { λ a. respond_to (Of a) };

    ghost cut = { λ s e a. a };

    ghost judge = { judge_conditional };

    ghost again = { nothing };

    ghost body = { λ a. body_of (Of a) };

    fn judge(
        alloc: Global,
        args: &ConditionalPutArgs,
        cell: &Cell,
        at: At,
        look: Seq,
    ) -> Result<Verdict, AllocError> {
        let seen = cell.seen_up_to(at, look);
        let holds = is_expected(args.expect.as_ref(), args.allow_absent, seen);
        put_if(alloc, holds, &args.value, seen)
    }

    fn again(_alloc: Global, _written: Option<&Value>) -> Result<Bit, AllocError> {
        Ok(Bit::Nothing)
    }

    ghost flagged = { λ _. flagged _ };

    ghost lawful = { λ a. laws_of (Of a) };
}

impl Acts for InitPut {
    ghost use Rattle.ds_kind.specs.declared.request.Request.TheVariants.{InitPut as Of};
    ghost use Rattle.ds_cell.specs.Kinds.{judge_init, nothing, flagged};
    ghost use Rattle.ds_cell.specs.Replies.{body_of};
    ghost use Rattle.ds_cell.specs.Requests.{respond_to};
    ghost use Rattle.ds_cell.specs.RequestProofs.{laws_of};

    ghost ask = { λ a. respond_to (Of a) };

    ghost cut = { λ s e a. a };

    ghost judge = { judge_init };

    ghost again = { nothing };

    ghost body = { λ a. body_of (Of a) };

    fn judge(
        alloc: Global,
        args: &InitPutArgs,
        cell: &Cell,
        at: At,
        look: Seq,
    ) -> Result<Verdict, AllocError> {
        let seen = cell.seen_up_to(at, look);
        let holds = is_expected(Some(&args.value), true, seen);
        put_if(alloc, holds, &args.value, seen)
    }

    fn again(_alloc: Global, _written: Option<&Value>) -> Result<Bit, AllocError> {
        Ok(Bit::Nothing)
    }

    ghost flagged = { λ _. flagged _ };

    ghost lawful = { λ a. laws_of (Of a) };
}

#[tactic(auto, using(crate::proofs::Histories::checked_is))]
fn sum_of(n: i64, by: i64) -> Option<i64>
    ensures { result ≡ sum_of n by }
{
    n.checked_add(by)
}

fn put_number(sum: Option<i64>) -> Verdict
    ensures { result ≡ put_number sum }
{
    match sum {
        None => Verdict::Refuse(ActFault::Overflow),
        Some(n) => Verdict::Put(Some(Value::Int(n)), Bit::Value(Some(Value::Int(n)))),
    }
}

// None counts as 0, and a text is no number.
fn raised_by(by: i64, seen: Option<&Value>) -> Verdict
    ensures { result ≡ raised_by by (option_copied seen.entry) }
{
    match seen {
        None => put_number(sum_of(0, by)),
        Some(Value::Int(n)) => put_number(sum_of(*n, by)),
        Some(Value::Text(_)) => Verdict::Refuse(ActFault::NotInteger),
    }
}

impl Acts for Increment {
    ghost use Rattle.ds_kind.specs.declared.request.Request.TheVariants.{Increment as Of};
    ghost use Rattle.ds_cell.specs.Kinds.{judge_increment, shown, flagged};
    ghost use Rattle.ds_cell.specs.Replies.{body_of};
    ghost use Rattle.ds_cell.specs.Requests.{respond_to};
    ghost use Rattle.ds_cell.specs.RequestProofs.{laws_of};

    ghost ask = { λ a. respond_to (Of a) };

    ghost cut = { λ s e a. a };

    ghost judge = { judge_increment };

    ghost again = { shown };

    ghost body = { λ a. body_of (Of a) };

    fn judge(
        _alloc: Global,
        args: &IncrementArgs,
        cell: &Cell,
        at: At,
        look: Seq,
    ) -> Result<Verdict, AllocError> {
        Ok(raised_by(args.by, cell.seen_up_to(at, look)))
    }

    fn again(alloc: Global, written: Option<&Value>) -> Result<Bit, AllocError> {
        Ok(Bit::Value(copy_of(alloc, written)?))
    }

    ghost flagged = { λ _. flagged _ };

    ghost lawful = { λ a. laws_of (Of a) };
}

impl Acts for Delete {
    ghost use Rattle.ds_kind.specs.declared.request.Request.TheVariants.{Delete as Of};
    ghost use Rattle.ds_cell.specs.Kinds.{judge_delete, nothing, flagged};
    ghost use Rattle.ds_cell.specs.Replies.{body_of};
    ghost use Rattle.ds_cell.specs.Requests.{respond_to};
    ghost use Rattle.ds_cell.specs.RequestProofs.{laws_of};

    ghost ask = { λ a. respond_to (Of a) };

    ghost cut = { λ s e a. a };

    ghost judge = { λ _. judge_delete };

    ghost again = { nothing };

    ghost body = { λ a. body_of (Of a) };

    fn judge(
        _alloc: Global,
        _args: &DeleteArgs,
        _cell: &Cell,
        _at: At,
        _look: Seq,
    ) -> Result<Verdict, AllocError> {
        Ok(Verdict::Put(None, Bit::Nothing))
    }

    fn again(_alloc: Global, _written: Option<&Value>) -> Result<Bit, AllocError> {
        Ok(Bit::Nothing)
    }

    ghost flagged = { λ _. flagged _ };

    ghost lawful = { λ a. laws_of (Of a) };
}

impl Acts for DeleteRange {
    ghost use Rattle.ds_kind.specs.declared.request.Request.TheVariants.{DeleteRange as Of};
    ghost use Rattle.ds_cell.specs.Kinds.{judge_delete_range, gone, flagged};
    ghost use Rattle.ds_cell.specs.Replies.{body_of};
    ghost use Rattle.ds_cell.specs.Requests.{respond_to};
    ghost use Rattle.ds_cell.specs.RequestProofs.{laws_of};

    ghost ask = { λ a. respond_to (Of a) };

    ghost cut = { λ s e a. record a { start = s; end = e } };

    ghost judge = { λ _. judge_delete_range };

    ghost again = { gone };

    ghost body = { λ a. body_of (Of a) };

    fn judge(
        _alloc: Global,
        _args: &DeleteRangeArgs,
        cell: &Cell,
        at: At,
        look: Seq,
    ) -> Result<Verdict, AllocError> {
        match cell.seen_up_to(at, look) {
            Some(_) => Ok(Verdict::Put(None, Bit::Gone)),
            None => Ok(Verdict::Keep(Bit::Nothing)),
        }
    }

    fn again(_alloc: Global, _written: Option<&Value>) -> Result<Bit, AllocError> {
        Ok(Bit::Gone)
    }

    ghost flagged = { λ _. flagged _ };

    ghost lawful = { λ a. laws_of (Of a) };
}
