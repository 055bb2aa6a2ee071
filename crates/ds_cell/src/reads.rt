//! The kinds that read.
ghost use Rattle.std.specs.Prelude.{◌≡◌, IfOk};
ghost use Rattle.std.specs.Option.{option_copied};

use crate::acts::Acts;
use crate::cell::Cell;
use crate::entry::At;
use crate::verdict::{Bit, Verdict};
use ds_base::{Copies, Seq, Value};
use ds_kind::kinds::{
    Get, GetArgs, QueryIntent, QueryIntentArgs, ReverseScan, ReverseScanArgs, Scan, ScanArgs,
};
use std::alloc::{AllocError, Global};

// The value seen, or none.
pub(crate) fn copy_of(alloc: Global, seen: Option<&Value>) -> Result<Option<Value>, AllocError>
    ensures { IfOk result (λ v. v ≡ option_copied seen.entry) }
{
    match seen {
        Some(value) => Ok(Some(value.copy(alloc)?)),
        None => Ok(None),
    }
}

impl Acts for Get {
    ghost use Rattle.ds_kind.specs.declared.request.Request.TheVariants.{Get as Of};
    ghost use Rattle.ds_cell.specs.Kinds.{judge_read, nothing, read-flagged};
    ghost use Rattle.ds_cell.specs.Replies.{body_of};
    ghost use Rattle.ds_cell.specs.Requests.{respond_to};
    ghost use Rattle.ds_cell.specs.RequestProofs.{laws_of};

    ghost ask = { λ a. respond_to (Of a) };

    ghost cut = { λ s e a. a };

    ghost judge = { λ _. judge_read };

    ghost again = { nothing };

    ghost body = { λ a. body_of (Of a) };

    fn judge(
        alloc: Global,
        _args: &GetArgs,
        cell: &Cell,
        at: At,
        look: Seq,
    ) -> Result<Verdict, AllocError> {
        Ok(Verdict::Keep(Bit::Value(copy_of(alloc, cell.seen_up_to(at, look))?)))
    }

    fn again(_alloc: Global, _written: Option<&Value>) -> Result<Bit, AllocError> {
        Ok(Bit::Nothing)
    }

    ghost flagged = { λ _. read-flagged };

    ghost lawful = { λ a. laws_of (Of a) };
}

impl Acts for Scan {
    ghost use Rattle.ds_kind.specs.declared.request.Request.TheVariants.{Scan as Of};
    ghost use Rattle.ds_cell.specs.Kinds.{judge_read, nothing, read-flagged};
    ghost use Rattle.ds_cell.specs.Replies.{body_of};
    ghost use Rattle.ds_cell.specs.Requests.{respond_to};
    ghost use Rattle.ds_cell.specs.RequestProofs.{laws_of};

    ghost ask = { λ a. respond_to (Of a) };

    ghost cut = { λ s e a. record a { start = s; end = e } };

    ghost judge = { λ _. judge_read };

    ghost again = { nothing };

    ghost body = { λ a. body_of (Of a) };

    fn judge(
        alloc: Global,
        _args: &ScanArgs,
        cell: &Cell,
        at: At,
        look: Seq,
    ) -> Result<Verdict, AllocError> {
        Ok(Verdict::Keep(Bit::Value(copy_of(alloc, cell.seen_up_to(at, look))?)))
    }

    fn again(_alloc: Global, _written: Option<&Value>) -> Result<Bit, AllocError> {
        Ok(Bit::Nothing)
    }

    ghost flagged = { λ _. read-flagged };

    ghost lawful = { λ a. laws_of (Of a) };
}

impl Acts for ReverseScan {
    ghost use Rattle.ds_kind.specs.declared.request.Request.TheVariants.{ReverseScan as Of};
    ghost use Rattle.ds_cell.specs.Kinds.{judge_read, nothing, read-flagged};
    ghost use Rattle.ds_cell.specs.Replies.{body_of};
    ghost use Rattle.ds_cell.specs.Requests.{respond_to};
    ghost use Rattle.ds_cell.specs.RequestProofs.{laws_of};

    ghost ask = { λ a. respond_to (Of a) };

    ghost cut = { λ s e a. record a { start = s; end = e } };

    ghost judge = { λ _. judge_read };

    ghost again = { nothing };

    ghost body = { λ a. body_of (Of a) };

    fn judge(
        alloc: Global,
        _args: &ReverseScanArgs,
        cell: &Cell,
        at: At,
        look: Seq,
    ) -> Result<Verdict, AllocError> {
        Ok(Verdict::Keep(Bit::Value(copy_of(alloc, cell.seen_up_to(at, look))?)))
    }

    fn again(_alloc: Global, _written: Option<&Value>) -> Result<Bit, AllocError> {
        Ok(Bit::Nothing)
    }

    ghost flagged = { λ _. read-flagged };

    ghost lawful = { λ a. laws_of (Of a) };
}

impl Acts for QueryIntent {
    ghost use Rattle.ds_kind.specs.declared.request.Request.TheVariants.{QueryIntent as Of};
    ghost use Rattle.ds_cell.specs.Kinds.{judge_query, nothing, query-flagged};
    ghost use Rattle.ds_cell.specs.Replies.{body_of};
    ghost use Rattle.ds_cell.specs.Requests.{respond_to};
    ghost use Rattle.ds_cell.specs.RequestProofs.{laws_of};

    ghost ask = { λ a. respond_to (Of a) };

    ghost cut = { λ s e a. a };

    ghost judge = { judge_query };

    ghost again = { nothing };

    ghost body = { λ a. body_of (Of a) };

    fn judge(
        _alloc: Global,
        args: &QueryIntentArgs,
        cell: &Cell,
        at: At,
        look: Seq,
    ) -> Result<Verdict, AllocError> {
        let stands = args.seq.0 <= look.0 && cell.written(at, args.seq).is_some();
        Ok(Verdict::Keep(if stands { Bit::Hit } else { Bit::Nothing }))
    }

    fn again(_alloc: Global, _written: Option<&Value>) -> Result<Bit, AllocError> {
        Ok(Bit::Nothing)
    }

    ghost flagged = { query-flagged };

    ghost lawful = { λ a. laws_of (Of a) };
}
