//! The kinds that leave every key as it is. What they do to records, ranges and intents is done
//! where those are kept.
use crate::acts::Acts;
use crate::cell::Cell;
use crate::entry::At;
use crate::verdict::{Bit, Verdict};
use ds_base::{Seq, Value};
use ds_kind::kinds::{
    AdminSplit, AdminSplitArgs, AdminTransferLease, AdminTransferLeaseArgs, EndTxn, EndTxnArgs,
    ResolveIntent, ResolveIntentArgs, ResolveIntentRange, ResolveIntentRangeArgs,
};
use std::alloc::{AllocError, Global};

impl Acts for EndTxn {
    ghost use Rattle.ds_kind.specs.declared.request.Request.TheVariants.{EndTxn as Of};
    ghost use Rattle.ds_cell.specs.Kinds.{judge_nothing, nothing, nothing-flagged};
    ghost use Rattle.ds_cell.specs.Replies.{body_of};
    ghost use Rattle.ds_cell.specs.Requests.{respond_to};
    ghost use Rattle.ds_cell.specs.RequestProofs.{laws_of};

    ghost ask = { λ a. respond_to (Of a) };

    ghost cut = { λ s e a. a };

    ghost judge = { λ _. judge_nothing };

    ghost again = { nothing };

    ghost body = { λ a. body_of (Of a) };

    fn judge(
        _alloc: Global,
        _args: &EndTxnArgs,
        _cell: &Cell,
        _at: At,
        _look: Seq,
    ) -> Result<Verdict, AllocError> {
        Ok(Verdict::Keep(Bit::Nothing))
    }

    fn again(_alloc: Global, _written: Option<&Value>) -> Result<Bit, AllocError> {
        Ok(Bit::Nothing)
    }

    ghost flagged = { λ _. nothing-flagged _ };

    ghost lawful = { λ a. laws_of (Of a) };
}

impl Acts for ResolveIntent {
    ghost use Rattle.ds_kind.specs.declared.request.Request.TheVariants.{ResolveIntent as Of};
    ghost use Rattle.ds_cell.specs.Kinds.{judge_nothing, nothing, nothing-flagged};
    ghost use Rattle.ds_cell.specs.Replies.{body_of};
    ghost use Rattle.ds_cell.specs.Requests.{respond_to};
    ghost use Rattle.ds_cell.specs.RequestProofs.{laws_of};

    ghost ask = { λ a. respond_to (Of a) };

    ghost cut = { λ s e a. a };

    ghost judge = { λ _. judge_nothing };

    ghost again = { nothing };

    ghost body = { λ a. body_of (Of a) };

    fn judge(
        _alloc: Global,
        _args: &ResolveIntentArgs,
        _cell: &Cell,
        _at: At,
        _look: Seq,
    ) -> Result<Verdict, AllocError> {
        Ok(Verdict::Keep(Bit::Nothing))
    }

    fn again(_alloc: Global, _written: Option<&Value>) -> Result<Bit, AllocError> {
        Ok(Bit::Nothing)
    }

    ghost flagged = { λ _. nothing-flagged _ };

    ghost lawful = { λ a. laws_of (Of a) };
}

impl Acts for ResolveIntentRange {
    ghost use Rattle.ds_kind.specs.declared.request.Request.TheVariants.{ResolveIntentRange as Of};
    ghost use Rattle.ds_cell.specs.Kinds.{judge_nothing, nothing, nothing-flagged};
    ghost use Rattle.ds_cell.specs.Replies.{body_of};
    ghost use Rattle.ds_cell.specs.Requests.{respond_to};
    ghost use Rattle.ds_cell.specs.RequestProofs.{laws_of};

    ghost ask = { λ a. respond_to (Of a) };

    ghost cut = { λ s e a. record a { start = s; end = e } };

    ghost judge = { λ _. judge_nothing };

    ghost again = { nothing };

    ghost body = { λ a. body_of (Of a) };

    fn judge(
        _alloc: Global,
        _args: &ResolveIntentRangeArgs,
        _cell: &Cell,
        _at: At,
        _look: Seq,
    ) -> Result<Verdict, AllocError> {
        Ok(Verdict::Keep(Bit::Nothing))
    }

    fn again(_alloc: Global, _written: Option<&Value>) -> Result<Bit, AllocError> {
        Ok(Bit::Nothing)
    }

    ghost flagged = { λ _. nothing-flagged _ };

    ghost lawful = { λ a. laws_of (Of a) };
}

impl Acts for AdminSplit {
    ghost use Rattle.ds_kind.specs.declared.request.Request.TheVariants.{AdminSplit as Of};
    ghost use Rattle.ds_cell.specs.Kinds.{judge_nothing, nothing, nothing-flagged};
    ghost use Rattle.ds_cell.specs.Replies.{body_of};
    ghost use Rattle.ds_cell.specs.Requests.{respond_to};
    ghost use Rattle.ds_cell.specs.RequestProofs.{laws_of};

    ghost ask = { λ a. respond_to (Of a) };

    ghost cut = { λ s e a. a };

    ghost judge = { λ _. judge_nothing };

    ghost again = { nothing };

    ghost body = { λ a. body_of (Of a) };

    fn judge(
        _alloc: Global,
        _args: &AdminSplitArgs,
        _cell: &Cell,
        _at: At,
        _look: Seq,
    ) -> Result<Verdict, AllocError> {
        Ok(Verdict::Keep(Bit::Nothing))
    }

    fn again(_alloc: Global, _written: Option<&Value>) -> Result<Bit, AllocError> {
        Ok(Bit::Nothing)
    }

    ghost flagged = { λ _. nothing-flagged _ };

    ghost lawful = { λ a. laws_of (Of a) };
}

impl Acts for AdminTransferLease {
    ghost use Rattle.ds_kind.specs.declared.request.Request.TheVariants.{AdminTransferLease as Of};
    ghost use Rattle.ds_cell.specs.Kinds.{judge_nothing, nothing, nothing-flagged};
    ghost use Rattle.ds_cell.specs.Replies.{body_of};
    ghost use Rattle.ds_cell.specs.Requests.{respond_to};
    ghost use Rattle.ds_cell.specs.RequestProofs.{laws_of};

    ghost ask = { λ a. respond_to (Of a) };

    ghost cut = { λ s e a. a };

    ghost judge = { λ _. judge_nothing };

    ghost again = { nothing };

    ghost body = { λ a. body_of (Of a) };

    fn judge(
        _alloc: Global,
        _args: &AdminTransferLeaseArgs,
        _cell: &Cell,
        _at: At,
        _look: Seq,
    ) -> Result<Verdict, AllocError> {
        Ok(Verdict::Keep(Bit::Nothing))
    }

    fn again(_alloc: Global, _written: Option<&Value>) -> Result<Bit, AllocError> {
        Ok(Bit::Nothing)
    }

    ghost flagged = { λ _. nothing-flagged _ };

    ghost lawful = { λ a. laws_of (Of a) };
}
