//! Requests of any kind.
ghost use Rattle.std.specs.Prelude.{◌≡◌, true, IfOk};
ghost use Rattle.ds_base.specs.Order.{key_lt, key_le};
ghost use Rattle.ds_kind.specs.Reach.{reach_of_bounds};
ghost use Rattle.ds_kind.specs.Request.{reach_of, span_of, kind_of, cut_to};
ghost use Rattle.ds_kind.specs.Flags.{flags_of};

use crate::flags::Flags;
use crate::kind::{Bounds, Kind};
use crate::kinds::{
    AdminSplit, AdminSplitArgs, AdminTransferLease, AdminTransferLeaseArgs, ConditionalPut,
    ConditionalPutArgs, Delete, DeleteArgs, DeleteRange, DeleteRangeArgs, EndTxn, EndTxnArgs, Get,
    GetArgs, Increment, IncrementArgs, InitPut, InitPutArgs, Put, PutArgs, QueryIntent,
    QueryIntentArgs, ResolveIntent, ResolveIntentArgs, ResolveIntentRange, ResolveIntentRangeArgs,
    ReverseScan, ReverseScanArgs, Scan, ScanArgs,
};
use crate::name::KindName;
use ds_base::{Copies, Key};
use std::alloc::{AllocError, Global};

/// What a batch asks: a request of one of the fifteen kinds, with what that kind is given.
#[derive(Clone, Drop)]
pub enum Request {
    Get(GetArgs),
    Scan(ScanArgs),
    ReverseScan(ReverseScanArgs),
    Put(PutArgs),
    ConditionalPut(ConditionalPutArgs),
    InitPut(InitPutArgs),
    Increment(IncrementArgs),
    Delete(DeleteArgs),
    DeleteRange(DeleteRangeArgs),
    EndTxn(EndTxnArgs),
    QueryIntent(QueryIntentArgs),
    ResolveIntent(ResolveIntentArgs),
    ResolveIntentRange(ResolveIntentRangeArgs),
    AdminSplit(AdminSplitArgs),
    AdminTransferLease(AdminTransferLeaseArgs),
}

/// `on_kind!(request, f(a, b))` calls `f::<K>(a, b, args)` at the request's kind `K` and its arguments.
#[macro_export]
macro_rules! on_kind {
    ($request:expr, $f:ident($($extra:expr),*)) => {
        match $request {
            $crate::Request::Get(args) => $f::<$crate::kinds::Get>($($extra,)* args),
            $crate::Request::Scan(args) => $f::<$crate::kinds::Scan>($($extra,)* args),
            $crate::Request::ReverseScan(args) => $f::<$crate::kinds::ReverseScan>($($extra,)* args),
            $crate::Request::Put(args) => $f::<$crate::kinds::Put>($($extra,)* args),
            $crate::Request::ConditionalPut(args) => $f::<$crate::kinds::ConditionalPut>($($extra,)* args),
            $crate::Request::InitPut(args) => $f::<$crate::kinds::InitPut>($($extra,)* args),
            $crate::Request::Increment(args) => $f::<$crate::kinds::Increment>($($extra,)* args),
            $crate::Request::Delete(args) => $f::<$crate::kinds::Delete>($($extra,)* args),
            $crate::Request::DeleteRange(args) => $f::<$crate::kinds::DeleteRange>($($extra,)* args),
            $crate::Request::EndTxn(args) => $f::<$crate::kinds::EndTxn>($($extra,)* args),
            $crate::Request::QueryIntent(args) => $f::<$crate::kinds::QueryIntent>($($extra,)* args),
            $crate::Request::ResolveIntent(args) => $f::<$crate::kinds::ResolveIntent>($($extra,)* args),
            $crate::Request::ResolveIntentRange(args) => $f::<$crate::kinds::ResolveIntentRange>($($extra,)* args),
            $crate::Request::AdminSplit(args) => $f::<$crate::kinds::AdminSplit>($($extra,)* args),
            $crate::Request::AdminTransferLease(args) => $f::<$crate::kinds::AdminTransferLease>($($extra,)* args),
        }
    };
}

fn bounds_by<K: Kind>(args: &K::Args) -> Bounds<'_>
    ensures { reach_of_bounds result ≡ K.reach args.now }
{
    K::bounds(args)
}

fn flags_by<K: Kind>(_args: &K::Args) -> Flags
    ensures { result ≡ K.FLAGS }
{
    K::FLAGS
}

impl Request {
    /// The name of its kind.
    pub fn kind(&self) -> KindName
        ensures { result ≡ kind_of self.now }
    {
        match self {
            Request::Get(_) => KindName::Get,
            Request::Scan(_) => KindName::Scan,
            Request::ReverseScan(_) => KindName::ReverseScan,
            Request::Put(_) => KindName::Put,
            Request::ConditionalPut(_) => KindName::ConditionalPut,
            Request::InitPut(_) => KindName::InitPut,
            Request::Increment(_) => KindName::Increment,
            Request::Delete(_) => KindName::Delete,
            Request::DeleteRange(_) => KindName::DeleteRange,
            Request::EndTxn(_) => KindName::EndTxn,
            Request::QueryIntent(_) => KindName::QueryIntent,
            Request::ResolveIntent(_) => KindName::ResolveIntent,
            Request::ResolveIntentRange(_) => KindName::ResolveIntentRange,
            Request::AdminSplit(_) => KindName::AdminSplit,
            Request::AdminTransferLease(_) => KindName::AdminTransferLease,
        }
    }

    /// What its kind may do.
    pub fn flags(&self) -> Flags
        ensures { result ≡ flags_of (kind_of self.now) }
    {
        on_kind!(self, flags_by())
    }

    /// Where it acts: at one key, or from a start up to an end.
    pub fn bounds(&self) -> Bounds<'_>
        ensures { reach_of_bounds result ≡ reach_of self.now }
    {
        on_kind!(self, bounds_by())
    }

    /// The same request on a part of its span.
    pub fn cut(&self, alloc: Global, start: &Key, end: &Key) -> Result<Request, AllocError>
        requires some { key_lt start.now end.now ≡ true }
        requires from { key_le (span_of self.now).start start.now ≡ true }
        requires to { key_le end.now (span_of self.now).end ≡ true }
        ensures { IfOk result (λ r. r ≡ cut_to start.now end.now self.now) }
    {
        match self {
            Request::Scan(_) => Ok(Request::Scan(ScanArgs {
                start: start.copy(alloc)?,
                end: end.copy(alloc)?,
            })),
            Request::ReverseScan(_) => Ok(Request::ReverseScan(ReverseScanArgs {
                start: start.copy(alloc)?,
                end: end.copy(alloc)?,
            })),
            Request::DeleteRange(_) => Ok(Request::DeleteRange(DeleteRangeArgs {
                start: start.copy(alloc)?,
                end: end.copy(alloc)?,
            })),
            Request::ResolveIntentRange(args) => {
                Ok(Request::ResolveIntentRange(ResolveIntentRangeArgs {
                    start: start.copy(alloc)?,
                    end: end.copy(alloc)?,
                    txn: args.txn,
                }))
            }
            Request::Get(_)
            | Request::Put(_)
            | Request::ConditionalPut(_)
            | Request::InitPut(_)
            | Request::Increment(_)
            | Request::Delete(_)
            | Request::EndTxn(_)
            | Request::QueryIntent(_)
            | Request::ResolveIntent(_)
            | Request::AdminSplit(_)
            | Request::AdminTransferLease(_) => self.copy(alloc),
        }
    }
}

impl Copies for Request {
    fn copy(&self, _alloc: Global) -> Result<Request, AllocError> {
        self.clone()
    }
}
