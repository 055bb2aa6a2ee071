//! The fifteen kinds, each with its arguments.
pub use crate::control::{
    AdminSplit, AdminSplitArgs, AdminTransferLease, AdminTransferLeaseArgs, EndTxn, EndTxnArgs,
    ResolveIntent, ResolveIntentArgs, ResolveIntentRange, ResolveIntentRangeArgs,
};
pub use crate::reads::{
    Get, GetArgs, QueryIntent, QueryIntentArgs, ReverseScan, ReverseScanArgs, Scan, ScanArgs,
};
pub use crate::writes::{
    ConditionalPut, ConditionalPutArgs, Delete, DeleteArgs, DeleteRange, DeleteRangeArgs,
    Increment, IncrementArgs, InitPut, InitPutArgs, Put, PutArgs,
};
