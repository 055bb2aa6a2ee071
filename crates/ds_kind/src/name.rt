//! The names of the kinds, in the order of their table.
ghost use Rattle.std.specs.Prelude.{◌≡◌};

use crate::flags::Flags;
use crate::kind::Kind;
use crate::kinds::{
    AdminSplit, AdminTransferLease, ConditionalPut, Delete, DeleteRange, EndTxn, Get, Increment,
    InitPut, Put, QueryIntent, ResolveIntent, ResolveIntentRange, ReverseScan, Scan,
};

/// The name of a kind.
#[derive(Clone, Copy, Debug, PartialEq, Eq)]
pub enum KindName {
    Get,
    Scan,
    ReverseScan,
    Put,
    ConditionalPut,
    InitPut,
    Increment,
    Delete,
    DeleteRange,
    EndTxn,
    QueryIntent,
    ResolveIntent,
    ResolveIntentRange,
    AdminSplit,
    AdminTransferLease,
}

impl KindName {
    ghost use Rattle.ds_kind.specs.Flags.{flags_of};

    /// All kinds, in the order of the table.
    pub const ALL: [KindName; 15] = [
        KindName::Get,
        KindName::Scan,
        KindName::ReverseScan,
        KindName::Put,
        KindName::ConditionalPut,
        KindName::InitPut,
        KindName::Increment,
        KindName::Delete,
        KindName::DeleteRange,
        KindName::EndTxn,
        KindName::QueryIntent,
        KindName::ResolveIntent,
        KindName::ResolveIntentRange,
        KindName::AdminSplit,
        KindName::AdminTransferLease,
    ];

    /// What a request of the kind may do.
    pub fn flags(self) -> Flags
        ensures { result ≡ flags_of self }
    {
        match self {
            KindName::Get => Get::FLAGS,
            KindName::Scan => Scan::FLAGS,
            KindName::ReverseScan => ReverseScan::FLAGS,
            KindName::Put => Put::FLAGS,
            KindName::ConditionalPut => ConditionalPut::FLAGS,
            KindName::InitPut => InitPut::FLAGS,
            KindName::Increment => Increment::FLAGS,
            KindName::Delete => Delete::FLAGS,
            KindName::DeleteRange => DeleteRange::FLAGS,
            KindName::EndTxn => EndTxn::FLAGS,
            KindName::QueryIntent => QueryIntent::FLAGS,
            KindName::ResolveIntent => ResolveIntent::FLAGS,
            KindName::ResolveIntentRange => ResolveIntentRange::FLAGS,
            KindName::AdminSplit => AdminSplit::FLAGS,
            KindName::AdminTransferLease => AdminTransferLease::FLAGS,
        }
    }
}
