//! Why a batch is refused before anything is sent.

/// The rule that a batch breaks, with the least position `i` that breaks it.
#[derive(Clone, Copy, Debug, PartialEq, Eq)]
pub enum Illegal {
    /// There is no request.
    Empty,
    /// There are more than 256 requests.
    TooMany,
    /// A range request's start is not below its end, or a point request's key is the bound or has 65 bytes.
    BadSpan { i: u32 },
    /// An end of the transaction is not the last request.
    EndTxnPlace { i: u32 },
    /// A request that speaks of a transaction stands in a batch without one.
    NeedsTxn { i: u32 },
    /// A batch of the transaction is not consistent.
    InconsistentTxn,
    /// A batch that is not consistent holds more than gets and scans.
    InconsistentWrite { i: u32 },
    /// A request knows no limit.
    LimitKind { i: u32 },
    /// Under a limit, a request is not compatible with one before it.
    LimitMixed { i: u32 },
    /// Under a limit, deletions are not in the order of their keys.
    LimitOrder { i: u32 },
    /// A batch without a transaction writes or stands alone, and needs more than one part.
    NoTxnParts,
}
