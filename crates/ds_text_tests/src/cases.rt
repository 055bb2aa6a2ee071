//! What the tables of cases share.
use ds_script::FaultKind;
use std::alloc::{AllocError, Global};

/// The name of a fault, as it is printed.
pub fn kind_name(kind: FaultKind) -> &'static str {
    match kind {
        FaultKind::TooLong => "too_long",
        FaultKind::Json => "json",
        FaultKind::Shape => "shape",
        FaultKind::Range => "range",
        FaultKind::Order => "order",
        FaultKind::LowWrite => "low_write",
        FaultKind::TxnOpen => "txn_open",
    }
}

/// The text with the part, so many times, in the place of its `%`.
pub fn filled(alloc: Global, text: &str, part: &str, times: usize) -> Result<String, AllocError> {
    let parts = part.repeat(alloc, times)?;
    text.replace(alloc, '%', parts.as_str())
}
