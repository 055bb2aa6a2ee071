//! Why a node turns a piece away.
use crate::desc::{Infos, Lease};
use ds_base::Copies;
use std::alloc::{AllocError, Global};

/// Why a node did not serve a piece, which then did nothing.
#[derive(Drop)]
pub enum Refusal {
    /// The node has no replica of the range, or there is no such range.
    NotFound,
    /// Another node has the lease.
    NotLease { lease: Lease },
    /// The range does not hold all of the piece's spans; these are the ranges that overlap them.
    Mismatch { infos: Infos },
}

impl Copies for Refusal {
    fn copy(&self, alloc: Global) -> Result<Refusal, AllocError> {
        match self {
            Refusal::NotFound => Ok(Refusal::NotFound),
            Refusal::NotLease { lease } => Ok(Refusal::NotLease { lease: *lease }),
            Refusal::Mismatch { infos } => Ok(Refusal::Mismatch {
                infos: infos.copy(alloc)?,
            }),
        }
    }
}
