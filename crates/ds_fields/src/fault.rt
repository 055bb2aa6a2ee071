//! Why a line could not be read.
ghost use Rattle.std.specs.Prelude.{◌≡◌};
ghost use Rattle.ds_fields.specs.declared.fault.LineFault.TheVariants.{Memory};

use std::alloc::{AllocError, AllocFailed};
use thiserror::Error;

/// What is wrong with a line of a script. Of several the first in this order is named.
#[derive(Clone, Copy, Debug, PartialEq, Eq)]
pub enum FaultKind {
    /// The script has too many bytes, or too many lines.
    TooLong,
    /// The line is no JSON text in UTF-8 that nests at most 127 deep.
    Json,
    /// The JSON is no line of a script.
    Shape,
    /// A number, key, text or list is outside its limits.
    Range,
    /// The line stands where it must not.
    Order,
    /// A write's stamp is not above the floor.
    LowWrite,
    /// A transaction begins, or the script ends, while one is open.
    TxnOpen,
}

/// Why a line could not be read.
#[derive(Debug, Drop, Error)]
pub enum LineFault {
    #[error("the line is at fault: {0:?}")]
    Bad(FaultKind),
    #[error(transparent)]
    Memory(AllocError),
}

impl From<AllocError> for LineFault {
    ghost from_gives = { λ x e. e ≡ Memory x };

    fn from(e: AllocError) -> LineFault {
        LineFault::Memory(e)
    }
}

impl<T: Drop> From<AllocFailed<T>> for LineFault {
    ghost use Rattle.std.specs.Prelude.{alloc_error};

    ghost from_gives = { λ _ e. e ≡ Memory alloc_error };

    fn from(_e: AllocFailed<T>) -> LineFault {
        LineFault::Memory(AllocError)
    }
}
