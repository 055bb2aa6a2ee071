//! Why a script could not be read.
ghost use Rattle.std.specs.Prelude.{◌≡◌};
ghost use Rattle.ds_script.specs.declared.fault.ScriptFault.TheVariants.{Memory};

use ds_fields::FaultKind;
use std::alloc::AllocError;
use thiserror::Error;

/// Why a script could not be read.
#[derive(Debug, Drop, Error)]
pub enum ScriptFault {
    /// The first line at fault, and the first kind of fault on it. Line 0 stands for the script.
    #[error("line {line}: {kind:?}")]
    Bad { line: u32, kind: FaultKind },
    #[error(transparent)]
    Memory(AllocError),
}

impl From<AllocError> for ScriptFault {
    ghost from_gives = { λ x e. e ≡ Memory x };

    fn from(e: AllocError) -> ScriptFault {
        ScriptFault::Memory(e)
    }
}
