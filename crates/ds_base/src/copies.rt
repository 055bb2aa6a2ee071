//! Copies that equal their source.
ghost use Rattle.std.specs.Prelude.{◌≡◌, IfOk};

use std::alloc::{AllocError, Global};

/// A value of which an equal one can be made.
pub trait Copies: Sized {
    /// A copy that equals its source. The one refusal is want of memory.
    fn copy(&self, alloc: Global) -> Result<Self, AllocError>
        ensures { IfOk result (λ made. made ≡ self.now) };
}

impl<T: Copies> Copies for Option<T> {
    fn copy(&self, alloc: Global) -> Result<Option<T>, AllocError> {
        match self {
            Some(one) => Ok(Some(one.copy(alloc)?)),
            None => Ok(None),
        }
    }
}
