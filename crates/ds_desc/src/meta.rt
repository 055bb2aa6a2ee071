//! Where descriptors are looked up.
ghost use Rattle.std.specs.Prelude.{◌≡◌, ◌≤◌, ℕ, List, true, IfOk, Result};
ghost use Rattle.ds_base.specs.declared.value.Dir.{Dir};
ghost use Rattle.ds_desc.specs.declared.meta.Looked.{Looked};
ghost use Rattle.std.specs.declared.alloc.AllocError.{AllocError};

use crate::desc::Infos;
use ds_base::{Copies, Dir, Key};
use std::alloc::{AllocError, Global};

/// What a lookup answers.
#[derive(Drop)]
pub enum Looked {
    /// At least one row; the first contains the key in the direction asked.
    Rows(Infos),
    /// The answer, or the question, was lost.
    Lost,
}

impl Copies for Looked {
    fn copy(&self, alloc: Global) -> Result<Looked, AllocError> {
        match self {
            Looked::Rows(infos) => Ok(Looked::Rows(infos.copy(alloc)?)),
            Looked::Lost => Ok(Looked::Lost),
        }
    }
}

/// A directory of ranges.
pub trait Meta {
    ghost use Rattle.ds_desc.specs.Contains.{FirstContains, lies_ahead};
    ghost use Rattle.ds_base.specs.Counts.{Rose};
    ghost use Rattle.ds_desc.specs.declared.meta.Looked.TheVariants.{Lost};

    // how the object after one lookup of a key stands to the object before it, by what was
    // answered, want of memory among it
    ghost looked: { Self → Self → List ℕ → Dir → Result Looked AllocError → Type 0 };

    // how many answers were lost so far
    ghost lost: { Self → ℕ };

    /// The rows of the ranges from this key on, in this direction. Some key of the key space must
    /// lie there. `Lost` comes only where the count of lost answers rose.
    fn lookup(&mut self, alloc: Global, key: &Key, dir: Dir) -> Result<Looked, AllocError>
        requires { lies_ahead dir key.now ≡ true }
        ensures rows { IfOk result (λ l. FirstContains dir key.now l) }
        ensures looked { looked self.old self.new key.now dir result }
        ensures rises { lost self.old ≤ lost self.new }
        ensures loses { IfOk result (λ l. l ≡ Lost → Rose (lost self.old) (lost self.new)) };
}
