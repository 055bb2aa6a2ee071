//! Batches that keep every rule.
ghost use Rattle.std.specs.Prelude.{◌≡◌, Some, None, MatchResult};
ghost use Rattle.ds_legal.specs.Legal.{IsLegal};
ghost use Rattle.ds_legal.specs.Rules.{first_illegal};

use crate::rules;
use ds_kind::{Batch, Illegal};
use std::marker::Model;

/// A batch that keeps every rule. A contract sees the batch.
#[derive(Drop)]
pub struct Legal<'a> {
    batch: &'a Batch,
}

impl<'a> Model for Legal<'a> {
    ghost use Rattle.std.specs.Prelude.{◌≡◌, None};
    ghost use Rattle.ds_kind.specs.declared.batch.Batch.{Batch};
    ghost use Rattle.ds_legal.specs.Rules.{first_illegal};

    ghost Value = { Batch };

    ghost view = { λ l. l.batch.now };

    ghost invariant = { λ l. first_illegal l.batch.now ≡ None };
}

/// The batch as one that keeps every rule, or the first rule that it breaks, with the least
/// position that breaks it.
pub fn check(batch: &Batch) -> Result<Legal<'_>, Illegal>
    ensures { MatchResult result (λ l. (l ≡ batch.now) × (first_illegal batch.now ≡ None)) (λ e. first_illegal batch.now ≡ Some e) }
{
    rules::empty(batch)?;
    rules::too_many(batch)?;
    rules::bad_span(batch)?;
    rules::end_txn_place(batch)?;
    rules::needs_a_txn(batch)?;
    rules::inconsistent_txn(batch)?;
    rules::inconsistent_write(batch)?;
    rules::limit_kind(batch)?;
    rules::limit_mixed(batch)?;
    rules::limit_order(batch)?;
    rules::no_txn_parts(batch)?;
    Ok(Legal { batch })
}

impl<'a> Legal<'a> {
    /// The batch.
    pub fn batch(&self) -> &Batch
        ensures batch { result.now ≡ self.now }
        ensures legal { IsLegal self.now }
    {
        self.batch
    }
}
