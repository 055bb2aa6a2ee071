//! The rules, each as a test of the batch.
ghost use Rattle.std.specs.Prelude.{◌≡◌, ◌≤◌, Some, None, true, length, nat_lt, MatchResult};
ghost use Rattle.ds_kind.specs.Groups.{groups};
ghost use Rattle.ds_kind.specs.Parts.{may_join};
ghost use Rattle.ds_legal.specs.Rules as Rule;

use crate::{asks, firsts};
use ds_kind::{Batch, Illegal, Request};

#[tactic(auto, unfolding(crate::specs::Rules::empty))]
pub fn empty(batch: &Batch) -> Result<(), Illegal>
    ensures { MatchResult result (λ _. Rule.empty batch.now ≡ None) (λ e. Rule.empty batch.now ≡ Some e) }
{
    if batch.requests.len() == 0 {
        return Err(Illegal::Empty);
    }
    Ok(())
}

#[tactic(auto, unfolding(crate::specs::Rules::too_many))]
pub fn too_many(batch: &Batch) -> Result<(), Illegal>
    ensures { MatchResult result (λ _. (Rule.too_many batch.now ≡ None) × (length batch.now.requests ≤ 256)) (λ e. Rule.too_many batch.now ≡ Some e) }
{
    if batch.requests.len() > 256 {
        return Err(Illegal::TooMany);
    }
    Ok(())
}

#[tactic(auto, unfolding(crate::specs::Rules::bad_span))]
pub fn bad_span(batch: &Batch) -> Result<(), Illegal>
    requires { length batch.now.requests ≤ 256 }
    ensures { MatchResult result (λ _. Rule.bad_span batch.now ≡ None) (λ e. Rule.bad_span batch.now ≡ Some e) }
{
    match asks::first_improper(batch.requests.as_slice()) {
        Some(i) => Err(Illegal::BadSpan { i: i as u32 }),
        None => Ok(()),
    }
}

#[tactic(auto, unfolding(crate::specs::Rules::end_txn_place))]
pub fn end_txn_place(batch: &Batch) -> Result<(), Illegal>
    requires { length batch.now.requests ≤ 256 }
    ensures { MatchResult result (λ _. Rule.end_txn_place batch.now ≡ None) (λ e. Rule.end_txn_place batch.now ≡ Some e) }
{
    let requests = batch.requests.as_slice();
    let before_last = requests.len().saturating_sub(1);
    match asks::first_end(&requests[..before_last]) {
        Some(i) => Err(Illegal::EndTxnPlace { i: i as u32 }),
        None => Ok(()),
    }
}

#[tactic(auto, unfolding(crate::specs::Rules::needs_a_txn))]
pub fn needs_a_txn(batch: &Batch) -> Result<(), Illegal>
    requires { length batch.now.requests ≤ 256 }
    ensures { MatchResult result (λ _. Rule.needs_a_txn batch.now ≡ None) (λ e. Rule.needs_a_txn batch.now ≡ Some e) }
{
    if batch.at.is_none() {
        return Ok(());
    }
    match asks::first_needing_txn(batch.requests.as_slice()) {
        Some(i) => Err(Illegal::NeedsTxn { i: i as u32 }),
        None => Ok(()),
    }
}

#[tactic(auto, unfolding(crate::specs::Rules::inconsistent_txn))]
pub fn inconsistent_txn(batch: &Batch) -> Result<(), Illegal>
    ensures { MatchResult result (λ _. Rule.inconsistent_txn batch.now ≡ None) (λ e. Rule.inconsistent_txn batch.now ≡ Some e) }
{
    if !batch.consistent && batch.at.is_none() {
        return Err(Illegal::InconsistentTxn);
    }
    Ok(())
}

#[tactic(auto, unfolding(crate::specs::Rules::inconsistent_write))]
pub fn inconsistent_write(batch: &Batch) -> Result<(), Illegal>
    requires { length batch.now.requests ≤ 256 }
    ensures { MatchResult result (λ _. Rule.inconsistent_write batch.now ≡ None) (λ e. Rule.inconsistent_write batch.now ≡ Some e) }
{
    if batch.consistent {
        return Ok(());
    }
    match asks::first_no_read(batch.requests.as_slice()) {
        Some(i) => Err(Illegal::InconsistentWrite { i: i as u32 }),
        None => Ok(()),
    }
}

#[tactic(auto, unfolding(crate::specs::Rules::limit_kind))]
pub fn limit_kind(batch: &Batch) -> Result<(), Illegal>
    requires { length batch.now.requests ≤ 256 }
    ensures { MatchResult result (λ _. Rule.limit_kind batch.now ≡ None) (λ e. Rule.limit_kind batch.now ≡ Some e) }
{
    if batch.limit.is_none() {
        return Ok(());
    }
    match asks::first_unlimited(batch.requests.as_slice()) {
        Some(i) => Err(Illegal::LimitKind { i: i as u32 }),
        None => Ok(()),
    }
}

#[tactic(auto, unfolding(crate::specs::Rules::limit_mixed))]
pub fn limit_mixed(batch: &Batch) -> Result<(), Illegal>
    requires { length batch.now.requests ≤ 256 }
    ensures { MatchResult result (λ _. Rule.limit_mixed batch.now ≡ None) (λ e. Rule.limit_mixed batch.now ≡ Some e) }
{
    if batch.limit.is_none() {
        return Ok(());
    }
    match firsts::first_misfit(batch.requests.as_slice()) {
        Some(i) => Err(Illegal::LimitMixed { i: i as u32 }),
        None => Ok(()),
    }
}

#[tactic(auto, unfolding(crate::specs::Rules::limit_order))]
pub fn limit_order(batch: &Batch) -> Result<(), Illegal>
    requires { length batch.now.requests ≤ 256 }
    ensures { MatchResult result (λ _. Rule.limit_order batch.now ≡ None) (λ e. Rule.limit_order batch.now ≡ Some e) }
{
    let requests = batch.requests.as_slice();
    if batch.limit.is_none() || !asks::any_delete_range(requests) {
        return Ok(());
    }
    match firsts::first_overtaken(requests) {
        Some(i) => Err(Illegal::LimitOrder { i: i as u32 }),
        None => Ok(()),
    }
}

/// Whether the requests need more than one part.
fn is_split(requests: &[Request]) -> bool
    ensures { result ≡ nat_lt 1 (length (groups (may_join true) requests.now)) }
{
    firsts::first_misfit(requests).is_some()
}

#[tactic(auto, unfolding(crate::specs::Rules::no_txn_parts))]
pub fn no_txn_parts(batch: &Batch) -> Result<(), Illegal>
    ensures { MatchResult result (λ _. Rule.no_txn_parts batch.now ≡ None) (λ e. Rule.no_txn_parts batch.now ≡ Some e) }
{
    let requests = batch.requests.as_slice();
    if batch.at.is_some() && asks::any_acts(requests) && is_split(requests) {
        return Err(Illegal::NoTxnParts);
    }
    Ok(())
}
