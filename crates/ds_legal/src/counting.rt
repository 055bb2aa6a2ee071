//! The sequence numbers of a batch's requests.
ghost use Rattle.std.specs.Prelude.{◌≡◌, ◌≤◌, ◌+◌, length, IfOk};
ghost use Rattle.std.specs.List.{count_by};
ghost use Rattle.ds_kind.specs.Asks.{takes_number};
ghost use Rattle.ds_kind.specs.Numbers.{numbers_from, last_number, NeverFall};

use crate::legal::Legal;
use ds_base::Seq;
use ds_kind::Seqs;
use std::alloc::{AllocError, Global};

/// The number of each request, where `last` is the last number given before. The numbers go up by
/// one at each request that takes a number of its own, and every other request has the number
/// before it. The one refusal is want of memory.
pub fn numbers(alloc: Global, legal: &Legal<'_>, last: Seq) -> Result<Seqs, AllocError>
    requires { last.0 ≤ 4000000000 }
    ensures numbers { IfOk result (λ seqs. seqs ≡ numbers_from last.0 legal.now.requests) }
    ensures one_each { IfOk result (λ seqs. length seqs ≡ length legal.now.requests) }
    ensures never_fall { IfOk result (λ seqs. NeverFall last.0 seqs) }
    ensures ends { IfOk result (λ seqs. last_number last.0 seqs ≡ last.0 + count_by takes_number legal.now.requests) }
{
    let requests = legal.batch().requests.as_slice();
    let mut seqs = Vec::with_capacity(alloc, requests.len())?;
    let mut number = last.0;
    for request in requests {
        if request.flags().is_numbered() {
            number += 1;
        }
        seqs.push(Seq(number))?;
    }
    Ok(Seqs::from_vec(seqs))
}
