//! A batch as it is asked, with its numbers.
ghost use Rattle.std.specs.Prelude.{◌≡◌, ◌≤◌, length, IfOk};
ghost use Rattle.ds_kind.specs.Parts.{items_from};
ghost use Rattle.ds_rule.specs.Asking.{asking, numbered};
ghost use Rattle.ds_send.specs.Asked.{asker_in};
ghost use Rattle.ds_send.specs.Asked.{IsOpenFor};

use crate::txn::Txn;
use ds_base::{Copies, Seq};
use ds_kind::{Head, Item, Items, Request};
use ds_legal::{Legal, numbers};
use std::alloc::{AllocError, Global};
use std::marker::Model;

/// A batch with its head and its numbered requests. A contract sees what is asked.
#[derive(Drop)]
pub(crate) struct Asked {
    pub head: Head,
    pub consistent: bool,
    pub items: Items,
}

impl Model for Asked {
    ghost use Rattle.ds_rule.specs.Asking.{Asking};

    ghost Value = { Asking };

    ghost view = { λ a. record { head = a.head; consistent = a.consistent; items = a.items } };
}

/// The requests with their positions and numbers.
pub(crate) fn items_of(
    alloc: Global,
    requests: &[Request],
    seqs: &[Seq],
) -> Result<Items, AllocError>
    requires one_each { length seqs.now ≡ length requests.now }
    requires few { length requests.now ≤ 256 }
    ensures { IfOk result (λ items. items ≡ items_from 0 requests.now seqs.now) }
{
    let mut items = Items::new(alloc);
    'requests: for i in 0..requests.len() {
        let item = Item {
            pos: i as u32,
            seq: seqs[i],
            request: requests[i].copy(alloc)?,
        };
        items.push(alloc, item)?;
    }
    Ok(items)
}

/// The batch with the numbers of its requests, after the last number given.
fn numbered(alloc: Global, head: Head, legal: &Legal<'_>, last: Seq) -> Result<Asked, AllocError>
    requires { last.0 ≤ 4000000000 }
    ensures { IfOk result (λ a. a ≡ numbered head last.0 legal.now) }
{
    let seqs = numbers(alloc, legal, last)?;
    let batch = legal.batch();
    let items = items_of(alloc, batch.requests.as_slice(), seqs.as_slice())?;
    Ok(Asked {
        head,
        consistent: batch.consistent,
        items,
    })
}

/// The batch as it is asked: with a stamp as a transaction of its own, without one as the open
/// transaction's.
pub(crate) fn asked_by(
    alloc: Global,
    txn: Option<Txn>,
    legal: &Legal<'_>,
) -> Result<Option<Asked>, AllocError>
    requires { IsOpenFor legal.now.at (asker_in txn) }
    ensures { IfOk result (λ o. o ≡ asking (asker_in txn) legal.now) }
{
    let batch = legal.batch();
    let left = batch.limit;
    match (batch.at, txn) {
        (Some(at), _) => {
            let head = Head {
                at,
                txn: None,
                left,
                epoch: 0,
            };
            Ok(Some(numbered(alloc, head, legal, Seq(0))?))
        }
        (None, Some(txn)) => {
            let head = Head {
                at: txn.stamp,
                txn: Some(txn.number),
                left,
                epoch: txn.epoch,
            };
            Ok(Some(numbered(alloc, head, legal, txn.last)?))
        }
        (None, None) => Ok(None),
    }
}
