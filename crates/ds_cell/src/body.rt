//! The body of a reply, made of the answers at the keys.
ghost use Rattle.std.specs.Prelude.{◌≡◌, [], ◌++◌, IfOk, OnOk, reverse};
ghost use Rattle.ds_cell.specs.Replies.{with_row, rows_of, with_gone, gone_keys, value_of, value_in, number_of, is_hit, found_in, body_of};

use crate::verdict::Bit;
use ds_base::{Key, Keys, ListOf, Value};
use ds_kind::{Body, Request, Row, Rows, TxnStatus};
use std::alloc::{AllocError, Global};

/// Answers by key, in the order of the keys.
pub type Bits = ListOf<(Key, Bit)>;

// Adds the row of a key that showed a value.
fn add_row(alloc: Global, rows: &mut Rows, key: Key, bit: Bit) -> Result<(), AllocError>
    ensures { OnOk result (rows.new ≡ rows.old ++ with_row key bit []) }
{
    match bit {
        Bit::Value(Some(value)) => rows.push(alloc, Row { key, value }),
        Bit::Value(None) | Bit::Nothing | Bit::Gone | Bit::Hit => Ok(()),
    }
}

// The keys that showed a value, with it.
#[tactic(auto, using(crate::proofs::ReplyFacts::rows_push))]
fn rows_of(alloc: Global, bits: Bits) -> Result<Rows, AllocError>
    ensures { IfOk result (λ rows. rows ≡ rows_of bits) }
{
    let mut rows = Rows::new(alloc);
    'bits: for (key, bit) in bits.into_vec() {
        add_row(alloc, &mut rows, key, bit)?;
    }
    Ok(rows)
}

// The same, from the last to the first.
fn rows_back(alloc: Global, bits: Bits) -> Result<Rows, AllocError>
    ensures { IfOk result (λ rows. rows ≡ reverse (rows_of bits)) }
{
    let mut rows = rows_of(alloc, bits)?.into_vec();
    rows.as_mut_slice().reverse();
    Ok(Rows::from_vec(rows))
}

// Adds a key that was deleted.
fn add_gone(alloc: Global, keys: &mut Keys, key: Key, bit: Bit) -> Result<(), AllocError>
    ensures { OnOk result (keys.new ≡ keys.old ++ with_gone key bit []) }
{
    match bit {
        Bit::Gone => keys.push(alloc, key),
        Bit::Value(_) | Bit::Nothing | Bit::Hit => Ok(()),
    }
}

// The keys that were deleted.
#[tactic(auto, using(crate::proofs::ReplyFacts::gone_push))]
fn gone_keys(alloc: Global, bits: Bits) -> Result<Keys, AllocError>
    ensures { IfOk result (λ keys. keys ≡ gone_keys bits) }
{
    let mut keys = Keys::new(alloc);
    'bits: for (key, bit) in bits.into_vec() {
        add_gone(alloc, &mut keys, key, bit)?;
    }
    Ok(keys)
}

fn value_of(bit: Bit) -> Option<Value>
    ensures { result ≡ value_of bit }
{
    match bit {
        Bit::Value(value) => value,
        Bit::Nothing | Bit::Gone | Bit::Hit => None,
    }
}

// The value that the one key of a point showed.
fn value_in(bits: Bits) -> Option<Value>
    ensures { result ≡ value_in bits }
{
    match bits.into_vec().into_iter().next() {
        Some((_, bit)) => value_of(bit),
        None => None,
    }
}

fn number_of(value: Option<Value>) -> i64
    ensures { result ≡ number_of value }
{
    match value {
        Some(Value::Int(n)) => n,
        Some(Value::Text(_)) | None => 0,
    }
}

fn is_hit(bit: &Bit) -> bool
    ensures { result ≡ is_hit bit.now }
{
    match bit {
        Bit::Hit => true,
        Bit::Nothing | Bit::Value(_) | Bit::Gone => false,
    }
}

fn found_in(bits: &Bits) -> bool
    ensures { result ≡ found_in bits.now }
{
    match bits.as_slice() {
        [first, ..] => is_hit(&first.1),
        [] => false,
    }
}

/// The body of a request's reply, of what was answered at the keys. The one refusal is want of memory.
pub fn body_of(alloc: Global, request: &Request, bits: Bits) -> Result<Body, AllocError>
    ensures { IfOk result (λ b. b ≡ body_of request.now bits) }
{
    match request {
        Request::Get(_) => Ok(Body::Got(value_in(bits))),
        Request::Scan(_) => Ok(Body::Rows(rows_of(alloc, bits)?)),
        Request::ReverseScan(_) => Ok(Body::Rows(rows_back(alloc, bits)?)),
        Request::Increment(_) => Ok(Body::Number(number_of(value_in(bits)))),
        Request::DeleteRange(_) => Ok(Body::Gone(gone_keys(alloc, bits)?)),
        Request::EndTxn(args) => Ok(Body::Ended(if args.commit {
            TxnStatus::Committed
        } else {
            TxnStatus::Aborted
        })),
        Request::QueryIntent(_) => Ok(Body::Found(found_in(&bits))),
        Request::Put(_)
        | Request::ConditionalPut(_)
        | Request::InitPut(_)
        | Request::Delete(_)
        | Request::ResolveIntent(_)
        | Request::ResolveIntentRange(_)
        | Request::AdminSplit(_)
        | Request::AdminTransferLease(_) => Ok(Body::Unit),
    }
}
