//! One request, asked of what stands at the keys where it acts.
ghost use Rattle.std.specs.Prelude.{◌≡◌, [], ◌∷◌, IfOk, true};
ghost use Rattle.ds_base.specs.Order.{key_lt};
ghost use Rattle.ds_base.specs.Ordered.{between};
ghost use Rattle.ds_cell.specs.Ask.{Gave, key_of, content_at, ask_each};
ghost use Rattle.ds_cell.specs.Requests.{deed_of, ask_request};
ghost use Rattle.ds_range.specs.Asks.{asked_of, with_verdict, unless_refused};

use ds_base::{Copies, Key, ListOf, Value};
use ds_cell::{ActFault, At, Bits, Cell, Verdict, decide_request};
use ds_kind::{Bounds, Request};
use std::alloc::{AllocError, Global};
use std::collections::BTreeMap;

/// Writes by key, each a value or a deletion, in the order of the keys.
pub type Writes = ListOf<(Key, Option<Value>)>;

/// What a request gave: the key where it was refused, and why; or its answers and its writes.
#[derive(Drop)]
pub enum Asked {
    Failed { key: Key, fault: ActFault },
    Gave { bits: Bits, writes: Writes },
}

/// What a request decides for a key, whether anything stands there or not.
#[tactic(auto, using(crate::proofs::Maps::content_some, crate::proofs::Maps::content_none))]
fn decide_at(
    alloc: Global,
    cells: &BTreeMap<Key, Cell>,
    at: At,
    request: &Request,
    key: &Key,
) -> Result<Verdict, AllocError>
    ensures { IfOk result (λ v. v ≡ deed_of request.now at (content_at key.now cells.now.entries)) }
{
    match cells.get(key) {
        Some(cell) => decide_request(alloc, cell, at, request),
        None => decide_request(alloc, &Cell::new(alloc), at, request),
    }
}

/// Adds what a key gave, or tells why it refused.
fn add(
    alloc: Global,
    bits: &mut Bits,
    writes: &mut Writes,
    key: &Key,
    verdict: Verdict,
) -> Result<Option<ActFault>, AllocError>
    ensures { IfOk result (λ f. unless_refused key.now f bits.new writes.new ≡ with_verdict key.now verdict (Gave bits.old writes.old)) }
{
    match verdict {
        Verdict::Keep(bit) => {
            bits.push(alloc, (key.copy(alloc)?, bit))?;
            Ok(None)
        }
        Verdict::Put(value, bit) => {
            bits.push(alloc, (key.copy(alloc)?, bit))?;
            writes.push(alloc, (key.copy(alloc)?, value))?;
            Ok(None)
        }
        Verdict::Refuse(fault) => Ok(Some(fault)),
    }
}

/// The answer, unless the key refused.
fn answer(
    alloc: Global,
    bits: Bits,
    writes: Writes,
    key: &Key,
    refused: Option<ActFault>,
) -> Result<Asked, AllocError>
    ensures { IfOk result (λ a. asked_of a ≡ unless_refused key.now refused bits writes) }
{
    match refused {
        Some(fault) => Ok(Asked::Failed {
            key: key.copy(alloc)?,
            fault,
        }),
        None => Ok(Asked::Gave { bits, writes }),
    }
}

/// A request asked of one key.
#[tactic(auto, using(crate::proofs::Asking::one_alone))]
fn ask_point(
    alloc: Global,
    cells: &BTreeMap<Key, Cell>,
    at: At,
    request: &Request,
    key: &Key,
) -> Result<Asked, AllocError>
    ensures { IfOk result (λ a. asked_of a ≡ ask_each (deed_of request.now at) ((key.now, content_at key.now cells.now.entries) ∷ [])) }
{
    let verdict = decide_at(alloc, cells, at, request, key)?;
    let mut bits = Bits::new(alloc);
    let mut writes = Writes::new(alloc);
    let refused = add(alloc, &mut bits, &mut writes, key, verdict)?;
    answer(alloc, bits, writes, key, refused)
}

/// A request asked of the keys from `start` up to `end`, in order, up to the first that refuses.
fn ask_over(
    alloc: Global,
    cells: &BTreeMap<Key, Cell>,
    at: At,
    request: &Request,
    start: &Key,
    end: &Key,
) -> Result<Asked, AllocError>
    requires { key_lt start.now end.now ≡ true }
    ensures { IfOk result (λ a. asked_of a ≡ ask_each (deed_of request.now at) (between key_of start.now end.now cells.now.entries)) }
{
    let mut bits = Bits::new(alloc);
    let mut writes = Writes::new(alloc);
    'cells: for (key, cell) in cells.range(start..end) {
        let verdict = decide_request(alloc, cell, at, request)?;
        if let Some(fault) = add(alloc, &mut bits, &mut writes, key, verdict)? {
            let key = key.copy(alloc)?;
            return Ok(Asked::Failed { key, fault });
        }
    }
    Ok(Asked::Gave { bits, writes })
}

/// A request asked where it acts.
#[tactic(auto, using(crate::proofs::Asking::none_within))]
pub(crate) fn ask_cells(
    alloc: Global,
    cells: &BTreeMap<Key, Cell>,
    at: At,
    request: &Request,
) -> Result<Asked, AllocError>
    ensures { IfOk result (λ a. asked_of a ≡ ask_request request.now at cells.now.entries) }
{
    match request.bounds() {
        Bounds::Point(key) => ask_point(alloc, cells, at, request, key),
        Bounds::Between(start, end) => {
            if *start < *end {
                return ask_over(alloc, cells, at, request, start, end);
            }
            Ok(Asked::Gave {
                bits: Bits::new(alloc),
                writes: Writes::new(alloc),
            })
        }
    }
}
