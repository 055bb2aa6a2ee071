//! How a range is split, merged with its neighbour, and given another descriptor.
ghost use Rattle.std.specs.Prelude.{◌≡◌, ◌<◌, ◌+◌, true, [], ◌∷◌, ◌++◌, filter, max, OnOk, OnErr, IfOk, IfErr};
ghost use Rattle.ds_base.specs.Order.{key_lt, key_le};
ghost use Rattle.ds_cell.specs.Ask.{Cells};
ghost use Rattle.ds_range.specs.Covers.{CoversIf};
ghost use Rattle.ds_rule.specs.World.{start_of, end_of, Fits};
ghost use Rattle.ds_rule.specs.Shifts.{left_part, right_part, joined};

use crate::join::join_cells;
use crate::state::RangeState;
use ds_base::{Copies, Key, Keys, Span};
use ds_cell::Cell;
use ds_desc::{Info, RangeDesc};
use std::alloc::{AllocError, Global};
use std::collections::BTreeMap;

/// The descriptor of the part from the key on, with the lease.
fn right_info(alloc: Global, info: &Info, key: &Key, id: u32) -> Result<Info, AllocError>
    requires below { key_lt key.now info.now.desc.span.end ≡ true }
    requires generation { info.now.desc.generation < 4294967295 }
    ensures { IfOk result (λ i. i ≡ record (info.now) { desc = record (info.now.desc) { id = id; span = record { start = key.now; end = info.now.desc.span.end }; generation = info.now.desc.generation + 1 } }) }
{
    let desc = &info.desc;
    let span = Span {
        start: key.copy(alloc)?,
        end: desc.span.end.copy(alloc)?,
    };
    Ok(Info {
        desc: RangeDesc {
            id,
            span,
            nodes: desc.nodes.copy(alloc)?,
            generation: desc.generation + 1,
        },
        lease: info.lease,
    })
}

/// Another end, and a new generation.
fn end_at(info: &mut Info, end: Key, generation: u32)
    requires { key_lt info.old.desc.span.start end ≡ true }
    ensures { info.new ≡ record (info.old) { desc = record (info.old.desc) { span = record { start = info.old.desc.span.start; end = end }; generation = generation } } }
{
    info.desc.span.end = end;
    info.desc.generation = generation;
}

/// Up to the end of the right neighbour, with a generation above both.
fn reach(info: &mut Info, right: Info)
    requires above { key_lt info.old.desc.span.start right.desc.span.end ≡ true }
    requires generation { info.old.desc.generation < 4294967295 }
    requires right_generation { right.desc.generation < 4294967295 }
    ensures { info.new ≡ record (info.old) { desc = record (info.old.desc) { span = record { start = info.old.desc.span.start; end = right.desc.span.end }; generation = max info.old.desc.generation right.desc.generation + 1 } } }
{
    let RangeDesc {
        span,
        generation,
        ..
    } = right.desc;
    let generation = info.desc.generation.max(generation) + 1;
    end_at(info, span.end, generation);
}

/// Moves the cells from the key on to a map of their own. Want of memory leaves the contents as they
/// were.
fn split_cells(
    cells: &mut BTreeMap<Key, Cell>,
    key: &Key,
) -> Result<BTreeMap<Key, Cell>, AllocError>
    ensures low { OnOk result (cells.new.entries ≡ filter (λ p. key_lt p.0 key.now) cells.old.entries) }
    ensures high { IfOk result (λ m. m.entries ≡ filter (λ p. key_le key.now p.0) cells.old.entries) }
    ensures err { OnErr result (cells.new.entries ≡ cells.old.entries) }
{
    let high = cells.split_off(key)?;
    Ok(high)
}

/// Adds a key to those below a key, or to those from it on.
fn add(
    alloc: Global,
    low: &mut Keys,
    high: &mut Keys,
    one: Key,
    key: &Key,
) -> Result<(), AllocError>
    ensures low { OnOk result (low.new ≡ low.old ++ filter (λ q. key_lt q key.now) (one ∷ [])) }
    ensures high { OnOk result (high.new ≡ high.old ++ filter (λ q. key_le key.now q) (one ∷ [])) }
{
    if one < *key {
        low.push(alloc, one)?;
        return Ok(());
    }
    high.push(alloc, one)?;
    Ok(())
}

/// The keys below a key, and those from it on.
fn divide(alloc: Global, keys: Keys, key: &Key) -> Result<(Keys, Keys), AllocError>
    ensures low { IfOk result (λ p. p.0 ≡ filter (λ q. key_lt q key.now) keys) }
    ensures high { IfOk result (λ p. p.1 ≡ filter (λ q. key_le key.now q) keys) }
{
    let mut low = Keys::new(alloc);
    let mut high = Keys::new(alloc);
    'keys: for one in keys.into_vec() {
        add(alloc, &mut low, &mut high, one, key)?;
    }
    Ok((low, high))
}

/// The keys at which writes can stand, of the contents below a key and of those from it on. Where
/// memory is wanting they aren't known.
fn divided(alloc: Global, written: Option<Keys>, key: &Key) -> (Option<Keys>, Option<Keys>)
    ensures low { (cells : Cells) → CoversIf written cells → CoversIf result.0 (filter (λ p. key_lt p.0 key.now) cells) }
    ensures high { (cells : Cells) → CoversIf written cells → CoversIf result.1 (filter (λ p. key_le key.now p.0) cells) }
{
    let Some(keys) = written else {
        return (None, None);
    };
    match divide(alloc, keys, key) {
        Ok((low, high)) => (Some(low), Some(high)),
        Err(_) => (None, None),
    }
}

/// The keys at which writes can stand, of both contents. Where memory is wanting they aren't known.
fn together(alloc: Global, left: Option<Keys>, right: Option<Keys>) -> Option<Keys>
    ensures { (xs ys : Cells) → CoversIf left xs → CoversIf right ys → CoversIf result (xs ++ ys) }
{
    let (Some(mut keys), Some(more)) = (left, right) else {
        return None;
    };
    match keys.append(alloc, more) {
        Ok(()) => Some(keys),
        Err(_) => None,
    }
}

impl RangeState {
    ghost use Rattle.ds_rule.specs.World.{Range};

    /// Splits off the part from the key on, under a new id. Both parts have the replicas and the
    /// lease, and the next generation. Want of memory leaves the range as it was.
    pub fn split(&mut self, alloc: Global, key: &Key, id: u32) -> Result<RangeState, AllocError>
        requires above { key_lt (start_of self.old) key.now ≡ true }
        requires below { key_lt key.now (end_of self.old) ≡ true }
        requires generation { (self.old).info.desc.generation < 4294967295 }
        ensures left { OnOk result (self.new ≡ left_part key.now self.old) }
        ensures right { IfOk result (λ r. r ≡ right_part id key.now self.old) }
        ensures err { OnErr result (self.new ≡ self.old) }
    {
        let end = key.copy(alloc)?;
        let info = right_info(alloc, &self.info, key, id)?;
        let cells = split_cells(&mut self.cells, key)?;
        let generation = self.info.desc.generation + 1;
        end_at(&mut self.info, end, generation);
        let (low, high) = divided(alloc, self.written.take(), key);
        self.written = low;
        Ok(RangeState {
            info,
            cells,
            written: high,
        })
    }

    /// Takes in the right neighbour: its span and its contents, with a generation above both. Only
    /// the contents of the smaller one are moved. Want of memory hands it back, and leaves this range
    /// as it was.
    pub fn merge(&mut self, alloc: Global, right: RangeState) -> Result<(), RangeState>
        requires fits { Fits (start_of self.old) self.old }
        requires next { Fits (end_of self.old) right }
        requires generation { (self.old).info.desc.generation < 4294967295 }
        requires right_generation { right.info.desc.generation < 4294967295 }
        ensures ok { OnOk result (self.new ≡ joined self.old right) }
        ensures back { IfErr result (λ same. same ≡ right) }
        ensures err { OnErr result (self.new ≡ self.old) }
    {
        let RangeState {
            info,
            mut cells,
            written,
        } = right;
        if join_cells(alloc, &mut self.cells, &mut cells).is_err() {
            return Err(RangeState {
                info,
                cells,
                written,
            });
        }
        reach(&mut self.info, info);
        self.written = together(alloc, self.written.take(), written);
        Ok(())
    }

    /// Gives the range a descriptor, with a lease, of its own id and span.
    pub fn place(&mut self, info: Info)
        requires id { info.desc.id ≡ (self.old).info.desc.id }
        requires span { info.desc.span ≡ (self.old).info.desc.span }
        ensures { self.new ≡ record (self.old) { info = info } }
    {
        self.info = info;
    }
}
