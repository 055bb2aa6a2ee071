//! The parts that a batch is sent in.
ghost use Rattle.std.specs.Prelude.{◌≡◌, ◌++◌, ◌∷◌, ◌&&◌, not, true, [], length, IfOk, OnOk};
ghost use Rattle.ds_kind.specs.Asks.{is_end, has_proper_span, knows_limit, acts};
ghost use Rattle.ds_kind.specs.Parts.{may_join, part_of, parts_of, requests_of, AreParts, EachRequest};
ghost use Rattle.ds_legal.specs.Placing.{IsPlaced};
ghost use Rattle.std.specs.List.{list_any};
ghost use Rattle.std.specs.Option.{is_some};

use crate::asks;
use crate::legal::Legal;
use crate::mix::Mix;
use ds_base::{Copies, Dir, Seq};
use ds_kind::{Item, Items, Part, Parts, Request, Seqs};
use std::alloc::{AllocError, Global};
use std::marker::Model;
use std::mem;

/// The last part so far, which more items may join. A contract sees its items.
#[derive(Drop)]
struct Open {
    items: Items,
    mix: Mix,
}

impl Model for Open {
    ghost use Rattle.std.specs.Prelude.{◌≡◌, List};
    ghost use Rattle.ds_kind.specs.declared.batch.Item.{Item};
    ghost use Rattle.ds_legal.specs.Mix.{mix_of};
    ghost use Rattle.ds_kind.specs.Parts.{requests_of};

    ghost Value = { List Item };

    ghost view = { λ o. o.items };

    ghost invariant = { λ o. o.mix ≡ mix_of (requests_of o.items) };
}

/// Whether the request is an end that is not split off.
fn may_follow(request: &Request, split_end: bool) -> bool
    ensures { result ≡ (not split_end && is_end request.now) }
{
    !split_end && asks::is_end(request)
}

impl Open {
    fn new(alloc: Global) -> Open
        ensures { result ≡ [] }
    {
        Open {
            items: Items::new(alloc),
            mix: Mix::new(),
        }
    }

    /// Whether the request may join.
    fn takes(&self, request: &Request, split_end: bool) -> bool
        ensures { result ≡ may_join split_end (requests_of self.now) request.now }
    {
        if may_follow(request, split_end) {
            !self.mix.alone
        } else {
            self.mix.fits(request.flags())
        }
    }

    fn add(&mut self, alloc: Global, item: Item) -> Result<(), AllocError>
        ensures { OnOk result (self.new ≡ self.old ++ item ∷ []) }
    {
        let mix = self.mix.with(item.request.flags());
        self.items.push(alloc, item)?;
        self.mix = mix;
        Ok(())
    }

    fn into_part(self) -> Part
        ensures { result ≡ part_of self }
    {
        let dir = if self.mix.reverse {
            Dir::Reverse
        } else {
            Dir::Forward
        };
        Part {
            items: self.items,
            dir,
        }
    }
}

/// Puts the item into the last part where it may join, else begins another part with it.
fn place(
    alloc: Global,
    parts: &mut Parts,
    last: &mut Open,
    item: Item,
    split_end: bool,
) -> Result<(), AllocError>
    ensures { OnOk result (IsPlaced split_end item parts.old last.old parts.new last.new) }
{
    if !last.takes(&item.request, split_end) {
        let full = mem::replace(last, Open::new(alloc));
        parts.push(alloc, full.into_part())?;
    }
    last.add(alloc, item)
}

/// The requests in parts that may be sent one after another, with their positions and numbers.
///
/// A request joins the last part where it may stand with each request there, else it begins a part.
/// An end of the transaction that is not split off joins the last part unless a request there stands
/// alone. A part goes in reverse where it holds a reverse scan. The one refusal is want of memory.
pub fn parts(
    alloc: Global,
    legal: &Legal<'_>,
    seqs: &Seqs,
    split_end: bool,
) -> Result<Parts, AllocError>
    requires { length seqs.now ≡ length legal.now.requests }
    ensures parts { IfOk result (λ ps. ps ≡ parts_of split_end legal.now.requests seqs.now) }
    ensures law { IfOk result (λ ps. AreParts split_end legal.now.requests seqs.now ps) }
    ensures spans { IfOk result (λ ps. EachRequest has_proper_span ps) }
    ensures limited { is_some legal.now.limit ≡ true → IfOk result (λ ps. (length ps ≡ 1) × EachRequest knows_limit ps) }
    ensures acting { is_some legal.now.at ≡ true → list_any acts legal.now.requests ≡ true → IfOk result (λ ps. length ps ≡ 1) }
{
    let requests = legal.batch().requests.as_slice();
    let seqs = seqs.as_slice();
    let mut parts = Parts::new(alloc);
    let mut last = Open::new(alloc);
    for (i, request) in requests.iter().enumerate() {
        let item = Item {
            pos: i as u32,
            seq: seqs[i],
            request: request.copy(alloc)?,
        };
        place(alloc, &mut parts, &mut last, item, split_end)?;
    }
    parts.push(alloc, last.into_part())?;
    Ok(parts)
}
