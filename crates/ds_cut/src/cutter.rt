//! What is still to be sent of a part.
ghost use Rattle.std.specs.Prelude.{◌≡◌, ◌↔◌, true, [], None, IfOk, OnOk, OnErr};
ghost use Rattle.std.specs.Option.{option_copied};
ghost use Rattle.ds_cover.specs.Cuts.{seek_key};
ghost use Rattle.ds_cover.specs.Items.{AreProper};
ghost use Rattle.ds_cover.specs.Measures.{AllSpans};
ghost use Rattle.ds_cut.specs.Pieces.{cut_piece, rest_part, piece_with, ContainsSeek, CutsOff};
ghost use Rattle.ds_cut.specs.Within.{none_past};

use crate::fate::fates_of;
use crate::seek::{seek_left, seek_of};
use crate::share::share;
use crate::spans::spans_known;
use crate::within::none_past;
use ds_base::{Copies, Dir, Key, Span};
use ds_desc::RangeDesc;
use ds_kind::{Head, Items, Part, Piece};
use std::alloc::{AllocError, Global};
use std::marker::Model;
use std::mem;

/// What is still to be sent of a part. A contract sees it as a part: the items, cut to what is
/// left of them, and the direction.
#[derive(Drop)]
pub struct Cutter {
    rest: Items,
    dir: Dir,
    /// The key at which the rest is sought. In reverse it is the key after a point, which no
    /// request stores.
    seek: Option<Key>,
}

impl Model for Cutter {
    ghost use Rattle.ds_kind.specs.declared.batch.Part.{Part};
    ghost use Rattle.ds_cover.specs.Cuts.{seek_key};
    ghost use Rattle.ds_cover.specs.Items.{AreProper};
    ghost use Rattle.std.specs.Prelude.{◌≡◌};

    ghost Value = { Part };

    ghost view = { λ c. record { items = c.rest; dir = c.dir } };

    ghost invariant = { λ c. (c.seek ≡ seek_key c.dir c.rest) × AreProper c.rest };
}

/// A piece of these items, if there are any.
fn piece_of(head: Head, range: u32, dir: Dir, items: Items) -> Option<Piece>
    ensures { result ≡ piece_with head range dir items }
{
    if items.len() == 0 {
        return None;
    }
    Some(Piece {
        head,
        range,
        items,
        dir,
    })
}

impl Cutter {
    /// All of the part is still to be sent.
    pub fn new(alloc: Global, part: &Part) -> Result<Cutter, AllocError>
        requires { AreProper part.now.items }
        ensures { IfOk result (λ c. c ≡ part.now) }
    {
        let rest = part.items.copy(alloc)?;
        let seek = seek_of(alloc, part.dir, &rest)?;
        Ok(Cutter {
            rest,
            dir: part.dir,
            seek,
        })
    }

    /// The key at which to look for the next range: going forward the least start of what is left,
    /// in reverse the greatest end. `None` exactly where nothing is left.
    pub fn seek(&self) -> Option<&Key>
        ensures key { option_copied result ≡ seek_key self.now.dir self.now.items }
        ensures none { option_copied result ≡ None ↔ self.now.items ≡ [] }
    {
        self.seek.as_ref()
    }

    /// What is left of each request is a span of keys that is not empty, so that keys can be counted.
    pub fn known(&self)
        ensures { AllSpans self.now.items }
    {
        spans_known(self.rest.as_slice());
    }

    // Whether nothing that is left reaches past the span on the far side.
    fn is_within(&self, span: &Span) -> bool
        ensures { result ≡ none_past self.now.dir span.now self.now.items }
    {
        none_past(self.dir, span, self.rest.as_slice())
    }

    // Moves all that is left into the piece, where nothing reaches past the range. It takes no memory.
    fn take_all(&mut self, alloc: Global, head: &Head, desc: &RangeDesc) -> Option<Piece>
        requires seek { ContainsSeek desc.now self.old }
        requires within { none_past self.old.dir desc.now.span self.old.items ≡ true }
        ensures piece { result ≡ cut_piece head.now desc.now self.old }
        ensures rest { self.new ≡ rest_part desc.now self.old }
        ensures meaning { CutsOff desc.now.span self.old.items result self.new.items }
    {
        self.seek = None;
        let all = mem::replace(&mut self.rest, Items::new(alloc));
        piece_of(*head, desc.id, self.dir, all)
    }

    // Cuts off what lies in the range, where something may be left. All memory is taken first, so that
    // want of it leaves all as it was.
    fn cut_off(
        &mut self,
        alloc: Global,
        head: &Head,
        desc: &RangeDesc,
    ) -> Result<Option<Piece>, AllocError>
        requires { ContainsSeek desc.now self.old }
        ensures piece { IfOk result (λ piece. piece ≡ cut_piece head.now desc.now self.old) }
        ensures rest { OnOk result (self.new ≡ rest_part desc.now self.old) }
        ensures meaning { IfOk result (λ piece. CutsOff desc.now.span self.old.items piece self.new.items) }
        ensures error { OnErr result (self.new ≡ self.old) }
    {
        let fates = fates_of(alloc, self.dir, &desc.span, self.rest.as_slice())?;
        let seek = seek_left(alloc, self.dir, self.rest.as_slice(), fates.as_slice())?;
        let mut cut = Vec::with_capacity(alloc, self.rest.len())?;
        let mut left = Vec::with_capacity(alloc, self.rest.len())?;
        let items = mem::replace(&mut self.rest, Items::new(alloc));
        share(items.into_vec(), fates, &mut cut, &mut left);
        self.rest = Items::from_vec(left);
        self.seek = seek;
        Ok(piece_of(*head, desc.id, self.dir, Items::from_vec(cut)))
    }

    /// Cuts off what lies in the range: the requests cut to its span, in order, with their positions
    /// and numbers. `None` exactly where no key of what is left lies in the span. What lies in the
    /// range or past it is moved; only a request that reaches over an edge of the range is copied.
    /// Want of memory leaves all as it was.
    pub fn next(
        &mut self,
        alloc: Global,
        head: &Head,
        desc: &RangeDesc,
    ) -> Result<Option<Piece>, AllocError>
        requires { ContainsSeek desc.now self.old }
        ensures piece { IfOk result (λ piece. piece ≡ cut_piece head.now desc.now self.old) }
        ensures rest { OnOk result (self.new ≡ rest_part desc.now self.old) }
        ensures meaning { IfOk result (λ piece. CutsOff desc.now.span self.old.items piece self.new.items) }
        ensures error { OnErr result (self.new ≡ self.old) }
    {
        if self.is_within(&desc.span) {
            Ok(self.take_all(alloc, head, desc))
        } else {
            self.cut_off(alloc, head, desc)
        }
    }
}
