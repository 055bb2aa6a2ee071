//! Pieces served at their ranges.
ghost use Rattle.std.specs.Prelude.{◌≡◌, ◌<◌, [], find, length, true, Some, IfOk, OnOk, OnErr};
ghost use Rattle.std.specs.List.{list_all, slice_get, slice_set};
ghost use Rattle.ds_kind.specs.Asks.{has_proper_span};
ghost use Rattle.ds_kind.specs.Parts.{requests_of};
ghost use Rattle.ds_range.specs.Keeps.{restored};
ghost use Rattle.ds_rule.specs.World.{Range, Tiles, has_id};
ghost use Rattle.ds_serve.specs.Ends.{reopened};
ghost use Rattle.ds_ranges.specs.Layout.{layout};
ghost use Rattle.ds_ranges.specs.Serving.{Applies, HoldsItems, ServesPiece, after_piece, put_back_at};

use crate::find::place_with;
use crate::ranges::Ranges;
use crate::slot::Slot;
use ds_kind::Piece;
use ds_range::{Evaluation, PieceUndo};
use ds_rule::Records;
use ds_serve::reopen;
use std::alloc::{AllocError, Global};

/// Serves the piece at the range at the place.
fn apply_at(
    alloc: Global,
    ranges: &mut Vec<Slot>,
    at: usize,
    records: &mut Records,
    piece: &Piece,
) -> Result<Evaluation, AllocError>
    requires within { at < length (ranges.old).items }
    requires proper { list_all has_proper_span (requests_of piece.now.items) ≡ true }
    ensures ok { IfOk result (λ e. (r : Range) → slice_get (ranges.old).items at ≡ Some r → ServesPiece piece.now records.old records.new r e) }
    ensures after { OnOk result ((r : Range) → slice_get (ranges.old).items at ≡ Some r → (ranges.new).items ≡ slice_set (ranges.old).items at (record r { cells = after_piece piece.now records.old r })) }
    ensures err { OnErr result ((ranges.new).items ≡ (ranges.old).items) }
    ensures err_records { OnErr result (records.new ≡ records.old) }
{
    let range = &mut ranges[at];
    let evaluation = range.apply(alloc, records, piece)?;
    Ok(evaluation)
}

/// Puts back what was kept of the range at the place, and the record that was ended.
fn undo_at(ranges: &mut Vec<Slot>, at: usize, records: &mut Records, undo: PieceUndo)
    requires { at < length (ranges.old).items }
    ensures ranges { (r : Range) → slice_get (ranges.old).items at ≡ Some r → (ranges.new).items ≡ slice_set (ranges.old).items at (record r { cells = restored undo.kept r.cells }) }
    ensures records { records.new ≡ reopened undo.ended records.old }
{
    let range = &mut ranges[at];
    range.undo(records, undo);
}

impl Ranges {
    /// Serves the piece at the range with its id, by the records, and lets its ends change these; `None`
    /// where no range has the id. Where the range does not hold all items the piece is not to be served, and
    /// each request's span must be proper. A failure and want of memory leave all as it was.
    pub fn apply(
        &mut self,
        alloc: Global,
        records: &mut Records,
        piece: &Piece,
    ) -> Result<Option<Evaluation>, AllocError>
        requires proper { list_all has_proper_span (requests_of piece.now.items) ≡ true }
        requires holds { HoldsItems piece.now (find (has_id piece.now.range) (self.old).ranges) }
        ensures ok { IfOk result (λ o. Applies piece.now records.old records.new self.old self.new o) }
        ensures err { OnErr result (self.new ≡ self.old) }
        ensures err_records { OnErr result (records.new ≡ records.old) }
    {
        let (ranges, places) = (self.items.as_slice(), self.places.as_slice());
        match place_with(ranges, places, &self.lineage, piece.range) {
            Some(at) => Ok(Some(apply_at(alloc, &mut self.items, at, records, piece)?)),
            None => Ok(None),
        }
    }

    /// Puts back what was kept of the range with the id, the last first, and the record that was ended. It
    /// takes no memory.
    pub fn undo(&mut self, records: &mut Records, id: u32, undo: PieceUndo)
        requires { Tiles [] (put_back_at id undo.kept (self.old).ranges) }
        ensures ranges { self.new ≡ layout (put_back_at id undo.kept (self.old).ranges) (self.old).descs }
        ensures records { records.new ≡ reopened undo.ended records.old }
    {
        let (ranges, places) = (self.items.as_slice(), self.places.as_slice());
        match place_with(ranges, places, &self.lineage, id) {
            Some(at) => undo_at(&mut self.items, at, records, undo),
            None => reopen(records, undo.ended),
        }
    }
}
