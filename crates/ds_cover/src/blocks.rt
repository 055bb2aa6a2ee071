//! The laws of coverage by blocks.
ghost use Rattle.ds_cover.specs.Laws.{AllInOrder, CoversAll, CutsAtPositions, CutsCovered, CutsKnown, CutsOfAll, CutsProper, DropsEmpty, ExactlyNone, KeepsLeft, PartsRise, RestHasLess, SpansProper, StayCuts, StaysCovered, StaySpans, TakenCovers};

/// The order of the blocks doesn't matter.
pub fn stays_covered()
    ensures { StaysCovered }
{}

/// The positions of the blocks at a key, put together, are those of the items there.
pub fn covers_all()
    ensures { CoversAll }
{}

/// A block without items may go.
pub fn drops_empty()
    ensures { DropsEmpty }
{}

/// A block cut at a span that contains its seek key, forward or in reverse, is two blocks.
pub fn cuts_covered()
    ensures { CutsCovered }
{}

/// A part's items are cuts of themselves, so a part begins as one block of cuts.
pub fn cuts_of_all()
    ensures { CutsOfAll }
{}

/// What is cut of a block of cuts, and what is left of it, are cuts of the part's items again: each
/// with the position, the number and the request of its item, cut to a part of its span.
pub fn stay_cuts()
    ensures { StayCuts }
{}

/// Each item of a block of cuts is a cut of one of the part's items.
pub fn cuts_known()
    ensures { CutsKnown }
{}

/// Where positions rise, each item of a block of cuts is a cut of the item at its position.
pub fn cuts_at_positions()
    ensures { CutsAtPositions }
{}

/// The positions of each part of a batch rise.
pub fn parts_rise()
    ensures { PartsRise }
{}

/// Parts one after another: the positions of all blocks at a key, in order, are those of the parts.
pub fn all_in_order()
    ensures { AllInOrder }
{}

/// Nothing is cut exactly where no key of the span is held.
pub fn exactly_none()
    ensures { ExactlyNone }
{}

/// What is left in a block is what is left in its cut and its rest together.
pub fn keeps_left()
    ensures { KeepsLeft }
{}

/// A cut at a span that contains the seek key takes something: its rest has less than the block.
pub fn rest_has_less()
    ensures { RestHasLess }
{}

/// What is cut of spans of keys, and what is left of them, are spans of keys.
pub fn stay_spans()
    ensures { StaySpans }
{}

/// Whatever is cut of proper items is proper.
pub fn cuts_proper()
    ensures { CutsProper }
{}

/// Items whose spans are spans of keys are proper.
pub fn spans_proper()
    ensures { SpansProper }
{}

/// Under a limit the accepted items, without their resume spans, have at each key the positions that
/// the part's items have there without theirs.
pub fn taken_covers()
    ensures { TakenCovers }
{}
