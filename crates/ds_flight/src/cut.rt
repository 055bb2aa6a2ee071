//! Cuts a rest at its route, and makes a piece a rest again.
ghost use Rattle.std.specs.Prelude.{◌≡◌, ◌≤◌, ◌<◌, length, OnOk};
ghost use Rattle.std.specs.List.{insert};
ghost use Rattle.ds_cover.specs.Items.{AreProper};
ghost use Rattle.ds_cut.specs.Pieces.{ContainsSeek};
ghost use Rattle.ds_flight.specs.Places.{given_back, lies_in_one, CutAt};

use crate::places::place;
use crate::take_off::take_off;
use crate::work::Task;
use ds_base::Span;
use ds_cache::Token;
use ds_cut::Cutter;
use ds_desc::Info;
use ds_kind::{Head, Part, Piece};
use ds_retry::Rule;
use std::alloc::{AllocError, Global};

/// Whether what must lie in one range, if anything, lies in this span.
pub(crate) fn lies_in_one(rule: &Rule, span: &Span) -> bool
    ensures { result ≡ lies_in_one rule.now.whole span.now }
{
    match &rule.whole {
        Some(whole) => span.holds(whole),
        None => true,
    }
}

/// Cuts the rest at its route, and puts the piece and what is left of it in the rest's place.
pub(crate) fn cut_at(
    alloc: Global,
    work: &mut Vec<Task>,
    at: usize,
    rest: Cutter,
    head: &Head,
    info: &Info,
    token: Token,
) -> Result<(), AllocError>
    requires place { at ≤ length work.old.items }
    requires seek { ContainsSeek info.now.desc rest }
    requires some { 0 < length rest.items }
    ensures { OnOk result (CutAt head.now info.now rest token at work.old.items work.new.items) }
{
    let mut rest = rest;
    let flying = take_off(alloc, &mut rest, head, info, token)?;
    place(work, at, flying, rest)
}

/// The piece becomes a rest in its place.
pub(crate) fn give_back(
    alloc: Global,
    work: &mut Vec<Task>,
    at: usize,
    piece: &Piece,
) -> Result<(), AllocError>
    requires place { at ≤ length work.old.items }
    requires proper { AreProper piece.now.items }
    ensures { OnOk result (work.new.items ≡ insert work.old.items at (given_back piece.now)) }
{
    let part = Part::of_piece(alloc, piece)?;
    let rest = Cutter::new(alloc, &part)?;
    work.insert(at, Task::Rest(rest))?;
    Ok(())
}
