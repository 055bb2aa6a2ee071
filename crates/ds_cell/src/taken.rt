//! What a change took from a cell, so that it can be given back.
use crate::cell::Cell;
use ds_base::{ListOf, Seq, Stamp};

/// Stamps in the order in which they came.
pub type Stamps = ListOf<Stamp>;

/// What a change took from a cell. It grows with the writes that stand there, not with the versions.
#[derive(Drop)]
pub enum Taken {
    /// The cell is as it was.
    Nothing,
    /// A write was added under this number.
    Write(Seq),
    /// These writes, of another transaction or epoch, made room for a new one. The cell that holds
    /// them has nothing else.
    Writes(Cell),
    /// An intent with the writes that waited for it was settled, and versions were made at these
    /// stamps. The cell that holds the intent has no versions.
    Intent(Cell, Stamps),
}
