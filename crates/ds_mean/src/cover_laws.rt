//! Laws from the coverage of parts by blocks to the order in which a batch's pieces come.
ghost use Rattle.ds_mean.specs.Covering.{BlocksAll, BlocksFirst, BlocksInTurn, BlocksLeft, BlocksShare, PartsAll, PartsInTurn, PartsLeft, PiecesAccepted, TurnsAlike, TurnsJoin};
ghost use Rattle.ds_mean.specs.Parting.{PartsPieces};

/// Does nothing. Its clause: a block of what is left of a part comes next after the blocks that are done.
pub fn blocks_first()
    ensures { BlocksFirst }
{}

/// Does nothing. Its clause: such a block comes next too after whatever has the positions of the blocks
/// that are done.
pub fn blocks_in_turn()
    ensures { BlocksInTurn }
{}

/// Does nothing. Its clause: at each key such a block has all positions of the part, or none.
pub fn blocks_share()
    ensures { BlocksShare }
{}

/// Does nothing. Its clause: blocks that cover a part have all of its positions.
pub fn blocks_all()
    ensures { BlocksAll }
{}

/// Does nothing. Its clause: where some item isn't done, something of the part is left.
pub fn blocks_left()
    ensures { BlocksLeft }
{}

/// Does nothing. Its clause: what comes in turn in a part comes in turn in the batch, where all parts
/// before it are done.
pub fn parts_in_turn()
    ensures { PartsInTurn }
{}

/// Does nothing. Its clause: where a part is done after those before it, they are done together.
pub fn parts_all()
    ensures { PartsAll }
{}

/// Does nothing. Its clause: what is left of a part is left of the batch.
pub fn parts_left()
    ensures { PartsLeft }
{}

/// Does nothing. Its clause: what comes in turn, and then more that does, comes in turn.
pub fn turns_join()
    ensures { TurnsJoin }
{}

/// Does nothing. Its clause: of what was accepted before, the positions alone matter.
pub fn turns_alike()
    ensures { TurnsAlike }
{}

/// Does nothing. Its clause: a piece that was answered Done accepts all of its items.
pub fn pieces_accepted()
    ensures { PiecesAccepted }
{}

/// Does nothing. Its clause: cuts of a part's items, asked by the batch's head in the part's direction,
/// are a piece of the batch, where none of them ends the transaction.
pub fn parts_pieces()
    ensures { PartsPieces }
{}
