//! How far a batch got, at one key and at all keys, with losses and late copies.
ghost use Rattle.ds_turn.specs.Deliveries.{PieceFails, PieceGoes, ServesAsked};
ghost use Rattle.ds_turn.specs.Progress.{BatchBegins, BatchEnds, BatchGoes, BatchRefused, BatchStays, BatchWritten, BlockGoes, CutsGoAgain, CutsGoOn, ProgressKept};

/// Does nothing. Its clause: where the batch's items act in their order at a key, any of those that
/// acted acts again, and none is refused, the world holds what the items leave of the store's content,
/// and the foreign writes since.
pub fn progress_kept()
    ensures { ProgressKept }
{}

/// Does nothing. Its clause: a piece's items at a key, at the positions of the next items there, act as
/// these in their order.
pub fn cuts_go_on()
    ensures { CutsGoOn }
{}

/// Does nothing. Its clause: a piece's items at a key, at positions of items that acted, act again.
pub fn cuts_go_again()
    ensures { CutsGoAgain }
{}

/// Does nothing. Its clause: at a key of which a piece has all of its part's positions or none, the
/// piece acts as the part's items there, in their turn or again: so none of them or all have acted,
/// before it and after.
pub fn block_goes()
    ensures { BlockGoes }
{}

/// Does nothing. Its clause: before a batch nothing of it acted, at any key.
pub fn batch_begins()
    ensures { BatchBegins }
{}

/// Does nothing. Its clause: whatever happens at the keys, the batch is as far along afterwards as its
/// items acted, as long as none was refused.
pub fn batch_goes()
    ensures { BatchGoes }
{}

/// Does nothing. Its clause: without a limit, and where no item resolves intents, a range serves items
/// as a store is asked, whatever the records say.
pub fn serves_asked()
    ensures { ServesAsked }
{}

/// Does nothing. Its clause: a piece of a transaction that a range served, for the first time or again,
/// brings the batch as far as the piece's items reach, and no further.
pub fn piece_goes()
    ensures { PieceGoes }
{}

/// Does nothing. Its clause: a piece failed because the batch's turn at a key fails with that fault at
/// that position; as too old, where the foreign writes that came to the key since the batch began are
/// made first.
pub fn piece_fails()
    ensures { PieceFails }
{}

/// Does nothing. Its clause: what changes no key, as a split, a merge, a lease or a move, leaves the
/// batch as far along as it was.
pub fn batch_stays()
    ensures { BatchStays }
{}

/// Does nothing. Its clause: another client's write at one key joins those that came there since the
/// batch began.
pub fn batch_written()
    ensures { BatchWritten }
{}

/// Does nothing. Its clause: a batch whose items all acted at each key, in whatever pieces and however
/// often, asked at once of the store is not refused, and leaves what the world holds but for the foreign
/// writes.
pub fn batch_ends()
    ensures { BatchEnds }
{}

/// Does nothing. Its clause: the batch's turn at a key fails where the next item there is refused in the
/// world: with the same fault, and as too old where the key's foreign writes so far are made first.
pub fn batch_refused()
    ensures { BatchRefused }
{}
