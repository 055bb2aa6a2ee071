//! A whole batch, told by its keys.
ghost use Rattle.ds_turn.specs.Cuts.{CutDeed};
ghost use Rattle.ds_turn.specs.Failing.{FailsTurn, TurnsFail};
ghost use Rattle.ds_turn.specs.Keys.{FailsAtKey, FirstFails, GivesAtKeys, KeysGive};
ghost use Rattle.ds_turn.specs.OnePiece.{PieceGives};
ghost use Rattle.ds_turn.specs.Partway.{BatchNumbers};

/// Does nothing. Its clause: a batch that was asked and not refused was refused at no key, and left at
/// each what its items there leave one after another.
pub fn gives_at_keys()
    ensures { GivesAtKeys }
{}

/// Does nothing. Its clause: a batch that is refused at no key is not refused.
pub fn keys_give()
    ensures { KeysGive }
{}

/// Does nothing. Its clause: a batch fails as its first refused item does at the least key that refuses
/// it.
pub fn first_fails()
    ensures { FirstFails }
{}

/// Does nothing. Its clause: a batch that failed was refused at a key, and its failure says so.
pub fn fails_at_key()
    ensures { FailsAtKey }
{}

/// Does nothing. Its clause: a batch whose turn fails at a key, at an earlier position than any other
/// key's or at the same and a key not above, fails so where it is asked at once.
pub fn turns_fail()
    ensures { TurnsFail }
{}

/// Does nothing. Its clause: a batch that failed where it was asked at once failed so: as its first turn
/// that fails, by position and then by key.
pub fn fails_turn()
    ensures { FailsTurn }
{}

/// Does nothing. Its clause: a batch without a transaction, whose one piece is refused at no key in the
/// world, is not refused where it is asked of the store, and leaves, settled, what the world holds but
/// for the foreign writes.
pub fn piece_gives()
    ensures { PieceGives }
{}

/// Does nothing. Its clause: a request cut to a span does at a key what the whole request does there.
pub fn cut_deed()
    ensures { CutDeed }
{}

/// Does nothing. Its clause: the numbers of a batch's items stand in their order, also of those that
/// hold one key.
pub fn batch_numbers()
    ensures { BatchNumbers }
{}
