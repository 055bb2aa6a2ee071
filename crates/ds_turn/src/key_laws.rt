//! What a batch's items do at one key beside other clients' writes.
ghost use Rattle.ds_turn.specs.Alone.{ActsAlone, FailsAlone, FailsOld, SameCourse};
ghost use Rattle.ds_turn.specs.KeyIs.{AnyStamp, FromToday};
ghost use Rattle.ds_turn.specs.Partway.{AskedAgain};
ghost use Rattle.ds_turn.specs.Settling.{PieceAlone, SettlesAlike};

/// Does nothing. Its clause: the world at a key goes step by step with a store that makes each foreign
/// write at once: the same answers and writes, and the same refusals. What waits in the world is in that
/// store already.
pub fn same_course()
    ensures { SameCourse }
{}

/// Does nothing. Its clause: where no item was refused, the items alone answer and write the same on
/// what the store held before, and that content, with the foreign writes made afterwards, is what the
/// world holds.
pub fn acts_alone()
    ensures { ActsAlone }
{}

/// Does nothing. Its clause: an item that was refused, but not as too old, is refused so where the items
/// are asked alone.
pub fn fails_alone()
    ensures { FailsAlone }
{}

/// Does nothing. Its clause: an item that was refused as too old is refused so, with the same stamp,
/// where the foreign writes that had come by then are made first; and the batch had written nothing at
/// the key.
pub fn fails_old()
    ensures { FailsOld }
{}

/// Does nothing. Its clause: an item that is asked again under its number answers as it did and writes
/// nothing, whatever later items and other clients wrote since.
pub fn asked_again()
    ensures { AskedAgain }
{}

/// Does nothing. Its clause: where a transaction's intent is settled in the world and in the store, with
/// a commit at the stamp or below or with none, the two stay as they were to each other.
pub fn settles_alike()
    ensures { SettlesAlike }
{}

/// Does nothing. Its clause: a piece of a batch without a transaction, which settles what it wrote,
/// between foreign writes: the same as the piece alone, and the foreign writes afterwards.
pub fn piece_alone()
    ensures { PieceAlone }
{}

/// Does nothing. Its clause: where the stamps of a key's versions rise, what a world that stands for a
/// store holds there is as [`same_course`] and the other laws want it.
pub fn from_today()
    ensures { FromToday }
{}

/// Does nothing. Its clause: at a key without an intent, any stamp may be the floor.
pub fn any_stamp()
    ensures { AnyStamp }
{}
