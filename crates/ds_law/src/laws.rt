//! The laws as theorems.
ghost use Rattle.ds_law.specs.Laws.{MoveLaw};
ghost use Rattle.ds_rule.specs.Law.{ReadLaw, WholeLaw};

/// Does nothing: its clause is the law of moves. Whatever a wire may make by itself above the open
/// transaction's stamp, a split, a merge, a lease, a move, an old descriptor, an abort or a write of
/// another client, the world stands for its store afterwards as before. No copy is under way where a
/// world stands for a store, so that the arrival of one does nothing here.
pub fn move_law()
    ensures { MoveLaw }
{}

/// Does nothing: its clause is the law of a batch that only reads and goes request by request. What a
/// call did means the plain store's answer, whatever happened beside it.
pub fn read_law()
    ensures { ReadLaw }
{}

/// Does nothing: its clause is the law of a batch in one piece. Where the call met nothing but its own
/// steps, what it did means the plain store's answer, and a failure is the store's own.
pub fn whole_law()
    ensures { WholeLaw }
{}
