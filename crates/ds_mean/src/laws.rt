//! The laws as theorems.
ghost use Rattle.ds_mean.specs.Laws.{BeginMeans, CloseMeans, FirstMeans, MovesMean};
ghost use Rattle.ds_mean.specs.Send.{SendLaw, UnsentLaw};

/// Does nothing. Its clause: the world that a cluster begins with means the empty store.
pub fn first_means()
    ensures { FirstMeans }
{}

/// Does nothing. Its clause: whatever a wire may make by itself above the open transaction's stamp, a
/// split, a merge, a lease, a move, an old descriptor, an abort or a write of another client, the world
/// means its store afterwards as before.
pub fn moves_mean()
    ensures { MovesMean }
{}

/// Does nothing. Its clause: where a transaction begins under the next number, the world means the store
/// in which it is open.
pub fn begin_means()
    ensures { BeginMeans }
{}

/// Does nothing. Its clause: where the open transaction ends and it is known what became of it, the
/// world means the store in which what it wrote is a version at its stamp, or is dropped, and says which.
pub fn close_means()
    ensures { CloseMeans }
{}

/// Does nothing. Its clause: for each plain store that the world means, what one call of a sender did
/// without losing a send means the plain store's answer, whatever happened beside it, and the world means
/// the store afterwards. A failure is the store's own, and no answer is in doubt.
pub fn send_law()
    ensures { SendLaw }
{}

/// Does nothing. Its clause: for each plain store that the world means, a batch that breaks a rule, or that
/// the store's transaction refuses, means its answer where nothing is sent.
pub fn unsent_law()
    ensures { UnsentLaw }
{}
