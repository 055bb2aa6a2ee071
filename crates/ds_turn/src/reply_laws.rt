//! The replies of a batch's cuts, and those of the batch asked at once.
ghost use Rattle.ds_turn.specs.Deliveries.{BatchAnswers, PieceReplies, RepliesInTurn};
ghost use Rattle.ds_turn.specs.Replies.{AnswersInTurn, CutAnswers, GatheredAsks, JoinsAnswer};

/// Does nothing. Its clause: an item that is not refused at a key in the middle of a batch answers there
/// as it does in its turn on what the store held before, also where it acted before.
pub fn answers_in_turn()
    ensures { AnswersInTurn }
{}

/// Does nothing. Its clause: what an item answers at each of its keys decides the body of its reply.
pub fn cut_answers()
    ensures { CutAnswers }
{}

/// Does nothing. Its clause: the bodies of a request's cuts, joined over its span, are the body of the
/// whole request, of any kind.
pub fn joins_answer()
    ensures { JoinsAnswer }
{}

/// Does nothing. Its clause: each reply of a piece that a range served, for the first time or again, is
/// that of the item's turn in the batch asked at once.
pub fn piece_replies()
    ensures { PieceReplies }
{}

/// Does nothing. Its clause: where each accepted reply is that of its turn, so are those gathered at one
/// position.
pub fn replies_in_turn()
    ensures { RepliesInTurn }
{}

/// Does nothing. Its clause: a batch of a transaction whose items all acted at each key, in whatever
/// pieces and however often, beside whatever else happened: the store asked at once gives the gathered
/// replies, and holds afterwards what the world holds but for the foreign writes since.
pub fn batch_answers()
    ensures { BatchAnswers }
{}

/// Does nothing. Its clause: replies gathered of cuts that each answer in their turn are those of the
/// batch asked at once.
pub fn gathered_asks()
    ensures { GatheredAsks }
{}
