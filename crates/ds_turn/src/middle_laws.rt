//! The middle of a batch at one key: what each step makes of it.
ghost use Rattle.ds_turn.specs.Partway.{PartwayActs, PartwayAgain, PartwayBegins, PartwayForeign, PartwayRefused, PartwayRolledBack};

/// Does nothing. Its clause: before a batch nothing of it is done.
pub fn partway_begins()
    ensures { PartwayBegins }
{}

/// Does nothing. Its clause: another client's write joins those that came since the batch began.
pub fn partway_foreign()
    ensures { PartwayForeign }
{}

/// Does nothing. Its clause: the next item acts, and answers as it would alone.
pub fn partway_acts()
    ensures { PartwayActs }
{}

/// Does nothing. Its clause: an item that acted before acts again: it answers as it did, and nothing
/// changes.
pub fn partway_again()
    ensures { PartwayAgain }
{}

/// Does nothing. Its clause: a rollback in the middle of a batch, or after it failed, leaves what a
/// rollback before the batch leaves, and the foreign writes since.
pub fn partway_rolled_back()
    ensures { PartwayRolledBack }
{}

/// Does nothing. Its clause: the next item is refused: the batch asked at once fails so at this key, as
/// too old where the foreign writes that came since are made first.
pub fn partway_refused()
    ensures { PartwayRefused }
{}
