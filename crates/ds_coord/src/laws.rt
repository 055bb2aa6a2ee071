//! What the client knows of its transaction is what the plain store knows of it. The functions do nothing;
//! their clauses are the laws.
ghost use Rattle.ds_coord.specs.Agrees.{BatchAgrees, BeginAgrees, EventsAgree, RefusalsAgree};

/// Does nothing. Its clause: a transaction that has asked nothing yet agrees with the store's.
pub fn begin_agrees()
    ensures { BeginAgrees }
{}

/// Does nothing. Its clause: where they agree, the client refuses what the store refuses, and answers the same.
pub fn refusals_agree()
    ensures { RefusalsAgree }
{}

/// Does nothing. Its clause: they still agree after a batch was answered, whatever the answer.
pub fn batch_agrees()
    ensures { BatchAgrees }
{}

/// Does nothing. Its clause: they still agree after what happens beside the client's batches.
pub fn events_agree()
    ensures { EventsAgree }
{}
