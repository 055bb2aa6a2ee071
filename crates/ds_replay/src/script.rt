//! The replay of a script.
ghost use Rattle.std.specs.Prelude.{◌≡◌, true, None, IfOk};
ghost use Rattle.ds_script.specs.Journals.{LegalJournal};
ghost use Rattle.ds_script.specs.PlainRuns.{PlainRun};
ghost use Rattle.ds_text.specs.Log.{has_texts};
ghost use Rattle.ds_replay.specs.Built.{first_unbuilt};
ghost use Rattle.ds_replay.specs.Causes.{AllCaused};
ghost use Rattle.ds_replay.specs.Gathers.{AllGathered};

use crate::lines::take;
use crate::state::State;
use ds_rule::RunLog;
use ds_script::{Script, Settings};
use ds_send::Sender;
use std::alloc::{AllocError, Global};

/// Replays the script against a simulated cluster: the log of its batches and closes. The journal
/// is legal, each Ok answer is gathered of what its pieces were answered, and the answers are those
/// of one plain store asked the same batches in order; the steps show why each was given.
pub fn replay(alloc: Global, script: &Script, settings: Settings) -> Result<RunLog, AllocError>
    requires { first_unbuilt script.now.lines ≡ None }
    ensures journal { IfOk result (λ log. LegalJournal script.now.lines log) }
    ensures gathered { IfOk result (λ log. AllGathered script.now.lines log) }
    ensures plain { IfOk result (λ log. PlainRun script.now.lines log) }
    ensures causes { IfOk result (λ log. AllCaused settings.budget script.now.lines log) }
    ensures texts { IfOk result (λ log. has_texts log ≡ true) }
{
    let mut sender = Sender::new(alloc, settings.cache, settings.budget)?;
    let mut log = RunLog::new(alloc);
    let mut state = State::Start;
    'lines: for numbered in script.lines.as_slice() {
        state = take(alloc, state, &mut sender, numbered, &mut log)?;
    }
    Ok(log)
}
