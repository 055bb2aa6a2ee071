//! The top call: from words and bytes to a status and bytes.
ghost use Rattle.std.specs.Prelude.{◌≡◌, ◌≢◌, [], map, string_bytes, None, IsTrue, ◌↔◌, IfOk, MatchResult};
ghost use Rattle.ds_replay.specs.Built.{first_unbuilt};
ghost use Rattle.distsend.specs.Ends.{Answered, Ends, IsReplay, command};
ghost use Rattle.distsend.specs.Parts.{Judged, Refuses, Replayed, Tells};

use crate::status::Status;
use crate::texts::{fault_text, usage_text};
use ds_base::Text;
use ds_io::{ReadError, Sink, Source, put_all, read_all};
use ds_replay::{first_unbuilt, replay};
use ds_script::{FaultKind, Script, ScriptFault, Settings, read_script};
use ds_text::text;
use std::alloc::{AllocError, Global};

/// Replays the script that the source gives, as the words say, and puts what it prints on the sink.
/// All of it is made before anything is put. Where the words are not the command, nothing is taken
/// from the source. At most one byte more than a script may have is taken before it is refused.
pub fn run<S: Source, K: Sink>(
    alloc: Global,
    words: &[String],
    script: &mut S,
    out: &mut K,
) -> Status
    ensures ends { Ends result (map string_bytes words.now)
        (record { left = S.left script.old; left_after = S.left script.new; faults = S.faults script.old; faults_after = S.faults script.new })
        (record { held = K.held out.old; held_after = K.held out.new; faults = K.faults out.old; faults_after = K.faults out.new }) }
    ensures untouched { map string_bytes words.now ≢ command → script.new ≡ script.old }
{
    let (status, text) = answer(alloc, words, script);
    tell(out, status, &text)
}

/// Puts the text, and answers how the run ends with it.
fn tell<K: Sink>(out: &mut K, status: Status, text: &Text) -> Status
    ensures { Tells status result text.now
        (record { held = K.held out.old; held_after = K.held out.new; faults = K.faults out.old; faults_after = K.faults out.new }) }
{
    match put_all(out, text.as_str().as_bytes()) {
        Ok(()) => status,
        Err(_) => Status::WriteFault,
    }
}

/// The status, and what is put for it.
fn answer<S: Source>(alloc: Global, words: &[String], script: &mut S) -> (Status, Text)
    ensures answered { Answered result.0 (map string_bytes words.now)
        (record { left = S.left script.old; left_after = S.left script.new; faults = S.faults script.old; faults_after = S.faults script.new })
        result.1 }
    ensures untouched { map string_bytes words.now ≢ command → script.new ≡ script.old }
{
    if is_command(words) {
        return answer_source(alloc, script);
    }
    or_memory(alloc, Status::Usage, usage_text(alloc))
}

/// The status, and what is put for it, where the words are the command.
fn answer_source<S: Source>(alloc: Global, script: &mut S) -> (Status, Text)
    ensures { Answered result.0 command
        (record { left = S.left script.old; left_after = S.left script.new; faults = S.faults script.old; faults_after = S.faults script.new })
        result.1 }
{
    match read_all(alloc, script) {
        Ok(bytes) => answer_bytes(alloc, &bytes),
        Err(ReadError::Fault) => (Status::ReadFault, nothing(alloc)),
        Err(ReadError::TooLong) => refused(alloc, 0, FaultKind::TooLong),
        Err(ReadError::Memory(_)) => (Status::Memory, nothing(alloc)),
    }
}

/// What is put for the bytes that the source gave.
fn answer_bytes(alloc: Global, bytes: &[u8]) -> (Status, Text)
    ensures { Judged bytes.now result.0 result.1 }
{
    match read_script(alloc, bytes) {
        Ok(script) => replayed(alloc, &script),
        Err(ScriptFault::Bad { line, kind }) => refused(alloc, line, kind),
        Err(ScriptFault::Memory(_)) => (Status::Memory, nothing(alloc)),
    }
}

/// What is put for a fault.
fn refused(alloc: Global, line: u32, kind: FaultKind) -> (Status, Text)
    ensures { Refuses (record { line = line; kind = kind }) result.0 result.1 }
{
    or_memory(alloc, Status::BadScript, fault_text(alloc, line, kind))
}

fn nothing(alloc: Global) -> Text
    ensures { result ≡ [] }
{
    Text::from_string(String::new(alloc))
}

fn is_command(words: &[String]) -> bool
    ensures { IsTrue result ↔ (map string_bytes words.now ≡ command) }
{
    match words {
        [word] => word.as_str() == "replay",
        _ => false,
    }
}

/// The text of the script's replay.
fn log_text(alloc: Global, script: &Script) -> Result<Text, AllocError>
    requires { first_unbuilt script.now.lines ≡ None }
    ensures { IfOk result (λ t. IsReplay script.now.lines t) }
{
    let settings = Settings {
        cache: 1024,
        budget: 100_000,
    };
    let log = replay(alloc, script, settings)?;
    text(alloc, &log)
}

/// What is put for a script that was read.
fn replayed(alloc: Global, script: &Script) -> (Status, Text)
    ensures { Replayed script.now.lines result.0 result.1 }
{
    match first_unbuilt(script) {
        None => or_memory(alloc, Status::Done, log_text(alloc, script)),
        Some(line) => refused(alloc, line, FaultKind::Shape),
    }
}

/// The status with its text, where there was memory for it.
fn or_memory(alloc: Global, status: Status, text: Result<Text, AllocError>) -> (Status, Text)
    ensures { MatchResult text (λ t. (result.0 ≡ status) × (result.1 ≡ t)) (λ _. (result.0 ≡ Status.Memory) × (result.1 ≡ [])) }
{
    match text {
        Ok(text) => (status, text),
        Err(_) => (Status::Memory, nothing(alloc)),
    }
}
