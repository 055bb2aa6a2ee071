//! The text of a log, and of a fault.
ghost use Rattle.std.specs.Prelude.{◌≡◌, [], ◌∷◌, true, map, Some, IfOk, OnOk, string_bytes};
ghost use Rattle.std.specs.Str.Lines.{lines};
ghost use Rattle.serde_json.specs.Read.{read, max_depth};
ghost use Rattle.serde_json.specs.View.{view};
ghost use Rattle.ds_text.specs.Log.{text_of, log_objects, has_texts, entry_has_text, objects_of, steps_objects, line_text};
ghost use Rattle.ds_text.specs.Faults.{kind_text, names_line, fault_data};
ghost use Rattle.ds_text.specs.Lines.{fault_line};
ghost use Rattle.ds_text.specs.Prints.{Prints, Plain};

use crate::lines::{answer_object, closed_object, fault_object, restarted_object, step_json};
use ds_base::Text;
use ds_rule::{Entry, JournalStep, RunLog};
use ds_script::{FaultKind, ScriptFault};
use serde_json::Value as Json;
use std::alloc::{AllocError, Global};

/// The text of the log: a line for each step, answer, close and restart. No outcome of the log may
/// be want of memory, which has no text. Read line by line, the text gives the lines' objects
/// again. The one refusal is want of memory for the text.
#[tactic(auto, unfolding(crate::specs::Log::text_of))]
pub fn text(alloc: Global, log: &RunLog) -> Result<Text, AllocError>
    requires { has_texts log.now ≡ true }
    ensures text { IfOk result (λ t. t ≡ text_of log.now) }
    ensures reads_back { IfOk result (λ t. map read (lines t) ≡ map Some (log_objects log.now)) }
{
    let mut out = String::new(alloc);
    for entry in log.as_slice() {
        put_entry(alloc, &mut out, entry)?;
    }
    Ok(Text::from_string(out))
}

/// The text of a fault: its kind, and the line of the script. The fault may not be want of memory,
/// which has no text. Read again, the line gives its object. The one refusal is want of memory for
/// the text.
pub fn fault_text(alloc: Global, fault: &ScriptFault) -> Result<Text, AllocError>
    requires { names_line fault.now ≡ true }
    ensures text { IfOk result (λ t. t ≡ line_text (fault_data fault.now)) }
    ensures reads_back { IfOk result (λ t. map read (lines t) ≡ Some (fault_data fault.now) ∷ []) }
{
    match fault {
        ScriptFault::Bad { line, kind } => named_fault(alloc, kind_name(*kind), *line),
        ScriptFault::Memory(_) => unreachable!(),
    }
}

/// The name of a kind of fault.
fn kind_name(kind: FaultKind) -> &'static str
    ensures { result.now ≡ kind_text kind }
{
    match kind {
        FaultKind::TooLong => "too_long",
        FaultKind::Json => "json",
        FaultKind::Shape => "shape",
        FaultKind::Range => "range",
        FaultKind::Order => "order",
        FaultKind::LowWrite => "low_write",
        FaultKind::TxnOpen => "txn_open",
    }
}

/// The text of a fault of this kind.
fn named_fault(alloc: Global, kind: &str, line: u32) -> Result<Text, AllocError>
    ensures text { IfOk result (λ t. t ≡ line_text (fault_line kind.now line)) }
    ensures reads_back { IfOk result (λ t. map read (lines t) ≡ Some (fault_line kind.now line) ∷ []) }
{
    let mut out = String::new(alloc);
    put_line(alloc, &mut out, &fault_object(alloc, kind, line)?)?;
    Ok(Text::from_string(out))
}

/// Adds the lines of an entry.
fn put_entry(alloc: Global, out: &mut String, entry: &Entry) -> Result<(), AllocError>
    requires { entry_has_text entry.now ≡ true }
    ensures { OnOk result (Prints (string_bytes out.old) (objects_of entry.now) (string_bytes out.new)) }
{
    match entry {
        Entry::Batch {
            line,
            steps,
            outcome,
        } => {
            put_steps(alloc, out, *line, steps.as_slice())?;
            put_line(alloc, out, &answer_object(alloc, *line, outcome)?)
        }
        Entry::Closed { line, status } => {
            put_line(alloc, out, &closed_object(alloc, *line, *status)?)
        }
        Entry::Restarted { line, epoch } => {
            put_line(alloc, out, &restarted_object(alloc, *line, *epoch)?)
        }
    }
}

/// Adds a line for each step of a batch.
fn put_steps(
    alloc: Global,
    out: &mut String,
    line: u32,
    steps: &[JournalStep],
) -> Result<(), AllocError>
    ensures { OnOk result (Prints (string_bytes out.old) (steps_objects line steps.now) (string_bytes out.new)) }
{
    for (index, step) in steps.iter().enumerate() {
        let json = step_json(alloc, line, index as u64 + 1, step)?;
        put_line(alloc, out, &json)?;
    }
    Ok(())
}

/// Adds a line: the object without spaces, and a newline.
fn put_line(alloc: Global, out: &mut String, json: &Json) -> Result<(), AllocError>
    requires { Plain max_depth (view json.now) }
    ensures { OnOk result (Prints (string_bytes out.old) (view json.now ∷ []) (string_bytes out.new)) }
{
    let line = json.to_string(alloc)?;
    out.push_str(line.as_str())?;
    out.push('\n')?;
    Ok(())
}
