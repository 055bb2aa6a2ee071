//! The lines that say why nothing was replayed.
ghost use Rattle.std.specs.Prelude.{◌≡◌, IfOk};
ghost use Rattle.distsend.specs.Texts.{fault_text, usage_text};

use ds_base::Text;
use ds_script::{FaultKind, ScriptFault};
use std::alloc::{AllocError, Global};

/// The line of a fault.
pub(crate) fn fault_text(alloc: Global, line: u32, kind: FaultKind) -> Result<Text, AllocError>
    ensures { IfOk result (λ t. t ≡ fault_text (record { line = line; kind = kind })) }
{
    ds_text::fault_text(alloc, &ScriptFault::Bad { line, kind })
}

/// The line for words that are no command.
pub(crate) fn usage_text(alloc: Global) -> Result<Text, AllocError>
    ensures { IfOk result (λ t. t ≡ usage_text) }
{
    Text::of(alloc, "{\"fault\":\"usage\"}\n")
}
