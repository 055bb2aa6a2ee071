//! Reading one line.
ghost use Rattle.std.specs.Prelude.{◌≡◌, true, IfOk};
ghost use Rattle.ds_fields.specs.Fault.{Reads};
ghost use Rattle.ds_script.specs.Limits.{line_fits};
ghost use Rattle.ds_script.specs.Lines.{line_of, line_under};

use crate::form::form_of;
use crate::limits::line_fits;
use crate::line::Line;
use ds_base::Key;
use ds_fields::{FaultKind, LineFault, json_of};
use std::alloc::Global;

/// Reads one line of a script whose cluster has this many nodes.
///
/// `Bad(Json)`: the bytes are no JSON text in UTF-8. `Bad(Shape)`: the JSON is no line of a script.
/// `Bad(Range)`: something in it is outside its limits. Of several the first in this order is
/// answered. An end of the transaction has the empty key here; a script puts the anchor there.
pub fn read_line(alloc: Global, line: &[u8], nodes: u8) -> Result<Line, LineFault>
    ensures { Reads result (line_of nodes line.now) }
{
    let anchor = Key::least(alloc);
    line_under(alloc, &anchor, nodes, line)
}

/// Reads one line while a transaction with this anchor is open.
#[tactic(auto, unfolding(crate::specs::Lines::line_under))]
pub(crate) fn line_under(
    alloc: Global,
    anchor: &Key,
    nodes: u8,
    line: &[u8],
) -> Result<Line, LineFault>
    ensures read { Reads result (line_under anchor.now nodes line.now) }
    ensures fits { IfOk result (λ l. line_fits nodes l ≡ true) }
{
    let json = json_of(alloc, line)?;
    match form_of(alloc, anchor, &json)? {
        Some(line) if line_fits(nodes, &line) => Ok(line),
        _ => Err(LineFault::Bad(FaultKind::Range)),
    }
}
