//! Objects of one member, and lists of two or three.
ghost use Rattle.std.specs.Prelude.{◌≡◌, option_map};
ghost use Rattle.serde_json.specs.View.{view};
ghost use Rattle.ds_fields.specs.Parts.{sole, pair, triple};
ghost use Rattle.ds_fields.specs.Fault.{Gives, need};

use crate::fault::{FaultKind, LineFault};
use serde_json::Value as Json;

/// The name and the value of the one member of an object; `Bad(Shape)` where it isn't such.
pub fn sole(json: &Json) -> Result<(&str, &Json), LineFault>
    ensures { Gives (λ p. (p.0.now, view p.1.now)) result (need (sole (view json.now))) }
{
    match sole_member(json) {
        Some(one) => Ok(one),
        None => Err(LineFault::Bad(FaultKind::Shape)),
    }
}

fn sole_member(json: &Json) -> Option<(&str, &Json)>
    ensures { option_map (λ p. (p.0.now, view p.1.now)) result ≡ sole (view json.now) }
{
    let members = json.as_object()?;
    if members.len() != 1 {
        return None;
    }
    match members.first_key_value() {
        Some((name, value)) => Some((name.as_str(), value)),
        None => None,
    }
}

/// The two items of a list of two; `Bad(Shape)` where it isn't such.
pub fn pair(json: &Json) -> Result<(&Json, &Json), LineFault>
    ensures { Gives (λ p. (view p.0.now, view p.1.now)) result (need (pair (view json.now))) }
{
    match pair_items(json) {
        Some(items) => Ok(items),
        None => Err(LineFault::Bad(FaultKind::Shape)),
    }
}

fn pair_items(json: &Json) -> Option<(&Json, &Json)>
    ensures { option_map (λ p. (view p.0.now, view p.1.now)) result ≡ pair (view json.now) }
{
    let items = json.as_array()?.as_slice();
    if items.len() != 2 {
        return None;
    }
    Some((&items[0], &items[1]))
}

/// The three items of a list of three; `Bad(Shape)` where it isn't such.
pub fn triple(json: &Json) -> Result<(&Json, &Json, &Json), LineFault>
    ensures { Gives (λ p. (view p.0.now, view p.1.now, view p.2.now)) result (need (triple (view json.now))) }
{
    match triple_items(json) {
        Some(items) => Ok(items),
        None => Err(LineFault::Bad(FaultKind::Shape)),
    }
}

fn triple_items(json: &Json) -> Option<(&Json, &Json, &Json)>
    ensures { option_map (λ p. (view p.0.now, view p.1.now, view p.2.now)) result ≡ triple (view json.now) }
{
    let items = json.as_array()?.as_slice();
    if items.len() != 3 {
        return None;
    }
    Some((&items[0], &items[1], &items[2]))
}
