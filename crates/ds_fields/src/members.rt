//! The JSON of a line, and the members of its objects.
ghost use Rattle.std.specs.Prelude.{◌≡◌, ◌++◌, map, option_map, codes};
ghost use Rattle.serde_json.specs.View.{view, members_view};
ghost use Rattle.serde_json.specs.Find.{get};
ghost use Rattle.ds_fields.specs.Fault.{Gives, Reads, need};
ghost use Rattle.ds_fields.specs.Members.{json_of, is_named, all_named, has_only, optional, bool_of, op_of};

use crate::fault::{FaultKind, LineFault};
use serde_json::{Map, Value as Json};
use std::alloc::{AllocError, Global};

/// The JSON that the bytes are; `Bad(Json)` exactly where they are none.
#[tactic(auto, unfolding(crate::specs::Members::json_of))]
pub fn json_of(alloc: Global, line: &[u8]) -> Result<Json, LineFault>
    ensures { Gives view result (json_of line.now) }
{
    let Ok(text) = str::from_utf8(line) else {
        return Err(LineFault::Bad(FaultKind::Json));
    };
    match Json::from_str(alloc, text) {
        Ok(json) => Ok(json),
        Err(e) if e.is_memory() => Err(LineFault::Memory(AllocError)),
        Err(_) => Err(LineFault::Bad(FaultKind::Json)),
    }
}

/// The member of this name; `Bad(Shape)` exactly where there is none.
pub fn member<'v>(json: &'v Json, name: &str) -> Result<&'v Json, LineFault>
    ensures { Gives (λ v. view v.now) result (need (get name.now (view json.now))) }
{
    match json.get(name) {
        Some(value) => Ok(value),
        None => Err(LineFault::Bad(FaultKind::Shape)),
    }
}

/// The member of this name, if there is one.
pub fn optional_member<'v>(json: &'v Json, name: &str) -> Option<&'v Json>
    ensures { option_map (λ v. view v.now) result ≡ get name.now (view json.now) }
{
    json.get(name)
}

/// The text of the member `op`, which says what the object is; `Bad(Shape)` exactly where there is none.
#[tactic(auto, unfolding(crate::specs::Members::op_of))]
pub fn op_of(json: &Json) -> Result<&str, LineFault>
    ensures { Gives (λ s. s.now) result (op_of (view json.now)) }
{
    match json.get("op").and_then(Json::as_str) {
        Some(op) => Ok(op),
        None => Err(LineFault::Bad(FaultKind::Shape)),
    }
}

/// Whether this is an object whose members all have one of the names.
pub fn has_only(json: &Json, common: &[&str], names: &[&str]) -> bool
    ensures { result ≡ has_only (map (λ n. n.now) common.now ++ map (λ n. n.now) names.now) (view json.now) }
{
    match json.as_object() {
        Some(members) => all_named(members, common, names),
        None => false,
    }
}

fn all_named(members: &Map<String, Json>, common: &[&str], names: &[&str]) -> bool
    ensures { result ≡ all_named (map (λ n. n.now) common.now ++ map (λ n. n.now) names.now) (members_view members.now.entries) }
{
    for (name, _) in members {
        if !is_named(name.as_str(), common) && !is_named(name.as_str(), names) {
            return false;
        }
    }
    true
}

fn is_named(name: &str, names: &[&str]) -> bool
    ensures { result ≡ is_named (map (λ n. n.now) names.now) name.now }
{
    names.iter().any(|one| name == *one)
}

/// The flag that a member is; where there is none, the default.
pub fn flag_of(json: Option<&Json>, default: bool) -> Result<Option<bool>, LineFault>
    ensures { Reads result (optional bool_of default (option_map (λ v. view v.now) json.entry)) }
{
    match json {
        None => Ok(Some(default)),
        Some(value) => match value.as_bool() {
            Some(flag) => Ok(Some(flag)),
            None => Err(LineFault::Bad(FaultKind::Shape)),
        },
    }
}
