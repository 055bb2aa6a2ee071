//! Keys, numbers and values.
ghost use Rattle.std.specs.Prelude.{◌≡◌, Some, None, option_map, IfOk, MatchOption};
ghost use Rattle.serde_json.specs.View.{view};
ghost use Rattle.ds_fields.specs.Fault.{Reads};
ghost use Rattle.ds_fields.specs.Members.{optional};
ghost use Rattle.ds_fields.specs.Scalars.{latin, key_of, whole_of, number_of, some_number_of, int_of, value_of, value_or_null_of};

use crate::fault::{FaultKind, LineFault};
use ds_base::{Key, KeyFault, Text, Value};
use serde_json::Value as Json;
use std::alloc::{AllocError, Global};

/// The key whose bytes the characters of a text stand for, each for one, from U+0000 to U+00FF.
/// `Ok(None)` where no key has these bytes.
#[tactic(auto, unfolding(crate::specs::Scalars::key_of))]
pub fn key_of(alloc: Global, json: &Json) -> Result<Option<Key>, LineFault>
    ensures { Reads result (key_of (view json.now)) }
{
    let Some(text) = json.as_str() else {
        return Err(LineFault::Bad(FaultKind::Shape));
    };
    let Some(bytes) = latin(alloc, text)? else {
        return Err(LineFault::Bad(FaultKind::Shape));
    };
    match Key::new(alloc, bytes.as_slice()) {
        Ok(key) => Ok(Some(key)),
        Err(KeyFault::TooLong | KeyFault::TooGreat) => Ok(None),
        Err(KeyFault::Memory(e)) => Err(LineFault::Memory(e)),
    }
}

/// The bytes that a text's characters stand for, unless one stands for none.
fn latin(alloc: Global, text: &str) -> Result<Option<Vec<u8>>, AllocError>
    ensures { IfOk result (λ r. MatchOption r (latin text.now ≡ None) (λ v. latin text.now ≡ Some v.items)) }
{
    let mut bytes = Vec::new(alloc);
    for c in text.chars() {
        let Ok(byte) = u8::try_from(c) else {
            return Ok(None);
        };
        bytes.push(byte)?;
    }
    Ok(Some(bytes))
}

/// A whole number; `Ok(None)` where it is below 0.
#[tactic(auto, unfolding(crate::specs::Scalars::whole_of))]
pub fn whole_of(json: &Json) -> Result<Option<u64>, LineFault>
    ensures { Reads result (whole_of (view json.now)) }
{
    if let Some(n) = json.as_u64() {
        return Ok(Some(n));
    }
    match json.as_i64() {
        Some(_) => Ok(None),
        None => Err(LineFault::Bad(FaultKind::Shape)),
    }
}

/// A whole number of at most 32 bits; `Ok(None)` where it is another whole number.
#[tactic(auto, unfolding(crate::specs::Scalars::number_of))]
pub fn small_of(json: &Json) -> Result<Option<u32>, LineFault>
    ensures { Reads result (number_of 32 (view json.now)) }
{
    match whole_of(json)? {
        Some(n) => Ok(u32::try_from(n).ok()),
        None => Ok(None),
    }
}

/// The number of at most 32 bits that a member is, if the member is there.
pub fn small_if_there(json: Option<&Json>) -> Result<Option<Option<u32>>, LineFault>
    ensures { Reads result (optional some_number_of None (option_map (λ v. view v.now) json.entry)) }
{
    match json {
        None => Ok(Some(None)),
        Some(value) => match small_of(value)? {
            Some(n) => Ok(Some(Some(n))),
            None => Ok(None),
        },
    }
}

/// A whole number of at most 8 bits; `Ok(None)` where it is another whole number.
#[tactic(auto, unfolding(crate::specs::Scalars::number_of))]
pub fn byte_of(json: &Json) -> Result<Option<u8>, LineFault>
    ensures { Reads result (number_of 8 (view json.now)) }
{
    match whole_of(json)? {
        Some(n) => Ok(u8::try_from(n).ok()),
        None => Ok(None),
    }
}

/// A whole number, also below 0; `Ok(None)` where it is above the greatest `i64`.
#[tactic(auto, unfolding(crate::specs::Scalars::int_of))]
pub fn int_of(json: &Json) -> Result<Option<i64>, LineFault>
    ensures { Reads result (int_of (view json.now)) }
{
    if let Some(n) = json.as_i64() {
        return Ok(Some(n));
    }
    match json.as_u64() {
        Some(_) => Ok(None),
        None => Err(LineFault::Bad(FaultKind::Shape)),
    }
}

/// A value: a text, or a whole number; `Ok(None)` where the number is above the greatest `i64`.
#[tactic(auto, unfolding(crate::specs::Scalars::value_of, crate::specs::Scalars::int_of))]
pub fn value_of(alloc: Global, json: &Json) -> Result<Option<Value>, LineFault>
    ensures { Reads result (value_of (view json.now)) }
{
    if let Some(text) = json.as_str() {
        return Ok(Some(Value::Text(Text::of(alloc, text)?)));
    }
    match int_of(json)? {
        Some(n) => Ok(Some(Value::Int(n))),
        None => Ok(None),
    }
}

/// A value, or null for none.
#[tactic(auto, unfolding(crate::specs::Scalars::value_or_null_of))]
pub fn value_or_null_of(alloc: Global, json: &Json) -> Result<Option<Option<Value>>, LineFault>
    ensures { Reads result (value_or_null_of (view json.now)) }
{
    if json.is_null() {
        return Ok(Some(None));
    }
    match value_of(alloc, json)? {
        Some(value) => Ok(Some(Some(value))),
        None => Ok(None),
    }
}
