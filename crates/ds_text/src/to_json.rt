//! Values in JSON, and the small ones of them.
ghost use Rattle.std.specs.Prelude.{◌≡◌, ◌++◌, [], ◌∷◌, map, codes, option_map, IfOk, OnOk, string_bytes};
ghost use Rattle.std.specs.Str.{encode_utf8_all};
ghost use Rattle.ds_base.specs.Order.{Extent, after};
ghost use Rattle.serde_json.specs.Data.{string};
ghost use Rattle.serde_json.specs.View.{view, members_view};
ghost use Rattle.ds_text.specs.Simple.{nat, key_data, value_data, option_data, list_data, span_data, dir_text, with_member, lone, only, empty};

use ds_base::{Dir, Key, ListOf, Span, Text, Value};
use serde_json::{Map, Value as Json, json};
use std::alloc::{AllocError, Global};

/// What has a form in JSON.
pub trait ToJson {
    ghost use Rattle.serde_json.specs.Data.{Data};

    // the value as JSON
    ghost form: { Self → Data };

    /// The value as JSON. The one refusal is want of memory.
    fn to_json(&self, alloc: Global) -> Result<Json, AllocError>
        ensures { IfOk result (λ j. view j ≡ form self.now) };
}

impl ToJson for u8 {
    ghost form = { λ n. nat n };

    fn to_json(&self, _alloc: Global) -> Result<Json, AllocError> {
        Ok(Json::from(*self))
    }
}

impl ToJson for u32 {
    ghost form = { λ n. nat n };

    fn to_json(&self, _alloc: Global) -> Result<Json, AllocError> {
        Ok(Json::from(*self))
    }
}

impl ToJson for Key {
    ghost form = { λ k. key_data k };

    fn to_json(&self, alloc: Global) -> Result<Json, AllocError> {
        Ok(Json::String(key_text(alloc, self)?))
    }
}

impl ToJson for Text {
    ghost form = { λ t. string t };

    fn to_json(&self, alloc: Global) -> Result<Json, AllocError> {
        Json::try_from_str(alloc, self.as_str())
    }
}

impl ToJson for Value {
    ghost form = { λ v. value_data v };

    fn to_json(&self, alloc: Global) -> Result<Json, AllocError> {
        match self {
            Value::Text(text) => text.to_json(alloc),
            Value::Int(n) => Ok(Json::from(*n)),
        }
    }
}

impl ToJson for Span {
    ghost form = { λ s. span_data s };

    fn to_json(&self, alloc: Global) -> Result<Json, AllocError> {
        let start = self.start.to_json(alloc)?;
        let end = self.end.to_json(alloc)?;
        json!(in alloc; [start, end])
    }
}

impl<T: ToJson> ToJson for Option<T> {
    ghost form = { λ o. option_data T.form o };

    fn to_json(&self, alloc: Global) -> Result<Json, AllocError> {
        match self {
            Some(one) => one.to_json(alloc),
            None => Ok(Json::Null),
        }
    }
}

impl<T: ToJson> ToJson for ListOf<T> {
    ghost form = { λ xs. list_data T.form xs };

    fn to_json(&self, alloc: Global) -> Result<Json, AllocError> {
        list_json(alloc, self.as_slice())
    }
}

/// A list, item by item.
pub(crate) fn list_json<T: ToJson>(alloc: Global, items: &[T]) -> Result<Json, AllocError>
    ensures { IfOk result (λ j. view j ≡ list_data T.form items.now) }
{
    let mut list = Vec::new(alloc);
    for item in items {
        list.push(item.to_json(alloc)?)?;
    }
    Ok(Json::Array(list))
}

/// The key as a text, each of its bytes as the character of its number.
pub(crate) fn key_text(alloc: Global, key: &Key) -> Result<String, AllocError>
    ensures { IfOk result (λ s. string_bytes s ≡ encode_utf8_all key.now) }
{
    let mut text = String::new(alloc);
    for byte in key.bytes() {
        text.push(char::from(*byte))?;
    }
    Ok(text)
}

/// The text of the key after this one.
pub(crate) fn after_text(alloc: Global, key: &Key) -> Result<String, AllocError>
    ensures { IfOk result (λ s. string_bytes s ≡ encode_utf8_all (after key.now)) }
{
    let mut text = key_text(alloc, key)?;
    text.push('\0')?;
    Ok(text)
}

/// The name of a direction.
pub(crate) fn dir_name(dir: Dir) -> &'static str
    ensures { result.now ≡ dir_text dir }
{
    match dir {
        Dir::Forward => "forward",
        Dir::Reverse => "reverse",
    }
}

/// The members of an object that has one.
pub(crate) fn lone(alloc: Global, name: &str, value: Json) -> Result<Map<String, Json>, AllocError>
    ensures { IfOk result (λ m. members_view m.entries ≡ lone name.now (view value)) }
{
    let mut members = Map::new(alloc);
    serde_json::put(&mut members, alloc, name, value)?;
    Ok(members)
}

/// The object of one member.
pub(crate) fn only(alloc: Global, name: &str, value: Json) -> Result<Json, AllocError>
    ensures { IfOk result (λ j. view j ≡ only name.now (view value)) }
{
    Ok(Json::Object(lone(alloc, name, value)?))
}

/// The object of one member, which is nothing.
pub(crate) fn bare(alloc: Global, name: &str) -> Result<Json, AllocError>
    ensures { IfOk result (λ j. view j ≡ only name.now empty) }
{
    only(alloc, name, Json::Object(Map::new(alloc)))
}

/// The object of one member, which is this value.
pub(crate) fn only_of<T: ToJson>(alloc: Global, name: &str, value: &T) -> Result<Json, AllocError>
    ensures { IfOk result (λ j. view j ≡ only name.now (T.form value.now)) }
{
    only(alloc, name, value.to_json(alloc)?)
}

/// The same in an object of one member.
pub(crate) fn only_in<T: ToJson>(
    alloc: Global,
    outer: &str,
    name: &str,
    value: &T,
) -> Result<Json, AllocError>
    ensures { IfOk result (λ j. view j ≡ only outer.now (only name.now (T.form value.now))) }
{
    only(alloc, outer, only_of(alloc, name, value)?)
}

/// Puts a member in its place, if there is one.
pub(crate) fn put_some<T: ToJson>(
    members: &mut Map<String, Json>,
    alloc: Global,
    name: &str,
    value: &Option<T>,
) -> Result<(), AllocError>
    ensures { OnOk result (members_view members.new.entries ≡ with_member name.now (option_map T.form value.now) (members_view members.old.entries)) }
{
    match value {
        Some(value) => serde_json::put(members, alloc, name, value.to_json(alloc)?),
        None => Ok(()),
    }
}
