//! Each call of `ds_fields` on what it reads, and on what it doesn't.
use ds_base::{Key, Value};
use ds_fields::{
    FaultKind, LineFault, Reader, byte_of, flag_of, has_only, int_of, json_of, key_of, list_of,
    member, nodes_of, op_of, optional_member, pair, small_if_there, small_list_of, small_of, sole,
    triple, value_of, value_or_null_of, whole_of,
};
use serde_json::Value as Json;
use std::alloc::Global;
use std::test::Fail;

fn json(alloc: Global, text: &str) -> Result<Json, Fail> {
    Ok(json_of(alloc, text.as_bytes()).map_err(|_| "no JSON")?)
}

fn is_json_fault(fault: &LineFault) -> bool {
    matches!(fault, LineFault::Bad(FaultKind::Json))
}

fn is_shape_fault(fault: &LineFault) -> bool {
    matches!(fault, LineFault::Bad(FaultKind::Shape))
}

const LINE: &str = r#"{"op":"close","at":7,"at":8,"late":false}"#;

#[test]
fn only_members_of_these_names(rt: HostRuntime) -> Result<(), Fail> {
    let line = json(rt.alloc(), LINE)?;
    assert!(rt; has_only(&line, &["op"], &["late", "at"]));
    assert!(rt; !has_only(&line, &["op"], &["at"]));
    Ok(())
}

fn is_member(line: &Json, name: &str, n: u64) -> bool {
    matches!(member(line, name), Ok(at) if at.as_u64() == Some(n))
}

fn lacks(line: &Json, name: &str) -> bool {
    matches!(member(line, name), Err(fault) if is_shape_fault(&fault))
}

#[test]
fn the_last_of_a_repeated_member(rt: HostRuntime) -> Result<(), Fail> {
    let line = json(rt.alloc(), LINE)?;
    assert!(rt; matches!(op_of(&line), Ok(op) if op == "close"));
    assert!(rt; is_member(&line, "at", 8) && lacks(&line, "copy"));
    Ok(())
}

fn has_flag(line: &Json, name: &str, want: bool) -> bool {
    matches!(flag_of(optional_member(line, name), true), Ok(read) if read == Some(want))
}

#[test]
fn a_flag_or_its_default(rt: HostRuntime) -> Result<(), Fail> {
    let line = json(rt.alloc(), LINE)?;
    assert!(rt; has_flag(&line, "late", false) && has_flag(&line, "copy", true));
    Ok(())
}

fn is_no_json(alloc: Global, text: &str) -> bool {
    matches!(json_of(alloc, text.as_bytes()), Err(fault) if is_json_fault(&fault))
}

#[test]
fn no_json(rt: HostRuntime) {
    for text in ["", "{", "{}}", "[1,]", "1e999", "\"\\ud800\"", "\u{feff}1"] {
        assert!(rt; is_no_json(rt.alloc(), text), "{text}");
    }
}

fn is_byte(n: &Json, want: Option<u8>) -> bool {
    matches!(byte_of(n), Ok(read) if read == want)
}

fn is_small(n: &Json, want: Option<u32>) -> bool {
    matches!(small_of(n), Ok(read) if read == want)
}

fn is_small_that_is_there(n: Option<&Json>, want: Option<Option<u32>>) -> bool {
    matches!(small_if_there(n), Ok(read) if read == want)
}

fn is_whole(n: &Json, want: Option<u64>) -> bool {
    matches!(whole_of(n), Ok(read) if read == want)
}

fn is_int(n: &Json, want: Option<i64>) -> bool {
    matches!(int_of(n), Ok(read) if read == want)
}

#[test]
fn bytes_at_both_ends(rt: HostRuntime) -> Result<(), Fail> {
    for (text, want) in [
        ("0", Some(0)),
        ("255", Some(255)),
        ("256", None),
        ("-1", None),
    ] {
        assert!(rt; is_byte(&json(rt.alloc(), text)?, want), "{text}");
    }
    Ok(())
}

#[test]
fn small_numbers_at_both_ends(rt: HostRuntime) -> Result<(), Fail> {
    for (text, want) in [
        ("0", Some(0)),
        ("4294967295", Some(4_294_967_295)),
        ("4294967296", None),
        ("-1", None),
    ] {
        let n = json(rt.alloc(), text)?;
        let there = is_small_that_is_there(Some(&n), want.map(Some));
        assert!(rt; is_small(&n, want) && there, "{text}");
    }
    assert!(rt; is_small_that_is_there(None, Some(None)));
    Ok(())
}

#[test]
fn whole_numbers_at_both_ends(rt: HostRuntime) -> Result<(), Fail> {
    for (text, want) in [
        ("0", Some(0)),
        ("18446744073709551615", Some(u64::MAX)),
        ("-1", None),
    ] {
        assert!(rt; is_whole(&json(rt.alloc(), text)?, want), "{text}");
    }
    Ok(())
}

#[test]
fn numbers_of_either_sign_at_both_ends(rt: HostRuntime) -> Result<(), Fail> {
    for (text, want) in [
        ("-9223372036854775808", Some(i64::MIN)),
        ("9223372036854775807", Some(i64::MAX)),
        ("9223372036854775808", None),
        ("18446744073709551615", None),
    ] {
        assert!(rt; is_int(&json(rt.alloc(), text)?, want), "{text}");
    }
    Ok(())
}

fn is_no_whole_number(n: &Json) -> bool {
    let int = matches!(int_of(n), Err(fault) if is_shape_fault(&fault));
    int && matches!(whole_of(n), Err(fault) if is_shape_fault(&fault))
}

#[test]
fn no_whole_numbers(rt: HostRuntime) -> Result<(), Fail> {
    for text in [
        "1.0",
        "-0",
        "1e2",
        "18446744073709551616",
        "-9223372036854775809",
        "\"1\"",
    ] {
        assert!(rt; is_no_whole_number(&json(rt.alloc(), text)?), "{text}");
    }
    Ok(())
}

fn is_key(read: Result<Option<Key>, LineFault>, want: &[u8]) -> bool {
    match read {
        Ok(Some(key)) => key.bytes() == want,
        _ => false,
    }
}

#[test]
fn keys(rt: HostRuntime) -> Result<(), Fail> {
    for (text, want) in [
        ("\"\"", b"".as_slice()),
        ("\"a\\u0000é\"", b"a\x00\xe9".as_slice()),
        ("\"ÿÿ\"", b"\xff\xff".as_slice()),
    ] {
        let text = json(rt.alloc(), text)?;
        assert!(rt; is_key(key_of(rt.alloc(), &text), want));
    }
    Ok(())
}

#[test]
fn no_keys(rt: HostRuntime) -> Result<(), Fail> {
    let above = json(rt.alloc(), "\"ÿÿ\\u0000\"")?;
    assert!(rt; matches!(key_of(rt.alloc(), &above), Ok(None)));
    let no_byte = json(rt.alloc(), "\"Ā\"")?;
    assert!(rt; matches!(key_of(rt.alloc(), &no_byte), Err(fault) if is_shape_fault(&fault)));
    Ok(())
}

/// The value's kind, and no other for what isn't one.
fn value_name(read: Result<Option<Value>, LineFault>) -> &'static str {
    match read {
        Ok(Some(Value::Text(text))) => { if text.as_str() == "x" { "x" } else { "a text" } }
        Ok(Some(Value::Int(-7))) => "-7",
        Err(LineFault::Bad(FaultKind::Shape)) => "shape",
        _ => "another",
    }
}

#[test]
fn values(rt: HostRuntime) -> Result<(), Fail> {
    for (text, want) in [("\"x\"", "x"), ("-7", "-7"), ("null", "shape")] {
        let read = json(rt.alloc(), text)?;
        assert!(rt; value_name(value_of(rt.alloc(), &read)) == want, "{text}");
    }
    Ok(())
}

#[test]
fn a_value_or_null(rt: HostRuntime) -> Result<(), Fail> {
    let null = json(rt.alloc(), "null")?;
    assert!(rt; matches!(value_or_null_of(rt.alloc(), &null), Ok(Some(None))));
    let number = json(rt.alloc(), "-7")?;
    let read = value_or_null_of(rt.alloc(), &number);
    assert!(rt; matches!(read, Ok(Some(Some(Value::Int(-7))))));
    Ok(())
}

fn is_sole(json: &Json, want: &str, number: u64) -> bool {
    matches!(sole(json), Ok((name, n)) if name == want && n.as_u64() == Some(number))
}

fn is_pair_to(json: &Json, number: u64) -> bool {
    matches!(pair(json), Ok((_, n)) if n.as_u64() == Some(number))
}

fn is_triple_to(json: &Json, number: u64) -> bool {
    matches!(triple(json), Ok((_, _, n)) if n.as_u64() == Some(number))
}

#[test]
fn parts(rt: HostRuntime) -> Result<(), Fail> {
    let one = json(rt.alloc(), r#"{"get":5}"#)?;
    let two = json(rt.alloc(), "[5,6]")?;
    let three = json(rt.alloc(), "[5,6,7]")?;
    assert!(rt; is_sole(&one, "get", 5) && !is_sole(&two, "get", 5));
    assert!(rt; is_pair_to(&two, 6) && !is_pair_to(&three, 6));
    assert!(rt; is_triple_to(&three, 7) && !is_triple_to(&two, 6));
    Ok(())
}

/// Reads an item as a whole number.
#[derive(Drop)]
struct WholeReader;

impl Reader for WholeReader {
    type Item = u64;

    ghost use Rattle.ds_fields.specs.Scalars.{whole_of};

    ghost reads = { λ _ d. whole_of d };

    fn read(&self, _alloc: Global, json: &Json) -> Result<Option<u64>, LineFault> {
        whole_of(json)
    }
}

fn are_5_6_7(alloc: Global, list: &Json) -> bool {
    match list_of(alloc, &WholeReader, list) {
        Ok(Some(read)) => read.as_slice() == [5, 6, 7].as_slice(),
        _ => false,
    }
}

fn are_small_5_6_7(alloc: Global, list: &Json) -> bool {
    match small_list_of(alloc, list) {
        Ok(Some(read)) => read.as_slice() == [5, 6, 7].as_slice(),
        _ => false,
    }
}

#[test]
fn lists(rt: HostRuntime) -> Result<(), Fail> {
    let list = json(rt.alloc(), "[5,6,7]")?;
    assert!(rt; are_5_6_7(rt.alloc(), &list) && are_small_5_6_7(rt.alloc(), &list));
    Ok(())
}

fn are_nodes(alloc: Global, list: &Json) -> bool {
    matches!(nodes_of(alloc, list), Ok(Some(_)))
}

#[test]
fn one_to_seven_nodes_none_twice(rt: HostRuntime) -> Result<(), Fail> {
    for (text, want) in [
        ("[1]", true),
        ("[7,1,2,3,4,5,6]", true),
        ("[]", false),
        ("[1,2,3,4,5,6,7,8]", false),
        ("[1,2,1]", false),
        ("[256]", false),
    ] {
        let nodes = json(rt.alloc(), text)?;
        assert!(rt; are_nodes(rt.alloc(), &nodes) == want, "{text}");
    }
    Ok(())
}
