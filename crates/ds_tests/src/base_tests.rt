//! Each public call once, and the edges of a key.
use ds_base::{BadSpan, Copies, Key, KeyFault, Keys, Span, Text, Value};
use std::alloc::Global;
use std::test::Fail;

fn key(alloc: Global, bytes: &[u8]) -> Result<Key, &'static str> {
    Key::new(alloc, bytes).map_err(|_| "a key")
}

#[test]
fn keys_of_at_most_65_bytes(rt: HostRuntime) {
    let alloc = rt.alloc();
    assert!(rt; Key::new(alloc, &[7; 65]).is_ok());
    assert!(rt; matches!(Key::new(alloc, &[7; 66]), Err(KeyFault::TooLong)));
    assert!(rt; matches!(Key::new(alloc, &[255; 66]), Err(KeyFault::TooLong)));
}

#[test]
fn keys_up_to_the_bound(rt: HostRuntime) {
    let alloc = rt.alloc();
    assert!(rt; Key::new(alloc, &[255, 255]).is_ok());
    assert!(rt; matches!(Key::new(alloc, &[255, 255, 0]), Err(KeyFault::TooGreat)));
}

#[test]
fn keys_in_order(rt: HostRuntime) -> Result<(), Fail> {
    let alloc = rt.alloc();
    let b = key(alloc, b"b")?;
    assert!(rt; b.bytes() == b"b".as_slice());
    assert!(rt; b.copy(alloc)? == b);
    assert!(rt; Key::least(alloc) < b);
    assert!(rt; b < Key::bound(alloc)?);
    Ok(())
}

#[test]
fn a_span_has_a_key(rt: HostRuntime) -> Result<(), Fail> {
    let alloc = rt.alloc();
    let made = Span::new(key(alloc, b"c")?, key(alloc, b"b")?);
    assert!(rt; matches!(made, Err(BadSpan)));
    Ok(())
}

#[test]
fn spans_meet(rt: HostRuntime) -> Result<(), Fail> {
    let alloc = rt.alloc();
    let span = Span::new(key(alloc, b"b")?, key(alloc, b"c")?).map_err(|_| "a span")?;
    let copy = span.copy(alloc)?;
    assert!(rt; span.holds(&copy));
    assert!(rt; span.contains(&copy.start) && !span.contains(&copy.end));
    assert!(rt; span.meet(&copy).is_some());
    Ok(())
}

#[test]
fn values_compare(rt: HostRuntime) -> Result<(), Fail> {
    let alloc = rt.alloc();
    let text = Value::Text(Text::of(alloc, "x")?);
    assert!(rt; text.is_same(&text.copy(alloc)?));
    assert!(rt; !text.is_same(&Value::Int(1)));
    Ok(())
}

#[test]
fn lists_grow(rt: HostRuntime) -> Result<(), Fail> {
    let alloc = rt.alloc();
    let mut keys = Keys::new(alloc);
    keys.push(alloc, key(alloc, b"b")?)?;
    let more = keys.copy(alloc)?;
    keys.append(alloc, more)?;
    assert_eq!(rt; keys.len(), 2);
    assert!(rt; keys.get(1).is_some() && keys.get(2).is_none());
    Ok(())
}

#[test]
fn lists_are_vectors(rt: HostRuntime) -> Result<(), Fail> {
    let alloc = rt.alloc();
    let keys = Keys::from_vec(vec![in alloc; key(alloc, b"b")?]?);
    assert_eq!(rt; keys.as_slice().len(), 1);
    assert_eq!(rt; keys.into_vec().len(), 1);
    Ok(())
}
