//! Whole scripts: the first line at fault, and what is kept of an accepted one.
//!
//! In a table a script stands on one line, with `|` between its own.
use crate::cases::{filled, kind_name};
use ds_kind::Request;
use ds_script::{Line, Numbered, Script, ScriptFault, Settings, read_script};
use std::alloc::{AllocError, Global};
use std::test::Fail;

const CLUSTER: &str =
    r#"{"op":"cluster","nodes":3,"ranges":[{"start":"","nodes":[1,2,3],"lease":1}]}"#;

const BEGIN: &str = r#"{"op":"begin","stamp":10,"key":"a"}"#;

/// The line and the name of what is wrong with the script, or `read`.
fn told(alloc: Global, script: &str) -> Result<String, AllocError> {
    match read_script(alloc, script.as_bytes()) {
        Ok(_) => String::from_str(alloc, "read"),
        Err(ScriptFault::Bad { line, kind }) => {
            let kind = kind_name(kind);
            format!(in alloc; "{line} {kind}")
        }
        Err(ScriptFault::Memory(e)) => Err(e),
    }
}

pub fn is_told(alloc: Global, script: &str, want: &str) -> Result<bool, AllocError> {
    Ok(told(alloc, script)?.as_str() == want)
}

/// Whether the row's script, after these lines, is told so: the row is what is told, a colon, a
/// space, and the script.
fn is_right(alloc: Global, front: &str, row: &str) -> Result<bool, AllocError> {
    let Some((want, script)) = row.split_once(": ") else {
        return Ok(false);
    };
    let script = script.replace(alloc, '|', "\n")?;
    let script = format!(in alloc; "{front}{script}")?;
    is_told(alloc, script.as_str(), want)
}

#[test]
fn scripts_that_say_nothing(rt: HostRuntime) -> Result<(), Fail> {
    for script in ["", "\n", " \t\r\n\n "] {
        assert!(rt; is_told(rt.alloc(), script, "1 order")?);
    }
    let lines = filled(rt.alloc(), "%", "\n", 20_001)?;
    assert!(rt; is_told(rt.alloc(), lines.as_str(), "1 order")?);
    let bytes = filled(rt.alloc(), "%", "\n", 4_194_305)?;
    assert!(rt; is_told(rt.alloc(), bytes.as_str(), "0 too_long")?);
    Ok(())
}

const FIRSTS: &str = r#"1 order: {"op":"close"}
2 order: | {"op":"split","key":"a"}|
3 json: ||{
1 order: {"op":"lease","key":"a","node":64}
1 range: {"op":"lease","key":"a","node":65}"#;

#[test]
fn the_cluster_comes_first(rt: HostRuntime) -> Result<(), Fail> {
    for row in FIRSTS.lines() {
        assert!(rt; is_right(rt.alloc(), "", row)?, "{row}");
    }
    Ok(())
}

const ORDERS: &str = r#"2 order: |{"op":"close"}
2 order: |{"op":"abort"}
3 order: ||{"op":"restart"}
2 order: |{"op":"batch","txn":true,"requests":[]}
2 order: |{"op":"batch","stamp":1,"requests":[],"events":[{"op":"abort","at":1}]}
2 order: |{"op":"batch","stamp":1,"requests":[],"events":[{"op":"lose_reply","at":2},{"op":"lose_reply","at":1}]}
3 order: |{"op":"begin","stamp":10,"key":"a"}|{"op":"batch","stamp":10,"requests":[{"get":"a"}]}
3 order: |{"op":"begin","stamp":10,"key":"a"}|{"op":"batch","stamp":9,"requests":[{"query_intent":["a",1]}]}
2 order: |{"op":"cluster","nodes":1,"ranges":[{"start":"","nodes":[1],"lease":1}]}"#;

#[test]
fn lines_out_of_order(rt: HostRuntime) -> Result<(), Fail> {
    for row in ORDERS.lines() {
        assert!(rt; is_right(rt.alloc(), CLUSTER, row)?, "{row}");
    }
    Ok(())
}

const COPIES: &str =
    r#"read: |{"op":"batch","stamp":1,"requests":[],"events":[{"op":"copy","at":1,"copy":7},{"op":"copy","at":1,"copy":7}]}
2 order: |{"op":"batch","stamp":1,"requests":[],"events":[{"op":"copy","at":1,"copy":7},{"op":"copy","at":2,"copy":7}]}
2 order: |{"op":"batch","stamp":1,"requests":[],"events":[{"op":"lose_reply","at":1,"copy":7},{"op":"copy","at":2,"copy":7}]}
read: |{"op":"batch","stamp":1,"requests":[],"events":[{"op":"lose_reply","at":1},{"op":"lose_reply","at":1,"copy":7},{"op":"copy","at":2,"copy":7}]}
3 order: |{"op":"batch","stamp":1,"requests":[],"events":[{"op":"copy","at":1,"copy":7}]}|{"op":"batch","stamp":1,"requests":[],"events":[{"op":"copy","at":1,"copy":7}]}
read: |{"op":"batch","stamp":1,"requests":[],"events":[{"op":"copy","at":1,"copy":7}]}|{"op":"batch","stamp":1,"requests":[],"events":[{"op":"copy","at":1,"copy":8}]}"#;

#[test]
fn numbers_of_copies(rt: HostRuntime) -> Result<(), Fail> {
    for row in COPIES.lines() {
        assert!(rt; is_right(rt.alloc(), CLUSTER, row)?, "{row}");
    }
    Ok(())
}

// After a begin at stamp 10 on the second line.
const WRITES: &str = r#"3 low_write: |{"op":"write","key":"a","stamp":10,"value":1}
read: |{"op":"write","key":"a","stamp":11,"value":1}|{"op":"close"}
3 low_write: |{"op":"batch","txn":true,"requests":[],"events":[{"op":"write","at":1,"key":"a","stamp":10,"value":1}]}
3 low_write: |{"op":"batch","stamp":20,"requests":[],"events":[{"op":"write","at":1,"key":"a","stamp":20,"value":1}]}
read: |{"op":"batch","stamp":9,"requests":[{"get":"a"}]}|{"op":"close"}
3 txn_open: |{"op":"begin","stamp":11,"key":"a"}
2 txn_open: ||
3 json: |{
3 low_write: |{"op":"batch","stamp":5,"requests":[],"events":[{"op":"write","at":1,"key":"a","value":1,"stamp":10}]}
2 txn_open: |{"op":"batch","stamp":5,"requests":[],"events":[{"op":"write","at":1,"key":"a","value":1,"stamp":11}]}
3 low_write: |{"op":"batch","stamp":20,"requests":[],"events":[{"op":"write","at":1,"key":"a","value":1,"stamp":20}]}"#;

#[test]
fn writes_above_a_transaction(rt: HostRuntime) -> Result<(), Fail> {
    let front = format!(in rt.alloc(); "{CLUSTER}\n{BEGIN}")?;
    for row in WRITES.lines() {
        assert!(rt; is_right(rt.alloc(), front.as_str(), row)?, "{row}");
    }
    Ok(())
}

const BESIDE_BATCHES: &str =
    r#"2 low_write: |{"op":"batch","stamp":5,"requests":[],"events":[{"op":"write","at":1,"key":"a","value":1,"stamp":5}]}
read: |{"op":"batch","stamp":5,"requests":[],"events":[{"op":"write","at":1,"key":"a","value":1,"stamp":6}]}
read: |{"op":"batch","stamp":9,"requests":[]}|{"op":"write","key":"a","stamp":1,"value":1}"#;

#[test]
fn writes_above_a_batch(rt: HostRuntime) -> Result<(), Fail> {
    for row in BESIDE_BATCHES.lines() {
        assert!(rt; is_right(rt.alloc(), CLUSTER, row)?, "{row}");
    }
    Ok(())
}

// What is told, and the stamp and the requests of a batch beside a transaction at stamp 10.
const BESIDE: &str = r#"read: "stamp":9,"requests":[{"get":"a"}]
read: "stamp":9,"requests":[{"scan":["a","b"]}]
read: "stamp":9,"requests":[{"reverse_scan":["a","b"]}]
3 order: "stamp":10,"requests":[{"get":"a"}]
3 order: "stamp":10,"requests":[{"scan":["a","b"]}]
3 order: "stamp":10,"requests":[{"reverse_scan":["a","b"]}]
3 order: "stamp":1,"requests":[{"put":["a",1]}]
3 order: "stamp":1,"requests":[{"delete_range":["a","b"]}]
3 order: "stamp":1,"requests":[{"end":{"commit":false}}]
3 order: "stamp":1,"requests":[{"query_intent":["a",1]}]
read: "stamp":1000000000,"requests":[{"resolve":["a",1]},{"resolve_range":["a","b",1]}]
read: "stamp":1000000000,"requests":[{"admin_split":"a"},{"admin_lease":["a",1]}]"#;

/// Whether a batch with the row's members, between a begin and a close, is told so.
fn is_right_beside(alloc: Global, row: &str) -> Result<bool, AllocError> {
    let Some((want, members)) = row.split_once(": ") else {
        return Ok(false);
    };
    let script = format!(in alloc;
        "{CLUSTER}\n{BEGIN}\n{{\"op\":\"batch\",{members}}}\n{{\"op\":\"close\"}}"
    )?;
    is_told(alloc, script.as_str(), want)
}

#[test]
fn requests_beside_a_transaction(rt: HostRuntime) -> Result<(), Fail> {
    for row in BESIDE.lines() {
        assert!(rt; is_right_beside(rt.alloc(), row)?, "{row}");
    }
    Ok(())
}

const SEVERAL: &str =
    r#"2 range: |{"op":"batch","stamp":0,"requests":[],"events":[{"op":"abort","at":1}]}
2 order: |{"op":"batch","stamp":5,"requests":[],"events":[{"op":"write","at":1,"key":"a","stamp":5,"value":1},{"op":"abort","at":1}]}
2 order: |{"op":"batch","stamp":5,"requests":[],"events":[{"op":"write","at":1,"key":"a","stamp":5,"value":1},{"op":"copy","at":1,"copy":1},{"op":"copy","at":2,"copy":1}]}
2 low_write: |{"op":"batch","stamp":5,"requests":[],"events":[{"op":"write","at":1,"key":"a","stamp":5,"value":1},{"op":"copy","at":1,"copy":1}]}
2 range: |{"op":"cluster","nodes":1,"ranges":[{"start":"","nodes":[2],"lease":2}]}
2 order: |{"op":"cluster","nodes":9,"ranges":[{"start":"","nodes":[9],"lease":9}]}"#;

#[test]
fn the_first_kind_of_a_line_counts(rt: HostRuntime) -> Result<(), Fail> {
    for row in SEVERAL.lines() {
        assert!(rt; is_right(rt.alloc(), CLUSTER, row)?, "{row}");
    }
    Ok(())
}

/// Whether the cluster's line, followed by the part so many times, is told so.
fn is_told_after(alloc: Global, part: &str, times: usize, want: &str) -> Result<bool, AllocError> {
    let more = part.repeat(alloc, times)?;
    let script = format!(in alloc; "{CLUSTER}{more}")?;
    is_told(alloc, script.as_str(), want)
}

#[test]
fn scripts_at_their_greatest_length(rt: HostRuntime) -> Result<(), Fail> {
    let room = 4_194_304 - 76;
    assert!(rt; is_told_after(rt.alloc(), " ", room, "read")?);
    assert!(rt; is_told_after(rt.alloc(), " ", room + 1, "0 too_long")?);
    Ok(())
}

#[test]
fn scripts_of_the_most_lines(rt: HostRuntime) -> Result<(), Fail> {
    let line = "\n{\"op\":\"split\",\"key\":\"a\"}";
    assert!(rt; is_told_after(rt.alloc(), line, 19_999, "read")?);
    assert!(rt; is_told_after(rt.alloc(), line, 20_000, "20001 too_long")?);
    assert!(rt; is_told_after(rt.alloc(), "\n", 20_000, "read")?);
    assert!(rt; is_told_after(rt.alloc(), "\n", 20_001, "20001 too_long")?);
    Ok(())
}

/// Whether it is the script's fourth line, and an end with the key `q`.
fn is_end_at_q(numbered: &Numbered) -> bool {
    let Line::Batch { batch, block: _ } = &numbered.line else {
        return false;
    };
    match batch.requests.get(0) {
        Some(Request::EndTxn(end)) => numbered.number == 4 && end.key.bytes() == b"q".as_slice(),
        _ => false,
    }
}

fn has_end_at_q(script: &Script) -> bool {
    match script.lines.get(2) {
        Some(numbered) => script.lines.len() == 4 && is_end_at_q(numbered),
        None => false,
    }
}

#[test]
fn an_end_has_the_anchor(rt: HostRuntime) {
    let script = r#"{"op":"cluster","nodes":1,"ranges":[{"start":"","nodes":[1],"lease":1}]}

{"op":"begin","stamp":10,"key":"q"}
{"op":"batch","txn":true,"requests":[{"end":{"commit":true}}]}
{"op":"close"}"#;
    let read = read_script(rt.alloc(), script.as_bytes());
    assert!(rt; matches!(&read, Ok(script) if has_end_at_q(script)));
}

#[test]
fn settings_are_at_least_one(rt: HostRuntime) {
    let settings = Settings {
        cache: 1,
        budget: 1,
    };
    let copy = settings;
    assert!(rt; copy == settings);
}
