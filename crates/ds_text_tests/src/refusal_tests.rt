//! Scripts that are refused: a fault of each kind on a line after right ones, and the lines of forms
//! that aren't built.
use crate::cases::filled;
use crate::script_tests::is_told;
use ds_replay::first_unbuilt;
use ds_script::read_script;
use std::alloc::{AllocError, Global};
use std::test::Fail;

/// Six right lines.
const RIGHT: &str =
    r#"{"op":"cluster","nodes":3,"ranges":[{"start":"","nodes":[1,2,3],"lease":1},{"start":"g","nodes":[2,3],"lease":2}]}
{"op":"write","key":"b","stamp":1,"value":"x"}
{"op":"begin","stamp":10,"key":"a"}
{"op":"batch","txn":true,"requests":[{"scan":["a","z"]}]}
{"op":"close"}
{"op":"batch","stamp":12,"requests":[{"increment":["c",2]}]}"#;

const BEGIN: &str = r#"{"op":"begin","stamp":20,"key":"a"}"#;

const CLOSE: &str = r#"{"op":"close"}"#;

/// Whether the right lines, followed by this one as line 7, are told so.
fn is_told_after(alloc: Global, line: &str, want: &str) -> Result<bool, AllocError> {
    let script = format!(in alloc; "{RIGHT}\n{line}\n")?;
    is_told(alloc, script.as_str(), want)
}

/// The same of the line as line 8, in a transaction at 20 that begins on line 7 and is closed on
/// line 9.
fn is_told_within(alloc: Global, line: &str, want: &str) -> Result<bool, AllocError> {
    let script = format!(in alloc; "{RIGHT}\n{BEGIN}\n{line}\n{CLOSE}\n")?;
    is_told(alloc, script.as_str(), want)
}

/// Whether a script of an empty line, this line and a write after it is told so.
fn is_told_first(alloc: Global, line: &str, want: &str) -> Result<bool, AllocError> {
    let write = r#"{"op":"write","key":"b","stamp":1,"value":1}"#;
    let script = format!(in alloc; "\n{line}\n{write}\n")?;
    is_told(alloc, script.as_str(), want)
}

#[test]
fn right_lines_and_blank_ones(rt: HostRuntime) -> Result<(), Fail> {
    assert!(rt; is_told(rt.alloc(), RIGHT, "read")?);
    for lines in ["", "\n", " \t\r", "\n\n"] {
        assert!(rt; is_told_after(rt.alloc(), lines, "read")?);
    }
    assert!(rt; is_told_after(rt.alloc(), "{", "7 json")?);
    assert!(rt; is_told_after(rt.alloc(), "\n \t\r\n\r\n{\"op\":\"close\"}\r", "10 order")?);
    Ok(())
}

const NO_JSON: &str = r#"{
close
"close
{'op':'close'}
{"op":"close",
{"op":"close",}
{"op":"close"}}
{"op":"close"}{"op":"close"}
{"op":"write","key":"b","stamp":021,"value":1}
{"op":"write","key":"\x","stamp":21,"value":1}"#;

#[test]
fn lines_that_are_no_json(rt: HostRuntime) -> Result<(), Fail> {
    for line in NO_JSON.lines() {
        assert!(rt; is_told_within(rt.alloc(), line, "8 json")?, "{line}");
    }
    Ok(())
}

const NO_FORM: &str = r#"7
null
[]
{}
"close"
{"op":7}
{"op":"Close"}
{"op":"close","key":"a"}
{"key":"b","stamp":21,"value":1}
{"op":"write","stamp":21,"value":1}
{"op":"write","key":"b","stamp":21}
{"op":"write","key":7,"stamp":21,"value":1}
{"op":"write","key":"\u0100","stamp":21,"value":1}
{"op":"write","key":"b","stamp":"21","value":1}
{"op":"write","key":"b","stamp":21.0,"value":1}
{"op":"write","key":"b","stamp":21,"value":true}
{"op":"write","key":"b","stamp":21,"value":0.5}
{"op":"write","key":"b","stamp":21,"value":1,"at":1}"#;

#[test]
fn lines_of_no_form(rt: HostRuntime) -> Result<(), Fail> {
    for line in NO_FORM.lines() {
        assert!(rt; is_told_within(rt.alloc(), line, "8 shape")?, "{line}");
    }
    Ok(())
}

const NO_BATCH: &str = r#"{"op":"batch","txn":true}
{"op":"batch","requests":[]}
{"op":"batch","txn":false,"requests":[]}
{"op":"batch","txn":true,"stamp":5,"requests":[]}
{"op":"batch","txn":true,"requests":{}}
{"op":"batch","txn":true,"requests":[],"consistent":1}
{"op":"batch","txn":true,"requests":["get"]}
{"op":"batch","txn":true,"requests":[{}]}
{"op":"batch","txn":true,"requests":[{"read":"a"}]}
{"op":"batch","txn":true,"requests":[{"get":["a"]}]}
{"op":"batch","txn":true,"requests":[{"get":"a","scan":["a","b"]}]}
{"op":"batch","txn":true,"requests":[{"scan":["a"]}]}
{"op":"batch","txn":true,"requests":[{"scan":["a","b","c"]}]}
{"op":"batch","txn":true,"requests":[{"cput":{"key":"a","value":1}}]}
{"op":"batch","txn":true,"requests":[],"events":[{"op":"abort"}]}
{"op":"batch","txn":true,"requests":[],"events":[{"op":"close","at":1}]}"#;

#[test]
fn batches_of_no_form(rt: HostRuntime) -> Result<(), Fail> {
    for line in NO_BATCH.lines() {
        assert!(rt; is_told_within(rt.alloc(), line, "8 shape")?, "{line}");
    }
    Ok(())
}

const OUTSIDE: &str = r#"{"op":"write","key":"ÿÿ","stamp":21,"value":1}
{"op":"write","key":"ÿÿ0","stamp":21,"value":1}
{"op":"write","key":"0123456789012345678901234567890123456789012345678901234567890123x","stamp":21,"value":1}
{"op":"write","key":"b","stamp":1000000001,"value":1}
{"op":"write","key":"b","stamp":-21,"value":1}
{"op":"write","key":"b","stamp":21,"value":9223372036854775808}
{"op":"lease","key":"b","node":4}
{"op":"move","key":"b","nodes":[1,2,0]}
{"op":"stale","key":"b","back":0}
{"op":"arrive","copy":1000001}
{"op":"batch","stamp":0,"requests":[]}
{"op":"batch","txn":true,"requests":[],"limit":0}
{"op":"batch","txn":true,"requests":[],"picks":[1000001]}
{"op":"batch","txn":true,"requests":[],"events":[{"op":"abort","at":0}]}
{"op":"batch","txn":true,"requests":[{"get":"ÿÿ0"}]}
{"op":"batch","txn":true,"requests":[{"increment":["a",9223372036854775808]}]}
{"op":"batch","txn":true,"requests":[{"query_intent":["a",0]}]}
{"op":"batch","txn":true,"requests":[{"admin_lease":["a",4]}]}"#;

#[test]
fn lines_outside_their_limits(rt: HostRuntime) -> Result<(), Fail> {
    for line in OUTSIDE.lines() {
        assert!(rt; is_told_within(rt.alloc(), line, "8 range")?, "{line}");
    }
    Ok(())
}

const CLUSTERS: &str = r#"{"op":"cluster","nodes":0,"ranges":[{"start":"","nodes":[1],"lease":1}]}
{"op":"cluster","nodes":65,"ranges":[{"start":"","nodes":[1],"lease":1}]}
{"op":"cluster","nodes":3,"ranges":[]}
{"op":"cluster","nodes":3,"ranges":[{"start":"","nodes":[],"lease":1}]}
{"op":"cluster","nodes":3,"ranges":[{"start":"","nodes":[1,1],"lease":1}]}
{"op":"cluster","nodes":3,"ranges":[{"start":"","nodes":[1,4],"lease":1}]}
{"op":"cluster","nodes":3,"ranges":[{"start":"","nodes":[1,2],"lease":3}]}
{"op":"cluster","nodes":3,"ranges":[{"start":"a","nodes":[1],"lease":1}]}
{"op":"cluster","nodes":8,"ranges":[{"start":"","nodes":[1,2,3,4,5,6,7,8],"lease":1}]}
{"op":"cluster","nodes":3,"ranges":[{"start":"","nodes":[1],"lease":1},{"start":"","nodes":[1],"lease":1}]}
{"op":"cluster","nodes":3,"ranges":[{"start":"","nodes":[1],"lease":1},{"start":"g","nodes":[1],"lease":1},{"start":"c","nodes":[1],"lease":1}]}
{"op":"cluster","nodes":3,"ranges":[{"start":"","nodes":[1],"lease":1},{"start":"ÿÿ","nodes":[1],"lease":1}]}"#;

#[test]
fn clusters_outside_their_limits(rt: HostRuntime) -> Result<(), Fail> {
    for line in CLUSTERS.lines() {
        assert!(rt; is_told_first(rt.alloc(), line, "2 range")?, "{line}");
    }
    Ok(())
}

const BEFORE: &str = r#"{"op":"close"}
{"op":"begin","stamp":20,"key":"a"}
{"op":"write","key":"a","stamp":1,"value":1}
{"op":"split","key":"a"}
{"op":"lease","key":"a","node":64}
{"op":"batch","stamp":5,"requests":[{"get":"a"}]}"#;

#[test]
fn lines_before_the_cluster(rt: HostRuntime) -> Result<(), Fail> {
    for line in BEFORE.lines() {
        assert!(rt; is_told_first(rt.alloc(), line, "2 order")?, "{line}");
    }
    Ok(())
}

const ALONE: &str = r#"{"op":"close"}
{"op":"abort"}
{"op":"restart"}
{"op":"batch","txn":true,"requests":[{"get":"a"}]}
{"op":"batch","stamp":30,"requests":[],"events":[{"op":"abort","at":1}]}
{"op":"cluster","nodes":1,"ranges":[{"start":"","nodes":[1],"lease":1}]}"#;

#[test]
fn lines_outside_a_transaction(rt: HostRuntime) -> Result<(), Fail> {
    for line in ALONE.lines() {
        assert!(rt; is_told_after(rt.alloc(), line, "7 order")?, "{line}");
    }
    Ok(())
}

const WITHIN: &str = r#"{"op":"batch","stamp":20,"requests":[{"get":"a"}]}
{"op":"batch","stamp":21,"requests":[{"scan":["a","b"]}]}
{"op":"batch","stamp":19,"requests":[{"get":"a"},{"put":["b",1]}]}
{"op":"batch","stamp":19,"requests":[{"end":{"commit":true}}]}
{"op":"batch","txn":true,"requests":[],"events":[{"op":"abort","at":2},{"op":"abort","at":1}]}
{"op":"batch","txn":true,"requests":[],"events":[{"op":"copy","at":1,"copy":7},{"op":"copy","at":2,"copy":7}]}
{"op":"cluster","nodes":1,"ranges":[{"start":"","nodes":[1],"lease":1}]}"#;

#[test]
fn lines_within_a_transaction(rt: HostRuntime) -> Result<(), Fail> {
    for line in WITHIN.lines() {
        assert!(rt; is_told_within(rt.alloc(), line, "8 order")?, "{line}");
    }
    Ok(())
}

const LOW: &str = r#"{"op":"write","key":"b","stamp":20,"value":1}
{"op":"write","key":"b","stamp":1,"value":null}
{"op":"batch","txn":true,"requests":[],"events":[{"op":"write","at":1,"key":"b","stamp":20,"value":1}]}
{"op":"batch","stamp":5,"requests":[{"get":"a"}],"events":[{"op":"write","at":1,"key":"b","stamp":20,"value":1}]}"#;

#[test]
fn low_writes(rt: HostRuntime) -> Result<(), Fail> {
    for line in LOW.lines() {
        assert!(rt; is_told_within(rt.alloc(), line, "8 low_write")?, "{line}");
    }
    Ok(())
}

#[test]
fn transactions_left_open(rt: HostRuntime) -> Result<(), Fail> {
    for (after, want) in [
        ("", "7 txn_open"),
        ("\n \n", "7 txn_open"),
        (BEGIN, "8 txn_open"),
        (
            "{\"op\":\"batch\",\"txn\":true,\"requests\":[{\"get\":\"b\"}]}",
            "7 txn_open",
        ),
    ] {
        let lines = format!(in rt.alloc(); "{BEGIN}\n{after}")?;
        assert!(rt; is_told_after(rt.alloc(), lines.as_str(), want)?, "{after}");
    }
    Ok(())
}

/// A line of each kind of fault, in a transaction at 20: the kind and the line.
const FAULTS: &str = r#"json {"op":"batch",
shape {"op":"open"}
range {"op":"write","key":"b","stamp":0,"value":1}
order {"op":"batch","stamp":20,"requests":[{"get":"a"}]}
low_write {"op":"write","key":"b","stamp":20,"value":1}
txn_open {"op":"begin","stamp":30,"key":"a"}"#;

/// Whether the row's fault is told, whichever of the others stands on the line after it.
fn comes_first(alloc: Global, row: &str) -> Result<bool, AllocError> {
    let Some((kind, line)) = row.split_once(' ') else {
        return Ok(false);
    };
    let want = format!(in alloc; "8 {kind}")?;
    let mut first = true;
    for later in FAULTS.lines() {
        let Some((_, later)) = later.split_once(' ') else {
            return Ok(false);
        };
        let lines = format!(in alloc; "{line}\n{later}")?;
        first = first && is_told_within(alloc, lines.as_str(), want.as_str())?;
    }
    Ok(first)
}

#[test]
fn the_first_line_at_fault_counts(rt: HostRuntime) -> Result<(), Fail> {
    for row in FAULTS.lines() {
        assert!(rt; comes_first(rt.alloc(), row)?, "{row}");
    }
    Ok(())
}

/// Whether the line within a transaction is read, and is the first of a form that isn't built.
fn is_unbuilt(alloc: Global, line: &str) -> Result<bool, AllocError> {
    let script = format!(in alloc; "{RIGHT}\n{BEGIN}\n{line}\n{line}\n{CLOSE}\n")?;
    match read_script(alloc, script.as_str().as_bytes()) {
        Ok(script) => Ok(first_unbuilt(&script) == Some(8)),
        Err(_) => Ok(false),
    }
}

const UNBUILT: &str = r#"{"op":"arrive","copy":1}
{"op":"abort"}
{"op":"restart"}
{"op":"batch","txn":true,"requests":[{"get":"a"}],"events":[{"op":"abort","at":1}]}
{"op":"batch","txn":true,"requests":[{"get":"a"}],"events":[{"op":"arrive","at":1,"copy":1}]}
{"op":"batch","txn":true,"requests":[{"get":"a"}],"events":[{"op":"lose_request","at":1}]}
{"op":"batch","txn":true,"requests":[{"get":"a"}],"events":[{"op":"lose_reply","at":1}]}
{"op":"batch","txn":true,"requests":[{"get":"a"}],"limit":1}
{"op":"batch","stamp":5,"requests":[{"resolve":["a",1]}]}
{"op":"batch","stamp":5,"requests":[{"resolve_range":["a","b",1]}]}"#;

#[test]
fn forms_that_are_not_built(rt: HostRuntime) -> Result<(), Fail> {
    for line in UNBUILT.lines() {
        assert!(rt; is_unbuilt(rt.alloc(), line)?, "{line}");
    }
    Ok(())
}

const UNBUILT_REQUESTS: &str = r#"{"put":["a",1]}
{"cput":{"key":"a","value":1,"expect":null}}
{"init_put":["a",1]}
{"increment":["a",1]}
{"delete":"a"}
{"delete_range":["a","b"]}
{"end":{"commit":true}}
{"query_intent":["a",1]}
{"resolve":["a",1]}
{"resolve_range":["a","b",1]}
{"admin_split":"a"}
{"admin_lease":["a",1]}"#;

#[test]
fn requests_that_are_not_built(rt: HostRuntime) -> Result<(), Fail> {
    let batch = r#"{"op":"batch","txn":true,"requests":[%]}"#;
    for request in UNBUILT_REQUESTS.lines() {
        let line = filled(rt.alloc(), batch, request, 1)?;
        assert!(rt; is_unbuilt(rt.alloc(), line.as_str())?, "{request}");
    }
    Ok(())
}
