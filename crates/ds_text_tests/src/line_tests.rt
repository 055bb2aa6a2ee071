//! Lines of every form, and lines of none. The cluster has three nodes.
use crate::cases::{filled, kind_name};
use ds_kind::Request;
use ds_script::{Line, LineFault, read_line};
use std::alloc::{AllocError, Global};
use std::test::Fail;

/// The name of what is wrong with the line, or `read`.
pub fn named(alloc: Global, line: &str) -> Result<&'static str, AllocError> {
    match read_line(alloc, line.as_bytes(), 3) {
        Ok(_) => Ok("read"),
        Err(LineFault::Bad(kind)) => Ok(kind_name(kind)),
        Err(LineFault::Memory(e)) => Err(e),
    }
}

const FORMS: &str =
    r#"{"op":"cluster","nodes":3,"ranges":[{"start":"","nodes":[1,2,3],"lease":1},{"start":"g","nodes":[3],"lease":3}]}
{"op":"write","key":"b","stamp":1,"value":"x"}
{"op":"write","key":"b","stamp":1,"value":-9223372036854775808}
{"op":"write","key":"b","stamp":1,"value":null}
{"op":"split","key":"b"}
{"op":"merge","key":""}
{"op":"lease","key":"b","node":3}
{"op":"move","key":"b","nodes":[3,1]}
{"op":"stale","key":"b","back":1}
{"op":"abort"}
{"op":"arrive","copy":1000000}
{"op":"begin","stamp":10,"key":"a"}
{"op":"close"}
 { "key" : "a" , "op" : "closed" , "op" : "restart" , "op" : "split" } 
{"op":"restart"}
{"op":"batch","txn":true,"requests":[]}
{"op":"batch","stamp":1,"requests":[],"consistent":false,"limit":1,"events":[],"picks":[0,1000000]}"#;

#[test]
fn every_form_is_read(rt: HostRuntime) -> Result<(), Fail> {
    for line in FORMS.lines() {
        assert_eq!(rt; named(rt.alloc(), line)?, "read", "{line}");
    }
    Ok(())
}

const REQUESTS: &str = r#"{"get":"a"}
{"scan":["a","ÿÿ"]}
{"reverse_scan":["b","a"]}
{"put":["a",1]}
{"cput":{"key":"a","value":"x","expect":null}}
{"cput":{"key":"a","value":"x","expect":7,"allow_absent":true}}
{"init_put":["a","x"]}
{"increment":["a",-5]}
{"delete":"a"}
{"delete_range":["a","b"]}
{"end":{"commit":true}}
{"end":{"commit":false,"one_phase":true,"parallel":true}}
{"query_intent":["a",1]}
{"resolve":["a",1]}
{"resolve_range":["a","b",1000000]}
{"admin_split":"a"}
{"admin_lease":["a",3]}"#;

#[test]
fn every_request_is_read(rt: HostRuntime) -> Result<(), Fail> {
    let batch = r#"{"op":"batch","txn":true,"requests":[%]}"#;
    for request in REQUESTS.lines() {
        let line = filled(rt.alloc(), batch, request, 1)?;
        assert_eq!(rt; named(rt.alloc(), line.as_str())?, "read", "{request}");
    }
    Ok(())
}

const EVENTS: &str = r#"{"op":"write","at":1,"key":"b","stamp":1,"value":"x"}
{"op":"split","at":1,"key":"b"}
{"op":"merge","at":1,"key":"b"}
{"op":"lease","at":1,"key":"b","node":1}
{"op":"move","at":1,"key":"b","nodes":[1]}
{"op":"stale","at":1,"key":"b","back":1}
{"op":"abort","at":1000000}
{"op":"arrive","at":1,"copy":1}
{"op":"lose_request","at":1}
{"op":"lose_request","at":1,"copy":1}
{"op":"lose_reply","at":1}
{"op":"lose_reply","at":1,"copy":1}
{"op":"copy","at":1,"copy":1}"#;

#[test]
fn every_event_is_read(rt: HostRuntime) -> Result<(), Fail> {
    let batch = r#"{"op":"batch","txn":true,"requests":[],"events":[%]}"#;
    for event in EVENTS.lines() {
        let line = filled(rt.alloc(), batch, event, 1)?;
        assert_eq!(rt; named(rt.alloc(), line.as_str())?, "read", "{event}");
    }
    Ok(())
}

const NO_JSON: &str = r#"{"op":"clo
{"op":"close",}
{"op":"arrive","copy":1e999}
{"op":"arrive","copy":01}
{"op":"close"} {"op":"close"}
{"op":"split","key":"\ud800"}
{"op":"split","key":"\ud800a"}
{"op":"split","key":"\udc00"}
{"op":"batch","txn":true,"requests":[{"get":"a"},]}
{'op':'close'}"#;

#[test]
fn no_json(rt: HostRuntime) -> Result<(), Fail> {
    for line in NO_JSON.lines() {
        assert_eq!(rt; named(rt.alloc(), line)?, "json", "{line}");
    }
    Ok(())
}

#[test]
fn characters_that_json_has_not(rt: HostRuntime) -> Result<(), Fail> {
    for line in [
        "\u{feff}{\"op\":\"close\"}",
        "{\"op\":\"close\"}\0",
        "{\"op\":\"split\",\"key\":\"\0\"}",
    ] {
        assert_eq!(rt; named(rt.alloc(), line)?, "json");
    }
    let no_text = read_line(rt.alloc(), b"{\"op\":\"split\",\"key\":\"\xff\"}", 3);
    assert!(rt; matches!(no_text, Err(LineFault::Bad(kind)) if kind_name(kind) == "json"));
    Ok(())
}

const ANOTHER_SHAPE: &str = r#"[]
7
{}
{"op":7}
{"op":"close","op":"closed"}
{"op":"close","at":1}
{"op":"split"}
{"op":"split","key":null}
{"op":"split","key":"Ā"}
{"op":"split","key":"\ud83d\ude00"}
{"op":"arrive","copy":1.0}
{"op":"arrive","copy":-0}
{"op":"arrive","copy":1e2}
{"op":"arrive","copy":18446744073709551616}
{"op":"write","key":"a","stamp":1,"value":true}
{"op":"cluster","nodes":0,"ranges":[{"start":"a","nodes":[],"lease":true}]}
{"op":"batch","requests":[]}
{"op":"batch","txn":false,"requests":[]}
{"op":"batch","txn":true,"stamp":1,"requests":[]}
{"op":"batch","txn":true}
{"op":"batch","txn":true,"requests":[],"limit":null}
{"op":"batch","txn":true,"requests":[],"events":null}
{"op":"batch","txn":true,"requests":[{"get":"a","put":["a",1]}]}
{"op":"batch","txn":true,"requests":[{"put":["a"]}]}
{"op":"batch","txn":true,"requests":[{"put":["a",null]}]}
{"op":"batch","txn":true,"requests":[{"cput":{"key":"a","value":1}}]}
{"op":"batch","txn":true,"requests":[{"end":{}}]}
{"op":"batch","txn":true,"requests":[],"events":[{"op":"restart","at":1}]}
{"op":"batch","txn":true,"requests":[],"events":[{"op":"copy","at":1}]}
{"op":"batch","txn":true,"requests":[{"query_intent":["a",0]}],"picks":[true]}"#;

#[test]
fn another_shape(rt: HostRuntime) -> Result<(), Fail> {
    for line in ANOTHER_SHAPE.lines() {
        assert_eq!(rt; named(rt.alloc(), line)?, "shape", "{line}");
    }
    Ok(())
}

const OUT_OF_RANGE: &str = r#"{"op":"split","key":"ÿÿ"}
{"op":"split","key":"ÿÿ\u0000"}
{"op":"begin","stamp":10,"key":"ÿÿ"}
{"op":"begin","stamp":0,"key":"a"}
{"op":"begin","stamp":1000000001,"key":"a"}
{"op":"begin","stamp":-1,"key":"a"}
{"op":"write","key":"a","stamp":1,"value":9223372036854775808}
{"op":"lease","key":"a","node":0}
{"op":"lease","key":"a","node":4}
{"op":"move","key":"a","nodes":[]}
{"op":"move","key":"a","nodes":[1,1]}
{"op":"move","key":"a","nodes":[4]}
{"op":"stale","key":"a","back":0}
{"op":"arrive","copy":1000001}
{"op":"arrive","copy":18446744073709551615}
{"op":"batch","stamp":0,"requests":[]}
{"op":"batch","txn":true,"requests":[],"limit":0}
{"op":"batch","txn":true,"requests":[],"limit":1000001}
{"op":"batch","txn":true,"requests":[],"picks":[1000001]}
{"op":"batch","txn":true,"requests":[],"events":[{"op":"abort","at":0}]}
{"op":"batch","txn":true,"requests":[],"events":[{"op":"copy","at":1,"copy":0}]}
{"op":"batch","txn":true,"requests":[],"events":[{"op":"lose_reply","at":1,"copy":0}]}
{"op":"batch","txn":true,"requests":[{"increment":["a",9223372036854775808]}]}
{"op":"batch","txn":true,"requests":[{"query_intent":["a",0]}]}
{"op":"batch","txn":true,"requests":[{"resolve":["a",1000001]}]}
{"op":"batch","txn":true,"requests":[{"admin_lease":["a",4]}]}"#;

#[test]
fn out_of_range(rt: HostRuntime) -> Result<(), Fail> {
    for line in OUT_OF_RANGE.lines() {
        assert_eq!(rt; named(rt.alloc(), line)?, "range", "{line}");
    }
    Ok(())
}

const CLUSTERS: &str = r#"{"op":"cluster","nodes":65,"ranges":[{"start":"","nodes":[1],"lease":1}]}
{"op":"cluster","nodes":9,"ranges":[{"start":"","nodes":[1,2,3,4,5,6,7,8],"lease":1}]}
{"op":"cluster","nodes":9,"ranges":[{"start":"","nodes":[1,2],"lease":3}]}
{"op":"cluster","nodes":9,"ranges":[{"start":"","nodes":[10],"lease":10}]}
{"op":"cluster","nodes":9,"ranges":[]}
{"op":"cluster","nodes":9,"ranges":[{"start":"a","nodes":[1],"lease":1}]}
{"op":"cluster","nodes":9,"ranges":[{"start":"","nodes":[1],"lease":1},{"start":"","nodes":[1],"lease":1}]}
{"op":"cluster","nodes":9,"ranges":[{"start":"","nodes":[1],"lease":1},{"start":"ÿÿ","nodes":[1],"lease":1}]}"#;

#[test]
fn clusters_out_of_range(rt: HostRuntime) -> Result<(), Fail> {
    for line in CLUSTERS.lines() {
        assert_eq!(rt; named(rt.alloc(), line)?, "range", "{line}");
    }
    Ok(())
}

#[test]
fn a_cluster_of_the_most_nodes(rt: HostRuntime) -> Result<(), Fail> {
    let line =
        r#"{"op":"cluster","nodes":64,"ranges":[{"start":"","nodes":[1,2,3,4,5,6,64],"lease":64}]}"#;
    assert_eq!(rt; named(rt.alloc(), line)?, "read");
    Ok(())
}

fn nested(alloc: Global, depth: usize) -> Result<&'static str, AllocError> {
    let line = filled(alloc, "%", "[", depth)?;
    let back = "]".repeat(alloc, depth)?;
    let line = format!(in alloc; "{line}{back}")?;
    named(alloc, line.as_str())
}

#[test]
fn deep_lines(rt: HostRuntime) -> Result<(), Fail> {
    assert_eq!(rt; nested(rt.alloc(), 127)?, "shape");
    assert_eq!(rt; nested(rt.alloc(), 128)?, "json");
    Ok(())
}

/// Whether the line is a batch with its defaults, and of an end with the empty key.
fn is_plain_end(line: &Line) -> bool {
    let Line::Batch { batch, block: _ } = line else {
        return false;
    };
    let Some(Request::EndTxn(end)) = batch.requests.get(0) else {
        return false;
    };
    let plain = end.commit && !end.one_phase && !end.parallel && end.key.bytes().is_empty();
    plain && batch.consistent && batch.limit.is_none() && batch.at.is_none()
}

#[test]
fn an_end_alone_has_the_empty_key(rt: HostRuntime) {
    let line = r#"{"op":"batch","txn":true,"requests":[{"end":{"commit":true}}]}"#;
    let read = read_line(rt.alloc(), line.as_bytes(), 3);
    assert!(rt; matches!(&read, Ok(line) if is_plain_end(line)));
}
