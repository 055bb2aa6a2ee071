//! Each limit at its first and at its last value, and one beyond either. The cluster has three
//! nodes. In a line of a table `%` stands for what is tried.
use crate::cases::filled;
use crate::line_tests::named;
use ds_script::{Line, read_line};
use std::alloc::{AllocError, Global};
use std::test::Fail;

/// Whether of these numbers, the one below the first that is allowed, the first, the last, and the
/// one above it, the line is read with the two in the middle, and out of range with the others.
fn has_ends(alloc: Global, row: &str, numbers: [&str; 4]) -> Result<bool, AllocError> {
    let mut right = true;
    let mut i = 0usize;
    for number in numbers {
        let line = filled(alloc, row, number, 1)?;
        let want = if i == 1 || i == 2 { "read" } else { "range" };
        right = right && named(alloc, line.as_str())? == want;
        i = i.saturating_add(1);
    }
    Ok(right)
}

const COUNTS: &str = r#"{"op":"stale","key":"a","back":%}
{"op":"arrive","copy":%}
{"op":"batch","txn":true,"requests":[],"limit":%}
{"op":"batch","txn":true,"requests":[],"events":[{"op":"abort","at":%}]}
{"op":"batch","txn":true,"requests":[],"events":[{"op":"lose_request","at":1,"copy":%}]}
{"op":"batch","txn":true,"requests":[],"events":[{"op":"lose_reply","at":1,"copy":%}]}
{"op":"batch","txn":true,"requests":[],"events":[{"op":"copy","at":1,"copy":%}]}
{"op":"batch","txn":true,"requests":[{"query_intent":["a",%]}]}
{"op":"batch","txn":true,"requests":[{"resolve":["a",%]}]}
{"op":"batch","txn":true,"requests":[{"resolve_range":["a","b",%]}]}"#;

#[test]
fn counts_at_both_ends(rt: HostRuntime) -> Result<(), Fail> {
    for row in COUNTS.lines() {
        assert!(rt;
            has_ends(rt.alloc(), row, ["0", "1", "1000000", "1000001"])?,
            "{row}"
        );
    }
    Ok(())
}

const STAMPS: &str = r#"{"op":"begin","key":"a","stamp":%}
{"op":"write","key":"a","value":1,"stamp":%}
{"op":"batch","requests":[],"stamp":%}"#;

#[test]
fn stamps_at_both_ends(rt: HostRuntime) -> Result<(), Fail> {
    for row in STAMPS.lines() {
        let numbers = ["0", "1", "1000000000", "1000000001"];
        assert!(rt; has_ends(rt.alloc(), row, numbers)?, "{row}");
    }
    Ok(())
}

const NODES: &str = r#"{"op":"lease","key":"a","node":%}
{"op":"move","key":"a","nodes":[%]}
{"op":"batch","txn":true,"requests":[{"admin_lease":["a",%]}]}"#;

#[test]
fn nodes_at_both_ends(rt: HostRuntime) -> Result<(), Fail> {
    for row in NODES.lines() {
        assert!(rt; has_ends(rt.alloc(), row, ["0", "1", "3", "4"])?, "{row}");
    }
    Ok(())
}

#[test]
fn picks_and_clusters_at_both_ends(rt: HostRuntime) -> Result<(), Fail> {
    let picks = r#"{"op":"batch","txn":true,"requests":[],"picks":[%]}"#;
    assert!(rt; has_ends(rt.alloc(), picks, ["-1", "0", "1000000", "1000001"])?);
    let cluster = r#"{"op":"cluster","ranges":[{"start":"","nodes":[1],"lease":1}],"nodes":%}"#;
    assert!(rt; has_ends(rt.alloc(), cluster, ["0", "1", "64", "65"])?);
    Ok(())
}

const VALUED: &str = r#"{"op":"write","key":"a","stamp":1,"value":%}
{"op":"batch","stamp":1,"requests":[{"put":["a",%]}]}
{"op":"batch","stamp":1,"requests":[{"init_put":["a",%]}]}
{"op":"batch","stamp":1,"requests":[{"increment":["a",%]}]}
{"op":"batch","stamp":1,"requests":[{"cput":{"key":"a","expect":null,"value":%}}]}
{"op":"batch","stamp":1,"requests":[{"cput":{"key":"a","value":1,"expect":%}}]}"#;

/// Whether the line with this number is named so.
fn is_named(alloc: Global, row: &str, number: &str, want: &str) -> Result<bool, AllocError> {
    let line = filled(alloc, row, number, 1)?;
    Ok(named(alloc, line.as_str())? == want)
}

#[test]
fn values_at_both_ends(rt: HostRuntime) -> Result<(), Fail> {
    for row in VALUED.lines() {
        for number in ["-9223372036854775808", "9223372036854775807"] {
            assert!(rt; is_named(rt.alloc(), row, number, "read")?, "{row}");
        }
        for number in ["9223372036854775808", "18446744073709551615"] {
            assert!(rt; is_named(rt.alloc(), row, number, "range")?, "{row}");
        }
    }
    Ok(())
}

#[test]
fn values_that_are_no_whole_numbers(rt: HostRuntime) -> Result<(), Fail> {
    for row in VALUED.lines() {
        for number in ["-9223372036854775809", "18446744073709551616", "-0", "1.0"] {
            assert!(rt; is_named(rt.alloc(), row, number, "shape")?, "{row}");
        }
        assert!(rt; is_named(rt.alloc(), row, "1e999", "json")?, "{row}");
    }
    Ok(())
}

/// Whether the line with the part, so many times, is named so: the row is the name, the times and
/// the part.
fn is_read_so(alloc: Global, row: &str, case: &str) -> Result<bool, AllocError> {
    let Some((want, rest)) = case.split_once(' ') else {
        return Ok(false);
    };
    let Some((times, part)) = rest.split_once(' ') else {
        return Ok(false);
    };
    let Ok(times) = times.parse::<usize>() else {
        return Ok(false);
    };
    let line = filled(alloc, row, part, times)?;
    Ok(named(alloc, line.as_str())? == want)
}

const KEYED: &str = r#"{"op":"begin","stamp":1,"key":"%"}
{"op":"write","stamp":1,"value":1,"key":"%"}
{"op":"split","key":"%"}
{"op":"merge","key":"%"}
{"op":"lease","node":1,"key":"%"}
{"op":"move","nodes":[1],"key":"%"}
{"op":"stale","back":1,"key":"%"}"#;

const ASKED: &str = r#"{"op":"batch","stamp":1,"requests":[{"get":"%"}]}
{"op":"batch","stamp":1,"requests":[{"scan":["a","%"]}]}
{"op":"batch","stamp":1,"requests":[{"scan":["%","a"]}]}
{"op":"batch","stamp":1,"requests":[{"admin_split":"%"}]}"#;

const KEYS: &str = r#"read 0 a
read 64 a
range 65 a
read 64 é
range 65 é
read 1 ÿþ
range 1 ÿÿ\u0000
shape 1 Ā"#;

/// Whether the line is read so with each of the keys, and with the bound as it is said.
fn has_keys(alloc: Global, row: &str, bound: &str) -> Result<bool, AllocError> {
    let mut right = is_named(alloc, row, "ÿÿ", bound)?;
    for case in KEYS.lines() {
        right = right && is_read_so(alloc, row, case)?;
    }
    Ok(right)
}

#[test]
fn keys_at_both_ends(rt: HostRuntime) -> Result<(), Fail> {
    for row in KEYED.lines() {
        assert!(rt; has_keys(rt.alloc(), row, "range")?, "{row}");
    }
    for row in ASKED.lines() {
        assert!(rt; has_keys(rt.alloc(), row, "read")?, "{row}");
    }
    Ok(())
}

const LONGEST: &str = r#"256 x {"op":"write","key":"a","stamp":1,"value":"%"}
128 é {"op":"batch","stamp":1,"requests":[{"put":["a","%"]}]}
256 x {"op":"batch","stamp":1,"requests":[{"cput":{"key":"a","value":1,"expect":"%"}}]}
999 ,{"get":"a"} {"op":"batch","stamp":1,"requests":[{"get":"a"}%]}
999 ,1 {"op":"batch","stamp":1,"requests":[],"picks":[0%]}
999 ,{"op":"abort","at":1} {"op":"batch","stamp":1,"requests":[],"events":[{"op":"abort","at":1}%]}"#;

/// Whether the line is read with the part as many times as the row says, and not once more.
fn is_longest(alloc: Global, row: &str) -> Result<bool, AllocError> {
    let Some((times, rest)) = row.split_once(' ') else {
        return Ok(false);
    };
    let Some((part, line)) = rest.split_once(' ') else {
        return Ok(false);
    };
    let Ok(most) = times.parse::<usize>() else {
        return Ok(false);
    };
    let longest = filled(alloc, line, part, most)?;
    let longer = filled(alloc, line, part, most.saturating_add(1))?;
    Ok(named(alloc, longest.as_str())? == "read" && named(alloc, longer.as_str())? == "range")
}

#[test]
fn texts_and_lists_at_their_greatest_length(rt: HostRuntime) -> Result<(), Fail> {
    for row in LONGEST.lines() {
        assert!(rt; is_longest(rt.alloc(), row)?, "{row}");
    }
    Ok(())
}

/// The line of a cluster of a first range and as many more.
fn ranges(alloc: Global, more: u32) -> Result<String, AllocError> {
    let first = r#"{"op":"cluster","nodes":1,"ranges":[{"start":"","nodes":[1],"lease":1}"#;
    let mut line = String::from_str(alloc, first)?;
    for i in 0..more {
        let high = char::from(u8::try_from(192 + i / 32).unwrap_or(0));
        let low = char::from(u8::try_from(192 + i % 32).unwrap_or(0));
        let range = format!(in alloc; ",{{\"start\":\"{high}{low}\",\"nodes\":[1],\"lease\":1}}")?;
        line.push_str(range.as_str())?;
    }
    line.push_str("]}")?;
    Ok(line)
}

#[test]
fn at_most_1024_ranges(rt: HostRuntime) -> Result<(), Fail> {
    let most = ranges(rt.alloc(), 1_023)?;
    assert_eq!(rt; named(rt.alloc(), most.as_str())?, "read");
    let above = ranges(rt.alloc(), 1_024)?;
    assert_eq!(rt; named(rt.alloc(), above.as_str())?, "range");
    Ok(())
}

const REPEATED: &str = r#"read {"op":"close","op":"arrive","copy":0,"copy":1}
read {"op":"arrive","copy":true,"copy":1}
range {"op":"arrive","copy":1,"copy":0}
shape {"op":"arrive","copy":1,"copy":true}
read {"op":"batch","stamp":1,"requests":[{"get":7,"get":"a"}]}
shape {"op":"batch","stamp":1,"requests":[{"get":"a","get":7}]}"#;

const SEVERAL: &str = r#"json {"op":"arrive","copy":0,"more":1e999}
json {"op":"arrive","copy":0,"more":1
shape {"op":"arrive","copy":0,"more":1}
shape {"op":"move","key":"ÿÿ","nodes":[1,1,true]}
shape {"op":"batch","stamp":0,"requests":[{"get":"ÿÿÿ"}],"picks":null}
range {"op":"batch","stamp":0,"requests":[{"get":"a"}]}"#;

/// Whether the line after the row's first word is named so.
fn is_right(alloc: Global, row: &str) -> Result<bool, AllocError> {
    let Some((want, line)) = row.split_once(' ') else {
        return Ok(false);
    };
    Ok(named(alloc, line)? == want)
}

#[test]
fn the_last_of_a_repeated_member_counts(rt: HostRuntime) -> Result<(), Fail> {
    for row in REPEATED.lines() {
        assert!(rt; is_right(rt.alloc(), row)?, "{row}");
    }
    let line = r#"{"op":"arrive","copy":1,"copy":2}"#;
    let read = read_line(rt.alloc(), line.as_bytes(), 3);
    assert!(rt; matches!(&read, Ok(Line::Arrive { copy: 2 })));
    Ok(())
}

#[test]
fn the_first_kind_of_a_line_counts(rt: HostRuntime) -> Result<(), Fail> {
    for row in SEVERAL.lines() {
        assert!(rt; is_right(rt.alloc(), row)?, "{row}");
    }
    Ok(())
}
