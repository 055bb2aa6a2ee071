//! Each rule of a batch, the numbers of its requests, and its parts. A batch is read from its line.
use crate::cases::filled;
use ds_base::Seq;
use ds_kind::{Batch, Illegal, Parts, Seqs};
use ds_legal::{check, numbers, parts};
use ds_script::{Line, read_line};
use std::alloc::{AllocError, Global};
use std::test::Fail;

fn rule_name(fault: Illegal) -> &'static str {
    match fault {
        Illegal::Empty => "empty",
        Illegal::TooMany => "too_many",
        Illegal::BadSpan { i: _ } => "bad_span",
        Illegal::EndTxnPlace { i: _ } => "end_place",
        Illegal::NeedsTxn { i: _ } => "needs_txn",
        Illegal::InconsistentTxn => "inconsistent_txn",
        Illegal::InconsistentWrite { i: _ } => "inconsistent_write",
        Illegal::LimitKind { i: _ } => "limit_kind",
        Illegal::LimitMixed { i: _ } => "limit_mixed",
        Illegal::LimitOrder { i: _ } => "limit_order",
        Illegal::NoTxnParts => "no_txn_parts",
    }
}

/// The place that the rule names, or 0 where it names none.
fn place_of(fault: Illegal) -> u32 {
    match fault {
        Illegal::BadSpan { i } => i,
        Illegal::EndTxnPlace { i } => i,
        Illegal::NeedsTxn { i } => i,
        Illegal::InconsistentWrite { i } => i,
        Illegal::LimitKind { i } => i,
        Illegal::LimitMixed { i } => i,
        Illegal::LimitOrder { i } => i,
        _ => 0,
    }
}

/// Whether the batch breaks this rule at this place, or none where the rule is `legal`.
fn is_broken(batch: &Batch, rule: &str, place: u32) -> bool {
    match check(batch) {
        Ok(_legal) => rule == "legal",
        Err(fault) => rule_name(fault) == rule && place_of(fault) == place,
    }
}

/// The same of the line's batch.
fn breaks(alloc: Global, line: &str, rule: &str, place: u32) -> bool {
    match &read_line(alloc, line.as_bytes(), 3) {
        Ok(Line::Batch { batch, block: _ }) => is_broken(batch, rule, place),
        _ => false,
    }
}

/// The same of a row: the rule, the place and the line.
fn is_right(alloc: Global, row: &str) -> bool {
    let Some((rule, rest)) = row.split_once(' ') else {
        return false;
    };
    let Some((place, line)) = rest.split_once(' ') else {
        return false;
    };
    match place.parse::<u32>() {
        Ok(place) => breaks(alloc, line, rule, place),
        Err(_) => false,
    }
}

const RULES: &str = r#"empty 0 {"op":"batch","stamp":5,"requests":[]}
bad_span 0 {"op":"batch","stamp":5,"requests":[{"scan":["b","b"]}]}
bad_span 1 {"op":"batch","stamp":5,"requests":[{"get":"a"},{"get":"ÿÿ"}]}
bad_span 1 {"op":"batch","stamp":5,"requests":[{"get":"a"},{"scan":["c","b"]},{"reverse_scan":["b","b"]}]}
end_place 0 {"op":"batch","txn":true,"requests":[{"end":{"commit":true}},{"put":["a",1]}]}
needs_txn 0 {"op":"batch","stamp":5,"requests":[{"query_intent":["a",1]}]}
inconsistent_txn 0 {"op":"batch","txn":true,"consistent":false,"requests":[{"put":["a",1]}]}
inconsistent_write 0 {"op":"batch","stamp":5,"consistent":false,"requests":[{"put":["a",1]}]}
limit_kind 0 {"op":"batch","txn":true,"limit":1,"requests":[{"put":["a",1]}]}
limit_mixed 1 {"op":"batch","txn":true,"limit":1,"requests":[{"scan":["a","c"]},{"reverse_scan":["a","c"]}]}
limit_order 1 {"op":"batch","txn":true,"limit":1,"requests":[{"delete_range":["m","z"]},{"delete_range":["a","c"]}]}
legal 0 {"op":"batch","txn":true,"limit":1,"requests":[{"delete_range":["a","c"]},{"delete_range":["c","z"]}]}
no_txn_parts 0 {"op":"batch","stamp":5,"requests":[{"get":"a"},{"put":["b",1]}]}
legal 0 {"op":"batch","txn":true,"requests":[{"get":"a"},{"put":["b",1]}]}"#;

#[test]
fn every_rule(rt: HostRuntime) {
    for row in RULES.lines() {
        assert!(rt; is_right(rt.alloc(), row), "{row}");
    }
}

/// Whether a batch of one request and so many more like it breaks this rule.
fn breaks_with(alloc: Global, request: &str, more: usize, rule: &str) -> Result<bool, AllocError> {
    let first = filled(
        alloc,
        r#"{"op":"batch","txn":true,"requests":[#%]}"#,
        ",#",
        more,
    )?;
    let line = first.replace(alloc, '#', request)?;
    Ok(breaks(alloc, line.as_str(), rule, 0))
}

#[test]
fn at_most_256_requests(rt: HostRuntime) -> Result<(), Fail> {
    let get = r#"{"get":"a"}"#;
    assert!(rt; breaks_with(rt.alloc(), get, 255, "legal")?);
    assert!(rt; breaks_with(rt.alloc(), get, 256, "too_many")?);
    assert!(rt; breaks_with(rt.alloc(), r#"{"scan":["a","a"]}"#, 256, "too_many")?);
    Ok(())
}

fn numbers_text(alloc: Global, seqs: &Seqs) -> Result<String, AllocError> {
    let mut text = String::new(alloc);
    for seq in seqs.as_slice() {
        let number = seq.0;
        text.push_str(format!(in alloc; "{number} ")?.as_str())?;
    }
    Ok(text)
}

fn lengths_text(alloc: Global, parts: &Parts) -> Result<String, AllocError> {
    let mut text = String::new(alloc);
    for part in parts.as_slice() {
        let length = part.items.len();
        text.push_str(format!(in alloc; "{length} ")?.as_str())?;
    }
    Ok(text)
}

/// The numbers of the batch's requests after number 4, and how many requests each part has.
fn cut(alloc: Global, batch: &Batch, split_end: bool) -> Result<String, Fail> {
    let legal = check(batch).map_err(|_| "a legal batch")?;
    let seqs = numbers(alloc, &legal, Seq(4))?;
    let parts = parts(alloc, &legal, &seqs, split_end)?;
    let (numbers, lengths) = (numbers_text(alloc, &seqs)?, lengths_text(alloc, &parts)?);
    Ok(format!(in alloc; "{numbers}in {lengths}")?)
}

/// Whether the transaction's batch of the row's requests is cut so: the row is what is expected, a
/// colon, a space, and the requests.
fn is_cut(alloc: Global, row: &str, split_end: bool) -> Result<bool, Fail> {
    let Some((want, requests)) = row.split_once(": ") else {
        return Ok(false);
    };
    let line = filled(
        alloc,
        r#"{"op":"batch","txn":true,"requests":[%]}"#,
        requests,
        1,
    )?;
    match &read_line(alloc, line.as_str().as_bytes(), 3) {
        Ok(Line::Batch { batch, block: _ }) => Ok(cut(alloc, batch, split_end)?.as_str() == want),
        _ => Ok(false),
    }
}

const PARTS: &str = r#"4 5 5 in 1 2 : {"get":"a"},{"put":["b",1]},{"end":{"commit":true}}
4 4 4 in 3 : {"get":"a"},{"scan":["a","b"]},{"query_intent":["a",1]}
4 5 6 in 1 2 : {"get":"a"},{"put":["a",1]},{"put":["b",1]}
4 4 in 1 1 : {"scan":["a","b"]},{"reverse_scan":["a","b"]}
4 4 4 in 1 1 1 : {"get":"a"},{"admin_split":"m"},{"get":"b"}
4 4 in 1 1 : {"admin_split":"m"},{"end":{"commit":true}}
4 4 in 2 : {"get":"a"},{"end":{"commit":true}}"#;

#[test]
fn numbers_and_parts(rt: HostRuntime) -> Result<(), Fail> {
    for row in PARTS.lines() {
        assert!(rt; is_cut(rt.alloc(), row, false)?, "{row}");
    }
    Ok(())
}

#[test]
fn parts_with_the_end_apart(rt: HostRuntime) -> Result<(), Fail> {
    let put = r#"5 5 in 1 1 : {"put":["a",1]},{"end":{"commit":true}}"#;
    assert!(rt; is_cut(rt.alloc(), put, true)?);
    let get = r#"4 5 5 in 1 1 1 : {"get":"a"},{"put":["b",1]},{"end":{"commit":true}}"#;
    assert!(rt; is_cut(rt.alloc(), get, true)?);
    Ok(())
}
