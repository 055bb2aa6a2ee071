//! The lines of a log, as they are printed.
ghost use Rattle.std.specs.Prelude.{◌≡◌, [], ◌∷◌, IfOk};

use crate::cases::kind_name;
use ds_base::{Dir, Key, ListOf, Seq, Span, Stamp, Text, Value};
use ds_desc::{Info, Lease, Looked, Nodes, RangeDesc, Refusal};
use ds_kind::kinds::{EndTxnArgs, GetArgs, ScanArgs};
use ds_kind::{Body, Failure, Flight, Head, Illegal, Item, Piece, Reply, Request, Row, TxnStatus};
use ds_rule::{Answer, Entry, JournalStep, Outcome};
use ds_script::{FaultKind, ScriptFault};
use ds_text::{answer_object, closed_object, fault_text, restarted_object, step_object, text};
use std::alloc::Global;
use std::test::Fail;

fn key(alloc: Global, bytes: &[u8]) -> Result<Key, Fail> {
    Ok(Key::new(alloc, bytes).map_err(|_| "a key")?)
}

fn span(alloc: Global, start: &[u8], end: &[u8]) -> Result<Span, Fail> {
    Ok(Span::new(key(alloc, start)?, key(alloc, end)?).map_err(|_| "a span")?)
}

fn one<T: Drop>(alloc: Global, item: T) -> Result<ListOf<T>, Fail>
    ensures { IfOk result (λ list. list ≡ item ∷ []) }
{
    let mut list = ListOf::new(alloc);
    list.push(alloc, item)?;
    Ok(list)
}

fn info(alloc: Global) -> Result<Info, Fail> {
    Ok(Info {
        desc: RangeDesc {
            id: 1,
            span: span(alloc, b"", b"g")?,
            nodes: Nodes::of(alloc, &[1, 2, 3]),
            generation: 1,
        },
        lease: Lease { node: 2, number: 1 },
    })
}

/// A piece of the request alone.
fn piece(alloc: Global, left: Option<u32>, request: Request) -> Result<Piece, Fail> {
    let item = Item {
        pos: 0,
        seq: Seq(2),
        request,
    };
    Ok(Piece {
        head: Head {
            at: Stamp(10),
            txn: None,
            left,
            epoch: 0,
        },
        range: 1,
        items: one(alloc, item)?,
        dir: Dir::Forward,
    })
}

fn look(alloc: Global) -> Result<JournalStep, Fail> {
    Ok(JournalStep::Look {
        key: key(alloc, b"a")?,
        dir: Dir::Forward,
        looked: Looked::Rows(one(alloc, info(alloc)?)?),
    })
}

#[test]
fn a_lookup(rt: HostRuntime) -> Result<(), Fail> {
    let alloc = rt.alloc();
    let line = step_object(alloc, 6, 1, &look(alloc)?)?.to_string(alloc)?;
    assert!(rt;
        line.as_str()
            == "{\"dir\":\"forward\",\"key\":\"a\",\"line\":6,\"look\":[[1,\"\",\"g\",1,[1,2,3],2,1]],\"step\":1}"
    );
    Ok(())
}

fn rows(alloc: Global, value: Value, resume: Option<Span>) -> Result<Reply, Fail> {
    let row = Row {
        key: key(alloc, b"b")?,
        value,
    };
    Ok(Reply {
        body: Body::Rows(one(alloc, row)?),
        resume,
    })
}

#[test]
fn a_send_that_is_done(rt: HostRuntime) -> Result<(), Fail> {
    let alloc = rt.alloc();
    let start = key(alloc, b"a")?;
    let end = key(alloc, b"g")?;
    let scan = Request::Scan(ScanArgs { start, end });
    let reply = rows(alloc, Value::Text(Text::of(alloc, "x")?), None)?;
    let step = JournalStep::Send {
        node: 1,
        piece: piece(alloc, None, scan)?,
        answer: Answer::Done(one(alloc, reply)?),
    };
    let line = step_object(alloc, 6, 2, &step)?.to_string(alloc)?;
    assert!(rt;
        line.as_str()
            == "{\"left\":null,\"line\":6,\"node\":1,\"piece\":[[0,\"a\",\"g\",2]],\"range\":1,\"send\":{\"done\":[{\"rows\":[[\"b\",\"x\"]]}]},\"step\":2}"
    );
    Ok(())
}

/// A commit that waits for a write of `q`.
fn staged_end(alloc: Global) -> Result<Request, Fail> {
    let flight = Flight {
        key: key(alloc, b"q")?,
        seq: Seq(2),
    };
    Ok(Request::EndTxn(EndTxnArgs {
        key: key(alloc, b"b")?,
        commit: true,
        one_phase: false,
        parallel: true,
        in_flight: one(alloc, flight)?,
    }))
}

#[test]
fn a_staged_send(rt: HostRuntime) -> Result<(), Fail> {
    let alloc = rt.alloc();
    let step = JournalStep::Send {
        node: 1,
        piece: piece(alloc, Some(7), staged_end(alloc)?)?,
        answer: Answer::Lost,
    };
    let line = step_object(alloc, 3, 2, &step)?.to_string(alloc)?;
    assert!(rt;
        line.as_str()
            == "{\"left\":7,\"line\":3,\"node\":1,\"piece\":[[0,\"b\",\"b\\u0000\",2]],\"range\":1,\"send\":\"lost\",\"staged\":true,\"step\":2}"
    );
    Ok(())
}

#[test]
fn a_refused_send(rt: HostRuntime) -> Result<(), Fail> {
    let alloc = rt.alloc();
    let get = Request::Get(GetArgs {
        key: key(alloc, b"a")?,
    });
    let step = JournalStep::Send {
        node: 1,
        piece: piece(alloc, None, get)?,
        answer: Answer::Refused(Refusal::NotLease {
            lease: Lease { node: 2, number: 3 },
        }),
    };
    let line = step_object(alloc, 3, 1, &step)?.to_string(alloc)?;
    assert!(rt;
        line.as_str()
            == "{\"left\":null,\"line\":3,\"node\":1,\"piece\":[[0,\"a\",\"a\\u0000\",2]],\"range\":1,\"send\":{\"lease\":[2,3]},\"step\":1}"
    );
    Ok(())
}

#[test]
fn rows_with_a_rest(rt: HostRuntime) -> Result<(), Fail> {
    let alloc = rt.alloc();
    let resume = span(alloc, b"f\0", b"z")?;
    let reply = rows(alloc, Value::Int(-1), Some(resume))?;
    let outcome = Outcome::Ok {
        replies: one(alloc, reply)?,
    };
    let line = answer_object(alloc, 4, &outcome)?.to_string(alloc)?;
    assert!(rt;
        line.as_str()
            == "{\"answer\":{\"ok\":[{\"resume\":[\"f\\u0000\",\"z\"],\"rows\":[[\"b\",-1]]}]},\"line\":4}"
    );
    Ok(())
}

#[test]
fn closes_and_restarts(rt: HostRuntime) -> Result<(), Fail> {
    let alloc = rt.alloc();
    let closed = closed_object(alloc, 7, TxnStatus::Aborted)?.to_string(alloc)?;
    assert!(rt; closed.as_str() == "{\"close\":\"aborted\",\"line\":7}");
    let restarted = restarted_object(alloc, 4, 1)?.to_string(alloc)?;
    assert!(rt; restarted.as_str() == "{\"epoch\":1,\"line\":4}");
    Ok(())
}

#[test]
fn a_log(rt: HostRuntime) -> Result<(), Fail> {
    let alloc = rt.alloc();
    let lost = JournalStep::Look {
        key: key(alloc, b"a")?,
        dir: Dir::Reverse,
        looked: Looked::Lost,
    };
    let batch = Entry::Batch {
        line: 2,
        steps: one(alloc, lost)?,
        outcome: Outcome::RetryExhausted {
            refused: 0,
            lost: 1,
        },
    };
    let printed = text(alloc, &one(alloc, batch)?)?;
    assert!(rt;
        printed.as_str()
            == "{\"dir\":\"reverse\",\"key\":\"a\",\"line\":2,\"look\":\"lost\",\"step\":1}\n{\"answer\":{\"retry_exhausted\":{\"lost\":1,\"refused\":0}},\"line\":2}\n"
    );
    Ok(())
}

/// Whether the fault on line 4 is printed with its name.
fn is_printed(alloc: Global, kind: FaultKind) -> Result<bool, Fail> {
    let printed = fault_text(alloc, &ScriptFault::Bad { line: 4, kind })?;
    let name = kind_name(kind);
    let want = format!(in alloc; "{{\"fault\":\"{name}\",\"line\":4}}\n")?;
    Ok(printed.as_str() == want.as_str())
}

#[test]
fn every_fault(rt: HostRuntime) -> Result<(), Fail> {
    for kind in [
        FaultKind::TooLong,
        FaultKind::Json,
        FaultKind::Shape,
        FaultKind::Range,
        FaultKind::Order,
        FaultKind::LowWrite,
        FaultKind::TxnOpen,
    ] {
        assert!(rt; is_printed(rt.alloc(), kind)?);
    }
    Ok(())
}

/// Whether a batch's answer on line 1 is printed so.
fn says(alloc: Global, outcome: Outcome, want: &str) -> Result<bool, Fail> {
    match &outcome {
        Outcome::OutOfMemory => Ok(false),
        _ => {
            let line = answer_object(alloc, 1, &outcome)?.to_string(alloc)?;
            let want = format!(in alloc; "{{\"answer\":{want},\"line\":1}}")?;
            Ok(line.as_str() == want.as_str())
        }
    }
}

#[test]
fn outcomes_of_a_transaction(rt: HostRuntime) -> Result<(), Fail> {
    let since = Outcome::MustRollBack { since: 3 };
    assert!(rt; says(rt.alloc(), since, r#"{"must_roll_back":{"since":3}}"#)?);
    let status = TxnStatus::Unknown;
    let over = Outcome::TxnOver { status };
    assert!(rt; says(rt.alloc(), over, r#"{"txn_over":{"status":"unknown"}}"#)?);
    assert!(rt; says(rt.alloc(), Outcome::TxnAborted, r#"{"txn_aborted":{}}"#)?);
    Ok(())
}

#[test]
fn outcomes_with_a_descriptor(rt: HostRuntime) -> Result<(), Fail> {
    let desc = info(rt.alloc())?.desc;
    let wide = r#"{"op_requires_txn":{"desc":[1,"","g",1,[1,2,3]]}}"#;
    assert!(rt; says(rt.alloc(), Outcome::OpRequiresTxn { desc }, wide)?);
    let desc = info(rt.alloc())?.desc;
    let phases = r#"{"not_one_phase":{"desc":[1,"","g",1,[1,2,3]]}}"#;
    assert!(rt; says(rt.alloc(), Outcome::NotOnePhase { desc }, phases)?);
    Ok(())
}

#[test]
fn outcomes_of_losses_and_refusals(rt: HostRuntime) -> Result<(), Fail> {
    let lost = Outcome::Ambiguous { lost: 2 };
    assert!(rt; says(rt.alloc(), lost, r#"{"ambiguous":{"lost":2}}"#)?);
    let spent = Outcome::RetryExhausted {
        refused: 1,
        lost: 2,
    };
    assert!(rt;
        says(
            rt.alloc(),
            spent,
            r#"{"retry_exhausted":{"lost":2,"refused":1}}"#
        )?
    );
    Ok(())
}

#[test]
fn outcomes_of_a_number(rt: HostRuntime) -> Result<(), Fail> {
    let text = Outcome::NotInteger { i: 1 };
    assert!(rt; says(rt.alloc(), text, r#"{"not_integer":{"i":1}}"#)?);
    let great = Outcome::Overflow { i: 2 };
    assert!(rt; says(rt.alloc(), great, r#"{"overflow":{"i":2}}"#)?);
    Ok(())
}

#[test]
fn outcomes_of_a_condition(rt: HostRuntime) -> Result<(), Fail> {
    let absent = Outcome::ConditionFailed { i: 0, actual: None };
    let want = r#"{"condition_failed":{"actual":null,"i":0}}"#;
    assert!(rt; says(rt.alloc(), absent, want)?);
    let actual = Some(Value::Text(Text::of(rt.alloc(), "a\nb")?));
    let other = Outcome::ConditionFailed { i: 1, actual };
    let want = r#"{"condition_failed":{"actual":"a\nb","i":1}}"#;
    assert!(rt; says(rt.alloc(), other, want)?);
    Ok(())
}

#[test]
fn bytes_of_a_key(rt: HostRuntime) -> Result<(), Fail> {
    let outcome = Outcome::WriteTooOld {
        i: 0,
        key: key(rt.alloc(), b"\x00\"\\\x7f\x80\xff")?,
        stamp: Stamp(5),
    };
    let want =
        "{\"write_too_old\":{\"i\":0,\"key\":\"\\u0000\\\"\\\\\u{7f}\u{80}\u{ff}\",\"stamp\":5}}";
    assert!(rt; says(rt.alloc(), outcome, want)?);
    Ok(())
}

/// Whether the rule that a batch breaks is printed so.
fn says_rule(alloc: Global, rule: Illegal, want: &str) -> Result<bool, Fail> {
    let want = format!(in alloc; "{{\"illegal\":{want}}}")?;
    says(alloc, Outcome::Illegal(rule), want.as_str())
}

#[test]
fn rules_without_a_place(rt: HostRuntime) -> Result<(), Fail> {
    for (rule, want) in [
        (Illegal::Empty, r#"{"code":1}"#),
        (Illegal::TooMany, r#"{"code":2}"#),
        (Illegal::InconsistentTxn, r#"{"code":6}"#),
        (Illegal::NoTxnParts, r#"{"code":11}"#),
    ] {
        assert!(rt; says_rule(rt.alloc(), rule, want)?, "{want}");
    }
    Ok(())
}

#[test]
fn rules_with_a_place(rt: HostRuntime) -> Result<(), Fail> {
    for (rule, want) in [
        (Illegal::BadSpan { i: 0 }, r#"{"code":3,"i":0}"#),
        (Illegal::EndTxnPlace { i: 1 }, r#"{"code":4,"i":1}"#),
        (Illegal::NeedsTxn { i: 2 }, r#"{"code":5,"i":2}"#),
        (Illegal::InconsistentWrite { i: 3 }, r#"{"code":7,"i":3}"#),
    ] {
        assert!(rt; says_rule(rt.alloc(), rule, want)?, "{want}");
    }
    Ok(())
}

#[test]
fn rules_of_a_limit(rt: HostRuntime) -> Result<(), Fail> {
    for (rule, want) in [
        (Illegal::LimitKind { i: 4 }, r#"{"code":8,"i":4}"#),
        (Illegal::LimitMixed { i: 5 }, r#"{"code":9,"i":5}"#),
        (Illegal::LimitOrder { i: 255 }, r#"{"code":10,"i":255}"#),
    ] {
        assert!(rt; says_rule(rt.alloc(), rule, want)?, "{want}");
    }
    Ok(())
}

/// Whether a reply with this body is printed so.
fn says_body(alloc: Global, body: Body, want: &str) -> Result<bool, Fail> {
    let replies = one(alloc, Reply { body, resume: None })?;
    let want = format!(in alloc; "{{\"ok\":[{want}]}}")?;
    says(alloc, Outcome::Ok { replies }, want.as_str())
}

#[test]
fn bodies_with_a_value(rt: HostRuntime) -> Result<(), Fail> {
    assert!(rt; says_body(rt.alloc(), Body::Got(None), r#"{"value":null}"#)?);
    let least = Body::Got(Some(Value::Int(i64::MIN)));
    assert!(rt; says_body(rt.alloc(), least, r#"{"value":-9223372036854775808}"#)?);
    assert!(rt; says_body(rt.alloc(), Body::Number(-5), r#"{"value":-5}"#)?);
    Ok(())
}

#[test]
fn bodies_with_a_list(rt: HostRuntime) -> Result<(), Fail> {
    let none = Body::Rows(ListOf::new(rt.alloc()));
    assert!(rt; says_body(rt.alloc(), none, r#"{"rows":[]}"#)?);
    let gone = Body::Gone(one(rt.alloc(), key(rt.alloc(), b"b")?)?);
    assert!(rt; says_body(rt.alloc(), gone, r#"{"keys":["b"],"num":1}"#)?);
    Ok(())
}

#[test]
fn bodies_of_one_word(rt: HostRuntime) -> Result<(), Fail> {
    assert!(rt; says_body(rt.alloc(), Body::Unit, "{}")?);
    assert!(rt; says_body(rt.alloc(), Body::Found(true), r#"{"found":true}"#)?);
    let committed = Body::Ended(TxnStatus::Committed);
    assert!(rt; says_body(rt.alloc(), committed, r#"{"status":"committed"}"#)?);
    let staging = Body::Ended(TxnStatus::Staging);
    assert!(rt; says_body(rt.alloc(), staging, r#"{"status":"staging"}"#)?);
    Ok(())
}

/// Whether a send of a get that is answered so is printed so.
fn says_sent(alloc: Global, answer: Answer, want: &str) -> Result<bool, Fail> {
    let get = Request::Get(GetArgs {
        key: key(alloc, b"a")?,
    });
    let step = JournalStep::Send {
        node: 1,
        piece: piece(alloc, None, get)?,
        answer,
    };
    let line = step_object(alloc, 3, 1, &step)?.to_string(alloc)?;
    let front = r#"{"left":null,"line":3,"node":1,"piece":[[0,"a","a\u0000",2]],"range":1,"#;
    let want = format!(in alloc; "{front}\"send\":{want},\"step\":1}}")?;
    Ok(line.as_str() == want.as_str())
}

#[test]
fn sends_that_are_done_or_lost(rt: HostRuntime) -> Result<(), Fail> {
    let done = Answer::Done(ListOf::new(rt.alloc()));
    assert!(rt; says_sent(rt.alloc(), done, r#"{"done":[]}"#)?);
    assert!(rt; says_sent(rt.alloc(), Answer::Lost, r#""lost""#)?);
    Ok(())
}

#[test]
fn sends_that_are_refused(rt: HostRuntime) -> Result<(), Fail> {
    let not_found = Answer::Refused(Refusal::NotFound);
    assert!(rt; says_sent(rt.alloc(), not_found, r#""not_found""#)?);
    let infos = one(rt.alloc(), info(rt.alloc())?)?;
    let mismatch = Answer::Refused(Refusal::Mismatch { infos });
    assert!(rt;
        says_sent(
            rt.alloc(),
            mismatch,
            r#"{"mismatch":[[1,"","g",1,[1,2,3],2,1]]}"#
        )?
    );
    Ok(())
}

/// Whether a send that failed so is printed so.
fn says_failed(alloc: Global, failure: Failure, want: &str) -> Result<bool, Fail> {
    let want = format!(in alloc; "{{\"failed\":{want}}}")?;
    says_sent(alloc, Answer::Failed(failure), want.as_str())
}

#[test]
fn sends_that_fail_at_a_request(rt: HostRuntime) -> Result<(), Fail> {
    let actual = Some(Value::Int(9));
    let condition = Failure::Condition { i: 1, actual };
    let want = r#"{"condition_failed":{"actual":9,"i":1}}"#;
    assert!(rt; says_failed(rt.alloc(), condition, want)?);
    let text = Failure::NotInteger { i: 3 };
    assert!(rt; says_failed(rt.alloc(), text, r#"{"not_integer":{"i":3}}"#)?);
    let great = Failure::Overflow { i: 4 };
    assert!(rt; says_failed(rt.alloc(), great, r#"{"overflow":{"i":4}}"#)?);
    Ok(())
}

#[test]
fn sends_that_are_too_late(rt: HostRuntime) -> Result<(), Fail> {
    let key = key(rt.alloc(), b"b")?;
    let too_old = Failure::TooOld {
        i: 2,
        key,
        stamp: Stamp(11),
    };
    let want = r#"{"write_too_old":{"i":2,"key":"b","stamp":11}}"#;
    assert!(rt; says_failed(rt.alloc(), too_old, want)?);
    assert!(rt; says_failed(rt.alloc(), Failure::Aborted, r#"{"txn_aborted":{}}"#)?);
    assert!(rt; says_failed(rt.alloc(), Failure::Committed, r#"{"txn_committed":{}}"#)?);
    Ok(())
}
