//! Runs over sources and sinks in memory.
use crate::answer::run;
use crate::status::{Status, exit_of};
use ds_io::{MemSink, MemSource, SureSource};
use std::alloc::{AllocError, Global};
use std::test::Fail;

const SCRIPT: &str =
    "{\"op\":\"cluster\",\"nodes\":3,\"ranges\":[{\"start\":\"\",\"nodes\":[1,2,3],\"lease\":1},{\"start\":\"g\",\"nodes\":[1,2,3],\"lease\":2},{\"start\":\"p\",\"nodes\":[1,2,3],\"lease\":3}]}\n\
    {\"op\":\"write\",\"key\":\"b\",\"stamp\":1,\"value\":\"x\"}\n\
    {\"op\":\"write\",\"key\":\"h\",\"stamp\":2,\"value\":7}\n\
    {\"op\":\"write\",\"key\":\"q\",\"stamp\":3,\"value\":\"y\"}\n\
    {\"op\":\"begin\",\"stamp\":10,\"key\":\"a\"}\n\
    {\"op\":\"batch\",\"txn\":true,\"requests\":[{\"scan\":[\"a\",\"z\"]}]}\n\
    {\"op\":\"close\"}\n";

const TEXT: &str =
    "{\"dir\":\"forward\",\"key\":\"a\",\"line\":6,\"look\":[[1,\"\",\"g\",1,[1,2,3],1,1],[2,\"g\",\"p\",1,[1,2,3],2,1],[3,\"p\",\"ÿÿ\",1,[1,2,3],3,1]],\"step\":1}\n\
    {\"left\":null,\"line\":6,\"node\":1,\"piece\":[[0,\"a\",\"g\",0]],\"range\":1,\"send\":{\"done\":[{\"rows\":[[\"b\",\"x\"]]}]},\"step\":2}\n\
    {\"left\":null,\"line\":6,\"node\":2,\"piece\":[[0,\"g\",\"p\",0]],\"range\":2,\"send\":{\"done\":[{\"rows\":[[\"h\",7]]}]},\"step\":3}\n\
    {\"left\":null,\"line\":6,\"node\":3,\"piece\":[[0,\"p\",\"z\",0]],\"range\":3,\"send\":{\"done\":[{\"rows\":[[\"q\",\"y\"]]}]},\"step\":4}\n\
    {\"answer\":{\"ok\":[{\"rows\":[[\"b\",\"x\"],[\"h\",7],[\"q\",\"y\"]]}]},\"line\":6}\n\
    {\"close\":\"aborted\",\"line\":7}\n";

fn words(alloc: Global, word: &str) -> Result<Vec<String>, AllocError> {
    Ok(vec![in alloc; String::from_str(alloc, word)?]?)
}

fn script(alloc: Global) -> Result<Vec<u8>, AllocError> {
    SCRIPT.as_bytes().to_vec(alloc)
}

fn is_text(bytes: &[u8]) -> bool {
    bytes == TEXT.as_bytes()
}

fn is_its_first_ten(bytes: &[u8]) -> bool {
    bytes == b"{\"dir\":\"fo".as_slice()
}

fn numbers(alloc: Global, first: u32) -> Result<Vec<u32>, AllocError> {
    Ok(vec![in alloc; first]?)
}

/// The status of the script's run, where these calls of the source and of the sink fail, and what
/// the sink holds then.
fn ends(alloc: Global, take: u32, put: u32, room: u32) -> Result<(Status, Vec<u8>), AllocError> {
    let mut source = MemSource::new(script(alloc)?, numbers(alloc, take)?);
    let mut sink = MemSink::new(alloc, room, numbers(alloc, put)?)?;
    let status = run(alloc, &words(alloc, "replay")?, &mut source, &mut sink);
    Ok((status, sink.bytes().to_vec(alloc)?))
}

#[test]
fn a_script_is_replayed(rt: HostRuntime) -> Result<(), Fail> {
    let (status, held) = ends(rt.alloc(), 0, 0, 4096)?;
    assert_eq!(rt; status, Status::Done);
    assert!(rt; is_text(&held));
    Ok(())
}

#[test]
fn a_take_that_fails(rt: HostRuntime) -> Result<(), Fail> {
    let (status, held) = ends(rt.alloc(), 1, 0, 4096)?;
    assert_eq!(rt; status, Status::ReadFault);
    assert!(rt; held.is_empty());
    Ok(())
}

#[test]
fn a_put_that_fails(rt: HostRuntime) -> Result<(), Fail> {
    let (status, held) = ends(rt.alloc(), 0, 1, 4096)?;
    assert_eq!(rt; status, Status::WriteFault);
    assert!(rt; held.is_empty());
    Ok(())
}

#[test]
fn room_for_ten_bytes(rt: HostRuntime) -> Result<(), Fail> {
    let (status, held) = ends(rt.alloc(), 0, 0, 10)?;
    assert_eq!(rt; status, Status::WriteFault);
    assert!(rt; is_its_first_ten(&held));
    Ok(())
}

/// The status of a run with this word over this source, and what the sink holds then.
fn answers(alloc: Global, word: &str, bytes: &[u8]) -> Result<(Status, Vec<u8>), AllocError> {
    let mut source = SureSource::new(bytes.to_vec(alloc)?);
    let mut sink = MemSink::new(alloc, 4096, numbers(alloc, 0)?)?;
    let status = run(alloc, &words(alloc, word)?, &mut source, &mut sink);
    Ok((status, sink.bytes().to_vec(alloc)?))
}

#[test]
fn an_empty_source(rt: HostRuntime) -> Result<(), Fail> {
    let (status, held) = answers(rt.alloc(), "replay", b"")?;
    assert_eq!(rt; status, Status::BadScript);
    assert!(rt; held.as_slice() == b"{\"fault\":\"order\",\"line\":1}\n".as_slice());
    Ok(())
}

#[test]
fn another_word(rt: HostRuntime) -> Result<(), Fail> {
    let (status, held) = answers(rt.alloc(), "play", b"")?;
    assert_eq!(rt; exit_of(status), 2);
    assert!(rt; held.as_slice() == b"{\"fault\":\"usage\"}\n".as_slice());
    Ok(())
}

const ABORT: &str =
    "{\"op\":\"cluster\",\"nodes\":1,\"ranges\":[{\"start\":\"\",\"nodes\":[1],\"lease\":1}]}\n\
    {\"op\":\"begin\",\"stamp\":10,\"key\":\"a\"}\n\
    {\"op\":\"abort\"}\n\
    {\"op\":\"close\"}\n";

#[test]
fn a_form_that_is_not_built(rt: HostRuntime) -> Result<(), Fail> {
    let (status, held) = answers(rt.alloc(), "replay", ABORT.as_bytes())?;
    assert_eq!(rt; status, Status::BadScript);
    assert!(rt; held.as_slice() == b"{\"fault\":\"shape\",\"line\":3}\n".as_slice());
    Ok(())
}
