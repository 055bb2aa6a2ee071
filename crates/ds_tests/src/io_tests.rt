//! Sources and sinks in memory, and over readers and writers.
use ds_io::{
    Failed, LIMIT, MemSink, MemSource, ReadError, ReadSource, Sink, Source, SureSource, WriteSink,
    put_all, read_all,
};
use std::alloc::{AllocError, Global};
use std::test::Fail;

#[test]
fn takes_fail_where_listed(rt: HostRuntime) -> Result<(), Fail> {
    let alloc = rt.alloc();
    let fail = [1u32, 2].to_vec(alloc)?;
    let mut source = MemSource::new(b"hello".to_vec(alloc)?, fail);
    let mut buf = [0u8; 3];
    let want = [Err(Failed), Err(Failed), Ok(3), Ok(2), Ok(0)];
    for answer in want {
        assert_eq!(rt; source.take(&mut buf), answer);
    }
    assert_eq!(rt; buf.as_slice(), b"lol".as_slice());
    Ok(())
}

#[test]
fn puts_fail_where_listed_or_full(rt: HostRuntime) -> Result<(), Fail> {
    let alloc = rt.alloc();
    let mut sink = MemSink::new(alloc, 10, [1u32].to_vec(alloc)?)?;
    assert_eq!(rt; put_all(&mut sink, b"early"), Err(Failed));
    assert_eq!(rt; put_all(&mut sink, b"hello, world"), Err(Failed));
    assert_eq!(rt; sink.bytes(), b"hello, wor".as_slice());
    assert_eq!(rt; sink.put(b"!"), Err(Failed));
    Ok(())
}

// A function of its own, since a long list in sight slows the proof of the test.
fn long_text(alloc: Global, len: usize) -> Result<Vec<u8>, AllocError> {
    vec![in alloc; b'x'; len]
}

/// How many bytes are read of so many, or none where they are too many.
fn read_of(alloc: Global, len: usize) -> Result<Option<usize>, Fail> {
    let mut source = SureSource::new(long_text(alloc, len)?);
    match read_all(alloc, &mut source) {
        Ok(bytes) => Ok(Some(bytes.len())),
        Err(ReadError::TooLong) => Ok(None),
        Err(_) => Err("another error".into()),
    }
}

#[test]
fn reads_up_to_the_limit(rt: HostRuntime) -> Result<(), Fail> {
    for (len, want) in [(0, Some(0)), (LIMIT, Some(LIMIT)), (LIMIT + 1, None)] {
        assert!(rt; read_of(rt.alloc(), len)? == want, "{len}");
    }
    Ok(())
}

#[test]
fn reads_up_to_a_fault(rt: HostRuntime) -> Result<(), Fail> {
    let alloc = rt.alloc();
    let mut broken = MemSource::new(b"hello".to_vec(alloc)?, [2u32].to_vec(alloc)?);
    let answer = read_all(alloc, &mut broken);
    assert!(rt; matches!(&answer, Err(ReadError::Fault)));
    Ok(())
}

#[test]
fn moves_bytes_of_readers_and_writers(rt: HostRuntime) -> Result<(), Fail> {
    let mut source = ReadSource::new(b"hello".as_slice());
    let bytes = read_all(rt.alloc(), &mut source)?;
    assert_eq!(rt; bytes.as_slice(), b"hello".as_slice());
    let mut room = [0u8; 4];
    let mut sink = WriteSink::new(room.as_mut_slice());
    assert_eq!(rt; sink.put(&bytes), Ok(4));
    assert_eq!(rt; sink.put(b"o"), Err(Failed));
    Ok(())
}
