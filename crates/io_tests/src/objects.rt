//! Reading and writing through the traits, in memory and over a reader and a writer.
//!
//! Layer: tests; private. Its tests are run by `rt test`.
use outside_io::{
    Failure, MemorySink, MemorySource, ReadError, Sink, Source, StdSink, StdSource, read_up_to,
    write_all,
};
use std::alloc::Global;
use std::test::Fail;

// What a source gives up to a limit.
fn gives<S: Source>(alloc: Global, source: &mut S, limit: usize) -> Result<Vec<u8>, ReadError> {
    read_up_to(alloc, limit, source)
}

// Writes two pieces.
fn put<K: Sink>(sink: &mut K) -> Result<(), Failure> {
    write_all(sink, b"ab")?;
    write_all(sink, b"c")
}

#[test]
fn memory(rt: HostRuntime) -> Result<(), Fail> {
    let alloc = rt.alloc();
    let mut source = MemorySource::new(b"abc".to_vec(alloc)?, 9, [2].to_vec(alloc)?);
    assert_eq!(rt;
        gives(alloc, &mut source, 2).expect(&rt, "read").as_slice(),
        b"ab".as_slice()
    );
    assert_eq!(rt; gives(alloc, &mut source, 2).is_err(), true);
    assert_eq!(rt;
        gives(alloc, &mut source, 9).expect(&rt, "read").as_slice(),
        b"c".as_slice()
    );
    let mut sink = MemorySink::new(alloc, 9, [2].to_vec(alloc)?);
    assert_eq!(rt; put(&mut sink), Err(Failure));
    assert_eq!(rt; sink.bytes(), b"ab".as_slice());
    Ok(())
}

#[test]
fn adapters(rt: HostRuntime) -> Result<(), Fail> {
    let alloc = rt.alloc();
    let mut source = StdSource::new(b"abc".as_slice());
    assert_eq!(rt;
        gives(alloc, &mut source, 9).expect(&rt, "read").as_slice(),
        b"abc".as_slice()
    );
    let mut sink = StdSink::new(Vec::new(alloc));
    assert_eq!(rt; put(&mut sink), Ok(()));
    Ok(())
}
