use crate::{
    CalmSource, Failed, MemorySink, MemorySource, NullSink, ReadFault, Reading, StdSink, StdSource,
    read_all, write_all,
};
use std::test::Fail;

/// What `read_all` answers, as bytes that can be compared.
fn shown(answer: &Result<Reading, ReadFault>) -> &[u8] {
    match answer {
        Ok(Reading::Whole(bytes)) => bytes,
        _ => kind(answer),
    }
}

/// The same, where it does not matter which bytes were read.
fn kind(answer: &Result<Reading, ReadFault>) -> &'static [u8] {
    match answer {
        Ok(Reading::Whole(_)) => b"whole",
        Ok(Reading::TooLong) => b"too long",
        Err(ReadFault::Fault) => b"fault",
        Err(ReadFault::OutOfMemory) => b"out of memory",
    }
}

#[test]
fn reads_from_memory_and_from_a_reader(rt: HostRuntime) -> Result<(), Fail> {
    let alloc = rt.alloc();
    let text = b"field 7\nend\n".as_slice();
    let rows = [
        (4096, 9, 12, text),
        (1, 99, 12, text),
        (4096, 1, 12, b"fault".as_slice()),
        (4096, 9, 11, b"too long".as_slice()),
    ];
    for (most, fail, limit, wanted) in rows {
        let bytes = Vec::from_slice(alloc, text)?;
        let fails = Vec::from_slice(alloc, &[fail])?;
        let mut source = MemorySource::new(bytes, most, fails);
        let answer = read_all(alloc, &mut source, limit);
        assert_eq!(rt; shown(&answer), wanted);
    }
    let mut calm = CalmSource::new(Vec::from_slice(alloc, text)?);
    let answer = read_all(alloc, &mut calm, 12);
    assert_eq!(rt; shown(&answer), text);
    let mut reader = StdSource::new(text);
    let answer = read_all(alloc, &mut reader, 12);
    assert_eq!(rt; shown(&answer), text);
    Ok(())
}

/// How much `read_all` reads at once: of 65536 bytes that would come, 4096, or as many as are left to the limit and one more. The reads are
/// numbered from 0, and the listed one fails.
#[test]
fn asks_for_no_more_and_no_less(rt: HostRuntime) -> Result<(), Fail> {
    let alloc = rt.alloc();
    let rows = [
        (4097, 65536, 1, b"fault".as_slice()),
        (4097, 65536, 2, b"fault"),
        (4097, 65536, 3, b"whole"),
        (4096, 65536, 2, b"whole"),
        (4097, 4096, 2, b"too long"),
        (4096, 4095, 1, b"too long"),
    ];
    for (len, limit, fail, wanted) in rows {
        let bytes = vec![in alloc; b'x'; len]?;
        let fails = Vec::from_slice(alloc, &[fail])?;
        let mut source = MemorySource::new(bytes, 65536, fails);
        let answer = read_all(alloc, &mut source, limit);
        assert_eq!(rt; kind(&answer), wanted, "{len} {limit} {fail}");
    }
    Ok(())
}

#[test]
fn writes_to_memory_and_to_a_writer(rt: HostRuntime) -> Result<(), Fail> {
    let alloc = rt.alloc();
    let text = b"segment 0\nnonzero a\n".as_slice();
    let rows = [
        (65536, 10, 1, Err(Failed), b"segment 0\n".as_slice()),
        (65536, 10, 9, Ok(()), text),
        (65536, 4096, 0, Err(Failed), b"".as_slice()),
        (7, 4096, 9, Err(Failed), b"segment".as_slice()),
        (20, 1, 99, Ok(()), text),
    ];
    for (room, most, fail, wanted, written) in rows {
        let fails = Vec::from_slice(alloc, &[fail])?;
        let mut sink = MemorySink::new(alloc, room, most, fails)?;
        assert_eq!(rt; write_all(&mut sink, text), wanted);
        assert_eq!(rt; sink.written(), written);
    }
    assert_eq!(rt; write_all(&mut NullSink, text), Ok(()));
    let mut writer = StdSink::new(Vec::new(alloc));
    assert_eq!(rt; write_all(&mut writer, text), Ok(()));
    let written = writer.into_inner();
    assert_eq!(rt; written.as_slice(), text);
    Ok(())
}
