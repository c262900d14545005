use crate::flushed;
use crate::progress::Line;
use cgs_io::StdSink;
use cgs_program::Status;
use std::alloc::AllocError;
use std::io::{self, Write};

/// Takes all bytes, and fails where it is flushed.
#[derive(Drop)]
struct Unflushed;

impl Write for Unflushed {
    fn write(&mut self, buf: &[u8]) -> io::Result<usize> {
        Ok(buf.len())
    }

    fn flush(&mut self) -> io::Result<()> {
        Err(io::Error::from(io::ErrorKind::StorageFull))
    }
}

#[test]
fn tells_a_failed_flush(rt: HostRuntime) {
    let alloc = rt.alloc();
    let rows = [
        (Status::Done, Status::Sink),
        (Status::Words, Status::Sink),
        (Status::Partial, Status::Sink),
        (Status::Text, Status::Sink),
        (Status::Source, Status::Source),
        (Status::Sink, Status::Sink),
        (Status::Memory, Status::Memory),
    ];
    for (status, wanted) in rows {
        assert_eq!(rt; flushed(status, &mut StdSink::new(Unflushed)), wanted);
        assert_eq!(rt; flushed(status, &mut StdSink::new(Vec::new(alloc))), status);
    }
}

#[test]
fn shows_how_far_a_run_is(rt: HostRuntime) -> Result<(), AllocError> {
    let long = [9, 0, 1, 2, 3, 4, 5, 6, 7, 8, 9, 10, 11];
    let rows: [(&[usize], &str); 4] = [
        (&[], "cgs: branches 7, depth 0, path -, 3 s"),
        (&[2, 0, 14], "cgs: branches 7, depth 3, path 2.0.14, 3 s"),
        (
            &long[1..],
            "cgs: branches 7, depth 12, path 0.1.2.3.4.5.6.7.8.9.10.11, 3 s",
        ),
        (
            &long,
            "cgs: branches 7, depth 13, path ...0.1.2.3.4.5.6.7.8.9.10.11, 3 s",
        ),
    ];
    for (path, wanted) in rows {
        let line = Line {
            branches: 7,
            path,
            seconds: 3,
        };
        let shown = format!(in rt.alloc(); "{line}")?;
        assert_eq!(rt; shown.as_str(), wanted);
    }
    Ok(())
}
