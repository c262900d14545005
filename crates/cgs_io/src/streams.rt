//! The readers and writers of std: the trusted edge.

ghost use Rattle.std.specs.Prelude.{◌≡◌, ◌≤◌, ◌<◌, ◌+◌, ◌-◌, ◌^◌, length, min, IfOk, OnErr};
ghost use Rattle.std.specs.Io.KnownBytes.{Keeps, ReadConsumes, WriteAppends};
ghost use Rattle.cgs_io.specs.Causes.{HasCause};

use crate::sink::Sink;
use crate::source::{Failed, Source};
use std::io::{Read, Write};

/// A reader of std. Each error is counted.
#[derive(Drop)]
pub struct StdSource<R> {
    reader: R,
    faults: u64,
}

impl<R: Read> StdSource<R> {
    /// A source of what the reader gives, with no fault yet.
    pub fn new(reader: R) -> StdSource<R>
        ensures left { (⟦<StdSource<R> as Source>⟧.seen result).bytes ≡ R.remaining reader }
        ensures faults { (⟦<StdSource<R> as Source>⟧.seen result).faults ≡ 0 }
    {
        StdSource { reader, faults: 0 }
    }
}

impl<R: Read> Source for StdSource<R> {
    ghost seen = { λ source. record { bytes = R.remaining source.reader; faults = source.faults } };

    fn read(&mut self, into: &mut [u8]) -> Result<usize, Failed>
        ensures count { IfOk result (λ n. n ≤ length into.new) }
        ensures bytes { ReadConsumes (R.remaining self.old.reader) (R.remaining self.new.reader) result into.new }
        ensures cause { HasCause self.old.faults self.new.faults result }
        ensures counted { OnErr result (self.new.faults ≡ min (self.old.faults + 1) (2 ^ 64 - 1)) }
    {
        match self.reader.read(into) {
            Ok(count) => Ok(count),
            Err(_) => {
                self.faults = self.faults.saturating_add(1);
                Err(Failed)
            }
        }
    }
}

/// A writer of std. Each error is counted, that of a flush too, and so is a write that takes nothing of a piece that is not empty.
#[derive(Drop)]
pub struct StdSink<W> {
    writer: W,
    faults: u64,
}

impl<W: Write> StdSink<W> {
    /// A sink that hands everything to the writer, with no fault yet.
    pub fn new(writer: W) -> StdSink<W>
        ensures written { (⟦<StdSink<W> as Sink>⟧.seen result).bytes ≡ W.contents writer }
        ensures faults { (⟦<StdSink<W> as Sink>⟧.seen result).faults ≡ 0 }
    {
        StdSink { writer, faults: 0 }
    }

    /// Flushes the writer. The bytes written stay as they were.
    pub fn flush(&mut self) -> Result<(), Failed>
        ensures bytes { Keeps (W.contents self.old.writer) (W.contents self.new.writer) }
        ensures cause { HasCause self.old.faults self.new.faults result }
        ensures counted { OnErr result (self.new.faults ≡ min (self.old.faults + 1) (2 ^ 64 - 1)) }
    {
        match self.writer.flush() {
            Ok(()) => Ok(()),
            Err(_) => {
                self.faults = self.faults.saturating_add(1);
                Err(Failed)
            }
        }
    }

    /// The writer.
    pub fn into_inner(self) -> W
        ensures writer { result ≡ self.writer }
        ensures written { W.contents result ≡ (⟦<StdSink<W> as Sink>⟧.seen self).bytes }
    {
        self.writer
    }
}

impl<W: Write> Sink for StdSink<W> {
    ghost seen = { λ sink. record { bytes = W.contents sink.writer; faults = sink.faults } };

    fn write(&mut self, piece: &[u8]) -> Result<usize, Failed>
        ensures count { IfOk result (λ n. n ≤ length piece.now) }
        ensures some { IfOk result (λ n. 0 < length piece.now → 0 < n) }
        ensures bytes { WriteAppends (W.contents self.old.writer) (W.contents self.new.writer) result piece.now }
        ensures cause { HasCause self.old.faults self.new.faults result }
        ensures counted { OnErr result (self.new.faults ≡ min (self.old.faults + 1) (2 ^ 64 - 1)) }
    {
        match self.writer.write(piece) {
            Ok(count) if count > 0 || piece.is_empty() => Ok(count),
            _ => {
                self.faults = self.faults.saturating_add(1);
                Err(Failed)
            }
        }
    }
}
