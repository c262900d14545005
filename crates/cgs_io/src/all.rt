//! Reading all that there is, and writing a whole text.

ghost use Rattle.std.specs.Prelude.{◌≤◌, ◌<◌, OnOk, OnErr};
ghost use Rattle.std.specs.Io.KnownBytes.{Appends};
ghost use Rattle.cgs_io.specs.Causes.{HasCause};
ghost use Rattle.cgs_io.specs.Streams.{IsReading, ReadCause, AppendsPrefix};

use crate::sink::Sink;
use crate::source::{Failed, Source};
use std::alloc::Global;
use thiserror::Error;

/// The most bytes that one read asks for.
const PIECE: usize = 4096;

/// What was read.
#[derive(Debug, Drop)]
pub enum Reading {
    /// All bytes, up to the end of input.
    Whole(Vec<u8>),
    /// More bytes than the limit.
    TooLong,
}

/// Why nothing is there to be used. What was read is gone from the source.
#[derive(Clone, Copy, Debug, Drop, Error, PartialEq, Eq)]
pub enum ReadFault {
    /// The source failed.
    #[error("the source failed")]
    Fault,
    /// There was no memory for the bytes.
    #[error("out of memory")]
    OutOfMemory,
}

/// Reads to the end of input, or to one byte past the limit.
pub fn read_all<S: Source>(alloc: Global, source: &mut S, limit: u64) -> Result<Reading, ReadFault>
    requires { limit ≤ 67108864 }
    ensures bytes { IsReading limit (S.seen source.old).bytes (S.seen source.new).bytes result }
    ensures cause { ReadCause (S.seen source.old).faults (S.seen source.new).faults result }
{
    let most = limit as usize + 1;
    let mut bytes = Vec::new(alloc);
    let mut buffer = [0; PIECE];
    while bytes.len() < most {
        let want = PIECE.min(most - bytes.len());
        let piece = &mut buffer[..want];
        let count = match source.read(piece) {
            Ok(count) => count,
            Err(Failed) => return Err(ReadFault::Fault),
        };
        if count == 0 {
            return Ok(Reading::Whole(bytes));
        }
        if bytes.extend_from_slice(&piece[..count]).is_err() {
            return Err(ReadFault::OutOfMemory);
        }
    }
    Ok(Reading::TooLong)
}

/// Writes the whole text. After `Failed` the sink has a prefix of it.
pub fn write_all<K: Sink>(sink: &mut K, text: &[u8]) -> Result<(), Failed>
    ensures ok { OnOk result (Appends (K.seen sink.old).bytes (K.seen sink.new).bytes text.now) }
    ensures err { OnErr result (AppendsPrefix (K.seen sink.old).bytes (K.seen sink.new).bytes text.now) }
    ensures cause { HasCause (K.seen sink.old).faults (K.seen sink.new).faults result }
{
    let mut at = 0;
    while at < text.len() {
        at += sink.write(&text[at..])?;
    }
    Ok(())
}
