//! Sources and sinks in memory, which fail where they are told to.

ghost use Rattle.std.specs.Prelude.{◌≡◌, ◌-◌, ◌≤◌, ◌<◌, ◌↔◌, ◌⊎◌, [], length, min, IfOk, IsErr, IsTrue, None, Ok, Some, vec_capacity};
ghost use Rattle.std.specs.Io.KnownBytes.{ReadConsumes, WriteAppends};
ghost use Rattle.cgs_io.specs.Causes.{HasCause};
ghost use Rattle.cgs_io.specs.Memory.{is_listed, IsNextCall};

use crate::calls::Calls;
use crate::rest::Rest;
use crate::sink::Sink;
use crate::source::{Failed, Source};
use std::alloc::{AllocError, Global};

/// Bytes that are read in pieces of at most `most`. The calls whose numbers, from 0, are listed fail.
#[derive(Drop)]
pub struct MemorySource {
    rest: Rest,
    most: u32,
    calls: Calls,
    ghost some: { 1 ≤ most },
}

impl MemorySource {
    /// A source of these bytes, of which no call was made yet.
    pub fn new(bytes: Vec<u8>, most: u32, fails: Vec<u64>) -> MemorySource
        requires { 1 ≤ most }
        ensures left { (⟦<MemorySource as Source>⟧.seen result).bytes ≡ Some bytes.items }
        ensures faults { (⟦<MemorySource as Source>⟧.seen result).faults ≡ 0 }
        ensures most { result.most ≡ most }
        ensures calls { (result.calls.fails ≡ fails) × (result.calls.made ≡ 0) }
    {
        MemorySource {
            rest: Rest::new(bytes),
            most,
            calls: Calls::new(fails),
        }
    }
}

impl Source for MemorySource {
    ghost seen = { λ source. record { bytes = Some source.rest; faults = source.calls.faults } };

    fn read(&mut self, into: &mut [u8]) -> Result<usize, Failed>
        ensures count { IfOk result (λ n. n ≤ length into.new) }
        ensures bytes { ReadConsumes (Some self.old.rest) (Some self.new.rest) result into.new }
        ensures cause { HasCause self.old.calls.faults self.new.calls.faults result }
        ensures fails { IsErr result ↔ IsTrue (is_listed self.old.calls.fails.items self.old.calls.made) }
        ensures amount { IfOk result (λ n. n ≡ min (min (length self.old.rest) (length into.old)) self.old.most) }
        ensures most { self.new.most ≡ self.old.most }
        ensures calls { IsNextCall self.old.calls self.new.calls }
    {
        if self.calls.next() {
            return Err(self.calls.fail());
        }
        Ok(self.rest.give(into, self.most as usize))
    }
}

/// Bytes that are read without a fault.
#[derive(Drop)]
pub struct CalmSource {
    rest: Rest,
}

impl CalmSource {
    /// A source of these bytes.
    pub fn new(bytes: Vec<u8>) -> CalmSource
        ensures left { (⟦<CalmSource as Source>⟧.seen result).bytes ≡ Some bytes.items }
        ensures faults { (⟦<CalmSource as Source>⟧.seen result).faults ≡ 0 }
    {
        CalmSource {
            rest: Rest::new(bytes),
        }
    }
}

impl Source for CalmSource {
    ghost seen = { λ source. record { bytes = Some source.rest; faults = 0 } };

    fn read(&mut self, into: &mut [u8]) -> Result<usize, Failed> {
        Ok(self.rest.give(into, usize::MAX))
    }
}

/// Takes bytes while it has room, in pieces of at most `most`. The calls whose numbers, from 0, are listed fail.
#[derive(Drop)]
pub struct MemorySink {
    bytes: Vec<u8>,
    room: usize,
    most: u32,
    calls: Calls,
    ghost within: { length bytes.items ≤ room },
    ghost reserved: { room ≤ vec_capacity bytes },
    ghost some: { 1 ≤ most },
}

impl MemorySink {
    /// An empty sink with room for so many bytes, which it reserves.
    pub fn new(
        alloc: Global,
        room: usize,
        most: u32,
        fails: Vec<u64>,
    ) -> Result<MemorySink, AllocError>
        requires { 1 ≤ most }
        ensures written { IfOk result (λ sink. (⟦<MemorySink as Sink>⟧.seen sink).bytes ≡ Some []) }
        ensures faults { IfOk result (λ sink. (⟦<MemorySink as Sink>⟧.seen sink).faults ≡ 0) }
        ensures limits { IfOk result (λ sink. (sink.room ≡ room) × (sink.most ≡ most)) }
        ensures calls { IfOk result (λ sink. (sink.calls.fails ≡ fails) × (sink.calls.made ≡ 0)) }
    {
        let bytes = Vec::with_capacity(alloc, room)?;
        Ok(MemorySink {
            bytes,
            room,
            most,
            calls: Calls::new(fails),
        })
    }

    /// All bytes that were written.
    pub fn written(&self) -> &[u8]
        ensures { (⟦<MemorySink as Sink>⟧.seen self.now).bytes ≡ Some result.now }
    {
        &self.bytes
    }
}

impl Sink for MemorySink {
    ghost seen = { λ sink. record { bytes = Some sink.bytes.items; faults = sink.calls.faults } };

    /// An empty piece is no failure where the room is used up.
    fn write(&mut self, piece: &[u8]) -> Result<usize, Failed>
        ensures count { IfOk result (λ n. n ≤ length piece.now) }
        ensures some { IfOk result (λ n. 0 < length piece.now → 0 < n) }
        ensures bytes { WriteAppends (Some self.old.bytes.items) (Some self.new.bytes.items) result piece.now }
        ensures cause { HasCause self.old.calls.faults self.new.calls.faults result }
        ensures fails { IsErr result ↔ (IsTrue (is_listed self.old.calls.fails.items self.old.calls.made)
            ⊎ ((0 < length piece.now) × (length self.old.bytes.items ≡ self.old.room))) }
        ensures amount { IfOk result (λ n. n ≡ min (min (length piece.now) (self.old.room - length self.old.bytes.items)) self.old.most) }
        ensures limits { (self.new.room ≡ self.old.room) × (self.new.most ≡ self.old.most) }
        ensures calls { IsNextCall self.old.calls self.new.calls }
    {
        let listed = self.calls.next();
        let room = self.room - self.bytes.len();
        let count = piece.len().min(room).min(self.most as usize);
        let full = count == 0 && !piece.is_empty();
        if listed || full || self.bytes.extend_from_slice(&piece[..count]).is_err() {
            return Err(self.calls.fail());
        }
        Ok(count)
    }
}

/// Takes everything, keeps nothing, and never fails.
#[derive(Clone, Copy, Debug, PartialEq, Eq)]
pub struct NullSink;

impl Sink for NullSink {
    ghost seen = { λ sink. record { bytes = None; faults = 0 } };

    fn write(&mut self, piece: &[u8]) -> Result<usize, Failed>
        ensures count { IfOk result (λ n. n ≤ length piece.now) }
        ensures some { IfOk result (λ n. 0 < length piece.now → 0 < n) }
        ensures bytes { WriteAppends None None result piece.now }
        ensures cause { HasCause 0 0 result }
        ensures all { result ≡ Ok (length piece.now) }
    {
        Ok(piece.len())
    }
}
