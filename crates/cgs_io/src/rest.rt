//! Bytes that are given from the front.

ghost use Rattle.std.specs.Prelude.{◌≡◌, ◌≤◌, ◌<◌, [], ◌++◌, length, take, min};

use std::marker::Model;

/// The bytes that are left, which contracts see as their list.
#[derive(Drop)]
pub(crate) struct Rest {
    bytes: Vec<u8>,
    at: usize,
}

impl Model for Rest {
    ghost use Rattle.std.specs.Prelude.{ℕ, List, ◌≤◌, drop, length};

    ghost Value = { List ℕ };

    ghost view = { λ rest. drop rest.at rest.bytes.items };

    ghost invariant = { λ rest. rest.at ≤ length rest.bytes.items };
}

impl Rest {
    pub(crate) fn new(bytes: Vec<u8>) -> Rest
        ensures { result ≡ bytes.items }
    {
        Rest { bytes, at: 0 }
    }

    /// Moves bytes into the front of `into`: as many as are left, as it has room for and as `most` allows.
    pub(crate) fn give(&mut self, into: &mut [u8], most: usize) -> usize
        ensures count { result ≡ min (min (length self.old) (length into.old)) most }
        ensures bytes { self.old ≡ take result into.new ++ self.new }
        ensures end { 0 < most → result ≡ 0 → 0 < length into.old → self.new ≡ [] }
    {
        let left = &self.bytes[self.at..];
        let count = left.len().min(into.len()).min(most);
        into[..count].copy_from_slice(&left[..count]);
        self.at += count;
        count
    }
}
