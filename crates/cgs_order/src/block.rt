//! A term order in two blocks, and its comparison.

use crate::kind::Kind;

/// A block order: the first `head` places, the variables, decide before the `tail` places after them, the parameters.
/// Both blocks go by one kind.
#[derive(Clone, Copy, Debug, PartialEq, Eq)]
pub struct BlockOrder {
    pub kind: Kind,
    pub head: u32,
    pub tail: u32,
}
