//! The places of the open slots, by depth.

ghost use Rattle.std.specs.Prelude.{◌≡◌, ℕ, length, IfOk, sum_by};
ghost use Rattle.std.specs.BinaryHeap.{heap_items};
ghost use Rattle.cgs_board.specs.Waiting.{names, names_within};

use crate::slot::Slot;
use std::alloc::{AllocError, Global};
use std::cmp::Reverse;
use std::collections::BinaryHeap;

/// An open slot in the heap, whose top is a deepest branch, and of these the one that was offered first: the depth, and the place of the slot.
pub type Waiting = (usize, Reverse<usize>);

/// These slots, which stand from a place on.
pub fn waiting_from<J>(
    alloc: Global,
    slots: &[Slot<J>],
    first: usize,
) -> Result<BinaryHeap<Waiting>, AllocError>
    ensures { IfOk result (λ heap. (i : ℕ) → sum_by (names i) (heap_items heap) ≡ names_within i first (length slots.now)) }
{
    let mut heap = BinaryHeap::new(alloc);
    for (number, slot) in slots.iter().enumerate() {
        let place = first.checked_add(number).ok_or(AllocError)?;
        heap.push((slot.path.depth(), Reverse(place)))?;
    }
    Ok(heap)
}
