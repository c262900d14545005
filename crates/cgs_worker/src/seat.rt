//! The seats of the workers.

ghost use Rattle.std.specs.Prelude.{◌≡◌, ◌<◌, ℕ, IfOk, get_or, sum_by, vec_len};

use std::alloc::{AllocError, Global};
use std::marker::Model;
use std::sync::ledger::{Ledger, Share};

/// The seat of a worker, with its share of the ledger, which has a part at least.
#[derive(Drop)]
pub struct Seat<L: Ledger> {
    pub worker: u32,
    pub(crate) share: Share<L>,
}

impl<L: Ledger> Model for Seat<L> {
    ghost use Rattle.std.specs.Prelude.{◌<◌};
    ghost use Rattle.cgs_worker.specs.SeatState.{SeatState};

    ghost Value = { SeatState };

    ghost view = { λ s. record { worker = s.worker; parts = s.share.parts; amount = s.share.amount } };

    ghost invariant = { λ s. 0 < s.share.parts };
}

/// A seat for each worker in order, each with one part of the share.
pub fn seats_of<L: Ledger>(
    alloc: Global,
    mut share: Share<L>,
    workers: u32,
) -> Result<Vec<Seat<L>>, AllocError>
    requires parts { share.parts ≡ workers }
    requires amount { share.amount ≡ 0 }
    ensures len { IfOk result (λ seats. vec_len seats ≡ workers) }
    ensures numbers { IfOk result (λ seats. (i : ℕ) (d : _) → i < workers → (get_or seats.items i d).worker ≡ i) }
    ensures parts { IfOk result (λ seats. sum_by (λ seat. seat.parts) seats.items ≡ workers) }
{
    let mut seats = Vec::new(alloc);
    for worker in 0..workers {
        let share = share.split_off(1, 0);
        seats.push(Seat { worker, share })?;
    }
    Ok(seats)
}
