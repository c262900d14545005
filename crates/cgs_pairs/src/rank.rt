//! What stands for a pair in the queue, so that ranks are compared as their pairs.

ghost use Rattle.std.specs.Prelude.{◌≡◌, ◌+◌, ◌≤◌, length, IfOk};
ghost use Rattle.cgs_exps.specs.Monomial.{lcm};
ghost use Rattle.cgs_pairs.specs.PairOrder.{pair};
ghost use Rattle.cgs_pairs.specs.Rank.{IsRankOf};

use crate::key::key_of;
use crate::pair::Pair;
use cgs_exps::{MAX_PLACES, lcm_into};
use cgs_order::BlockOrder;
use std::alloc::{AllocError, Global};

/// The key list of the lcm of a pair, its larger place and its smaller place: the first that differs decides.
#[derive(Debug, Drop, PartialEq, Eq, PartialOrd, Ord)]
pub(crate) struct Rank {
    key: Vec<u64>,
    pub(crate) larger: usize,
    pub(crate) smaller: usize,
}

/// The rank of a pair.
pub(crate) fn rank_of(alloc: Global, order: &BlockOrder, pair: &Pair) -> Result<Rank, AllocError>
    requires places { length pair.now.lcm ≡ order.now.head + order.now.tail }
    ensures { IfOk result (λ rank. IsRankOf order.now pair.now rank) }
{
    Ok(Rank {
        key: key_of(alloc, order, pair.lcm.as_slice())?,
        larger: pair.larger,
        smaller: pair.smaller,
    })
}

/// The rank of the pair of two places where these leads stand, that at the smaller place first.
pub(crate) fn rank_at(
    alloc: Global,
    order: &BlockOrder,
    first: &[u16],
    second: &[u16],
    larger: usize,
    smaller: usize,
) -> Result<Rank, AllocError>
    requires first_places { length first.now ≡ order.now.head + order.now.tail }
    requires second_places { length second.now ≡ order.now.head + order.now.tail }
    requires places { length first.now ≤ MAX_PLACES }
    ensures { IfOk result (λ rank. IsRankOf order.now (pair (lcm first.now second.now) larger smaller) rank) }
{
    let mut room = [0; MAX_PLACES];
    let lcm = &mut room[..first.len()];
    lcm_into(first, second, lcm);
    Ok(Rank {
        key: key_of(alloc, order, lcm)?,
        larger,
        smaller,
    })
}
