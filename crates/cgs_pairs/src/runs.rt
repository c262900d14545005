//! The pairs of each member in the order in which they are taken.

ghost use Rattle.std.specs.Prelude.{◌≡◌, ◌<◌, ◌++◌, [], ◌∷◌, length, slice_index_or, take, IsNone, IfOk, IfSome, OnOk, OnErr};
ghost use Rattle.std.specs.List.{AllByRecursion};
ghost use Rattle.cgs_pairs.specs.PairOrder.{with_pairs};
ghost use Rattle.cgs_pairs.specs.Runs.{pair_at, pairs_at, pairs_in, sorted, AreLeads, IsRun, IsFresh, AreRuns, AreRanks};
ghost use Rattle.cgs_pairs.specs.Unpassed.{unpassed, AreEnough};

use crate::minimal::places_to_queue;
use crate::pair::{Pair, pair_of};
use crate::rank::{Rank, rank_at};
use cgs_exps::Powers;
use cgs_order::BlockOrder;
use std::alloc::{AllocError, Global};
use std::collections::{BTreeMap, VecDeque};

/// The smaller places of pairs of one member, in the order in which the pairs are taken.
#[derive(Debug, Drop)]
pub(crate) struct Run {
    places: VecDeque<usize>,
}

/// For each member that has pairs the rank of the least one, and the smaller places of the others.
pub(crate) type Runs = BTreeMap<Rank, Run>;

/// Puts the pairs of a member with those before it among the others, but for some that are passed.
pub(crate) fn put_all(
    alloc: Global,
    order: &BlockOrder,
    leads: &[Powers],
    runs: &mut Runs,
    larger: usize,
) -> Result<(), AllocError>
    requires leads { AreLeads order.now leads.now }
    requires runs { AreRuns order.now leads.now runs.old.entries }
    requires within { larger < length leads.now }
    requires fresh { AllByRecursion (λ e. e.0.larger < larger) runs.old.entries }
    ensures ok { OnOk result (unpassed order.now leads.now (sorted order.now (pairs_in leads.now runs.new.entries)) ≡ unpassed order.now leads.now (with_pairs order.now (slice_index_or leads.now larger []) larger 0 (take larger leads.now) (sorted order.now (pairs_in leads.now runs.old.entries)))) }
    ensures runs { AreRuns order.now leads.now runs.new.entries }
    ensures err { OnErr result (runs.new.entries ≡ runs.old.entries) }
{
    let run = run_of(alloc, order, leads, larger)?;
    put(alloc, order, leads, runs, larger, run)?;
    Ok(())
}

/// Puts pairs of a member under the rank of the least one, if there is any.
pub(crate) fn put(
    alloc: Global,
    order: &BlockOrder,
    leads: &[Powers],
    runs: &mut Runs,
    larger: usize,
    mut run: Run,
) -> Result<(), AllocError>
    requires leads { AreLeads order.now leads.now }
    requires runs { AreRuns order.now leads.now runs.old.entries }
    requires within { larger < length leads.now }
    requires fresh { IsFresh larger runs.old.entries }
    requires run { IsRun order.now leads.now larger run.places.items }
    ensures ok { OnOk result (sorted order.now (pairs_in leads.now runs.new.entries) ≡ sorted order.now (pairs_at leads.now larger run.places.items ++ pairs_in leads.now runs.old.entries)) }
    ensures runs { AreRuns order.now leads.now runs.new.entries }
    ensures err { OnErr result (runs.new.entries ≡ runs.old.entries) }
{
    let Some(smaller) = run.places.pop_front() else {
        return Ok(());
    };
    let (first, second) = (lead_at(leads, smaller), lead_at(leads, larger));
    let rank = rank_at(alloc, order, first, second, larger, smaller)?;
    runs.insert(rank, run)?;
    Ok(())
}

/// Takes the least pair out, if there is one. An error may lose pairs.
pub(crate) fn take_first(
    alloc: Global,
    order: &BlockOrder,
    leads: &[Powers],
    runs: &mut Runs,
) -> Result<Option<Pair>, AllocError>
    requires leads { AreLeads order.now leads.now }
    requires runs { AreRuns order.now leads.now runs.old.entries }
    ensures none { IfOk result (λ least. IsNone least → sorted order.now (pairs_in leads.now runs.old.entries) ≡ []) }
    ensures some { IfOk result (λ least. IfSome least (λ pair. sorted order.now (pairs_in leads.now runs.old.entries) ≡ pair ∷ sorted order.now (pairs_in leads.now runs.new.entries))) }
    ensures smaller { IfOk result (λ least. IfSome least (λ pair. pair.smaller < length leads.now)) }
    ensures larger { IfOk result (λ least. IfSome least (λ pair. pair.larger < length leads.now)) }
    ensures pair { IfOk result (λ least. IfSome least (λ pair. pair ≡ pair_at leads.now pair.larger pair.smaller)) }
    ensures rest { IfOk result (λ least. IsNone least → runs.new.entries ≡ []) }
    ensures runs { AreRuns order.now leads.now runs.new.entries }
{
    let Some((rank, others)) = runs.pop_first() else {
        return Ok(None);
    };
    let (larger, smaller) = (rank.larger, rank.smaller);
    let (first, second) = (lead_at(leads, smaller), lead_at(leads, larger));
    let pair = pair_of(alloc, first, second, larger, smaller)?;
    put(alloc, order, leads, runs, larger, others)?;
    Ok(Some(pair))
}

/// The pairs of the member at a place with those before it, but for some that are passed.
pub(crate) fn run_of(
    alloc: Global,
    order: &BlockOrder,
    leads: &[Powers],
    larger: usize,
) -> Result<Run, AllocError>
    requires leads { AreLeads order.now leads.now }
    requires within { larger < length leads.now }
    ensures run { IfOk result (λ run. IsRun order.now leads.now larger run.places.items) }
    ensures enough { IfOk result (λ run. AreEnough order.now leads.now larger run.places.items) }
{
    let queued = places_to_queue(alloc, leads, larger)?;
    let mut ranks = ranks_of(alloc, order, leads, larger, &queued)?;
    ranks.sort()?;
    let mut places = VecDeque::with_capacity(alloc, ranks.len())?;
    for rank in &ranks {
        places.push_back(rank.smaller)?;
    }
    Ok(Run { places })
}

// The ranks of the pairs of a member with those at some places.
fn ranks_of(
    alloc: Global,
    order: &BlockOrder,
    leads: &[Powers],
    larger: usize,
    places: &[usize],
) -> Result<Vec<Rank>, AllocError>
    requires leads { AreLeads order.now leads.now }
    requires within { larger < length leads.now }
    requires places { AllByRecursion (λ i. i < length leads.now) places.now }
    ensures { IfOk result (λ ranks. AreRanks order.now leads.now larger places.now ranks.items) }
{
    let second = lead_at(leads, larger);
    let mut ranks = Vec::with_capacity(alloc, places.len())?;
    for &smaller in places {
        let first = lead_at(leads, smaller);
        ranks.push(rank_at(alloc, order, first, second, larger, smaller)?)?;
    }
    Ok(ranks)
}

/// The lead at a place.
pub(crate) fn lead_at(leads: &[Powers], place: usize) -> &[u16]
    requires { place < length leads.now }
    ensures { result.now ≡ slice_index_or leads.now place [] }
{
    leads[place].as_slice()
}
