//! The pairs of a list of members that wait.

ghost use Rattle.std.specs.Prelude.{◌≡◌, ◌+◌, ◌≤◌, ◌↔◌, [], ◌∷◌, ◌++◌, length, IsNone, IfOk, IfSome, OnOk, OnErr};
ghost use Rattle.cgs_pairs.specs.PairOrder.{IsQueue, with_pairs};
ghost use Rattle.cgs_pairs.specs.Unpassed.{unpassed};

use crate::pair::Pair;
use crate::runs::{Runs, put_all, take_first};
use crate::unpassed::is_ever_passed;
use cgs_exps::{MAX_PLACES, Powers};
use cgs_order::BlockOrder;
use std::alloc::{AllocError, Global};
use std::collections::BTreeMap;
use std::marker::Model;

/// The leads of some polynomials, the members, and pairs of their places that wait, which contracts see as their list in
/// the order in which they are taken. It holds no pair that is passed by the leads alone, whenever it is taken.
#[derive(Debug, Drop)]
pub struct Waiting {
    alloc: Global,
    order: BlockOrder,
    leads: Vec<Powers>,
    runs: Runs,
}

impl Model for Waiting {
    ghost use Rattle.cgs_pairs.specs.Runs.{WaitingPairs, AreLeads, AreRuns, pairs_in, sorted};
    ghost use Rattle.cgs_pairs.specs.Unpassed.{unpassed};

    ghost Value = { WaitingPairs };

    ghost view = { λ waiting. record {
      order = waiting.order;
      leads = waiting.leads.items;
      pairs = unpassed waiting.order waiting.leads.items (sorted waiting.order (pairs_in waiting.leads.items waiting.runs.entries));
    } };

    ghost invariant = { λ waiting. record {
      leads : AreLeads waiting.order waiting.leads.items;
      runs : AreRuns waiting.order waiting.leads.items waiting.runs.entries;
    } };
}

impl Waiting {
    /// No members, which take no memory yet.
    pub fn new(alloc: Global, order: BlockOrder) -> Waiting
        ensures { result ≡ record { order = order; leads = []; pairs = [] } }
    {
        Waiting {
            alloc,
            order,
            leads: Vec::new(alloc),
            runs: BTreeMap::new(alloc),
        }
    }

    /// Puts the lead of a new member at the end, and its pairs with the members before it into their places. Pairs that are
    /// passed from now on are left out. An error leaves all as it was.
    pub fn append(&mut self, lead: &[u16]) -> Result<(), AllocError>
        requires same_places { length lead.now ≡ self.old.order.head + self.old.order.tail }
        requires places { length lead.now ≤ MAX_PLACES }
        ensures ok { OnOk result (self.new ≡ record { order = self.old.order; leads = self.old.leads ++ lead.now ∷ []; pairs = unpassed self.old.order (self.old.leads ++ lead.now ∷ []) (with_pairs self.old.order lead.now (length self.old.leads) 0 self.old.leads self.old.pairs) }) }
        ensures err { OnErr result (self.new ≡ self.old) }
    {
        let place = self.leads.len();
        self.leads.push(Powers::from_slice(self.alloc, lead)?)?;
        let Ok(()) = put_all(self.alloc, &self.order, &self.leads, &mut self.runs, place) else {
            self.leads.pop();
            return Err(AllocError);
        };
        Ok(())
    }

    /// Takes the least pair out, if there is one. An error may lose pairs.
    pub fn take_least(&mut self) -> Result<Option<Pair>, AllocError>
        ensures none { IfOk result (λ least. IsNone least ↔ (self.old.pairs ≡ [])) }
        ensures some { IfOk result (λ least. IfSome least (λ pair. self.old.pairs ≡ pair ∷ self.new.pairs)) }
        ensures rest { IfOk result (λ least. IsNone least → self.new.pairs ≡ []) }
        ensures order { self.new.order ≡ self.old.order }
        ensures leads { self.new.leads ≡ self.old.leads }
        ensures queue { IsQueue (record { order = self.old.order; pairs = self.old.pairs }) }
    {
        while let Some(pair) = take_first(self.alloc, &self.order, &self.leads, &mut self.runs)? {
            if !is_ever_passed(&self.order, &self.leads, &pair) {
                return Ok(Some(pair));
            }
        }
        Ok(None)
    }
}
