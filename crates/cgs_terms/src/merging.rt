//! The sum of two lists of terms, of which the second is multiplied on the way: one pass over both.

ghost use Rattle.std.specs.Prelude.{ℕ, ◌≡◌, ◌≤◌, ◌+◌, ◌-◌, ◌++◌, [], length, take, drop, IfOk};
ghost use Rattle.cgs_field.specs.Prime.{IsModulus};
ghost use Rattle.cgs_terms.specs.Polynomial.{places, order_of, IsCanonical, canonical};
ghost use Rattle.cgs_terms.specs.Draft.{Appended, HasRoom, HaveLength, IsFlat, terms_in};
ghost use Rattle.cgs_terms.specs.Merge.{CanMerge, EndsAbove, changed, EachTerm};

use crate::draft::Draft;
use crate::flat::Flat;
use crate::list::TermList;
use crate::multiple::Multiple;
use crate::ring::Ring;
use cgs_exps::MAX_PLACES;
use cgs_field::Elem;
use cgs_order::{BlockOrder, Kind, compare};
use std::alloc::AllocError;
use std::cmp::Ordering;

/// The sum of `f` and the multiple of `g`, put together in a draft that has no terms yet.
pub fn merge<M: Multiple>(
    draft: Draft,
    ring: &Ring,
    f: &Flat<'_>,
    g: &Flat<'_>,
    by: &M,
) -> Result<TermList, AllocError>
    requires empty { terms_in draft ≡ [] }
    requires flat { IsFlat draft }
    requires places { draft.places ≡ places ring.now }
    requires room { HasRoom draft (length f.now + length g.now) }
    requires modulus { IsModulus ring.now.modulus }
    requires first { IsCanonical ring.now f.now }
    requires terms { IsCanonical ring.now g.now }
    requires can { EachTerm (M.can_multiply by.now ring.now.modulus) g.now }
    requires second { IsCanonical ring.now (changed (M.coefficient by.now ring.now.modulus) (M.monomial by.now) g.now) }
    ensures { IfOk result (λ h. h ≡ canonical ring.now (f.now ++ changed (M.coefficient by.now ring.now.modulus) (M.monomial by.now) g.now)) }
{
    let order = ring.order();
    match ring.kind {
        Kind::Lex => merge_lex(draft, ring, f, g, by),
        Kind::GrLex | Kind::GrevLex => merge_rows(draft, ring, order, ring.places(), f, g, by),
    }
}

// The same in a lexicographic order. The number of exponents, where it is small, is a constant in each call, which unrolls the loops over
// them.
fn merge_lex<M: Multiple>(
    draft: Draft,
    ring: &Ring,
    f: &Flat<'_>,
    g: &Flat<'_>,
    by: &M,
) -> Result<TermList, AllocError>
    requires kind { ring.now.kind ≡ Kind.Lex }
    requires can { CanMerge ring.now draft (M.can_multiply by.now ring.now.modulus) (M.coefficient by.now ring.now.modulus) (M.monomial by.now) f.now g.now }
    ensures { IfOk result (λ h. h ≡ canonical ring.now (f.now ++ changed (M.coefficient by.now ring.now.modulus) (M.monomial by.now) g.now)) }
{
    let order = BlockOrder {
        kind: Kind::Lex,
        ..ring.order()
    };
    match ring.places() {
        2 => merge_rows(draft, ring, order, 2, f, g, by),
        3 => merge_rows(draft, ring, order, 3, f, g, by),
        4 => merge_rows(draft, ring, order, 4, f, g, by),
        5 => merge_rows(draft, ring, order, 5, f, g, by),
        6 => merge_rows(draft, ring, order, 6, f, g, by),
        width => merge_rows(draft, ring, order, width, f, g, by),
    }
}

// The same in the ring's order, of terms with so many exponents.
#[inline(always)]
fn merge_rows<M: Multiple>(
    draft: Draft,
    ring: &Ring,
    order: BlockOrder,
    width: usize,
    f: &Flat<'_>,
    g: &Flat<'_>,
    by: &M,
) -> Result<TermList, AllocError>
    requires order { order ≡ order_of ring.now }
    requires width { width ≡ places ring.now }
    requires can { CanMerge ring.now draft (M.can_multiply by.now ring.now.modulus) (M.coefficient by.now ring.now.modulus) (M.monomial by.now) f.now g.now }
    ensures { IfOk result (λ h. h ≡ canonical ring.now (f.now ++ changed (M.coefficient by.now ring.now.modulus) (M.monomial by.now) g.now)) }
{
    let first = f.with_places(width);
    let second = g.with_places(width);
    let (start, from) = merged_up_to_last(draft, ring, order, &first, &second, by);
    let mut sum = start;
    sum.extend(&first, from, first.len())?;
    Ok(sum.finish())
}

// Puts both lists together up to the last term of the second. The answer is the draft, and the place up to which the terms of `f` are in it.
#[inline(always)]
fn merged_up_to_last<M: Multiple>(
    draft: Draft,
    ring: &Ring,
    order: BlockOrder,
    f: &Flat<'_>,
    g: &Flat<'_>,
    by: &M,
) -> (Draft, usize)
    requires order { order ≡ order_of ring.now }
    requires can { CanMerge ring.now draft (M.can_multiply by.now ring.now.modulus) (M.coefficient by.now ring.now.modulus) (M.monomial by.now) f.now g.now }
    ensures flat { IsFlat result.0 }
    ensures places { result.0.places ≡ places ring.now }
    ensures within { result.1 ≤ length f.now }
    ensures sum { terms_in result.0 ++ drop result.1 f.now ≡ canonical ring.now (f.now ++ changed (M.coefficient by.now ring.now.modulus) (M.monomial by.now) g.now) }
{
    let mut sum = draft;
    let mut room = [0; MAX_PLACES];
    let mut i = 0;
    for j in 0..g.len() {
        let term = g.term(j);
        by.prepare(ring.modulus, term.coefficient, term.exponents, &mut room);
        let c = by.times_coefficient(ring.modulus, term.coefficient, term.exponents);
        let m = by.times_monomial(term.exponents, &room);
        let (end, met) = push_above(&mut sum, &order, f, i, m);
        sum.push_joined(ring, met, c, m);
        i = end + usize::from(met.is_some());
    }
    (sum, i)
}

// Puts the terms from `from` on that are above m at the end of the sum. The answer is where they end, and the coefficient of the term there
// if it has the monomial m.
#[inline(always)]
fn push_above(
    sum: &mut Draft,
    order: &BlockOrder,
    f: &Flat<'_>,
    from: usize,
    m: &[u16],
) -> (usize, Option<Elem>)
    requires flat { IsFlat sum.old }
    requires within { from ≤ length f.now }
    requires room { HasRoom sum.old (length f.now - from) }
    requires lengths { HaveLength sum.old.places f.now }
    requires same { sum.old.places ≡ order.now.head + order.now.tail }
    requires places { length m.now ≡ order.now.head + order.now.tail }
    ensures end { EndsAbove order.now m.now f.now from result.0 result.1 }
    ensures appended { Appended sum.old sum.new (take (result.0 - from) (drop from f.now)) }
    ensures room { (n : ℕ) → HasRoom sum.old (n + (result.0 - from)) → HasRoom sum.new n }
{
    for i in from..f.len() {
        let term = f.term(i);
        match compare(order, term.exponents, m) {
            Ordering::Greater => sum.push(term.coefficient, term.exponents),
            Ordering::Equal => return (i, Some(term.coefficient)),
            Ordering::Less => return (i, None),
        }
    }
    (f.len(), None)
}
