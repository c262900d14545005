//! The comparison of two monomials, place by place: no key list is made.

ghost use Rattle.std.specs.Prelude.{◌≡◌, ◌+◌, ◌<◌, ◌^◌, length, sum};
ghost use Rattle.std.specs.Ordering.{nat_cmp};
ghost use Rattle.std.specs.Cmp.Lexicographic.{slice_cmp};
ghost use Rattle.cgs_order.specs.TermOrder.{block_key, compared};

use crate::block::BlockOrder;
use crate::kind::Kind;
use std::cmp::Ordering;

/// Which of two monomials is greater: the variables' blocks decide, and the parameters' blocks where those are equal
/// (Becker, Weispfenning, section 5.1). Exponents may be of any size.
#[inline(always)]
pub fn compare(order: &BlockOrder, a: &[u16], b: &[u16]) -> Ordering
    requires first_places { length a.now ≡ order.now.head + order.now.tail }
    requires second_places { length b.now ≡ order.now.head + order.now.tail }
    ensures { result ≡ compared order.now a.now b.now }
{
    match order.kind {
        // Two blocks that go place by place are compared as one.
        Kind::Lex => return compare_places(a, b),
        Kind::GrLex | Kind::GrevLex => {}
    }
    compare_by_blocks(order, a, b)
}

// The comparison block by block.
fn compare_by_blocks(order: &BlockOrder, a: &[u16], b: &[u16]) -> Ordering
    requires first_places { length a.now ≡ order.now.head + order.now.tail }
    requires second_places { length b.now ≡ order.now.head + order.now.tail }
    ensures { result ≡ compared order.now a.now b.now }
{
    let head = order.head as usize;
    let places = head + order.tail as usize;
    match compare_blocks(order.kind, &a[..head], &b[..head]) {
        Ordering::Equal => compare_blocks(order.kind, &a[head..places], &b[head..places]),
        decided => decided,
    }
}

// The comparison of two blocks by one kind.
fn compare_blocks(kind: Kind, a: &[u16], b: &[u16]) -> Ordering
    requires same_places { length a.now ≡ length b.now }
    requires short { length a.now < 2 ^ 40 }
    ensures { result ≡ slice_cmp nat_cmp (block_key kind a.now) (block_key kind b.now) }
{
    match kind {
        Kind::Lex => compare_places(a, b),
        Kind::GrLex => match compare_degrees(a, b) {
            Ordering::Equal => compare_places(a, b),
            decided => decided,
        },
        Kind::GrevLex => compare_from_last(a, b),
    }
}

// The first place where two blocks differ decides.
#[inline(always)]
fn compare_places(a: &[u16], b: &[u16]) -> Ordering
    requires same_places { length a.now ≡ length b.now }
    ensures { result ≡ slice_cmp nat_cmp a.now b.now }
{
    for (i, x) in a.iter().enumerate() {
        match x.cmp(&b[i]) {
            Ordering::Equal => {}
            decided => return decided,
        }
    }
    Ordering::Equal
}

// The comparison of the degrees of two blocks, in one pass.
fn compare_degrees(a: &[u16], b: &[u16]) -> Ordering
    requires same_places { length a.now ≡ length b.now }
    requires short { length a.now < 2 ^ 40 }
    ensures { result ≡ nat_cmp (sum a.now) (sum b.now) }
{
    let mut first: u64 = 0;
    let mut second: u64 = 0;
    for (i, &x) in a.iter().enumerate() {
        first += x as u64;
        second += b[i] as u64;
    }
    first.cmp(&second)
}

// The degrees decide, and where they are equal the last place where two blocks differ: the smaller exponent is that of the greater. One pass
// finds both.
fn compare_from_last(a: &[u16], b: &[u16]) -> Ordering
    requires same_places { length a.now ≡ length b.now }
    requires short { length a.now < 2 ^ 40 }
    ensures { result ≡ slice_cmp nat_cmp (block_key Kind.GrevLex a.now) (block_key Kind.GrevLex b.now) }
{
    let mut degree: u64 = 0;
    let mut other_degree: u64 = 0;
    let mut last = 0;
    let mut other_last = 0;
    for (i, &x) in a.iter().enumerate() {
        let y = b[i];
        degree += x as u64;
        other_degree += y as u64;
        if x != y {
            last = x;
            other_last = y;
        }
    }
    match degree.cmp(&other_degree) {
        Ordering::Equal => other_last.cmp(&last),
        decided => decided,
    }
}
