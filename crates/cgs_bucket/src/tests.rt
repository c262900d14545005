//! Worked examples.

use crate::{Bucket, BucketFault};
use cgs_field::Modulus;
use cgs_order::{BlockOrder, Kind};
use std::test::Fail;

// Modulo 7 with one place, lexicographic.
const ORDER: BlockOrder = BlockOrder {
    kind: Kind::Lex,
    head: 1,
    tail: 0,
};

#[test]
fn leads_cancel(rt: HostRuntime) -> Result<(), Fail> {
    let modulus = Modulus::of(7).ok_or("no modulus")?;
    let one = modulus.of_u64(1);
    let mut sum = Bucket::new(rt.alloc(), modulus, ORDER);
    assert!(rt; sum.lead().is_none());
    sum.add_multiple(one, &[0], &[one, one], &[1, 0])?;
    sum.add_multiple(modulus.of_u64(6), &[0], &[one, modulus.of_u64(2)], &[1, 0])?;
    let lead = sum.lead().ok_or("no lead")?;
    assert_eq!(rt; lead.coefficient.number(), 6);
    assert_eq!(rt; lead.exponents, [0].as_slice());
    sum.drop_lead();
    assert!(rt; sum.lead().is_none());
    let refused = sum.add_multiple(one, &[1], &[one], &[32767]);
    assert_eq!(rt; refused, Err(BucketFault::Degree));
    Ok(())
}
