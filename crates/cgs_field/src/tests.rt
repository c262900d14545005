use crate::Modulus;
use std::test::Fail;

#[test]
fn the_table_has_thirteen_numbers(rt: HostRuntime) {
    let table = [2, 3, 5, 7, 11, 13, 101, 251, 257, 1009, 10007, 32003, 65521];
    for p in table {
        assert_eq!(rt; Modulus::of(p).map(|modulus| modulus.value()), Some(p));
    }
    for n in [0, 1, 4, 9, 17, 255, 65535, 65536, 131042] {
        assert_eq!(rt; Modulus::of(n), None);
    }
}

#[test]
fn sums_products_and_inverses(rt: HostRuntime) -> Result<(), Fail> {
    // p, a, b, a + b, a - b, a * b, -a, inverse of a
    let rows = [
        (2, 1, 1, 0, 0, 1, 1, 1),
        (7, 3, 5, 1, 5, 1, 4, 5),
        (7, 6, 6, 5, 0, 1, 1, 6),
        (32003, 2, 16002, 16004, 16003, 1, 32001, 16002),
        (32003, 32002, 2, 1, 32000, 32001, 1, 32002),
        (65521, 65520, 65519, 65518, 1, 2, 1, 65520),
        (65521, 2, 3, 5, 65520, 6, 65519, 32761),
    ];
    for (p, a, b, sum, difference, product, opposite, inverse) in rows {
        let modulus = Modulus::of(p).ok_or("no modulus")?;
        let (x, y) = (modulus.of_u64(a + p as u64), modulus.of_u64(b));
        assert_eq!(rt; modulus.add(x, y).number(), sum);
        assert_eq!(rt; modulus.sub(x, y).number(), difference);
        assert_eq!(rt; modulus.mul(x, y).number(), product);
        assert_eq!(rt; modulus.neg(x).number(), opposite);
        assert!(rt; x.number() > 0);
        assert_eq!(rt; modulus.inverse(x).number(), inverse);
    }
    Ok(())
}
