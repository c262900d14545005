use crate::{
    DegreeFault, Exps, ExpsFault, MAX_DEGREE, Powers, coprime, degree, divides, lcm_into, mask,
    may_divide, product_into, quotient_into,
};

#[test]
fn operations(rt: HostRuntime) {
    let mut out = [0, 0, 0];
    lcm_into(&[2, 0, 1], &[1, 3, 0], &mut out);
    assert_eq!(rt; out, [2, 3, 1]);
    quotient_into(&[2, 3, 1], &[1, 3, 0], &mut out);
    assert_eq!(rt; out, [1, 0, 1]);
    assert_eq!(rt; product_into(&[2, 0, 1], &[1, 3, 0], &mut out), Ok(()));
    assert_eq!(rt; out, [3, 3, 1]);
    assert_eq!(rt; degree(&[65535, 65535, 2]), 131072);
    assert_eq!(rt;
        (
            divides(&[1, 0, 2], &[1, 1, 2]),
            divides(&[1, 0, 3], &[1, 1, 2])
        ),
        (true, false)
    );
    assert_eq!(rt;
        (
            coprime(&[1, 0, 2], &[0, 1, 0]),
            coprime(&[1, 0, 2], &[0, 1, 1])
        ),
        (true, false)
    );
}

#[test]
fn degrees(rt: HostRuntime) {
    let mut pair = [7, 7];
    assert_eq!(rt;
        product_into(&[32767, 0], &[1, 0], &mut pair),
        Err(DegreeFault)
    );
    assert_eq!(rt; pair, [7, 7]);
    let mut out = [0];
    assert_eq!(rt; product_into(&[32767], &[1], &mut out), Err(DegreeFault));
    assert_eq!(rt; product_into(&[32766], &[1], &mut out), Ok(()));
    assert_eq!(rt; out, [32767]);
}

#[test]
fn owned(rt: HostRuntime) {
    let most = Exps::from_slice(rt.alloc(), &[32767, 0]).expect(&rt, "memory");
    assert_eq!(rt; most.as_slice(), [32767, 0].as_slice());
    assert_eq!(rt;
        Exps::from_slice(rt.alloc(), &[32767, 1]).map(|_| ()),
        Err(ExpsFault::Degree)
    );
    let mut powers = Powers::new(rt.alloc());
    assert_eq!(rt; powers.push(3).is_ok(), true);
    assert_eq!(rt; powers.as_slice(), [3].as_slice());
}

#[test]
fn masks(rt: HostRuntime) {
    assert_eq!(rt;
        (mask(&[2, 0, 1]), mask(&[]), mask(&[1; 17])),
        (5, 0, 131071)
    );
    let divisor = mask(&[0, 4, 1]);
    assert_eq!(rt;
        (
            may_divide(divisor, mask(&[0, 2, 7])),
            may_divide(divisor, mask(&[9, 9, 0]))
        ),
        (true, false)
    );
}

#[test]
fn divides_at_each_length(rt: HostRuntime) {
    let threes = [3; 17];
    for n in 1..18 {
        let mut smaller_last = threes;
        smaller_last[n - 1] = 2;
        assert_eq!(rt; divides(&threes[..n], &threes[..n]), true);
        assert_eq!(rt; divides(&threes[..n], &smaller_last[..n]), false);
        assert_eq!(rt; divides(&smaller_last[..n], &threes[..n]), true);
    }
    assert_eq!(rt; divides(&[], &[]), true);
}

#[test]
fn coprime_at_each_length(rt: HostRuntime) {
    let odd_places = [1, 0, 1, 0, 1, 0, 1, 0, 1, 0, 1, 0, 1, 0, 1, 0, 1];
    let even_places = [0, 2, 0, 2, 0, 2, 0, 2, 0, 2, 0, 2, 0, 2, 0, 2, 0];
    for n in 1..18 {
        let mut last = [0; 17];
        last[n - 1] = 256;
        assert_eq!(rt; coprime(&odd_places[..n], &even_places[..n]), true);
        assert_eq!(rt; coprime(&last[..n], &last[..n]), false);
    }
    assert_eq!(rt; coprime(&[], &[]), true);
}

#[test]
fn masks_at_each_length(rt: HostRuntime) {
    let ones = [1; 17];
    let mut all = 0u32;
    for n in 0..18 {
        assert_eq!(rt; mask(&ones[..n]), all);
        all = all.wrapping_mul(2).wrapping_add(1);
    }
}

#[test]
fn written_at_each_length(rt: HostRuntime) {
    let up = [1, 2, 3, 4, 5, 6, 7, 8, 9, 10, 11, 12, 13, 14, 15, 16, 17];
    let down = [17, 16, 15, 14, 13, 12, 11, 10, 9, 8, 7, 6, 5, 4, 3, 2, 1];
    let most = [
        17, 16, 15, 14, 13, 12, 11, 10, 9, 10, 11, 12, 13, 14, 15, 16, 17,
    ];
    let over = [16, 14, 12, 10, 8, 6, 4, 2, 0, 0, 0, 0, 0, 0, 0, 0, 0];
    for n in 0..18 {
        let mut out = [0; 17];
        lcm_into(&up[..n], &down[..n], &mut out[..n]);
        assert_eq!(rt; out[..n], most[..n]);
        assert_eq!(rt; out[n..], [0; 17][n..]);
        if divides(&up[..n], &most[..n]) {
            quotient_into(&most[..n], &up[..n], &mut out[..n]);
        }
        assert_eq!(rt; out[..n], over[..n]);
        if degree(&up[..n]) <= MAX_DEGREE && degree(&down[..n]) <= MAX_DEGREE {
            assert_eq!(rt; product_into(&up[..n], &down[..n], &mut out[..n]), Ok(()));
        }
        assert_eq!(rt; out[..n], [18; 17][..n]);
    }
}

#[test]
fn degree_faults_at_each_length(rt: HostRuntime) {
    for n in 1..18 {
        let mut last = [0; 17];
        last[n - 1] = 16384;
        let mut out = [7; 17];
        if degree(&last[..n]) <= MAX_DEGREE {
            assert_eq!(rt;
                product_into(&last[..n], &last[..n], &mut out[..n]),
                Err(DegreeFault)
            );
        }
        assert_eq!(rt; out, [7; 17]);
    }
}
