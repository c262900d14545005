ghost use Rattle.std.specs.Prelude.{◌≡◌, ◌+◌, length};

use crate::{BlockOrder, Kind, compare};
use std::cmp::Ordering::{self, Equal, Greater, Less};

// how two monomials compare in each kind
fn answers(head: u32, tail: u32, a: &[u16], b: &[u16]) -> [Ordering; 3]
    requires first_places { length a.now ≡ head + tail }
    requires second_places { length b.now ≡ head + tail }
{
    let lex = BlockOrder {
        kind: Kind::Lex,
        head,
        tail,
    };
    let grlex = BlockOrder {
        kind: Kind::GrLex,
        head,
        tail,
    };
    let grevlex = BlockOrder {
        kind: Kind::GrevLex,
        head,
        tail,
    };
    [
        compare(&lex, a, b),
        compare(&grlex, a, b),
        compare(&grevlex, a, b),
    ]
}

#[test]
fn compares(rt: HostRuntime) {
    assert_eq!(rt;
        answers(3, 0, &[1, 0, 1], &[0, 2, 0]),
        [Greater, Greater, Less]
    );
    assert_eq!(rt;
        answers(2, 1, &[1, 0, 3], &[0, 2, 0]),
        [Greater, Less, Less]
    );
    assert_eq!(rt;
        answers(1, 1, &[1, 0], &[0, 5]),
        [Greater, Greater, Greater]
    );
    // degrees of more than sixteen bits, and blocks with no place
    assert_eq!(rt;
        answers(2, 0, &[65535, 1], &[65535, 0]),
        [Greater, Greater, Greater]
    );
    assert_eq!(rt; answers(0, 2, &[1, 2], &[2, 0]), [Less, Greater, Greater]);
    assert_eq!(rt; answers(0, 0, &[], &[]), [Equal, Equal, Equal]);
}
