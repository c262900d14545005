//! Worked lines, and the call met with ample memory.

use crate::TokenKind::{Close, Equal, Minus, Name, Number, Open, Plus, Power, Times};
use crate::{Format, Token, TokenFault, TokenKind, tokens};
use std::test::Fail;

type Spans<'a> = &'a [(TokenKind, u32, u32)];

fn are_spans(found: &[Token], spans: Spans<'_>) -> bool {
    if found.len() != spans.len() {
        return false;
    }
    for (i, (kind, start, end)) in spans.iter().enumerate() {
        let token = found[i];
        if token.kind != *kind || token.start != *start || token.end != *end {
            return false;
        }
    }
    true
}

#[test]
fn spans(rt: HostRuntime) -> Result<(), Fail> {
    let rows: [(&str, Spans<'_>); 4] = [
        (
            "a*x-1",
            &[
                (Name, 0, 1),
                (Times, 1, 2),
                (Name, 2, 3),
                (Minus, 3, 4),
                (Number, 4, 5),
            ],
        ),
        (
            "poly\tx_1^007 + B2 ",
            &[
                (Name, 0, 4),
                (Name, 5, 8),
                (Power, 8, 9),
                (Number, 9, 12),
                (Plus, 13, 14),
                (Name, 15, 17),
            ],
        ),
        ("12x", &[(Number, 0, 2), (Name, 2, 3)]),
        (" \t", &[]),
    ];
    for (line, want) in rows {
        let list = tokens(rt.alloc(), line.as_bytes(), Format::One).map_err(|_| "no tokens")?;
        assert!(rt; are_spans(list.as_slice(), want), "at {line}");
    }
    Ok(())
}

#[test]
fn brackets(rt: HostRuntime) -> Result<(), Fail> {
    let line = "let s=(x)";
    let want: Spans<'_> = &[
        (Name, 0, 3),
        (Name, 4, 5),
        (Equal, 5, 6),
        (Open, 6, 7),
        (Name, 7, 8),
        (Close, 8, 9),
    ];
    let list = tokens(rt.alloc(), line.as_bytes(), Format::Two).map_err(|_| "no tokens")?;
    assert!(rt; are_spans(list.as_slice(), want), "in the second format");
    let found = tokens(rt.alloc(), line.as_bytes(), Format::One).map(|_| ());
    assert_eq!(rt; found, Err(TokenFault::Byte(5)), "in the first format");
    Ok(())
}

#[test]
fn offences(rt: HostRuntime) {
    let rows = [
        ("x $", TokenFault::Byte(2)),
        ("_x", TokenFault::Byte(0)),
        ("a 1000000000000000000 $", TokenFault::Literal(2)),
        (
            "a*abcdefghijklmnopqrstuvwxyz0123456",
            TokenFault::LongName(2),
        ),
    ];
    for (line, want) in rows {
        let found = tokens(rt.alloc(), line.as_bytes(), Format::One).map(|_| ());
        assert_eq!(rt; found, Err(want), "at {line}");
    }
    // the longest number and the longest name
    let longest = "999999999999999999 abcdefghijklmnopqrstuvwxyz012345";
    assert!(rt; tokens(rt.alloc(), longest.as_bytes(), Format::One).is_ok());
}
