//! Lines and their tokens, written by hand from the table of tokens.

use gi_text::{Cursor, LineError, Number, Place, Token, TokenKind, number, tokens};
use std::alloc::{AllocError, Global};
use std::test::Fail;

// The tokens of a text as line 7, or what is wrong in it.
fn shown(alloc: Global, text: &str) -> Result<String, AllocError> {
    let bytes = text.as_bytes();
    match tokens(alloc, bytes, 7, 0, bytes.len().min(1000)) {
        Ok(found) => {
            let mut all = String::new(alloc);
            for token in &found {
                let kind = token.kind;
                let start = token.start;
                let end = token.end;
                let one = format!(in alloc; "{kind:?} {start}..{end} ")?;
                all.push_str(one.as_str())?;
            }
            Ok(all)
        }
        Err(LineError::BadToken(place)) => {
            let line = place.line;
            let column = place.column;
            format!(in alloc; "no token at {line}:{column}")
        }
        Err(LineError::BadNumber(place)) => {
            let line = place.line;
            let column = place.column;
            format!(in alloc; "too great at {line}:{column}")
        }
        Err(LineError::Memory) => Err(AllocError),
    }
}

#[test]
fn cuts_lines(rt: HostRuntime) -> Result<(), Fail> {
    for (text, wanted) in [
        ("", ""),
        (" \t\r", ""),
        ("ADD %0,x", "Word 0..3 Register 4..6 Mark 6..7 Word 7..8 "),
        (
            "a-b.c$d_e9 -7 -x",
            "Word 0..10 Number 11..13 Mark 14..15 Word 15..16 ",
        ),
        (
            "0x1fG 0xg 00 9a",
            "Number 0..4 Word 4..5 Number 6..7 Word 7..9 Number 10..12 Number 13..14 Word 14..15 ",
        ),
        ("-0x10", "Number 0..2 Word 2..5 "),
        ("'a;b' \"c'd\"", "Quoted 0..5 Quoted 6..11 "),
        (
            "!tbaa !2 ! @g &r $x10 %ir.p",
            "Metadata 0..5 Metadata 6..8 Metadata 9..10 Global 11..13 Routine 14..16 Physical 17..21 Register 22..27 ",
        ),
        ("a;b ~", "Word 0..1 "),
        ("a \t\r[", "Word 0..1 Mark 4..5 "),
        ("ab ~", "no token at 7:4"),
        ("% 1", "no token at 7:1"),
        ("a 'b", "no token at 7:3"),
        ("é", "no token at 7:1"),
        ("-340282366920938463463374607431768211455", "Number 0..40 "),
        (
            "x 340282366920938463463374607431768211456",
            "too great at 7:3",
        ),
        ("0x100000000000000000000000000000000", "too great at 7:1"),
        (
            "~ 340282366920938463463374607431768211456",
            "no token at 7:1",
        ),
        (
            "340282366920938463463374607431768211456 ~",
            "too great at 7:1",
        ),
    ] {
        let found = shown(rt.alloc(), text)?;
        assert_eq!(rt; found.as_str(), wanted, "of {text}");
    }
    Ok(())
}

#[test]
fn cuts_a_range(rt: HostRuntime) -> Result<(), Fail> {
    let fault = match tokens(rt.alloc(), b"ab cd ~", 3, 3, 7) {
        Err(LineError::BadToken(place)) => place,
        _ => Place { line: 0, column: 0 },
    };
    assert_eq!(rt; fault, Place { line: 3, column: 4 });
    Ok(())
}

#[test]
fn reads_numbers(rt: HostRuntime) -> Result<(), Fail> {
    for (text, negative, size) in [
        ("0", false, 0),
        ("-0", true, 0),
        ("007", false, 7),
        ("-42", true, 42),
        ("0xFf0a", false, 0xff0a),
        ("340282366920938463463374607431768211455", false, u128::MAX),
    ] {
        let token = Token {
            kind: TokenKind::Number,
            start: 0,
            end: text.len(),
        };
        let found = number(text.as_bytes(), token);
        assert_eq!(rt; found, Some(Number { negative, size }), "of {text}");
    }
    let past = b"0x100000000000000000000000000000000";
    let token = Token {
        kind: TokenKind::Number,
        start: 0,
        end: past.len(),
    };
    assert_eq!(rt; number(past, token), None);
    Ok(())
}

#[test]
fn walks_over_tokens(rt: HostRuntime) -> Result<(), Fail> {
    let text = b"add x";
    let Ok(found) = tokens(rt.alloc(), text, 1, 0, 5) else {
        return Ok(());
    };
    let mut cursor = Cursor::new(text, found.as_slice());
    let x = Token {
        kind: TokenKind::Word,
        start: 4,
        end: 5,
    };
    assert_eq!(rt; cursor.take_word("x"), false);
    assert_eq!(rt; cursor.take_word("add"), true);
    assert_eq!(rt; cursor.peek(), Some(x));
    assert_eq!(rt; cursor.next(), Some(x));
    assert_eq!(rt; cursor.next(), None);
    Ok(())
}
