//! Texts whose tokens, or whose refusals, are known.

use crate::TokenKind::{
    AndAnd, Arrow, At, Bar, BraceClose, BraceOpen, BracketClose, BracketOpen, Colon, ColonColon,
    Comma, Dot, EqEq, Greater, GreaterEq, Less, LessEq, Lower, Minus, Not, NotEq, Number, OrOr,
    ParenClose, ParenOpen, Plus, Text, Upper,
};
use crate::{LexErr, Token, TokenKind, bytes_of, lex, number_of, text_of};
use std::alloc::Global;
use std::test::Fail;

/// The tokens of a text of this file, each of which is short enough for `lex`.
fn tokens_of(alloc: Global, text: &[u8]) -> Result<Vec<Token>, LexErr> {
    if text.len() > 2_000_000 {
        return Ok(Vec::new(alloc));
    }
    lex(alloc, text)
}

fn token((kind, at, end): (TokenKind, u32, u32)) -> Token {
    Token { kind, at, end }
}

#[test]
fn tokens_end_where_they_must(rt: HostRuntime) -> Result<(), Fail> {
    let table: [(&[u8], &[(TokenKind, u32, u32)]); 20] = [
        (b"", &[]),
        (b" \t\r\n", &[]),
        (b"# no token", &[]),
        (b"static Visitor", &[(Lower, 0, 6), (Upper, 7, 14)]),
        (b"a_B9 Z", &[(Lower, 0, 4), (Upper, 5, 6)]),
        (b"0 12ab", &[(Number, 0, 1), (Number, 2, 4), (Lower, 4, 6)]),
        (b"0x1", &[(Number, 0, 1), (Lower, 1, 3)]),
        (b"9223372036854775808", &[(Number, 0, 19)]),
        (b"# a\rb\nc#d\n\ne", &[(Lower, 6, 7), (Lower, 11, 12)]),
        (b":::", &[(ColonColon, 0, 2), (Colon, 2, 3)]),
        (b"-->", &[(Minus, 0, 1), (Arrow, 1, 3)]),
        (b"!!=", &[(Not, 0, 1), (NotEq, 1, 3)]),
        (b"|||", &[(OrOr, 0, 2), (Bar, 2, 3)]),
        (b">=>", &[(GreaterEq, 0, 2), (Greater, 2, 3)]),
        (b"n->x", &[(Lower, 0, 1), (Arrow, 1, 3), (Lower, 3, 4)]),
        (b"\"\"", &[(Text, 0, 2)]),
        (b"\"a\"\"b\"", &[(Text, 0, 3), (Text, 3, 6)]),
        (b"\"a\\\"b\" c", &[(Text, 0, 6), (Lower, 7, 8)]),
        (b"\"\\\\\\n\\r\\t\\x7f\"", &[(Text, 0, 14)]),
        (b"\"# \xc3\xa9\"", &[(Text, 0, 6)]),
    ];
    for (text, want) in table {
        let tokens = tokens_of(rt.alloc(), text)?;
        assert_eq!(rt; tokens.len(), want.len(), "in {text:?}");
        for (found, expected) in tokens.iter().zip(want) {
            assert_eq!(rt; *found, token(*expected), "in {text:?}");
        }
    }
    Ok(())
}

#[test]
fn every_sign_is_a_token(rt: HostRuntime) -> Result<(), Fail> {
    let text = b"( ) [ ] { } , : :: . -> - + == != < <= > >= ! && || | @";
    let want = [
        (ParenOpen, 0, 1),
        (ParenClose, 2, 3),
        (BracketOpen, 4, 5),
        (BracketClose, 6, 7),
        (BraceOpen, 8, 9),
        (BraceClose, 10, 11),
        (Comma, 12, 13),
        (Colon, 14, 15),
        (ColonColon, 16, 18),
        (Dot, 19, 20),
        (Arrow, 21, 23),
        (Minus, 24, 25),
        (Plus, 26, 27),
        (EqEq, 28, 30),
        (NotEq, 31, 33),
        (Less, 34, 35),
        (LessEq, 36, 38),
        (Greater, 39, 40),
        (GreaterEq, 41, 43),
        (Not, 44, 45),
        (AndAnd, 46, 48),
        (OrOr, 49, 51),
        (Bar, 52, 53),
        (At, 54, 55),
    ];
    let tokens = tokens_of(rt.alloc(), text)?;
    assert_eq!(rt; tokens.len(), 24);
    for (found, expected) in tokens.iter().zip(want) {
        assert_eq!(rt; *found, token(expected));
    }
    Ok(())
}

#[test]
fn tokens_have_bytes_and_values(rt: HostRuntime) -> Result<(), Fail> {
    let text = b"body: 9223372036854775808 \"a\\\"\\x1f\xc3\xa9\\t\"";
    let tokens = lex(rt.alloc(), text)?;
    assert_eq!(rt; tokens.len(), 4);
    assert_eq!(rt; bytes_of(text, tokens[0]), b"body".as_slice());
    assert_eq!(rt; bytes_of(text, tokens[1]), b":".as_slice());
    if let Number = tokens[2].kind {
        assert_eq!(rt; number_of(text, tokens[2]), 9_223_372_036_854_775_808);
    }
    if let Text = tokens[3].kind {
        let value = text_of(rt.alloc(), text, tokens[3])?;
        assert_eq!(rt; value.as_slice(), b"a\"\x1f\xc3\xa9\t".as_slice());
    }
    Ok(())
}

#[test]
fn each_refusal_has_its_cause_and_place(rt: HostRuntime) {
    let table: [(&[u8], LexErr); 22] = [
        (b"\xff", LexErr::NotText { at: 0 }),
        (b"a = # \xc3(", LexErr::NotText { at: 6 }),
        (b"AddStatic(A) =", LexErr::BadByte { at: 13 }),
        (b"a & & b", LexErr::BadByte { at: 2 }),
        (b"# a\n_a", LexErr::BadByte { at: 4 }),
        (b"\0", LexErr::BadByte { at: 0 }),
        (b"a \xc3\xa9", LexErr::BadByte { at: 2 }),
        (b"a <== b", LexErr::BadByte { at: 4 }),
        (b"1 00", LexErr::BadNumber { at: 2 }),
        (b"007a", LexErr::BadNumber { at: 0 }),
        (b"9223372036854775809", LexErr::BadNumber { at: 0 }),
        (b"a \"abc", LexErr::Unfinished { at: 2 }),
        (b"\"ab\nc\"", LexErr::Unfinished { at: 0 }),
        (b"\"a\\", LexErr::Unfinished { at: 0 }),
        (b"\"a\\\n\"", LexErr::Unfinished { at: 0 }),
        (b"a \"a\\q", LexErr::BadByte { at: 4 }),
        (b"\"\\x80\"", LexErr::BadByte { at: 1 }),
        (b"\"\\x4F\"", LexErr::BadByte { at: 1 }),
        (b"\"a\rb\"", LexErr::BadByte { at: 2 }),
        (b"\"\x7f\"", LexErr::BadByte { at: 1 }),
        (b"\"\t\n", LexErr::BadByte { at: 1 }),
        (b"= 00", LexErr::BadByte { at: 0 }),
    ];
    for (text, err) in table {
        assert_eq!(rt; tokens_of(rt.alloc(), text).err(), Some(err), "in {text:?}");
    }
}

#[test]
fn limits_count_bytes(rt: HostRuntime) -> Result<(), Fail> {
    let word = vec![in rt.alloc(); b'a'; 65]?;
    assert_eq!(rt;
        tokens_of(rt.alloc(), &word[..64])?.as_slice(),
        [token((Lower, 0, 64))].as_slice()
    );
    assert_eq!(rt;
        tokens_of(rt.alloc(), &word).err(),
        Some(LexErr::TooManyNameBytes { at: 0 })
    );

    let mut literal = Vec::new(rt.alloc());
    literal.push(b'"')?;
    for _ in 0..4096 {
        literal.extend_from_slice(b"\\n")?;
    }
    literal.push(b'"')?;
    assert_eq!(rt;
        tokens_of(rt.alloc(), &literal)?.as_slice(),
        [token((Text, 0, 8194))].as_slice()
    );
    literal.pop();
    literal.extend_from_slice(b"a\"")?;
    assert_eq!(rt;
        tokens_of(rt.alloc(), &literal).err(),
        Some(LexErr::TooManyTextBytes { at: 0 })
    );
    Ok(())
}

#[test]
fn the_largest_file_is_read_at_once(rt: HostRuntime) -> Result<(), Fail> {
    let mut text = Vec::new(rt.alloc());
    for _ in 0..524_288 {
        text.extend_from_slice(b"a ")?;
    }
    assert_eq!(rt; tokens_of(rt.alloc(), &text)?.len(), 524_288);
    Ok(())
}
