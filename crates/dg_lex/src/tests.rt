use crate::token::TokenKind::{AtName, Integer, Name, Sign, Text, Word};
use crate::{
    LexFault, Token, TokenKind, decimal_integers, no_longer_token, no_token_begins, quoted_texts,
    spelling, tokens, tokens_lie_in_order, value_of_integer, value_of_text,
};
use std::test::Fail;

/// A kind, and the bytes `from` and `to`.
type Want = (TokenKind, u32, u32);

/// A line with its tokens, or with the first byte at which none begins.
type Row = (&'static str, Result<&'static [Want], u32>);

const ROWS: &[Row] = &[
    ("", Ok(&[])),
    ("   ", Ok(&[])),
    ("a  b ", Ok(&[(Name, 0, 1), (Name, 3, 4)])),
    (
        "aaaaaaaaaabbbbbbbbbbccccccccccddddddddddeeeeeeeeeeffffffffffgggg",
        Ok(&[(Name, 0, 64)]),
    ),
    (
        "aaaaaaaaaabbbbbbbbbbccccccccccddddddddddeeeeeeeeeeffffffffffggggg",
        Err(0),
    ),
    ("Two_words2", Ok(&[(Name, 0, 10)])),
    ("_a", Err(0)),
    ("module", Ok(&[(Name, 0, 6)])),
    (
        "new if then else await",
        Ok(&[
            (Word, 0, 3),
            (Word, 4, 6),
            (Word, 7, 11),
            (Word, 12, 16),
            (Word, 17, 22),
        ]),
    ),
    ("If iffy", Ok(&[(Name, 0, 2), (Name, 3, 7)])),
    ("@Node", Ok(&[(AtName, 0, 5)])),
    ("a@b", Ok(&[(Name, 0, 1), (AtName, 1, 3)])),
    ("@if", Err(0)),
    ("@", Err(0)),
    ("a @ b", Err(2)),
    ("0", Ok(&[(Integer, 0, 1)])),
    ("-0", Err(0)),
    ("00", Err(0)),
    ("-1", Ok(&[(Integer, 0, 2)])),
    ("-", Err(0)),
    ("--1", Err(0)),
    ("5a", Err(0)),
    ("9223372036854775807", Ok(&[(Integer, 0, 19)])),
    ("9223372036854775808", Err(0)),
    ("-9223372036854775808", Ok(&[(Integer, 0, 20)])),
    ("-9223372036854775809", Err(0)),
    ("18446744073709551617", Err(0)),
    ("1-2", Ok(&[(Integer, 0, 1), (Integer, 1, 3)])),
    (r#""""#, Ok(&[(Text, 0, 2)])),
    (r#""a""b""#, Ok(&[(Text, 0, 3), (Text, 3, 6)])),
    (r#""a\"b\\""#, Ok(&[(Text, 0, 8)])),
    (r#""a\n""#, Err(0)),
    (r#"x "a"#, Err(2)),
    (r#""a\""#, Err(0)),
    ("\"\t\"", Err(0)),
    ("===", Ok(&[(Sign, 0, 2), (Sign, 2, 3)])),
    ("(){", Ok(&[(Sign, 0, 1), (Sign, 1, 2), (Sign, 2, 3)])),
    ("}<>", Ok(&[(Sign, 0, 1), (Sign, 1, 2), (Sign, 2, 3)])),
    (",:=", Ok(&[(Sign, 0, 1), (Sign, 1, 2), (Sign, 2, 3)])),
    (".!?", Ok(&[(Sign, 0, 1), (Sign, 1, 2), (Sign, 2, 3)])),
    ("[]+", Ok(&[(Sign, 0, 1), (Sign, 1, 2), (Sign, 2, 3)])),
    ("a;", Err(1)),
    ("\t", Err(0)),
];

fn are(found: &[Token], want: &[Want]) -> bool {
    found.len() == want.len()
        && found.iter().zip(want).all(|(token, w)| token.kind == w.0
            && token.from == w.1
            && token.to == w.2)
}

#[test]
fn lines_have_these_tokens(rt: HostRuntime) {
    for (line, want) in ROWS {
        let line = line.as_bytes();
        assert!(rt; line.len() <= 4096);
        let is_as_wanted = match (tokens(rt.alloc(), line), want) {
            (Ok(found), Ok(want)) => are(&found, want),
            (Err(LexFault::Bad { at }), Err(want)) => at == *want,
            _ => false,
        };
        assert!(rt; is_as_wanted);
    }
}

#[test]
fn a_token_takes_its_bytes_of_the_line(rt: HostRuntime) -> Result<(), Fail> {
    let line = b"ask db.@main".as_slice();
    let found = tokens(rt.alloc(), line)?;
    assert_eq!(rt; found.len(), 4);
    assert_eq!(rt; spelling(line, &found[0]), b"ask".as_slice());
    assert_eq!(rt; spelling(line, &found[2]), b".".as_slice());
    assert_eq!(rt; spelling(line, &found[3]), b"@main".as_slice());
    let past = Token {
        kind: Name,
        from: 9,
        to: 99,
    };
    assert_eq!(rt; spelling(line, &past), b"ain".as_slice());
    Ok(())
}

#[test]
fn integers_have_these_numbers(rt: HostRuntime) {
    let rows = [
        (b"0".as_slice(), Some(0)),
        (b"7", Some(7)),
        (b"-12", Some(-12)),
        (b"9223372036854775807", Some(i64::MAX)),
        (b"-9223372036854775808", Some(i64::MIN)),
        (b"9223372036854775808", None),
        (b"-9223372036854775809", None),
        (b"-0", None),
        (b"", None),
        (b"1x", None),
    ];
    for (z, number) in rows {
        assert_eq!(rt; value_of_integer(z), number);
    }
}

#[test]
fn texts_have_these_values(rt: HostRuntime) -> Result<(), Fail> {
    let rows = [
        (br#""""#.as_slice(), b"".as_slice()),
        (br#""a b""#, b"a b"),
        (br#""a\"b""#.as_slice(), br#"a"b"#.as_slice()),
        (br#""\\""#, br#"\"#),
    ];
    for (spelling, value) in rows {
        assert_eq!(rt; value_of_text(rt.alloc(), spelling)?.as_slice(), value);
    }
    Ok(())
}

#[test]
fn the_laws_are_calls(_rt: HostRuntime) {
    no_longer_token();
    tokens_lie_in_order();
    no_token_begins();
    quoted_texts();
    decimal_integers();
}
