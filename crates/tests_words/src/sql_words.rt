//! Tokens of texts, made by hand.

use sql_tokens::{Fixed, KEYWORDS, Kind, Number, tokens};
use std::test::Fail;

/// A text, how many tokens it has, and where they end.
static ENDS: [(&str, usize, usize); 26] = [
    ("", 0, 0),
    (" \t\r\n", 0, 4),
    ("SELECT a FROM t", 4, 15),
    ("selecta", 1, 7),
    ("_1 a1", 2, 5),
    ("1a", 2, 2),
    ("1.", 1, 1),
    (".5", 0, 0),
    ("1.5.5", 1, 3),
    ("1.5e", 2, 4),
    ("'a''b'", 1, 6),
    ("'a''", 1, 3),
    ("'''", 1, 2),
    ("''", 1, 2),
    ("'a", 0, 0),
    ("'a'b", 2, 4),
    ("\"a b\"", 1, 5),
    ("\"\"", 0, 0),
    ("\"a", 0, 0),
    ("!=<>", 2, 4),
    ("!", 0, 0),
    ("<=>=", 2, 4),
    ("< >", 2, 3),
    ("(),*+-;=<>", 9, 10),
    ("a?b", 1, 1),
    ("é", 0, 0),
];

#[test]
fn ends_where_no_token_begins(rt: HostRuntime) -> Result<(), Fail> {
    for (text, count, end) in ENDS {
        assert!(rt; text.len() < 100);
        let (found, at) = tokens(rt.alloc(), text.as_bytes())?;
        assert_eq!(rt; found.len(), count, "tokens of {text}");
        assert_eq!(rt; at, end, "end of {text}");
    }
    Ok(())
}

#[test]
fn keywords_in_any_case(rt: HostRuntime) -> Result<(), Fail> {
    let text =
        "sElEcT from WHERE Group by order asc desc limit and or not between in date count sum avg min max is null";
    let (found, _) = tokens(rt.alloc(), text.as_bytes())?;
    assert_eq!(rt; found.len(), KEYWORDS.len());
    for (token, keyword) in found.iter().zip(KEYWORDS.iter()) {
        match &token.kind {
            Kind::Fixed(k) => assert_eq!(rt; *k, *keyword),
            Kind::Name(_) | Kind::Number(_) | Kind::Str(_) => assert!(rt; false),
        }
    }
    Ok(())
}

#[test]
fn signs(rt: HostRuntime) -> Result<(), Fail> {
    let wanted = [
        Fixed::Less,
        Fixed::LessEqual,
        Fixed::NotEqual,
        Fixed::Greater,
        Fixed::GreaterEqual,
        Fixed::NotEqual,
        Fixed::Equal,
    ];
    let (found, _) = tokens(rt.alloc(), b"< <= <> > >= != =")?;
    assert_eq!(rt; found.len(), 7);
    for (token, sign) in found.iter().zip(wanted.iter()) {
        match &token.kind {
            Kind::Fixed(k) => assert_eq!(rt; *k, *sign),
            Kind::Name(_) | Kind::Number(_) | Kind::Str(_) => assert!(rt; false),
        }
    }
    Ok(())
}

/// A text, the units of its number, and how many digits stand behind the point.
static NUMERALS: [(&str, Option<u64>, u16); 9] = [
    ("0", Some(0), 0),
    ("007", Some(7), 0),
    ("1.50", Some(15), 1),
    ("0.05", Some(5), 2),
    ("0.00", Some(0), 0),
    ("120.0", Some(120), 0),
    ("9223372036854775808", Some(9223372036854775808), 0),
    ("9223372036854775809", None, 0),
    ("99999999999999999999.9", None, 1),
];

#[test]
fn numbers(rt: HostRuntime) -> Result<(), Fail> {
    for (text, units, scale) in NUMERALS {
        assert!(rt; text.len() < 100);
        let (found, _) = tokens(rt.alloc(), text.as_bytes())?;
        assert_eq!(rt; found.len(), 1, "tokens of {text}");
        match &found[0].kind {
            Kind::Number(n) => assert_eq!(rt; *n, Number { units, scale }, "{text}"),
            Kind::Name(_) | Kind::Fixed(_) | Kind::Str(_) => assert!(rt; false),
        }
    }
    Ok(())
}

#[test]
fn names_and_strings(rt: HostRuntime) -> Result<(), Fail> {
    let (found, _) = tokens(rt.alloc(), b"Ab \"c d\" 'it''s'")?;
    assert_eq!(rt; found.len(), 3);
    assert_eq!(rt; found[2].at, 9);
    let wanted: [&[u8]; 3] = [b"Ab", b"c d", b"it's"];
    for (token, bytes) in found.iter().zip(wanted.iter()) {
        match &token.kind {
            Kind::Name(s) | Kind::Str(s) => assert!(rt; s.as_slice() == *bytes),
            Kind::Number(_) | Kind::Fixed(_) => assert!(rt; false),
        }
    }
    Ok(())
}
