//! Texts with their tokens, and texts with their first fault.

use rs_grammar::{absolute, are_lexed};
use rs_lex::{LexFault, end_of, lex};
use rs_tree::{At, Token};
use std::test::Fail;

fn are(tokens: &[Token], expected: &[(u32, u32, &[u8])]) -> bool {
    tokens.len() == expected.len()
        && tokens.iter().zip(expected.iter()).all(|(token, it)| {
            token.at.line == it.0 && token.at.column == it.1 && token.text.as_slice() == it.2
        })
}

fn fault_at(line: u32, column: u32) -> LexFault {
    LexFault::At(At { line, column })
}

#[test]
fn texts_have_their_tokens(rt: HostRuntime) -> Result<(), Fail> {
    let texts: [(&[u8], &[(u32, u32, &[u8])]); 12] = [
        (b"", &[]),
        (b" \t\r\n", &[]),
        (b"1_000", &[(1, 1, b"1_000")]),
        (b"9223372036854775807", &[(1, 1, b"9223372036854775807")]),
        (b"_a _1 a_", &[(1, 1, b"_a"), (1, 4, b"_1"), (1, 7, b"a_")]),
        (b"////x\n// x\r\na", &[(3, 1, b"a")]),
        (b"//", &[]),
        (
            b"<=->::=>",
            &[
                (1, 1, b"<="),
                (1, 3, b"->"),
                (1, 5, b"::"),
                (1, 7, b"="),
                (1, 8, b">"),
            ],
        ),
        (
            b"<<=-=",
            &[(1, 1, b"<"), (1, 2, b"<="), (1, 4, b"-"), (1, 5, b"=")],
        ),
        (
            b"&&||!==",
            &[(1, 1, b"&&"), (1, 3, b"||"), (1, 5, b"!="), (1, 7, b"=")],
        ),
        (
            b"1/2*x",
            &[
                (1, 1, b"1"),
                (1, 2, b"/"),
                (1, 3, b"2"),
                (1, 4, b"*"),
                (1, 5, b"x"),
            ],
        ),
        (
            b"#[a]\n\t\"{}\"7",
            &[
                (1, 1, b"#"),
                (1, 2, b"["),
                (1, 3, b"a"),
                (1, 4, b"]"),
                (2, 2, b"\"{}\""),
                (2, 6, b"7"),
            ],
        ),
    ];
    for (text, expected) in texts {
        match lex(rt.alloc(), text) {
            Ok(tokens) => {
                assert!(rt; are(tokens.as_slice(), expected), "{text:?}");
                assert!(rt; are_lexed(tokens.as_slice(), end_of(text)?), "{text:?}");
            }
            Err(fault) => panic!(rt; "{text:?} has the fault {fault:?}"),
        }
    }
    Ok(())
}

#[test]
fn texts_have_their_first_fault(rt: HostRuntime) -> Result<(), Fail> {
    let texts: [(&[u8], u32, u32); 22] = [
        (b"x <-1", 1, 3),
        (b"1x", 1, 1),
        (b"a 1_x", 1, 3),
        (b"9223372036854775808", 1, 1),
        (b"_", 1, 1),
        (b"a + _;", 1, 5),
        (b"///x", 1, 1),
        (b"a //!x", 1, 3),
        (b"///", 1, 1),
        (b"\n\n/*", 3, 1),
        (b"// a\xc3", 1, 5),
        (b"////\xc3", 1, 5),
        (b"fn main() { println!(\"{}\", 7); } \xc3", 1, 34),
        (b"\xc3", 1, 1),
        (b"&&&", 1, 3),
        (b"a|b", 1, 2),
        (b"\"{\"", 1, 1),
        (b"\"{}", 1, 1),
        (b"1.5", 1, 2),
        (b"a\r\n b'", 2, 3),
        (b"a\x0bb", 1, 2),
        (b"a\x7f", 1, 2),
    ];
    for (text, line, column) in texts {
        match lex(rt.alloc(), text) {
            Ok(tokens) => panic!(rt; "{text:?} has {} tokens", tokens.len()),
            Err(fault) => assert_eq!(rt; fault, fault_at(line, column), "{text:?}"),
        }
    }
    Ok(())
}

#[test]
fn identifiers_end_at_64_bytes(rt: HostRuntime) -> Result<(), Fail> {
    let text = [b'x'; 65];
    assert!(rt; lex(rt.alloc(), &text[..64]).is_ok());
    match lex(rt.alloc(), &text) {
        Ok(tokens) => panic!(rt; "{} tokens", tokens.len()),
        Err(fault) => assert_eq!(rt; fault, fault_at(1, 1)),
    }
    Ok(())
}

#[test]
fn a_mebibyte_is_lexed(rt: HostRuntime) -> Result<(), Fail> {
    let mut text = Vec::new(rt.alloc());
    for _ in 0..65_536_u32 {
        text.extend_from_slice(b"fn _ab(9)<=x //\n")?;
    }
    assert_eq!(rt; text.len(), 1_048_576);
    match lex(rt.alloc(), text.as_slice()) {
        Ok(tokens) => assert_eq!(rt; tokens.len(), 7 * 65_536),
        Err(fault) => panic!(rt; "{fault:?}"),
    }
    assert_eq!(rt;
        end_of(text.as_slice())?,
        At {
            line: 65_537,
            column: 1
        }
    );
    Ok(())
}

#[test]
fn places_in_an_item_are_found_in_its_text(rt: HostRuntime) {
    let start = At { line: 3, column: 5 };
    let places = [((0, 0), (3, 5)), ((0, 4), (3, 9)), ((2, 1), (5, 1))];
    for ((line, column), (text_line, text_column)) in places {
        let expected = At {
            line: text_line,
            column: text_column,
        };
        assert_eq!(rt; absolute(start, At { line, column }), Some(expected));
    }
    let far = At {
        line: 4_294_967_293,
        column: 1,
    };
    assert_eq!(rt; absolute(start, far), None);
}
