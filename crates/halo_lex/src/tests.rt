// Words cut into tokens, and words that have another byte.
use crate::{LexError, Span, Token, TokenKind, symbol_tokens, words};
use std::rt::HostRuntime;

// A token, in short.
const fn token(kind: TokenKind, from: usize, to: usize) -> Token {
    Token { kind, from, to }
}

#[test]
fn tokens_of_words(rt: HostRuntime) {
    use TokenKind::{Byte, Name, Number};
    let words: [(&[u8], Result<&[Token], usize>); 8] = [
        (b"", Ok(&[])),
        (
            b"A[x::y]",
            Ok(&[
                token(Name, 0, 1),
                token(Byte(b'['), 1, 2),
                token(Name, 2, 3),
                token(Byte(b':'), 3, 4),
                token(Byte(b':'), 4, 5),
                token(Name, 5, 6),
                token(Byte(b']'), 6, 7),
            ]),
        ),
        (
            b"10|Ia[2/(p1:p4:p7)]",
            Ok(&[
                token(Number, 0, 2),
                token(Byte(b'|'), 2, 3),
                token(Name, 3, 5),
                token(Byte(b'['), 5, 6),
                token(Number, 6, 7),
                token(Byte(b'/'), 7, 8),
                token(Byte(b'('), 8, 9),
                token(Name, 9, 11),
                token(Byte(b':'), 11, 12),
                token(Name, 12, 14),
                token(Byte(b':'), 14, 15),
                token(Name, 15, 17),
                token(Byte(b')'), 17, 18),
                token(Byte(b']'), 18, 19),
            ]),
        ),
        (
            b"D020A[x]",
            Ok(&[
                token(Name, 0, 5),
                token(Byte(b'['), 5, 6),
                token(Name, 6, 7),
                token(Byte(b']'), 7, 8),
            ]),
        ),
        (b"A[x;y]", Err(3)),
        (b"_x", Err(0)),
        (b"1_", Err(1)),
        (b"x\xC3\xA9", Err(1)),
    ];
    for (word, answer) in words {
        match (symbol_tokens(rt.alloc(), word), answer) {
            (Ok(found), Ok(tokens)) => assert!(rt; found.as_slice() == tokens),
            (Err(error), Err(place)) => assert_eq!(rt; error, LexError::NotToken(place)),
            _ => assert!(rt; false),
        }
    }
}

#[test]
fn words_of_lines(rt: HostRuntime) {
    let lines: [(&[u8], &[Span]); 4] = [
        (b"", &[]),
        (b" \t ", &[]),
        (b"pay", &[Span { from: 0, to: 3 }]),
        (
            b"  pay 1\tA[x] ",
            &[
                Span { from: 2, to: 5 },
                Span { from: 6, to: 7 },
                Span { from: 8, to: 12 },
            ],
        ),
    ];
    for (line, spans) in lines {
        match words(rt.alloc(), line) {
            Ok(found) => assert!(rt; found.as_slice() == spans),
            Err(_) => assert!(rt; false),
        }
    }
}
