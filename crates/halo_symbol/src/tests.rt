// Words that are symbols, and words that are not.
use crate::{WordError, read_status, read_symbol};
use std::rt::HostRuntime;

// Whether a word is a symbol; `None` for want of memory.
fn is_symbol(rt: &HostRuntime, word: &[u8]) -> Option<bool> {
    match read_symbol(rt.alloc(), word) {
        Ok(_) => Some(true),
        Err(WordError::Syntax) => Some(false),
        Err(WordError::Memory) => None,
    }
}

// Whether a word is a status; `None` for want of memory.
fn is_status(rt: &HostRuntime, word: &[u8]) -> Option<bool> {
    match read_status(rt.alloc(), word) {
        Ok(_) => Some(true),
        Err(WordError::Syntax) => Some(false),
        Err(WordError::Memory) => None,
    }
}

#[test]
fn symbols(rt: HostRuntime) {
    let words: [(&[u8], bool); 32] = [
        (b"A{death,lapse}[bar(x:y)^1:<5>]", true),
        (b"10|Ia[2/(p1:p4:p7)]", true),
        (b"D020A[x]", true),
        (b"A[(x|y):z^1]", true),
        (b"ad[((x):bar(y))]", true),
        (b"A[x^1:<2>:<2>]", true),
        (b"A[[1]/(x:y)]", true),
        (b"a[x|y]", true),
        (b"1|Iad[x]", true),
        (b"ad[((((((((((((((((x))))))))))))))))]", true),
        (b"ad[(((((((((((((((((x)))))))))))))))))]", false),
        (b"A[x::y]", false),
        (b"A[x;y]", false),
        (b"A[x|y^1]", false),
        (b"A[x^1:y^2]", false),
        (b"a[x^1:y]", false),
        (b"A[x,y]", false),
        (b"A[x", false),
        (b"ad[bar]", false),
        (b"A{bar}[x]", false),
        (b"DA[x]", false),
        (b"D2[x]", false),
        (b"ID2A[x]", false),
        (b"a{death}[x]", false),
        (b"A{}[x]", false),
        (b"A[x]y", false),
        (b"A[x||y]", false),
        (b"A[x|y|z]", false),
        (b"A[(x^1:y)]", false),
        (b"|A[x]", false),
        (b"A", false),
        (b"", false),
    ];
    for (word, answer) in words {
        assert!(rt; is_symbol(&rt, word) == Some(answer));
    }
}

#[test]
fn statuses(rt: HostRuntime) {
    let words: [(&[u8], bool); 8] = [
        (b"x", true),
        (b"bar(p1:p2):<30>", true),
        (b"(x|y:z)|w", true),
        (b"((((((((((((((((x))))))))))))))))", true),
        (b"(((((((((((((((((x)))))))))))))))))", false),
        (b"x^1", false),
        (b"bar", false),
        (b"", false),
    ];
    for (word, answer) in words {
        assert!(rt; is_status(&rt, word) == Some(answer));
    }
}
