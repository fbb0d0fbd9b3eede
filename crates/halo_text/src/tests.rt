// Names and numbers as bytes.
use crate::{NumberFault, is_name, number_up_to};
use std::rt::HostRuntime;

#[test]
fn names(rt: HostRuntime) {
    let cases: [(&[u8], bool); 8] = [
        (b"m", true),
        (b"Male_2020", true),
        (b"abcdefghijklmnopqrstuvwxyz_01234", true),
        (b"abcdefghijklmnopqrstuvwxyz_012345", false),
        (b"", false),
        (b"9m", false),
        (b"_m", false),
        (b"m-1", false),
    ];
    for (text, answer) in cases {
        assert_eq!(rt; is_name(text), answer);
    }
}

#[test]
fn numbers(rt: HostRuntime) {
    let cases: [(&[u8], Result<u64, NumberFault>); 8] = [
        (b"0", Ok(0)),
        (b"00150", Ok(150)),
        (b"151", Err(NumberFault::Above)),
        (b"99999999999999999999999999", Err(NumberFault::Above)),
        (b"999x", Err(NumberFault::NotNumber)),
        (b"+1", Err(NumberFault::NotNumber)),
        (b" 1", Err(NumberFault::NotNumber)),
        (b"", Err(NumberFault::NotNumber)),
    ];
    for (text, answer) in cases {
        assert!(rt; number_up_to(text, 150) == answer);
    }
}

#[test]
fn largest_limit(rt: HostRuntime) {
    assert!(rt; number_up_to(b"18446744073709551615", u64::MAX) == Ok(u64::MAX));
    assert!(rt; number_up_to(b"18446744073709551616", u64::MAX) == Err(NumberFault::Above));
}
