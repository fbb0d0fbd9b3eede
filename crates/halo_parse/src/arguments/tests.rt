// Numbers and fractions that a call names, and words that are none.
use crate::{read_fraction, read_number};
use halo_check::ContractKind;
use halo_interest::Interest;
use std::rt::HostRuntime;

#[test]
fn fractions(rt: HostRuntime) {
    assert!(rt; read_fraction(b"01/20").ok() == Interest::new(1, 20));
    let words: [(&[u8], ContractKind); 6] = [
        (b"1", ContractKind::Syntax),
        (b"1/", ContractKind::Syntax),
        (b"1/2/3", ContractKind::Syntax),
        (b"1000000001/0", ContractKind::Magnitude),
        (b"1/1000000001", ContractKind::Magnitude),
        (b"1/00", ContractKind::Zero),
    ];
    for (word, kind) in words {
        assert!(rt; read_fraction(word) == Err(kind));
    }
}

#[test]
fn numbers(rt: HostRuntime) {
    let words: [(&[u8], Result<u64, ContractKind>); 4] = [
        (b"007", Ok(7)),
        (b"1000000000000", Ok(1_000_000_000_000)),
        (b"1000000000001", Err(ContractKind::Magnitude)),
        (b"7x", Err(ContractKind::Syntax)),
    ];
    for (word, answer) in words {
        assert!(rt; read_number(word, 1_000_000_000_000) == answer);
    }
}
