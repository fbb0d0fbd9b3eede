// Contract files: one with every form of a line, and one for each fault.
use crate::{ContractError, ContractFault, read_contract};
use halo_check::ContractKind;
use halo_contract::{ReserveLine, Ties};
use halo_table::{LONGEST_FILE, Tables};
use std::rt::HostRuntime;

const TABLES: &[u8] = b"table,age,l,death,lapse\nm,60,8,2,2\nm,61,4,1,1\nm,62,2,1,1\nw,60,5,5,0\n";

// A contract with every form of a line.
const WHOLE: &[u8] =
    b"\xEF\xBB\xBF# a comment\r\ninterest 1/20 2 01/25\n\nlife x m 060\r\nlife y m 61\nties even\n\tpay 1000 A[x:y] \npay 10 2|ad[x]\npremium x:y\nreserve 1 y x";

// How many pays a contract has, or the fault that is told of its file; `None` for want of memory,
// and where a file is too long to be read.
fn answer(rt: &HostRuntime, bytes: &[u8]) -> Option<Result<usize, ContractFault>> {
    let Ok(tables) = Tables::read(rt.alloc(), TABLES) else {
        return None;
    };
    if bytes.len() > LONGEST_FILE {
        return None;
    }
    match read_contract(rt.alloc(), bytes, &tables) {
        Ok(contract) => Some(Ok(contract.pays.len())),
        Err(ContractError::Fault(fault)) => Some(Err(fault)),
        Err(ContractError::Memory) => None,
    }
}

#[test]
fn accepted(rt: HostRuntime) {
    let files: [(&[u8], usize); 3] = [
        (WHOLE, 2),
        (b"interest 0/1\nlife x w 60\npay 1 ad[x]\n", 1),
        (
            b"interest 1/1\nlife x m 60\nlife y m 60\npay 9999999999 A{lapse,death}[x^1:y]\npay 1 a[x|y]\nreserve 0\n",
            2,
        ),
    ];
    for (file, pays) in files {
        assert!(rt; answer(&rt, file) == Some(Ok(pays)));
    }
}

#[test]
fn refused(rt: HostRuntime) {
    let files: [(&[u8], u32, ContractKind); 17] = [
        (b"", 1, ContractKind::Missing),
        (b"interest 1/20\nlife x m 60\n", 3, ContractKind::Missing),
        (b"interest 1/20\n\npays 1 A[x]\n", 3, ContractKind::Syntax),
        (b"interest 1000000001/0\n", 1, ContractKind::Magnitude),
        (b"interest 1/0\n", 1, ContractKind::Zero),
        (b"interest 1/20 5 1/25 5 1/30\n", 1, ContractKind::Years),
        (
            b"interest 1/20\nlife x m 60\npay 1 A[x]\nlife x m 60\n",
            4,
            ContractKind::Order,
        ),
        (
            b"interest 1/20\nlife x m 60\nlife x n 60\n",
            3,
            ContractKind::Twice,
        ),
        (b"interest 1/20\nlife x n 60\n", 2, ContractKind::NoTable),
        (b"interest 1/20\nlife x m 59\n", 2, ContractKind::NoAge),
        (
            b"interest 1/20\nlife x m 60\npay 1 A{fire}[z]\n",
            3,
            ContractKind::NoLife,
        ),
        (
            b"interest 1/20\nlife x m 60\npay 1 A{fire}[x]\n",
            3,
            ContractKind::NoCause,
        ),
        (
            b"interest 1/20\nlife x m 60\npay 1 A[[2]/(x)]\n",
            3,
            ContractKind::Rank,
        ),
        (
            b"interest 1/20\nlife x m 60\npay 1 A[[1]/(x)]\n",
            3,
            ContractKind::NotLasting,
        ),
        (
            b"interest 1/20\nlife x m 60\npay 1 A[x^1:x]\n",
            3,
            ContractKind::Shared,
        ),
        (
            b"interest 1/20\nlife x m 60\npay 1 A[x]\npremium [1]/(x:<2>)\n",
            4,
            ContractKind::NotAtStart,
        ),
        (
            b"interest 1/20\nlife x m 60\npay 1 A[x]\nreserve 3 x\n",
            4,
            ContractKind::NotAlive,
        ),
    ];
    for (file, line, kind) in files {
        assert!(rt; answer(&rt, file) == Some(Err(ContractFault { line, kind })));
    }
}

#[test]
fn kept(rt: HostRuntime) {
    let Ok(tables) = Tables::read(rt.alloc(), TABLES) else {
        assert!(rt; false);
        return;
    };
    let Ok(contract) = read_contract(rt.alloc(), WHOLE, &tables) else {
        assert!(rt; false);
        return;
    };
    assert_eq!(rt; contract.interest.rate(2), (1, 25));
    assert_eq!(rt; contract.lives.len(), 2);
    assert_eq!(rt; contract.ties, Ties::Even);
    assert!(rt; contract.premium.is_some());
    let (Some(life), Some(pay), Some(reserve)) = (
        contract.lives.first(),
        contract.pays.first(),
        contract.reserves.first(),
    ) else {
        assert!(rt; false);
        return;
    };
    assert!(rt; life.name.bytes() == b"x".as_slice());
    assert_eq!(rt; life.life.age, 60);
    assert_eq!(rt; pay.amount, 1000);
    assert!(rt; *reserve == ReserveLine { time: 1, alive: 3 });
}
