// The lines of a contract file, as they are written.
use halo_contract::Ties;
use halo_symbol::{Body, Symbol};

/// A fraction P/Q of interest from a year on, in digits.
#[derive(Clone, Copy, Debug)]
pub struct LaterRate<'a> {
    pub year: &'a [u8],
    pub p: &'a [u8],
    pub q: &'a [u8],
}

/// One line. Names and numbers are the bytes that write them, of any length.
#[derive(Debug, Drop)]
pub enum Line<'a> {
    /// `interest P/Q`, and any number of pairs `YEAR P/Q`.
    Interest {
        p: &'a [u8],
        q: &'a [u8],
        later: Vec<LaterRate<'a>>,
    },
    /// `life NAME TABLE AGE`.
    Life {
        name: &'a [u8],
        table: &'a [u8],
        age: &'a [u8],
    },
    /// `ties RULE`.
    Ties(Ties),
    /// `pay AMOUNT SYMBOL`.
    Pay {
        amount: &'a [u8],
        symbol: Symbol<'a>,
    },
    /// `premium STATUS`.
    Premium(Body<'a>),
    /// `reserve T NAME ..`.
    Reserve {
        time: &'a [u8],
        names: Vec<&'a [u8]>,
    },
}
