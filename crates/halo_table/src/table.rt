// A table as it lies in memory.
use crate::naming::Name;
use arrayvec::ArrayVec;

/// The most causes that a tables file may name.
pub const MOST_CAUSES: usize = 8;

/// A row: the survivors at its age, and of these the leavers by each cause.
#[derive(Drop)]
pub struct Row {
    pub survivors: u64,
    pub leavers: ArrayVec<u64, MOST_CAUSES>,
}

/// A table: its name, the age of its first row, and its rows, one for each age from there on.
#[derive(Drop)]
pub struct Table {
    pub name: Name,
    pub first_age: u16,
    pub rows: Vec<Row>,
}
