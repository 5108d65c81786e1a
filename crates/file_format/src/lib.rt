// The format of a mesh file: numbers in bytes, the record reader, the layout.
#![tactic(auto)]

pub mod bytes;
pub mod layout;
pub mod records;

// The kinds of record: the first with the number of vertices, a row, the last.
pub const FIRST: usize = 1;

pub const ROW: usize = 2;

pub const LAST: usize = 3;

// A whole record: its kind, its payload's length, and the place behind it.
#[derive(Clone, Copy)]
pub struct Record {
    pub kind: usize,
    pub length: usize,
    pub next: usize,
}

// How far the rows of a file are as expected: the first that is not, or their number, and where it begins.
#[derive(Clone, Copy)]
pub struct Reached {
    pub row: usize,
    pub at: usize,
}
