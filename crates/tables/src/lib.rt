// Number tables: a names line and value lines of numbers parted by commas.
#![tactic(auto)]

mod digits;
pub mod field;
pub mod lines;
pub mod row;
pub mod rules;

// Where a line lies in a file.
#[derive(Clone, Copy)]
pub struct Span {
    pub start: usize,
    pub length: usize,
}

// A number found in a text, with the length of what was read.
#[derive(Clone, Copy)]
pub struct Number {
    pub length: usize,
    pub value: u32,
}

// A value line found in a text, with its length, byte 10 included. A table has at most seven numbers to a line.
#[derive(Clone, Copy)]
pub struct Line {
    pub length: usize,
    pub values: [u32; 7],
}

// One field of a record, and how many lines come before the first number outside its range. Not a Result: the
// next field is read that far either way, since its number may be out of range in an earlier line.
#[derive(Clone, Copy)]
pub struct Column {
    pub lines: usize,
    pub values: [u8; 64],
}
