// Texts: numbers, bytes in hex and fixed strings are written here, and numbers, bytes and lines are read.
#![tactic(auto)]

mod digits;
mod lines;
mod put;

pub use digits::{decimal_value, hex_bytes, hex_value, set_value, value_of};
pub use lines::{all_read, next_line, nothing_read, refill};

// What is written goes into a lent buffer, from a place on; what has no room is left out, and the place goes on.
#[derive(Drop)]
pub struct Page<'a> {
    pub out: &'a mut [u8],
    pub at: usize,
}

// The bytes that are read. Those that the last read brought are the first `end` of a lent slice, and the next to be used is at `from`; `held` is the length of
// what is kept of a line that has not ended, and `ended` says that no read brings more.
#[derive(Clone, Copy, Debug, PartialEq, Eq)]
pub struct Source {
    pub from: usize,
    pub end: usize,
    pub held: usize,
    pub ended: bool,
}

// A line is there, and so much of it in the buffer; another read is wanted; there is no line any more.
#[derive(Clone, Copy, Debug, PartialEq, Eq)]
pub enum Found {
    Line(usize),
    More,
    End,
}

// What was found, and the bytes behind it.
#[derive(Clone, Copy, Debug, PartialEq, Eq)]
pub struct Next {
    pub found: Found,
    pub source: Source,
}
