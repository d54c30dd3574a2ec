// Answers questions, a line each, on standard output, a line each. A line that is no question answers `bad line`. `questions::answer_line` has each answer
// as its contract; reading and writing are the system's.
#![tactic(auto)]

mod numbers;
mod ordering;
mod output;
mod questions;
mod words;

use std::io::{Read, Write};
use texts::{Found, Source};

// The longest question, and one byte more: a line that is cut there is no question all the same.
const LINE: usize = 16385;

// The bytes of one read.
const READ: usize = 1024;

// No answer is longer.
const OUT: usize = 16512;

// An answer that cannot be written is lost.
fn print_answer<W: Write>(output: &mut W, line: &[u8]) {
    let mut out = [0u8; OUT];
    let n = questions::answer_line(line, &mut out);
    let _ = output.write_all(&out[..n]);
}

// Answers one line, or reads. The bytes at hand after that; none where there is no line any more.
fn turn<R: Read, W: Write>(
    input: &mut R,
    output: &mut W,
    s: Source,
    bytes: &mut [u8],
    line: &mut [u8],
) -> Option<Source> {
    let next = texts::next_line(s, bytes, line);
    match next.found {
        Found::Line(n) => {
            print_answer(output, &line[..n]);
            Some(next.source)
        }
        Found::More => Some(texts::refill(input, bytes, next.source)),
        Found::End => None,
    }
}

fn run<R: Read, W: Write>(input: &mut R, output: &mut W, bytes: &mut [u8], line: &mut [u8]) {
    let mut source = texts::nothing_read();
    // More turns than any input has: the loop ends where the input does.
    for _ in 0..u64::MAX {
        let Some(next) = turn(input, output, source, bytes, line) else {
            return;
        };
        source = next;
    }
}

fn main(rt: HostRuntime) {
    let mut bytes = [0u8; READ];
    let mut line = [0u8; LINE];
    run(&mut rt.stdin(), &mut rt.stdout(), &mut bytes, &mut line);
}
