// Lines, taken out of the bytes that reads bring. A line depends on these bytes alone, and not on where a read ends. Which bytes standard input brings no
// contract says; that is all that is left open here.
ghost use Rattle.std.specs.Prelude.{◌≡◌, true, false, ◌<◌, eqb, length, take};
ghost use Rattle.std.specs.Io.KnownBytes.{Consumes};
ghost use Rattle.io.specs.Counts.{IsPrefixLen};
ghost use Rattle.texts.specs.Puts.{Puts};
ghost use Rattle.texts.specs.Reads.{brought, IsLine, NewlineIn, NextLine, Refilled};
ghost use Rattle.texts.specs.Reads as Reads;

use crate::{Found, Next, Source};
use std::io::Read;

// Before the first read.
pub fn nothing_read() -> Source
    ensures { result ≡ record { from = 0; end = 0; held = 0; ended = false } }
{
    Source {
        from: 0,
        end: 0,
        held: 0,
        ended: false,
    }
}

// All bytes of an input are at hand.
pub fn all_read(input: &[u8]) -> Source
    ensures { result ≡ record { from = 0; end = length input.now; held = 0; ended = true } }
{
    Source {
        from: 0,
        end: input.len(),
        held: 0,
        ended: true,
    }
}

// How many bytes one read brings. A read that fails brings none.
fn read_once<R: Read>(input: &mut R, bytes: &mut [u8]) -> usize
    ensures prefix_len { IsPrefixLen result bytes.new }
    ensures consumes { Consumes (R.remaining input.old) (R.remaining input.new) (take result bytes.new) }
{
    input.read(bytes).unwrap_or(0)
}

// One read. The bytes that were at hand are used up. The input ends where a read brings none, or fails.
pub fn refill<R: Read>(input: &mut R, bytes: &mut [u8], s: Source) -> Source
    ensures refilled { Refilled s result bytes.new }
    ensures consumes { Consumes (R.remaining input.old) (R.remaining input.new) (brought result bytes.new) }
{
    let end = read_once(input, bytes);
    Source {
        from: 0,
        end,
        held: s.held,
        ended: end == 0,
    }
}

fn newline_in(bytes: &[u8]) -> Option<usize>
    ensures { NewlineIn bytes.now result }
{
    bytes.iter().position(|b| *b == b'\n')
}

// Puts bytes behind those of the line so far: those that there is room for are copied at once.
fn keep(line: &mut [u8], held: usize, bytes: &[u8]) -> usize
    ensures { Puts bytes.now held result line.old line.new }
{
    let from = held.min(line.len());
    let n = bytes.len().min(line.len() - from);
    line[from..from + n].copy_from_slice(&bytes[..n]);
    held.saturating_add(bytes.len())
}

// Whether there is a line, and whether to go on.
#[tactic(auto, unfolding(crate::specs::Reads::found))]
fn found(s: Source, newline: bool, at: usize, held: usize, room: usize) -> Next
    requires { newline ≡ true → at < 18446744073709551615 }
    ensures { result ≡ Reads.found newline s.ended (eqb held 0) s at held room }
{
    let line = Found::Line(held.min(room));
    if newline {
        return Next {
            found: line,
            source: Source {
                from: at + 1,
                held: 0,
                ..s
            },
        };
    }
    if !s.ended {
        return Next {
            found: Found::More,
            source: Source {
                from: at,
                held,
                ..s
            },
        };
    }
    let found = if held == 0 { Found::End } else { line };
    Next {
        found,
        source: Source {
            from: at,
            held: 0,
            ..s
        },
    }
}

// Looks for the next line. The bytes up to its newline are kept in `line`, as far as there is room.
pub fn next_line(s: Source, bytes: &[u8], line: &mut [u8]) -> Next
    ensures prefix_len { IsLine result.found line.new }
    ensures next_line { NextLine s bytes.now result line.old line.new }
{
    let end = s.end.min(bytes.len());
    let from = s.from.min(end);
    let rest = &bytes[from..end];
    let newline = newline_in(rest);
    let len = newline.unwrap_or(rest.len());
    let held = keep(line, s.held, &rest[..len]);
    found(s, newline.is_some(), from + len, held, line.len())
}
