// Tables in a question: a colon between two numbers of a table, one comma between two tables. They are read into a row of numbers, as a cover is one.
ghost use Rattle.std.specs.Prelude.{◌≡◌, ◌+◌, length};
ghost use Rattle.answers.specs.Questions.{longest};
ghost use Rattle.answers.specs.Tables as Tables;
ghost use Rattle.answers.specs.Code.{Tabled};

use crate::words;
use krankovel::Table;

// The numbers of a table: its cell, the cells at its pins, its truth table.
pub const SIZE: usize = Table::PINS + 2;

// The longest question has no more numbers.
pub const ROOM: usize = 16385;

// Whether number i is the last of its table.
fn is_truth(i: usize) -> bool
    ensures { result ≡ Tables.is_truth i }
{
    i % SIZE == SIZE - 1
}

fn sign_behind(i: usize) -> u8
    ensures { result ≡ Tables.sign_behind i }
{
    if is_truth(i) { b',' } else { b':' }
}

// A number of 16 bits, or none.
fn short(v: Option<u64>) -> Option<u16>
    ensures { result ≡ Tables.short v }
{
    let n = v?;
    if n > 65535 {
        return None;
    }
    Some(n as u16)
}

fn number_in(i: usize, part: &[u8]) -> Option<u16>
    ensures { result ≡ Tables.number_in i part.now }
{
    if is_truth(i) {
        return short(texts::value_of(part, 16, 4));
    }
    short(texts::value_of(part, 10, 5))
}

// The numbers of a row of tables: how many. A number has a digit at least and no more than one sign behind it, so there is room for all.
pub fn read(text: &[u8], numbers: &mut [u16]) -> Option<usize>
    requires { length numbers.old ≡ longest + 1 }
    ensures { Tabled text.now result numbers.new }
{
    if numbers.len() <= text.len() {
        return None;
    }
    let mut at = 0;
    for i in 0..numbers.len() {
        let end = at + words::part_end(&text[at..], sign_behind(i));
        let Some(n) = number_in(i, &text[at..end]) else {
            return None;
        };
        numbers[i] = n;
        if text.len() <= end {
            return if is_truth(i) { Some(i + 1) } else { None };
        }
        at = end + 1;
    }
    unreachable!()
}
