// order N TABLE. N is a number of 64 bits in decimal. TABLE is the table's cell, the cells at its pins and its truth table in hex, with a colon between two.
ghost use Rattle.std.specs.Prelude.{◌≡◌, [], ◌∷◌, map};
ghost use Rattle.number.specs.Counts.{of_cell};
ghost use Rattle.texts.specs.Puts.{Writes};
ghost use Rattle.answers.specs.Questions as Questions;
ghost use Rattle.answers.specs.Texts.{parts, table_text, order_text};
ghost use Rattle.answers.specs.Code.{Says};

use crate::{numbers, output, words};
use krankovel::{CellNo, Reordered, Table};
use texts::Page;

// The largest number that a word can hold.
const LARGEST: &[u8] = b"18446744073709551615";

// 1 to 20 decimal digits, of a number that a word can hold. A larger one is read as the largest, which has 20 digits and one spelling.
fn order_value(text: &[u8]) -> Option<u64>
    ensures { result ≡ Questions.order_in text.now }
{
    let n = texts::decimal_value(text)?;
    if n != u64::MAX {
        return Some(n);
    }
    if text == LARGEST { Some(n) } else { None }
}

fn put_part(n: u16, page: &mut Page)
    ensures { Writes (parts (n ∷ [])) page.old page.new }
{
    page.decimal(u64::from(n));
    page.byte(b':');
}

// The cells at the pins, a colon behind each.
fn put_pins(pins: [CellNo; Table::PINS], page: &mut Page)
    ensures { Writes (parts (map of_cell pins)) page.old page.new }
{
    // The place fits its type: a fact of the read, for a loop that may have no turn.
    let _begun = page.at;
    for cell in &pins {
        put_part(cell.number(), page);
    }
}

fn put_table(table: Table, page: &mut Page)
    ensures { Writes (table_text table) page.old page.new }
{
    put_part(table.cell.number(), page);
    put_pins(table.pins, page);
    page.hex(u64::from(table.truth));
}

// number place TABLE
fn reordered(r: Reordered, page: &mut Page)
    ensures { Writes (order_text r) page.old page.new }
{
    page.row(&[u64::from(r.number), r.place as u64]);
    page.byte(b' ');
    put_table(r.table, page);
    page.byte(b'\n');
}

// A table, or none.
fn answer_table(order: u64, text: &[u8], page: &mut Page)
    ensures { Says (Questions.of_tables (Questions.numbers_in text.now) (Questions.one_table (Questions.order order))) page.old page.new }
{
    let mut row = [0u16; numbers::ROOM];
    let Some(n) = numbers::read(text, &mut row) else {
        return output::bad_line(page);
    };
    if n != numbers::SIZE {
        return output::bad_line(page);
    }
    let table = covers::table_at(&row[..n], 0);
    reordered(table.reorder(order), page);
}

pub fn answer(text: &[u8], page: &mut Page)
    ensures { Says (Questions.about_order text.now) page.old page.new }
{
    let end = words::word_end(text);
    if text.len() <= end {
        return output::bad_line(page);
    }
    let Some(order) = order_value(&text[..end]) else {
        return output::bad_line(page);
    };
    answer_table(order, &text[end + 1..], page);
}
