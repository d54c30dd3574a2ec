// The questions. A line is the question's word, then the words it asks about, one blank between them.
ghost use Rattle.std.specs.Prelude.{◌≡◌, ℕ, ◌≤◌, min, length, take};
ghost use Rattle.bits.specs.Bits.{whole};
ghost use Rattle.cells.specs.Netlist.{netlist_of, WellFormed};
ghost use Rattle.verdicts.specs.Answers.{acceptance};
ghost use Rattle.io.specs.Counts.{IsPrefixLen};
ghost use Rattle.answers.specs.Questions as Questions;
ghost use Rattle.answers.specs.Answering.{Lends, longest_answer, Told};
ghost use Rattle.answers.specs.Code.{Says, FileSaid};

use crate::{numbers, ordering, output, words};
use krankovel::Bits;
use sets::Entry;
use sheet::{Counts, Row};
use texts::Page;

// The bytes of a sheet or a file that are read, and of a file that are lent.
const ROOM: usize = 8192;

// The longest question.
const LONGEST: usize = 16384;

// The questions' words.
const REST: &[u8] = b"rest";

const READ: &[u8] = b"read";

const CHECK: &[u8] = b"check";

const FILE: &[u8] = b"file";

const FITS: &[u8] = b"fits";

const WRITE: &[u8] = b"write";

const COVER: &[u8] = b"cover";

const REACT: &[u8] = b"react";

const REACTFILE: &[u8] = b"reactfile";

const ORDER: &[u8] = b"order";

// rest STATE
fn answer_rest(text: &[u8], page: &mut Page)
    ensures { Says (Questions.of (Questions.set_in text.now) Questions.rest) page.old page.new }
{
    let Some(state) = texts::set_value(text) else {
        return output::bad_line(page);
    };
    output::yes_or_no(krankovel::rest(state), page);
}

// read HEX, check HEX, file HEX. Here and below words are told apart by tests: behind the last arm of a `match` on bytes nothing would be known of the word.
fn answer_bytes(word: &[u8], bytes: &[u8], page: &mut Page)
    ensures { Says (Questions.about_bytes word.now bytes.now) page.old page.new }
{
    if word == READ {
        return output::reading(krankovel::read(bytes), page);
    }
    if word == CHECK {
        return output::answer(krankovel::check(bytes), page);
    }
    if word == FILE {
        return output::answer(krankovel::check_file(bytes), page);
    }
    output::bad_line(page);
}

// fits HEX STATE
fn answer_fits(bytes: &[u8], text: &[u8], page: &mut Page)
    ensures { Says (Questions.of (Questions.set_in text.now) (Questions.fits bytes.now)) page.old page.new }
{
    let Some(state) = texts::set_value(text) else {
        return output::bad_line(page);
    };
    output::answer(krankovel::fits(bytes, state), page);
}

// The file of compiled cells in the lent buffer, or BUFFER.
fn print_file(c: Counts, cells: &[u64], lent: &mut [u8], page: &mut Page)
    requires { WellFormed (netlist_of c.inputs c.outputs cells.now) × (length cells.now ≤ 65535) }
    ensures { FileSaid (netlist_of c.inputs c.outputs cells.now)
        (acceptance c.statements (length cells.now)) lent.old page.old page.new }
{
    match netlists::write_file(c.inputs as u32, c.outputs as u32, cells, lent) {
        Err(f) => output::without_file(verdicts::refusal(f), page),
        Ok(n) => {
            let a = verdicts::acceptance(c.statements, cells.len() as u16);
            output::with_file(a, &lent[..n], page)
        }
    }
}

// A sheet is compiled once, and its file printed.
fn write_file(bytes: &[u8], lent: &mut [u8], page: &mut Page)
    ensures { (n : ℕ) → Lends n lent.old → Says (Questions.write bytes.now n) page.old page.new }
{
    let mut rows = [Row::empty(); limits::MAX_STATEMENTS];
    let mut statics = [Entry::empty(); limits::MAX_STATEMENTS];
    let mut cells = [0u64; limits::MAX_CELLS];
    match compiler::compile(bytes, &mut rows, &mut statics, &mut cells) {
        Err(f) => output::without_file(verdicts::refusal(f), page),
        Ok((c, n)) => print_file(c, &cells[..n as usize], lent, page),
    }
}

// n bytes, or all that there is room for.
fn lent(n: u64) -> usize
    ensures { result ≡ min n Questions.room }
{
    n.min(ROOM as u64) as usize
}

// write HEX LENGTH
fn answer_write(bytes: &[u8], text: &[u8], page: &mut Page)
    ensures { Says (Questions.of (Questions.length_in text.now) (Questions.write bytes.now)) page.old page.new }
{
    let Some(n) = texts::decimal_value(text) else {
        return output::bad_line(page);
    };
    let mut buffer = [0u8; ROOM];
    let end = lent(n);
    write_file(bytes, &mut buffer[..end], page);
}

// cover HEX TABLES
fn answer_cover(bytes: &[u8], text: &[u8], page: &mut Page)
    ensures { Says (Questions.of_tables (Questions.tables_in text.now) (Questions.cover bytes.now)) page.old page.new }
{
    let mut row = [0u16; numbers::ROOM];
    if text == words::NONE {
        return output::answer(krankovel::cover_file(bytes, &row[..0]), page);
    }
    let Some(n) = numbers::read(text, &mut row) else {
        return output::bad_line(page);
    };
    output::answer(krankovel::cover_file(bytes, &row[..n]), page);
}

// react HEX STATE EVENT, reactfile HEX STATE EVENT
fn answer_reaction(word: &[u8], bytes: &[u8], state: Bits, event: Bits, page: &mut Page)
    ensures { Says (Questions.about_reaction word.now bytes.now (whole state) (whole event)) page.old page.new }
{
    if word == REACT {
        return output::reaction(krankovel::react(bytes, state, event), page);
    }
    if word == REACTFILE {
        return output::reaction(krankovel::react_file(bytes, state, event), page);
    }
    output::bad_line(page);
}

// What is asked about bytes and one word behind them.
fn answer_more(word: &[u8], bytes: &[u8], text: &[u8], page: &mut Page)
    ensures { Says (Questions.about_more word.now bytes.now text.now) page.old page.new }
{
    if word == FITS {
        return answer_fits(bytes, text, page);
    }
    if word == WRITE {
        return answer_write(bytes, text, page);
    }
    if word == COVER {
        return answer_cover(bytes, text, page);
    }
    output::bad_line(page);
}

// What is asked about bytes and one word or two behind them. The last word is all that is left: a blank is no digit.
fn answer_behind(word: &[u8], bytes: &[u8], text: &[u8], page: &mut Page)
    ensures { Says (Questions.behind_bytes word.now bytes.now text.now) page.old page.new }
{
    let end = words::word_end(text);
    if text.len() <= end {
        return answer_more(word, bytes, text, page);
    }
    let Some(state) = texts::set_value(&text[..end]) else {
        return output::bad_line(page);
    };
    let Some(event) = texts::set_value(&text[end + 1..]) else {
        return output::bad_line(page);
    };
    answer_reaction(word, bytes, state, event, page);
}

// What is asked about the bytes in the first word of a text.
fn answer_about(word: &[u8], text: &[u8], page: &mut Page)
    ensures { Says (Questions.of_bytes (Questions.bytes_in (Questions.first_word text.now)) (Questions.with_bytes word.now text.now))
        page.old page.new }
{
    let mut bytes = [0u8; ROOM];
    let end = words::word_end(text);
    let Some(n) = words::hex_bytes(&text[..end], &mut bytes) else {
        return output::bad_line(page);
    };
    if text.len() <= end {
        return answer_bytes(word, &bytes[..n], page);
    }
    answer_behind(word, &bytes[..n], &text[end + 1..], page);
}

// The question's word, and what follows its blank.
fn answer_question(word: &[u8], text: &[u8], page: &mut Page)
    ensures { Says (Questions.asked word.now text.now) page.old page.new }
{
    if word == REST {
        return answer_rest(text, page);
    }
    if word == ORDER {
        return ordering::answer(text, page);
    }
    answer_about(word, text, page);
}

// What is answered to a line.
fn say(line: &[u8], page: &mut Page)
    ensures { Says (Questions.question line.now) page.old page.new }
{
    if LONGEST < line.len() {
        return output::bad_line(page);
    }
    let end = words::word_end(line);
    if line.len() <= end {
        return output::bad_line(page);
    }
    answer_question(&line[..end], &line[end + 1..], page);
}

// A line's answer, in a buffer that has room for any.
pub fn answer_line(line: &[u8], out: &mut [u8]) -> usize
    requires { longest_answer ≤ length out.old }
    ensures { Told (Questions.question line.now) result out.new }
{
    let mut page = Page { out, at: 0 };
    say(line, &mut page);
    page.at
}
