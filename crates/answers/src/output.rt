// What is printed: a line for each answer, one blank between its words.
ghost use Rattle.texts.specs.Written.{row, bad_text};
ghost use Rattle.texts.specs.Puts.{Writes};
ghost use Rattle.answers.specs.Texts as Texts;

use krankovel::{Answer, Reaction, Reading};
use texts::Page;

pub fn bad_line(page: &mut Page)
    ensures { Writes bad_text page.old page.new }
{
    page.bytes(b"bad line\n");
}

fn numbers(numbers: &[u64], page: &mut Page)
    ensures { Writes (Texts.line numbers.now) page.old page.new }
{
    page.row(numbers);
    page.byte(b'\n');
}

// 1 for yes, 0 for no.
pub fn yes_or_no(b: bool, page: &mut Page)
    ensures { Writes (Texts.rest_text b) page.old page.new }
{
    numbers(&[u64::from(b)], page);
}

// number place statements halts signals
pub fn reading(r: Reading, page: &mut Page)
    ensures { Writes (Texts.reading_text r) page.old page.new }
{
    let all = [
        r.number as u64,
        r.place as u64,
        r.statements as u64,
        r.halts as u64,
        r.signals as u64,
    ];
    numbers(&all, page);
}

// number place statements cells
fn verdict(a: Answer, page: &mut Page)
    ensures { Writes (row (Texts.numbers_of a)) page.old page.new }
{
    let all = [
        a.number as u64,
        a.place as u64,
        a.statements as u64,
        a.cells as u64,
    ];
    page.row(&all);
}

pub fn answer(a: Answer, page: &mut Page)
    ensures { Writes (Texts.answer_text a) page.old page.new }
{
    verdict(a, page);
    page.byte(b'\n');
}

pub fn with_file(a: Answer, file: &[u8], page: &mut Page)
    ensures { Writes (Texts.file_text a file.now) page.old page.new }
{
    verdict(a, page);
    page.byte(b' ');
    page.hex_bytes(file);
    page.byte(b'\n');
}

pub fn without_file(a: Answer, page: &mut Page)
    ensures { Writes (Texts.no_file_text a) page.old page.new }
{
    verdict(a, page);
    page.bytes(b" -\n");
}

// number place statements cells signals state
pub fn reaction(r: Reaction, page: &mut Page)
    ensures { Writes (Texts.reaction_text r) page.old page.new }
{
    let a = Answer {
        number: r.number,
        place: r.place,
        statements: r.statements,
        cells: r.cells,
    };
    verdict(a, page);
    page.byte(b' ');
    page.set(r.signals);
    page.byte(b' ');
    page.set(r.state);
    page.byte(b'\n');
}
