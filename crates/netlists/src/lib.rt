// A netlist in either form, a file's bytes or I, O and words: judged, its cells ordered, and written to a file.
#![tactic(auto)]

mod writer;

ghost use Rattle.std.specs.Prelude.{◌≡◌, ◌≤◌, length, take};
ghost use Rattle.number.specs.Counts.{cell_no};
ghost use Rattle.limits.specs.Limits.{max_cells};
ghost use Rattle.cells.specs.Words.{cells_of};
ghost use Rattle.cells.specs.Netlist.{is_net, operands_fit};
ghost use Rattle.order.specs.Paths.{Orderable, Answers};
ghost use Rattle.files.specs.Read.{read_file};
ghost use Rattle.files.specs.Answer.{file_answer};
ghost use Rattle.netlists.specs.Words.{judge_word, judge_words, judge_cells};
ghost use Rattle.netlists.specs.Checked.{DidCheck, DidCheckFile};

use cells::Cell;
use files::Header;
use number::{CellNo, Fault, Refusal};
use order::Cycle;
pub use writer::write_file;

// Whether an operand is one of m cells.
fn is_net(m: u32, y: CellNo) -> bool
    ensures { result ≡ is_net m y }
{
    (y.number() as u32) < m
}

// Whether the operands of cell x, one of m, are right.
fn operands_fit(m: u32, x: CellNo, c: Cell) -> bool
    ensures { result ≡ operands_fit m x c }
{
    match c {
        Cell::Low | Cell::High => true,
        Cell::Input(s) => s.number() as u32 + 1 == x.number() as u32,
        Cell::Gate(_, y, z) => is_net(m, y) && is_net(m, z),
        Cell::Register(y) => is_net(m, y),
    }
}

// The word of cell x: its kind, its operands, and the fields that it does not use.
fn judge_word(h: Header, x: CellNo, registers: u32, w: u64) -> Result<(), Refusal>
    ensures { result ≡ judge_word h.inputs h.cells x registers w }
{
    files::judge_kind(files::WORD_KINDS, h.inputs, x, registers, (w % 8) as u32)?;
    let c = cells::cell_in(w);
    if operands_fit(h.cells, x, c) && cells::word_of(c) == w {
        return Ok(());
    }
    Err(Refusal::Cell)
}

// The words, in order.
fn judge_words(words: &[u64], h: Header) -> Result<(), Refusal>
    requires { (length words.now ≤ max_cells) × (h.cells ≡ length words.now) }
    ensures { result ≡ judge_words h.inputs h.cells (cell_no 0) 0 words.now }
{
    let mut registers: u32 = 0;
    for (n, w) in words.iter().enumerate() {
        judge_word(h, CellNo::new(n as u16), registers, *w)?;
        registers = cells::tally(cells::cell_in(*w), registers);
    }
    Ok(())
}

// The netlist in words, place 0.
pub fn judge_cells(i: u32, o: u32, words: &[u64]) -> Result<Header, Fault>
    ensures { result ≡ file_answer (judge_cells i o words.now) }
{
    if limits::header_full(i, o) {
        return Err(Refusal::Count.at(0));
    }
    // A test and no `map_err`: of what a closure there makes the proof learns nothing that it can use.
    if let Err(refusal) = files::judge_count(i, o, words.len()) {
        return Err(refusal.at(0));
    }
    let h = Header {
        inputs: i,
        outputs: o,
        cells: words.len() as u32,
    };
    if let Err(refusal) = judge_words(words, h) {
        return Err(refusal.at(0));
    }
    Ok(h)
}

// An order of the first m cells of the column.
fn order_first(cells: &[u64], m: usize, order: &mut [u16]) -> Result<(), Cycle>
    requires { (m ≤ length cells.now) × Orderable (cells_of (take m cells.now)) order.old }
    ensures { Answers (cells_of (take m cells.now)) order.new result }
{
    order::order_cells(&cells[..m], order)
}

// The whole check of a file. On acceptance its cells stand in the first places of `cells`, and an order of them in those of `order`.
pub fn check_file(s: &[u8], cells: &mut [u64], order: &mut [u16]) -> Result<Header, Fault>
    requires { (max_cells ≤ length cells.old) × (max_cells ≤ length order.old) }
    ensures { DidCheckFile (read_file s.now) result cells.old cells.new order.new }
{
    let h = files::read_file(s, cells)?;
    order_first(cells, h.cells as usize, order)?;
    Ok(h)
}

// The whole check of cells as words. On acceptance an order of them stands in the first places of `order`.
pub fn check_cells(i: u32, o: u32, words: &[u64], order: &mut [u16]) -> Result<Header, Fault>
    requires { max_cells ≤ length order.old }
    ensures { DidCheck (judge_cells i o words.now) result order.new }
{
    let h = judge_cells(i, o, words)?;
    order::order_cells(words, order)?;
    Ok(h)
}
