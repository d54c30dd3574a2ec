// A netlist's cells: their kinds and gates, a cell in one word, the column of words that holds them, and what a cell needs in the same clock.
#![tactic(auto)]

ghost use Rattle.std.specs.Prelude.{◌≡◌, ◌+◌, ◌*◌, ◌<◌, set, get_or};
ghost use Rattle.number.specs.Counts.{of_cell};
ghost use Rattle.cells.specs.Cells as Cells;
ghost use Rattle.cells.specs.Cells.{truth, gate_kind, kind_of, cell_at};
ghost use Rattle.cells.specs.Words.{word, gate_in, cell_in, cells_of};
ghost use Rattle.cells.specs.Values as Values;
ghost use Rattle.cells.specs.Needs.{pins_of};

use number::{CellNo, SignalNo};

// The paper's kinds 3 to 5, in its order.
#[derive(Clone, Copy, Debug, PartialEq, Eq)]
pub enum Gate {
    Or = 3,
    And = 4,
    Butnot = 5,
}

// The paper's kinds, 0 to 6 in its order.
#[derive(Clone, Copy, Debug, PartialEq, Eq)]
pub enum Cell {
    Low,
    High,
    Input(SignalNo),
    Gate(Gate, CellNo, CellNo),
    Register(CellNo),
}

pub fn low() -> CellNo
    ensures { result ≡ Cells.low }
{
    CellNo::new(0)
}

pub fn high() -> CellNo
    ensures { result ≡ Cells.high }
{
    CellNo::new(1)
}

// What a gate makes of the values of its operands. Both are there before the gate is asked: no branch hangs on a value.
pub fn gate_value(g: Gate, a: bool, b: bool) -> bool
    ensures { result ≡ truth g a b }
{
    match g {
        Gate::Or => a | b,
        Gate::And => a & b,
        Gate::Butnot => a & !b,
    }
}

// The gate of such a kind. Whoever reads a kind has refused those that are none, so there is no error to give.
pub fn gate_in(kind: u32) -> Gate
    ensures { result ≡ gate_in kind }
{
    match kind {
        3 => Gate::Or,
        4 => Gate::And,
        _ => Gate::Butnot,
    }
}

// A cell's kind, 0 to 6, as a word has it.
pub fn kind_of(c: Cell) -> u32
    ensures { result ≡ kind_of c }
{
    match c {
        Cell::Low => 0,
        Cell::High => 1,
        Cell::Input(_) => 2,
        Cell::Gate(g, _, _) => g as u32,
        Cell::Register(_) => 6,
    }
}

fn packed(g: Gate, x: CellNo, y: CellNo) -> u64
    ensures { result ≡ gate_kind g + 8 * of_cell x + 524288 * of_cell y }
{
    (g as u64) + 8 * (x.number() as u64) + 524288 * (y.number() as u64)
}

// A cell in one word.
pub fn word_of(c: Cell) -> u64
    ensures { result ≡ word c }
{
    match c {
        Cell::Low => 0,
        Cell::High => 1,
        Cell::Input(s) => 2 + 8 * (s.number() as u64),
        Cell::Gate(g, x, y) => packed(g, x, y),
        Cell::Register(x) => 6 + 8 * (x.number() as u64),
    }
}

// The cell of a word.
pub fn cell_in(w: u64) -> Cell
    ensures { result ≡ cell_in w }
{
    let first = (w / 8 % 65536) as u16;
    let x = CellNo::new(first);
    let y = CellNo::new((w / 524288 % 65536) as u16);
    // An arm for each gate: by one arm and `gate_in` a clock costs 13 instructions a cell more. And low has an arm of its own beside the last: with seven of
    // the eight values named, the jump needs no test.
    match w % 8 {
        0 => Cell::Low,
        1 => Cell::High,
        2 => Cell::Input(SignalNo::new(first)),
        3 => Cell::Gate(Gate::Or, x, y),
        4 => Cell::Gate(Gate::And, x, y),
        5 => Cell::Gate(Gate::Butnot, x, y),
        6 => Cell::Register(x),
        _ => Cell::Low,
    }
}

// The cell n of the column; low where the column has ended.
pub fn cell_at(cells: &[u64], n: CellNo) -> Cell
    ensures { result ≡ cell_in (get_or cells.now (of_cell n) 0) }
{
    match cells.get(n.number() as usize) {
        Some(w) => cell_in(*w),
        None => Cell::Low,
    }
}

// The cell n becomes c: a new cell, or a reserved one whose last operand is filled. Past the column's end nothing is stored.
// By an index: a slice's `get_mut` promises nothing of what the slice ends as.
pub fn fill(cells: &mut [u64], n: CellNo, c: Cell)
    ensures { cells.new ≡ set cells.old (of_cell n) (word c) }
{
    let at = n.number() as usize;
    let w = word_of(c);
    if at < cells.len() {
        cells[at] = w;
    }
}

// One more than k where the cell is a register.
pub fn tally(c: Cell, k: u32) -> u32
    requires { k < 65536 }
    ensures { result ≡ Values.tally c k }
{
    match c {
        Cell::Register(_) => k + 1,
        _ => k,
    }
}

fn pins_of(c: Cell) -> Option<(CellNo, CellNo)>
    ensures { result ≡ pins_of c }
{
    match c {
        Cell::Gate(_, x, y) => Some((x, y)),
        _ => None,
    }
}

// What the cell x needs.
pub fn pins_at(cells: &[u64], x: CellNo) -> Option<(CellNo, CellNo)>
    ensures { result ≡ pins_of (cell_at (cells_of cells.now) x) }
{
    pins_of(cell_at(cells, x))
}
