// The reader of netlist files.
#![tactic(auto)]

ghost use Rattle.std.specs.Prelude.{◌≡◌, ◌&&◌, ◌+◌, ◌≤◌, eqb, leb};
ghost use Rattle.number.specs.Counts.{cell_no};
ghost use Rattle.number.specs.Number.{number_at};
ghost use Rattle.limits.specs.Limits.{max_signals, max_cells, max_registers};
ghost use Rattle.cells.specs.Netlist.{kind_fits};
ghost use Rattle.files.specs.Judge.{judge_count, judge_kind};
ghost use Rattle.files.specs.Read.{net_at, pair_at, input_of, gate_of, table_of, register_of, operands_at, read_cell, read_cells, body_at, count_at, read_file};
ghost use Rattle.files.specs.Answer.{DidCells, DidFile};

use cells::{Cell, Gate};
use number::{CellNo, Cursor, Fault, Refusal, SignalNo};

// The highest kind in a file, and in cells as words.
pub const FILE_KINDS: u32 = 7;

pub const WORD_KINDS: u32 = 6;

// I, O and the count of cells.
#[derive(Clone, Copy, Debug, PartialEq, Eq)]
pub struct Header {
    pub inputs: u32,
    pub outputs: u32,
    pub cells: u32,
}

// The count of cells: COUNT, CELL.
pub fn judge_count(i: u32, o: u32, m: usize) -> Result<(), Refusal>
    requires { 1 + i + o ≤ max_signals }
    ensures { result ≡ judge_count i o m }
{
    if limits::many_cells(m) {
        return Err(Refusal::Count);
    }
    if m < (2 + i + o) as usize {
        return Err(Refusal::Cell);
    }
    Ok(())
}

// Whether a kind may stand at cell x.
fn kind_fits(i: u32, x: CellNo, k: u32) -> bool
    ensures { result ≡ kind_fits i x k }
{
    match x.number() as u32 {
        0 => k == 0,
        1 => k == 1,
        n if n - 1 <= i => k == 2,
        _ => 2 < k,
    }
}

// Whether a cell of this kind is one register too many.
fn one_too_many(k: u32, registers: u32) -> bool
    ensures { result ≡ (eqb k 6 && leb max_registers registers) }
{
    k == 6 && limits::registers_full(registers)
}

// A cell's kind: KIND, COUNT, CELL.
pub fn judge_kind(highest: u32, i: u32, x: CellNo, registers: u32, k: u32) -> Result<(), Refusal>
    ensures { result ≡ judge_kind highest i x registers k }
{
    if highest < k {
        return Err(Refusal::Kind);
    }
    if one_too_many(k, registers) {
        return Err(Refusal::Count);
    }
    if kind_fits(i, x, k) {
        Ok(())
    } else {
        Err(Refusal::Cell)
    }
}

// An operand, which is one of m cells.
fn read_net(s: &[u8], m: u32, at: usize) -> Result<(CellNo, Cursor), Fault>
    ensures { result ≡ net_at s.now m at }
{
    let (v, next) = number::read_number(s, at)?;
    if v < m {
        return Ok((CellNo::new((v % 65536) as u16), next));
    }
    Err(Refusal::Cell.at(at))
}

// Two operands.
fn read_pair(s: &[u8], m: u32, at: usize) -> Result<(CellNo, CellNo, Cursor), Fault>
    ensures { result ≡ pair_at s.now m at }
{
    let (x, next) = read_net(s, m, at)?;
    let (y, past) = read_net(s, m, next.at)?;
    Ok((x, y, past))
}

// The operand of an input: cell x has the signal before it.
fn read_input(s: &[u8], x: CellNo, at: usize) -> Result<(Cell, Cursor), Fault>
    ensures { result ≡ input_of x at (number_at s.now at) }
{
    let (v, next) = number::read_number(s, at)?;
    if v + 1 == x.number() as u32 {
        return Ok((Cell::Input(SignalNo::new((v % 65536) as u16)), next));
    }
    Err(Refusal::Cell.at(at))
}

fn read_gate(s: &[u8], m: u32, g: Gate, at: usize) -> Result<(Cell, Cursor), Fault>
    ensures { result ≡ gate_of g (pair_at s.now m at) }
{
    let (x, y, next) = read_pair(s, m, at)?;
    Ok((Cell::Gate(g, x, y), next))
}

// A truth table, and the operands of the gate that it is.
fn read_table(s: &[u8], m: u32, at: usize) -> Result<(Cell, Cursor), Fault>
    ensures { result ≡ table_of s.now m at (number_at s.now at) }
{
    let (t, next) = number::read_number(s, at)?;
    match t {
        14 => read_gate(s, m, Gate::Or, next.at),
        8 => read_gate(s, m, Gate::And, next.at),
        2 => read_gate(s, m, Gate::Butnot, next.at),
        _ => Err(Refusal::Cell.at(at)),
    }
}

fn read_register(s: &[u8], m: u32, at: usize) -> Result<(Cell, Cursor), Fault>
    ensures { result ≡ register_of (net_at s.now m at) }
{
    let (x, next) = read_net(s, m, at)?;
    Ok((Cell::Register(x), next))
}

// The operands of a cell of kind k, at most 7.
fn read_operands(s: &[u8], m: u32, x: CellNo, at: usize, k: u32) -> Result<(Cell, Cursor), Fault>
    ensures { result ≡ operands_at s.now m x at k }
{
    match k {
        0 => Ok((Cell::Low, Cursor { at })),
        1 => Ok((Cell::High, Cursor { at })),
        2 => read_input(s, x, at),
        6 => read_register(s, m, at),
        7 => read_table(s, m, at),
        _ => read_gate(s, m, cells::gate_in(k), at),
    }
}

// The cell x: its kind, then its operands.
fn read_cell(
    s: &[u8],
    h: Header,
    x: CellNo,
    registers: u32,
    at: usize,
) -> Result<(Cell, Cursor), Fault>
    ensures { result ≡ read_cell s.now h.inputs h.cells x registers at }
{
    let (k, next) = number::read_number(s, at)?;
    // A test and no `map_err`: of what a closure there makes the proof learns nothing that it can use.
    if let Err(refusal) = judge_kind(FILE_KINDS, h.inputs, x, registers, k) {
        return Err(refusal.at(at));
    }
    read_operands(s, h.cells, x, next.at, k)
}

// All cells, in order, into the column. What lies past its end is judged and not stored.
fn read_cells(s: &[u8], h: Header, start: usize, cells: &mut [u64]) -> Result<usize, Fault>
    requires { h.cells ≤ max_cells }
    ensures { DidCells (read_cells h.cells s.now h.inputs h.cells (cell_no 0) 0 start) result
        cells.old cells.new }
{
    let mut registers: u32 = 0;
    let mut at = start;
    for n in 0..h.cells {
        let x = CellNo::new(n as u16);
        let (c, next) = read_cell(s, h, x, registers, at)?;
        cells::fill(cells, x, c);
        registers = cells::tally(c, registers);
        at = next.at;
    }
    Ok(at)
}

// The cells, then EXTRA.
fn read_body(s: &[u8], h: Header, at: usize, cells: &mut [u64]) -> Result<Header, Fault>
    requires { h.cells ≤ max_cells }
    ensures { DidFile (body_at s.now h.inputs h.outputs h.cells at) result cells.old cells.new }
{
    let end = read_cells(s, h, at, cells)?;
    if end < s.len() {
        return Err(Refusal::Extra.at(end));
    }
    Ok(h)
}

// The cell count and what follows it.
fn read_counted(s: &[u8], i: u32, o: u32, at: usize, cells: &mut [u64]) -> Result<Header, Fault>
    requires { 1 + i + o ≤ max_signals }
    ensures { DidFile (count_at s.now i o at) result cells.old cells.new }
{
    let (m, next) = number::read_number(s, at)?;
    if let Err(refusal) = judge_count(i, o, m as usize) {
        return Err(refusal.at(at));
    }
    let h = Header {
        inputs: i,
        outputs: o,
        cells: m,
    };
    read_body(s, h, next.at, cells)
}

// The netlist in a file: its header, and its cells in the first places of the column. After a refusal the column may hold anything. Each byte is read once.
pub fn read_file(s: &[u8], cells: &mut [u64]) -> Result<Header, Fault>
    ensures { DidFile (read_file s.now) result cells.old cells.new }
{
    let (i, second) = number::read_number(s, 0)?;
    let place = second.at;
    let (o, third) = number::read_number(s, place)?;
    if limits::header_full(i, o) {
        return Err(Refusal::Count.at(place));
    }
    read_counted(s, i, o, third.at, cells)
}
