// The writer of netlist files.
ghost use Rattle.std.specs.Prelude.{◌≡◌, [], ◌∷◌, ◌++◌, ◌+◌, ◌<◌, ◌≤◌, length};
ghost use Rattle.std.proofs.lemmas.List.Edits.{sets};
ghost use Rattle.number.specs.Counts.{of_cell};
ghost use Rattle.number.specs.Number.{number_bytes, number_length};
ghost use Rattle.cells.specs.Words.{cells_of};
ghost use Rattle.cells.specs.Netlist.{netlist_of, WellFormed};
ghost use Rattle.files.specs.File.{truth_table, written_kind, pair_bytes, operand_bytes, cell_bytes, cells_bytes};
ghost use Rattle.netlists.specs.Write.{file_length, SmallPair, SmallCell, SmallCells, HasRoom, Lays, DidWrite};

use cells::{Cell, Gate};
use number::{CellNo, Fault, Refusal};

fn number_length(v: u32) -> usize
    ensures { result ≡ number_length v }
{
    if v < 128 { 1 } else { 2 }
}

fn pair_length(x: CellNo, y: CellNo) -> usize
    ensures { result ≡ number_length (of_cell x) + number_length (of_cell y) }
{
    number_length(x.number() as u32) + number_length(y.number() as u32)
}

// A truth table's number has one byte.
fn operand_length(c: Cell) -> usize
    ensures { result ≡ length (operand_bytes c) }
{
    match c {
        Cell::Low | Cell::High => 0,
        Cell::Input(s) => number_length(s.number() as u32),
        Cell::Gate(_, x, y) => 1 + pair_length(x, y),
        Cell::Register(x) => number_length(x.number() as u32),
    }
}

// The length of a netlist's file.
fn file_length(i: u32, o: u32, words: &[u64]) -> usize
    requires { WellFormed (netlist_of i o words.now) }
    ensures { result ≡ file_length (netlist_of i o words.now) }
{
    let mut length = number_length(i) + number_length(o) + number_length(words.len() as u32);
    for w in words {
        length += 1 + operand_length(cells::cell_in(*w));
    }
    length
}

// The truth table of a gate, as a file has it: bit x + 2 y is what it gives.
fn truth_table(g: Gate) -> u8
    ensures { result ≡ truth_table g }
{
    match g {
        Gate::Or => 14,
        Gate::And => 8,
        Gate::Butnot => 2,
    }
}

// The number that a file has for the kind of a cell.
fn written_kind(c: Cell) -> u8
    ensures { result ≡ written_kind c }
{
    match c {
        Cell::Low => 0,
        Cell::High => 1,
        Cell::Input(_) => 2,
        Cell::Gate(_, _, _) => 7,
        Cell::Register(_) => 6,
    }
}

// A lent buffer, and the place up to which it is written.
#[derive(Drop)]
struct Writer<'a> {
    buffer: &'a mut [u8],
    at: usize,
}

impl<'a> Writer<'a> {
    fn byte(&mut self, v: u8)
        requires { HasRoom (v ∷ []) self.old }
        ensures { Lays (v ∷ []) self.old self.new }
    {
        self.buffer[self.at] = v;
        self.at += 1;
    }

    fn number(&mut self, v: u32)
        requires { (v < 16384) × HasRoom (number_bytes v) self.old }
        ensures { Lays (number_bytes v) self.old self.new }
    {
        self.at = number::write_number(self.buffer, self.at, v);
    }

    fn pair(&mut self, x: CellNo, y: CellNo)
        requires { SmallPair x y × HasRoom (pair_bytes x y) self.old }
        ensures { Lays (pair_bytes x y) self.old self.new }
    {
        self.number(x.number() as u32);
        self.number(y.number() as u32);
    }

    // A gate's truth table, and its operands.
    fn gate(&mut self, g: Gate, x: CellNo, y: CellNo)
        requires { SmallPair x y × HasRoom (operand_bytes (Cell.Gate g x y)) self.old }
        ensures { Lays (operand_bytes (Cell.Gate g x y)) self.old self.new }
    {
        self.byte(truth_table(g));
        self.pair(x, y);
    }

    fn operands(&mut self, c: Cell)
        requires { SmallCell c × HasRoom (operand_bytes c) self.old }
        ensures { Lays (operand_bytes c) self.old self.new }
    {
        match c {
            Cell::Low | Cell::High => {}
            Cell::Input(s) => self.number(s.number() as u32),
            Cell::Gate(g, x, y) => self.gate(g, x, y),
            Cell::Register(x) => self.number(x.number() as u32),
        }
    }

    // A cell's kind and operands.
    fn cell(&mut self, c: Cell)
        requires { SmallCell c × HasRoom (cell_bytes c) self.old }
        ensures { Lays (cell_bytes c) self.old self.new }
    {
        self.byte(written_kind(c));
        self.operands(c);
    }

    // All cells, in order.
    fn cells(&mut self, words: &[u64])
        requires { SmallCells (cells_of words.now) × HasRoom (cells_bytes (cells_of words.now)) self.old }
        ensures { Lays (cells_bytes (cells_of words.now)) self.old self.new }
    {
        for w in words {
            self.cell(cells::cell_in(*w));
        }
    }
}

// The netlist's file, and its length, or BUFFER. The length is known before the first byte is written, so that a buffer too short is left as it is.
pub fn write_file(i: u32, o: u32, words: &[u64], buffer: &mut [u8]) -> Result<usize, Fault>
    requires { WellFormed (netlist_of i o words.now) }
    ensures { DidWrite (netlist_of i o words.now) result buffer.old buffer.new }
{
    let length = file_length(i, o, words);
    if buffer.len() < length {
        return Err(Refusal::Buffer.at(length));
    }
    let mut writer = Writer { buffer, at: 0 };
    writer.number(i);
    writer.number(o);
    writer.number(words.len() as u32);
    writer.cells(words);
    Ok(length)
}
