// Covers of a netlist: tables that the packer proposes, each for a gate, held to the cells.
#![tactic(auto)]

ghost use Rattle.std.specs.Prelude.{◌≡◌, true, List, ℕ, ◌+◌, ◌*◌, ◌<◌, ◌≤◌, length};
ghost use Rattle.number.specs.Counts.{of_cell};
ghost use Rattle.limits.specs.Limits.{max_signals};
ghost use Rattle.tables.specs.Answering.{pins};
ghost use Rattle.cells.specs.Cells.{cell_at};
ghost use Rattle.cells.specs.Words.{cell_in, cells_of};
ghost use Rattle.cells.specs.Needs.{IsCell};
ghost use Rattle.cells.specs.Netlist.{netlist_of, WellFormed};
ghost use Rattle.order.specs.Search.{IsBlank, Decides};
ghost use Rattle.cuts.specs.Cut as Cut;
ghost use Rattle.cuts.specs.Cut.{pin_at, RightCut};
ghost use Rattle.covers.specs.Covers.{size, table_count, pins_from, table_at, Carried, Complete};
ghost use Rattle.cuts.specs.Cutting.{AllNew};
ghost use Rattle.cuts.specs.Kept.{Keeps};
ghost use Rattle.covers.specs.Checking.{Tabled, Says, PinsCarried, PinKnown, PinsKnown, OutputsCarried, OperandCarried};
ghost use Rattle.covers.specs.Checking.{OperandsCarried, Judged, TableJudged, Found, Answers};

use cells::Cell;
use cuts::Cutter;
use number::CellNo;
use std::array;
use tables::Table;

// The numbers of a table: its cell, its pins, its truth table.
const SIZE: usize = Table::PINS + 2;

fn is_gate(c: Cell) -> bool
    ensures { result ≡ Cut.is_gate c }
{
    matches!(c, Cell::Gate(_, _, _))
}

fn is_constant(c: Cell) -> bool
    ensures { result ≡ Cut.is_constant c }
{
    matches!(c, Cell::Low | Cell::High)
}

// How many whole tables there are.
fn table_count(cover: &[u16]) -> usize
    ensures { result ≡ table_count cover.now }
{
    cover.len() / SIZE
}

// The pins of a table that has its numbers from `at` on.
fn pins_at(cover: &[u16], at: usize) -> [CellNo; Table::PINS]
    requires { at + size ≤ length cover.now }
    ensures { result ≡ pins_from cover.now at }
{
    array::from_fn(|p| CellNo::new(cover[at + 1 + p]))
}

// The table k.
pub fn table_at(cover: &[u16], k: usize) -> Table
    requires { k < table_count cover.now }
    ensures { result ≡ table_at cover.now k }
{
    let at = k * SIZE;
    Table::new(
        CellNo::new(cover[at]),
        pins_at(cover, at),
        cover[at + 1 + Table::PINS],
    )
}

// Which cells have a table: 1 where they do.
fn list_tables(cover: &[u16], tabled: &mut [u8])
    requires { IsBlank tabled.old }
    ensures { Tabled cover.now (table_count cover.now) 0 tabled.new }
{
    for numbers in cover.chunks_exact(SIZE) {
        let x = numbers[0] as usize;
        if x < tabled.len() {
            tabled[x] = 1;
        }
    }
}

// The cells, and which of them have a table.
#[derive(Drop)]
struct Listing<'a> {
    cells: &'a [u64],
    tabled: &'a [u8],
    ghost each: { length (cells_of cells.now) ≤ length tabled.now },
}

impl Listing<'_> {
    // Whether x is "a table's cell, a register, an input or a constant".
    fn carried(&self, x: CellNo) -> bool
        ensures { Says self.now.tabled.now (λ cover. Carried (cells_of self.now.cells.now) cover x) result }
    {
        let n = x.number() as usize;
        n < self.cells.len() && (!is_gate(cells::cell_at(self.cells, x)) || 0 < self.tabled[n])
    }

    fn pins_carried(&self, cut: [CellNo; Table::PINS]) -> bool
        ensures { Says self.now.tabled.now (PinsCarried (cells_of self.now.cells.now) cut) result }
    {
        cut.iter().all(|x| self.carried(*x))
    }

    fn outputs_carried(&self, i: u32, o: u32) -> bool
        requires { 1 + i + o ≤ max_signals }
        ensures { Says self.now.tabled.now (OutputsCarried (cells_of self.now.cells.now) i o) result }
    {
        (1 + i..1 + i + o).all(|s| self.carried(CellNo::new((1 + s) as u16)))
    }

    fn operand_carried(&self, w: u64) -> bool
        ensures { Says self.now.tabled.now (OperandCarried (cells_of self.now.cells.now) (cell_in w)) result }
    {
        match cells::cell_in(w) {
            Cell::Register(y) => self.carried(y),
            _ => true,
        }
    }

    fn operands_carried(&self) -> bool
        ensures { Says self.now.tabled.now (OperandsCarried (cells_of self.now.cells.now)) result }
    {
        self.cells.iter().all(|w| self.operand_carried(*w))
    }

    // What is asked of the netlist once its tables are right.
    fn rest_right(&self, cover: &[u16], i: u32, o: u32) -> bool
        requires { 1 + i + o ≤ max_signals }
        ensures { (k : ℕ) → Tabled cover.now (table_count cover.now) k self.now.tabled.now
            → Decides (Complete (netlist_of i o self.now.cells.now) cover.now) result }
    {
        cover.len() % SIZE == 0 && self.outputs_carried(i, o) && self.operands_carried()
    }
}

// Whether the pin x is a constant or was met.
fn pin_met(cutter: &Cutter<'_>, x: CellNo) -> bool
    requires { IsCell (cells_of cutter.now.cells.now) x }
    ensures { Decides (PinKnown (cells_of cutter.now.cells.now) cutter.now.base cutter.now.marks.now x) result }
{
    is_constant(cells::cell_at(cutter.cells, x))
        || cutter.base + 1 < cutter.marks[x.number() as usize]
}

// Whether each pin but a constant was met.
fn pins_met(cutter: &Cutter<'_>, cut: [CellNo; Table::PINS]) -> bool
    requires { (p : ℕ) → p < pins → IsCell (cells_of cutter.now.cells.now) (pin_at cut p) }
    ensures { Decides (PinsKnown (cells_of cutter.now.cells.now) cutter.now.base cutter.now.marks.now cut) result }
{
    cut.iter().all(|x| pin_met(cutter, *x))
}

// Whether the table is what its cell is when the cells are cut at its pins.
fn cut_right(cutter: &mut Cutter<'_>, t: Table) -> bool
    requires { AllNew cutter.old.base cutter.old.marks.now × (Cut.is_gate (cell_at (cells_of cutter.old.cells.now) t.cell) ≡ true)
        × ((p : ℕ) → p < pins → IsCell (cells_of cutter.old.cells.now) (pin_at t.pins p)) }
    ensures kept { Keeps cutter.old cutter.new }
    ensures right { Decides (RightCut (cells_of cutter.old.cells.now) t) result }
    ensures next { result ≡ true → AllNew (cutter.old.base + 2) cutter.new.marks.now }
{
    let n = t.cell.number() as usize;
    let counts = cutter.set_pins(t.pins);
    if cutter.base < cutter.marks[n] {
        return false;
    }
    if !cutter.cut_out(t) {
        return false;
    }
    if !pins_met(cutter, t.pins) {
        return false;
    }
    let word = cutter.values[n];
    word & counts == t.truth & counts
}

// Whether a table is right. Cells of earlier tables have 2 in `tabled`.
fn table_right(cutter: &mut Cutter<'_>, tabled: &[u8], t: Table) -> bool
    requires { (length (cells_of cutter.old.cells.now) ≤ length tabled.now) × AllNew cutter.old.base cutter.old.marks.now
        × ((cover : List ℕ) × (k : ℕ) × Tabled cover (table_count cover) k tabled.now) }
    ensures kept { Keeps cutter.old cutter.new }
    ensures judged { TableJudged (cells_of cutter.old.cells.now) tabled.now cutter.old.base t cutter.new.marks.now result }
{
    if !is_gate(cells::cell_at(cutter.cells, t.cell)) {
        return false;
    }
    if 1 < tabled[t.cell.number() as usize] {
        return false;
    }
    let listing = Listing {
        cells: cutter.cells,
        tabled,
    };
    if !listing.pins_carried(t.pins) {
        return false;
    }
    cut_right(cutter, t)
}

// The first table that is wrong.
fn first_wrong(cutter: &mut Cutter<'_>, cover: &[u16], tabled: &mut [u8]) -> Result<(), usize>
    requires { (length (cells_of cutter.old.cells.now) ≤ length tabled.old) × AllNew 0 cutter.old.marks.now
        × Tabled cover.now (table_count cover.now) 0 tabled.old }
    ensures { Found (cells_of cutter.old.cells.now) cover.now tabled.new result }
{
    for k in 0..table_count(cover) {
        let t = table_at(cover, k);
        cutter.base = 2 * (k as u64);
        if !table_right(cutter, tabled, t) {
            return Err(k);
        }
        tabled[t.cell.number() as usize] = 2;
    }
    Ok(())
}

// Whether a cover is right, or the number of its first wrong table; the number of tables, where none is and an output or a register's operand lacks one. The
// work columns hold nothing but zeros at entry, an entry for each cell.
pub fn check(
    i: u32,
    o: u32,
    cells: &[u64],
    cover: &[u16],
    tabled: &mut [u8],
    marks: &mut [u64],
    values: &mut [u16],
    stack: &mut [u16],
) -> Result<(), usize>
    requires { WellFormed (netlist_of i o cells.now) × Judged (cells_of cells.now) tabled.old marks.old values.old stack.old
        × IsBlank tabled.old × IsBlank marks.old }
    ensures { Answers (netlist_of i o cells.now) cover.now result }
{
    list_tables(cover, tabled);
    let mut cutter = Cutter {
        cells,
        marks,
        values,
        stack,
        base: 0,
    };
    first_wrong(&mut cutter, cover, tabled)?;
    let listing = Listing { cells, tabled };
    if listing.rest_right(cover, i, o) {
        Ok(())
    } else {
        Err(table_count(cover))
    }
}
