// What a table cuts out of the cells: those on the way down from its cell, the way ending at its pins. Each of them gets a word with its
// value at every setting of the pins, a bit for each, so that all settings are gone through at once. Marks are counted from a base, which
// is two higher for the next table, so that none is ever cleared: up to the base a cell is new, one past it a pin that is not met, two past
// it a cell whose word is known.
#![tactic(auto)]

ghost use Rattle.std.specs.Prelude.{◌≡◌, false, List, ℕ, ◌+◌, ◌<◌, ◌≤◌, length, set};
ghost use Rattle.std.proofs.Props.{props};
ghost use Rattle.number.specs.Counts.{of_cell};
ghost use Rattle.number.specs.declared.CellNo.{CellNo};
ghost use Rattle.tables.specs.Answering.{pins, settings, bit};
ghost use Rattle.cells.specs.Cells.{truth, cell_at};
ghost use Rattle.cells.specs.Words.{cells_of};
ghost use Rattle.cells.specs.Needs.{IsCell, Closed};
ghost use Rattle.order.specs.Search.{mark};
ghost use Rattle.cuts.specs.Cut.{pin_at, is_source};
ghost use Rattle.cuts.specs.Cutting.{CanOrder, PinWord, AlikeIn, Lent, AllNew, Pinned, PinSet, Roomy, Meets, Ready};
ghost use Rattle.cuts.specs.Cutting.{Cutting, Going, Stepped, CutOut};

use cells::{Cell, Gate};
use number::CellNo;
use tables::Table;

// A word for each pin: pin p at setting b has bit p of b.
const PIN_WORDS: [u16; Table::PINS] = [0xaaaa, 0xcccc, 0xf0f0, 0xff00];

fn pin_word(p: usize) -> u16
    requires { p < pins }
    ensures { PinWord p result }
{
    PIN_WORDS[p]
}

// A gate at every setting: on words what `cells::gate_value` is on truth values. One function over both types would want a trait with a law for each gate, and
// two impls of it, which is more to read than three arms.
fn gate_word(g: Gate, a: u16, b: u16) -> u16
    ensures { (k : ℕ) → k < settings → bit result k ≡ truth g (bit a k) (bit b k) }
{
    match g {
        Gate::Or => a | b,
        Gate::And => a & b,
        Gate::Butnot => a & !b,
    }
}

// The settings at which two words are alike.
fn alike(a: u16, b: u16) -> u16
    ensures { AlikeIn a b result }
{
    (a & b) | !(a | b)
}

// The cells, the work columns, an entry for each cell, and the base that the marks are counted from.
#[derive(Drop)]
pub struct Cutter<'a> {
    pub cells: &'a [u64],
    pub marks: &'a mut [u64],
    pub values: &'a mut [u16],
    pub stack: &'a mut [u16],
    pub base: u64,
    ghost roomy: { Roomy base },
    ghost lent: { Lent (cells_of cells.now) marks.now values.now stack.now } by { Prim.hlevel props },
    ghost closed: { Closed (cells_of cells.now) } by { Prim.hlevel props },
    ghost order: { CanOrder (cells_of cells.now) },
}

impl Cutter<'_> {
    // These words name the struct, so they are not imported above it.
    ghost use Rattle.cuts.specs.Kept.{Keeps};

    // The net x at a pin waits to be met. The settings that count: "One pin net given twice must carry equal values to count as a setting."
    fn set_pin(&mut self, x: CellNo, word: u16) -> u16
        requires { (of_cell x < length self.old.marks.now) × (of_cell x < length self.old.values.now) }
        ensures kept { Keeps self.old self.new }
        ensures set { PinSet self.old.base self.old.marks.now self.old.values.now x word self.new.marks.now self.new.values.now result }
        ensures stack { self.new.stack.now ≡ self.old.stack.now }
    {
        let n = x.number() as usize;
        if self.base < self.marks[n] {
            return alike(self.values[n], word);
        }
        self.marks[n] = self.base + 1;
        self.values[n] = word;
        u16::MAX
    }

    // All pins. Its caller also learns here that there are as many as the array's type says.
    pub fn set_pins(&mut self, cut: [CellNo; Table::PINS]) -> u16
        requires { AllNew self.old.base self.old.marks.now × ((p : ℕ) → p < pins → of_cell (pin_at cut p) < length self.old.marks.now)
            × ((p : ℕ) → p < pins → of_cell (pin_at cut p) < length self.old.values.now) }
        ensures kept { Keeps self.old self.new }
        ensures pinned { Pinned cut self.old.base self.new.marks.now self.new.values.now pins result }
        ensures long { length cut ≡ pins }
        ensures stack { self.new.stack.now ≡ self.old.stack.now }
    {
        let mut counts = u16::MAX;
        for (p, x) in cut.iter().enumerate() {
            counts &= self.set_pin(*x, pin_word(p));
        }
        counts
    }

    // Whether the word of x is known. A pin that waited is met now.
    fn meet(&mut self, x: CellNo) -> bool
        requires { IsCell (cells_of self.old.cells.now) x }
        ensures kept { Keeps self.old self.new }
        ensures met { Meets self.old.base self.old.marks.now x self.new.marks.now result }
        ensures values { self.new.values.now ≡ self.old.values.now }
        ensures stack { self.new.stack.now ≡ self.old.stack.now }
    {
        let n = x.number() as usize;
        if self.marks[n] <= self.base {
            return false;
        }
        self.marks[n] = self.base + 2;
        true
    }

    // The word of x.
    fn settle(&mut self, x: CellNo, word: u16)
        requires { IsCell (cells_of self.old.cells.now) x }
        ensures kept { Keeps self.old self.new }
        ensures marks { self.new.marks.now ≡ set self.old.marks.now (of_cell x) (self.old.base + 2) }
        ensures values { self.new.values.now ≡ set self.old.values.now (of_cell x) word }
        ensures stack { self.new.stack.now ≡ self.old.stack.now }
    {
        let n = x.number() as usize;
        self.marks[n] = self.base + 2;
        self.values[n] = word;
    }

    // The cell on top: an operand that is new comes on top of it, or its word is known. So many cells are on the way then; none, where it is a register or an
    // input that is no pin.
    fn visit(&mut self, top: usize) -> Option<usize>
        requires { (0 < top) × Going (cells_of self.old.cells.now) self.old.base self.old.marks.now self.old.values.now self.old.stack.now top }
        ensures kept { Keeps self.old self.new }
        ensures stepped { (cut : List CellNo) (c : CellNo)
            → Cutting (cells_of self.old.cells.now) cut c self.old.base self.old.marks.now self.old.values.now self.old.stack.now top
            → Stepped (cells_of self.old.cells.now) cut c self.old.base self.old.marks.now self.new.marks.now self.new.values.now
            self.new.stack.now top result }
    {
        let at = top - 1;
        let x = CellNo::new(self.stack[at]);
        match cells::cell_at(self.cells, x) {
            Cell::Low => {
                self.settle(x, 0);
                Some(at)
            }
            Cell::High => {
                self.settle(x, u16::MAX);
                Some(at)
            }
            Cell::Input(_) => None,
            Cell::Gate(g, a, b) => {
                if !self.meet(a) {
                    self.stack[top] = a.number();
                    return Some(top + 1);
                }
                if !self.meet(b) {
                    self.stack[top] = b.number();
                    return Some(top + 1);
                }
                let word = gate_word(
                    g,
                    self.values[a.number() as usize],
                    self.values[b.number() as usize],
                );
                self.settle(x, word);
                Some(at)
            }
            Cell::Register(_) => None,
        }
    }

    // The way down from the table's cell. Whether it meets no register and no input that is no pin.
    pub fn cut_out(&mut self, t: Table) -> bool
        requires { (is_source (cell_at (cells_of self.old.cells.now) t.cell) ≡ false) × IsCell (cells_of self.old.cells.now) t.cell
            × (mark self.old.marks.now t.cell ≤ self.old.base)
            × Ready (cells_of self.old.cells.now) t.pins self.old.base self.old.marks.now self.old.values.now }
        ensures kept { Keeps self.old self.new }
        ensures cut { CutOut (cells_of self.old.cells.now) t.pins t.cell self.old.base self.new.marks.now self.new.values.now self.new.stack.now result }
    {
        self.stack[0] = t.cell.number();
        let mut top: usize = 1;
        // No index: cells come on the stack and go.
        while 0 < top {
            let Some(next) = self.visit(top) else {
                return false;
            };
            top = next;
        }
        true
    }
}
