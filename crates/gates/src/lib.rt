// New cells with their folding, which go into a lent column, and rows of code nets.
#![tactic(auto)]

ghost use Rattle.std.specs.Prelude.{◌≡◌, ◌+◌, ◌<◌};
ghost use Rattle.bits.specs.Bits.{has};
ghost use Rattle.limits.specs.Limits.{max_codes};
ghost use Rattle.cells.specs.Cells.{is_low};
ghost use Rattle.gates.specs.Folding.{new, first_low, second_low, gate_at, butnot_at};
ghost use Rattle.gates.specs.Rows as Rows;
ghost use Rattle.gates.specs.Rows.{with_code0, or_row, trap_row, pairs, only_if, level_at, last_at, parallel_row};
ghost use Rattle.gates.specs.Store.{parallel_cells, Fills, Makes, MakesRow, MakesLevel, MakesHighest};

use cells::{Cell, Gate};
use limits::MAX_CODES;
use number::CellNo;

// Whether a net folds.
fn is_low(x: CellNo) -> bool
    ensures { result ≡ is_low x }
{
    x.number() == 0
}

// "or with 0 is the other operand, and with 0 is 0, .. butnot 0 y is 0.": a gate whose first operand is low.
fn first_low(g: Gate, y: CellNo) -> CellNo
    ensures { result ≡ first_low g y }
{
    match g {
        Gate::Or => y,
        Gate::And => cells::low(),
        Gate::Butnot => cells::low(),
    }
}

// "or with 0 is the other operand, and with 0 is 0, butnot x 0 is x": a gate whose second operand is low.
fn second_low(g: Gate, x: CellNo) -> CellNo
    ensures { result ≡ second_low g x }
{
    match g {
        Gate::Or => x,
        Gate::And => cells::low(),
        Gate::Butnot => x,
    }
}

// The row whose one net is g, at code k.
pub fn only(k: usize, g: CellNo) -> [CellNo; MAX_CODES]
    requires { k < max_codes }
    ensures { result ≡ Rows.only k g }
{
    let mut a = [cells::low(); MAX_CODES];
    a[k] = g;
    a
}

// The row with y for its code 0.
pub fn with_code0(y: CellNo, c: [CellNo; MAX_CODES]) -> [CellNo; MAX_CODES]
    ensures { result ≡ with_code0 y c }
{
    let mut a = c;
    a[0] = y;
    a
}

// The row of a trap, whose code 0 is o.
pub fn trap_row(o: CellNo, c: [CellNo; MAX_CODES]) -> [CellNo; MAX_CODES]
    ensures { result ≡ trap_row o c }
{
    let mut a = [cells::low(); MAX_CODES];
    a[0] = o;
    a[1] = c[1];
    a[2..MAX_CODES - 1].copy_from_slice(&c[3..MAX_CODES]);
    a
}

// A code's net, and x after it.
#[derive(Clone, Copy, Debug, PartialEq, Eq)]
struct Level {
    net: CellNo,
    above: CellNo,
}

// A parallel's row of nets, and x after code 2.
#[derive(Clone, Copy, Debug, PartialEq, Eq)]
pub struct Highest {
    pub nets: [CellNo; MAX_CODES],
    pub kill: CellNo,
}

// The cells as they are made: they go into a lent column, and their count goes on past the column's end, where nothing is stored.
#[derive(Drop)]
pub struct Column<'a> {
    pub cells: &'a mut [u64],
    pub count: u16,
}

impl<'a> Column<'a> {
    // A new cell. The caller sees to it, here and below, that the count fits its type.
    pub fn push(&mut self, c: Cell) -> CellNo
        requires { self.old.count + 1 < 65536 }
        ensures { Makes 1 (new self.old.count c) self.old self.new result }
    {
        let cell = CellNo::new(self.count);
        cells::fill(self.cells, cell, c);
        self.count += 1;
        cell
    }

    // The cell n, which was reserved, becomes c.
    pub fn fill(&mut self, n: CellNo, c: Cell)
        ensures { Fills n c self.old self.new }
    {
        cells::fill(self.cells, n, c);
    }

    // Low folds in a gate, and makes no cell. Nothing else folds.
    pub fn gate(&mut self, g: Gate, x: CellNo, y: CellNo) -> CellNo
        requires { self.old.count + 1 < 65536 }
        ensures { Makes 1 (gate_at g self.old.count x y) self.old self.new result }
    {
        if is_low(x) {
            return first_low(g, y);
        }
        if is_low(y) {
            return second_low(g, x);
        }
        self.push(Cell::Gate(g, x, y))
    }

    // Two rows, or'ed upward.
    pub fn or_row(&mut self, a: [CellNo; MAX_CODES], b: [CellNo; MAX_CODES]) -> [CellNo; MAX_CODES]
        requires { self.old.count + max_codes < 65536 }
        ensures { MakesRow max_codes (or_row self.old.count a b) self.old self.new result }
    {
        let mut nets = b;
        for j in 0..MAX_CODES {
            let net = self.gate(Gate::Or, a[j], b[j]);
            nets[j] = net;
        }
        nets
    }

    // A butnot, where `keep` says so, and else low.
    fn kept(&mut self, m: CellNo, x: CellNo, keep: bool) -> CellNo
        requires { self.old.count + 1 < 65536 }
        ensures { Makes 1 (only_if keep (butnot_at self.old.count m x)) self.old self.new result }
    {
        if keep {
            return self.gate(Gate::Butnot, m, x);
        }
        cells::low()
    }

    // A code of a parallel above 0.
    fn one_code(&mut self, p: CellNo, q: CellNo, x: CellNo, keep: bool) -> Level
        requires { self.old.count + 3 < 65536 }
        ensures { MakesLevel 3 (level_at self.old.count keep p q x) self.old self.new result.net result.above }
    {
        let m = self.gate(Gate::Or, p, q);
        let net = self.kept(m, x, keep);
        let above = self.gate(Gate::Or, x, m);
        Level { net, above }
    }

    // Its code 0.
    fn code_zero(&mut self, p: CellNo, q: CellNo, x: CellNo, keep: bool) -> CellNo
        requires { self.old.count + 2 < 65536 }
        ensures { Makes 2 (last_at self.old.count keep p q x) self.old self.new result }
    {
        let m = self.gate(Gate::Or, p, q);
        self.kept(m, x, keep)
    }

    // The codes of a parallel, from the highest down; `keep` has those in K or R. Code 1 stands behind the loop, since the kill is x before it.
    pub fn parallel_row(
        &mut self,
        a: [CellNo; MAX_CODES],
        b: [CellNo; MAX_CODES],
        keep: u64,
    ) -> Highest
        requires { self.old.count + parallel_cells < 65536 }
        ensures { MakesHighest parallel_cells (parallel_row self.old.count (has keep) (pairs a b)) self.old self.new result.nets result.kill }
    {
        let mut nets = [cells::low(); MAX_CODES];
        let mut x = cells::low();
        for j in (2..MAX_CODES).rev() {
            let v = self.one_code(a[j], b[j], x, bits::member(keep, j as u32));
            nets[j] = v.net;
            x = v.above;
        }
        let v = self.one_code(a[1], b[1], x, bits::member(keep, 1));
        nets[1] = v.net;
        let last = self.code_zero(a[0], b[0], v.above, bits::member(keep, 0));
        nets[0] = last;
        Highest { nets, kill: x }
    }
}
