// What a statement makes before, between and after its parts; a leaf makes all of it at once. The cells go into a lent column.
#![tactic(auto)]

ghost use Rattle.std.specs.Prelude.{◌≡◌, ◌+◌, ◌<◌, length};
ghost use Rattle.number.specs.Counts.{of_signal};
ghost use Rattle.bits.specs.Bits.{has};
ghost use Rattle.limits.specs.Limits.{max_signals, max_codes};
ghost use Rattle.sheet.specs.Stmt.{leaf};
ghost use Rattle.sheet.specs.declared.Binary.TheVariants.{Parallel};
ghost use Rattle.sets.specs.Words.{LowLeaf};
ghost use Rattle.cells.specs.Cells.{signal_cell};
ghost use Rattle.gates.specs.Store.{parallel_cells};
ghost use Rattle.parts.specs.Equations.{joined, build, build_halt, build_emit};
ghost use Rattle.parts.specs.Contract.{nets, own_cells, Builds, Opens, OpensTwo, open_one, open_two, go_of, ClosesOne, ClosesTwo, Joins};
ghost use Rattle.parts.specs.Contract.{LeafNamed, UnaryNamed, BinaryNamed};

use cells::{Cell, Gate};
use gates::Column;
use limits::MAX_CODES;
use number::{CellNo, SignalNo};
use sheet::{Binary, Leaf, Unary};

// What a statement takes: go, resume, kill.
#[derive(Clone, Copy, Debug, PartialEq, Eq)]
pub struct Wires {
    pub go: CellNo,
    pub res: CellNo,
    pub kill: CellNo,
}

// What it returns: its sel and its codes.
#[derive(Clone, Copy, Debug, PartialEq, Eq)]
pub struct Returned {
    pub sel: CellNo,
    pub codes: [CellNo; MAX_CODES],
}

pub fn signal_cell(s: SignalNo) -> CellNo
    requires { of_signal s < max_signals }
    ensures { result ≡ signal_cell s }
{
    CellNo::new(s.number() + 1)
}

fn halt_cells(column: &mut Column, lists: &[u16], w: Wires) -> Returned
    requires { column.old.count + own_cells < 65536 }
    ensures { Builds (build_halt column.old.count w.go w.res w.kill (nets lists.now)) column.old column.new lists.now result }
{
    let h = column.push(Cell::Register(cells::low()));
    let x = column.gate(Gate::And, w.res, h);
    let v = column.gate(Gate::Or, w.go, x);
    let d = column.gate(Gate::Butnot, v, w.kill);
    column.fill(h, Cell::Register(d));
    Returned {
        sel: h,
        codes: gates::only(1, v),
    }
}

fn emit_cells(column: &mut Column, lists: &mut [u16], s: SignalNo, g: CellNo) -> Returned
    requires { (column.old.count + own_cells < 65536) × (of_signal s < length lists.old) }
    ensures { Builds (build_emit s column.old.count g (nets lists.old)) column.old column.new lists.new result }
{
    let at = s.number() as usize;
    let list = column.gate(Gate::Or, CellNo::new(lists[at]), g);
    lists[at] = list.number();
    Returned {
        sel: cells::low(),
        codes: gates::only(0, g),
    }
}

// A statement without parts.
pub fn leaf_cells(column: &mut Column, lists: &mut [u16], l: Leaf, w: Wires) -> Returned
    requires { (column.old.count + own_cells < 65536) × (length lists.old ≡ max_signals) × LowLeaf l × LeafNamed l }
    ensures { Builds (build (leaf l) column.old.count w.go w.res w.kill (nets lists.old)) column.old column.new lists.new result }
{
    match l {
        Leaf::Nothing => Returned {
            sel: cells::low(),
            codes: gates::only(0, w.go),
        },
        Leaf::Halt(_) => halt_cells(column, lists, w),
        Leaf::Emit(s) => emit_cells(column, lists, s, w.go),
        Leaf::Exit(k) => Returned {
            sel: cells::low(),
            codes: gates::only(k as usize, w.go),
        },
    }
}

// What a statement makes before its one part, and what that takes: "A child gets g, r and i unless another is named."
pub fn open_one(column: &mut Column, u: Unary, w: Wires) -> Wires
    requires { (column.old.count + own_cells < 65536) × UnaryNamed u }
    ensures { Opens (open_one u column.old.count w.go w.res w.kill) column.old column.new result }
{
    match u {
        Unary::Loop => Wires {
            go: column.push(Cell::Gate(Gate::Or, w.go, cells::low())),
            ..w
        },
        Unary::Watching(s) => Wires {
            res: column.gate(Gate::Butnot, w.res, signal_cell(s)),
            ..w
        },
        Unary::Trap | Unary::Signal(_) => w,
    }
}

// What the parts of a statement with two take; the second one's go, where it is not a net of the first.
#[derive(Clone, Copy, Debug, PartialEq, Eq)]
pub struct Opened {
    pub first: Wires,
    pub other: CellNo,
}

// What a statement makes before its two parts.
pub fn open_two(column: &mut Column, b: Binary, w: Wires) -> Opened
    requires { (column.old.count + own_cells < 65536) × BinaryNamed b }
    ensures { OpensTwo (open_two b column.old.count w.go w.res w.kill) column.old column.new result }
{
    match b {
        Binary::Sequence => Opened {
            first: w,
            other: w.go,
        },
        Binary::Present(s) => {
            let go = column.gate(Gate::And, w.go, signal_cell(s));
            let other = column.gate(Gate::Butnot, w.go, signal_cell(s));
            Opened {
                first: Wires { go, ..w },
                other,
            }
        }
        Binary::Parallel => {
            let kill = column.push(Cell::Gate(Gate::Or, w.kill, cells::low()));
            Opened {
                first: Wires { kill, ..w },
                other: w.go,
            }
        }
    }
}

// The second part's go; c has the first one's codes.
pub fn go_of(b: Binary, other: CellNo, c: [CellNo; MAX_CODES]) -> CellNo
    ensures { result ≡ go_of b other c }
{
    match b {
        Binary::Sequence => c[0],
        Binary::Present(_) | Binary::Parallel => other,
    }
}

// What a statement makes after its one part, p; its cells began at `start`.
pub fn close_one(column: &mut Column, u: Unary, start: CellNo, w: Wires, p: Returned) -> Returned
    requires { (column.old.count + 3 < 65536) × UnaryNamed u }
    ensures { ClosesOne u start w column.old column.new p result }
{
    let c = p.codes;
    match u {
        Unary::Loop => {
            column.fill(start, Cell::Gate(Gate::Or, w.go, c[0]));
            Returned {
                codes: gates::with_code0(cells::low(), c),
                ..p
            }
        }
        Unary::Watching(s) => {
            let x = column.gate(Gate::And, w.res, p.sel);
            let y = column.gate(Gate::And, x, signal_cell(s));
            let o = column.gate(Gate::Or, c[0], y);
            Returned {
                codes: gates::with_code0(o, c),
                ..p
            }
        }
        Unary::Trap => {
            let o = column.gate(Gate::Or, c[0], c[2]);
            Returned {
                codes: gates::trap_row(o, c),
                ..p
            }
        }
        Unary::Signal(_) => p,
    }
}

// The sels and the codes of two parts, or'ed.
fn join(column: &mut Column, p: Returned, q: Returned) -> Returned
    requires { column.old.count + (1 + max_codes) < 65536 }
    ensures { Joins (joined column.old.count p.sel q.sel p.codes q.codes) column.old column.new result }
{
    let sel = column.gate(Gate::Or, p.sel, q.sel);
    let codes = column.or_row(p.codes, q.codes);
    Returned { sel, codes }
}

// A parallel after its parts p and q; `keep` has the codes in K or R.
fn close_parallel(
    column: &mut Column,
    start: CellNo,
    w: Wires,
    keep: u64,
    p: Returned,
    q: Returned,
) -> Returned
    requires { column.old.count + (1 + parallel_cells) < 65536 }
    ensures { ClosesTwo Parallel (has keep) start w column.old column.new p q result }
{
    let sel = column.gate(Gate::Or, p.sel, q.sel);
    let h = column.parallel_row(p.codes, q.codes, keep);
    column.fill(start, Cell::Gate(Gate::Or, w.kill, h.kill));
    let codes = h.nets;
    Returned { sel, codes }
}

// What a statement makes after its two parts, p and q; its cells began at `start`.
pub fn close_two(
    column: &mut Column,
    b: Binary,
    start: CellNo,
    w: Wires,
    keep: u64,
    p: Returned,
    q: Returned,
) -> Returned
    requires { column.old.count + (1 + parallel_cells) < 65536 }
    ensures { ClosesTwo b (has keep) start w column.old column.new p q result }
{
    match b {
        Binary::Sequence => {
            let codes = gates::with_code0(cells::low(), p.codes);
            join(column, Returned { codes, ..p }, q)
        }
        Binary::Present(_) => join(column, p, q),
        Binary::Parallel => close_parallel(column, start, w, keep, p, q),
    }
}
