// The netlist of a sheet. The rows are walked once, and the cells go into a lent column.
#![tactic(auto)]

ghost use Rattle.std.specs.Prelude.{◌≡◌, ◌∷◌, map, suc, ◌+◌, ◌-◌, ◌<◌, ◌≤◌, length};
ghost use Rattle.std.proofs.lemmas.List.Edits.{sets};
ghost use Rattle.limits.specs.Limits.{max_signals};
ghost use Rattle.cells.specs.declared.Cell.TheVariants.{Low, High};
ghost use Rattle.cells.specs.Words.{word};
ghost use Rattle.parts.specs.Contract.{nets};
ghost use Rattle.builder.specs.Netlist.{input_cells, signal_cells, boot_cells};
ghost use Rattle.builder.specs.Walking.{Buildable, Does};
ghost use Rattle.builder.specs.Contract.{SomeSheet, DoesNetlist};

use cells::{Cell, Gate};
use gates::Column;
use limits::MAX_SIGNALS;
use number::{CellNo, Fault, Refusal, SignalNo, StmtNo};
use parts::{Returned, Wires};
use sets::Entry;
use sheet::{Head, Row};

// Statement n: its cells, the signals' lists, sel and codes. `statics` has K and R of each statement.
fn statement(
    rows: &[Row],
    statics: &[Entry],
    column: &mut Column,
    lists: &mut [u16],
    n: StmtNo,
    w: Wires,
) -> Returned
    requires { Buildable rows.now statics.now lists.old n column.old.count }
    ensures { Does (record {
      rows = rows.now;
      statics = statics.now;
      stmt = n;
      wires = w;
      column = column.old;
      lists = lists.old;
    }) column.new lists.new result }
{
    let start = CellNo::new(column.count);
    let i = sheet::first_part(n);
    match sheet::row_at(rows, n).head {
        Head::Zero(l) => parts::leaf_cells(column, lists, l, w),
        Head::One(u) => {
            let o = parts::open_one(column, u, w);
            let p = statement(rows, statics, column, lists, i, o);
            parts::close_one(column, u, start, w, p)
        }
        Head::Two(b) => {
            let o = parts::open_two(column, b, w);
            let p = statement(rows, statics, column, lists, i, o.first);
            let j = sheet::second_part(rows, n);
            let go = parts::go_of(b, o.other, p.codes);
            let q = statement(rows, statics, column, lists, j, Wires { go, ..o.first });
            parts::close_two(column, b, start, w, sets::given(statics, n), p, q)
        }
    }
}

// Cells 2 to I+1.
fn input_cells(cells: &mut [u64], inputs: u16)
    requires { inputs < max_signals }
    ensures { cells.new ≡ sets cells.old 2 (map word (input_cells 1 inputs)) }
{
    for s in 1..=inputs {
        let input = SignalNo::new(s);
        cells::fill(cells, parts::signal_cell(input), Cell::Input(input));
    }
}

// The cells of the signals from `from` on and below `end`, whose lists are complete.
fn signal_cells(cells: &mut [u64], lists: &[u16], from: u16, end: u16)
    requires { (end ≤ max_signals) × (length lists.now ≡ max_signals) }
    ensures { cells.new ≡ sets cells.old (suc from) (map word (signal_cells (nets lists.now) from (end - from))) }
{
    for s in from..end {
        let list = CellNo::new(lists[s as usize]);
        let cell = Cell::Gate(Gate::Or, list, cells::low());
        cells::fill(cells, parts::signal_cell(SignalNo::new(s)), cell);
    }
}

// The constants, the inputs, the boot register and its go. The cells of the other signals come last.
fn head_cells(cells: &mut [u64], inputs: u16, signals: u16)
    requires { (inputs < signals) × (signals ≤ max_signals) }
    ensures { cells.new
        ≡ sets (sets cells.old 0 (map word (Low ∷ (High ∷ input_cells 1 inputs)))) (1 + signals) (map word (boot_cells signals)) }
{
    cells::fill(cells, cells::low(), Cell::Low);
    cells::fill(cells, cells::high(), Cell::High);
    input_cells(cells, inputs);
    let boot = CellNo::new(1 + signals);
    cells::fill(cells, boot, Cell::Register(cells::high()));
    cells::fill(
        cells,
        CellNo::new(2 + signals),
        Cell::Gate(Gate::Butnot, cells::high(), boot),
    );
}

// The netlist of the sheet whose rows and static sets these are; `signals` counts tick, inputs, outputs and locals.
pub fn build_netlist(
    rows: &[Row],
    statics: &[Entry],
    cells: &mut [u64],
    inputs: u16,
    signals: u16,
) -> Result<u16, Fault>
    requires { SomeSheet rows.now statics.now inputs signals }
    ensures { DoesNetlist rows.now statics.now inputs signals cells.old cells.new result }
{
    head_cells(cells, inputs, signals);
    let mut lists = [0u16; MAX_SIGNALS as usize];
    let mut column = Column {
        cells,
        count: 3 + signals,
    };
    let root = Wires {
        go: CellNo::new(2 + signals),
        res: cells::high(),
        kill: cells::low(),
    };
    statement(rows, statics, &mut column, &mut lists, StmtNo::new(0), root);
    let Column { cells, count } = column;
    signal_cells(cells, &lists, 1 + inputs, signals);
    if limits::many_cells(count as usize) {
        return Err(Refusal::Room.at(0));
    }
    Ok(count)
}
