// The whole check of a sheet: it is read, judged, built into a netlist, and its cells are put in an order. The first fault answers.
#![tactic(auto)]

ghost use Rattle.std.specs.Prelude.{◌≤◌, length};
ghost use Rattle.limits.specs.Limits.{max_statements, max_cells};
ghost use Rattle.cells.specs.Words.{cells_of};
ghost use Rattle.cells.specs.Needs.{Closed};
ghost use Rattle.compiler.specs.Compile.{SomeRead, JudgesRead, Finishes, Lent, DidCompile};

use number::{Fault, Refusal, StmtNo};
use sets::Entry;
use sheet::{Counts, Row};

// INSTANT, TWICE and ROOM of the sheet with these rows and counts. Its static sets and its cells go into their columns.
fn judge(rows: &[Row], statics: &mut [Entry], cells: &mut [u64], c: Counts) -> Result<u16, Fault>
    requires { SomeRead rows.now c × (length rows.now ≤ length statics.old) × (max_statements ≤ length statics.old) }
    ensures { JudgesRead rows.now c result statics.new cells.old cells.new }
{
    let root = StmtNo::new(0);
    sets::fill(rows, statics, root);
    if let Some(n) = sets::first_instant(rows, statics, root) {
        return Err(Refusal::Instant.at(n.number() as usize));
    }
    if let Some(n) = sets::first_twice(rows, statics, root) {
        return Err(Refusal::Twice.at(n.number() as usize));
    }
    builder::build_netlist(rows, statics, cells, c.inputs, c.signals)
}

// CYCLE, or the program with these counts and cells.
fn ordered(cells: &[u64], c: Counts) -> Result<(Counts, u16), Fault>
    requires { Closed (cells_of cells.now) × (length cells.now ≤ max_cells) }
    ensures { Finishes (cells_of cells.now) c result }
{
    let mut order = [0u16; limits::MAX_CELLS];
    order::order_cells(cells, &mut order)?;
    Ok((c, cells.len() as u16))
}

// Checks a sheet and compiles it into the lent columns: rows, statics and cells. How many of each it has, and its cells; or the first fault.
pub fn compile(
    s: &[u8],
    rows: &mut [Row],
    statics: &mut [Entry],
    cells: &mut [u64],
) -> Result<(Counts, u16), Fault>
    requires { Lent rows.old statics.old cells.old }
    ensures { DidCompile s.now result rows.new statics.new cells.new }
{
    let c = sheet::read_sheet(s, rows)?;
    let n = judge(rows, statics, cells, c)?;
    ordered(&cells[..n as usize], c)
}
