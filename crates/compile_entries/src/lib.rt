// The entries that compile a sheet: to a file, or to cells.
#![tactic(auto)]

ghost use Rattle.compile_entries.specs.Compile.{Written, Listed};

use sets::Entry;
use sheet::Row;
use verdicts::{Answer, Listing};

// Compiles a sheet to a netlist file. An empty buffer asks for the file's length.
pub fn compile(s: &[u8], buffer: &mut [u8]) -> Answer
    ensures { Written s.now result buffer.old buffer.new }
{
    let mut rows = [Row::empty(); limits::MAX_STATEMENTS];
    let mut statics = [Entry::empty(); limits::MAX_STATEMENTS];
    let mut cells = [0u64; limits::MAX_CELLS];
    match compiler::compile(s, &mut rows, &mut statics, &mut cells) {
        Err(f) => verdicts::refusal(f),
        Ok((c, n)) => netlist_entries::written(
            c.statements,
            c.inputs as u32,
            c.outputs as u32,
            &cells[..n as usize],
            buffer,
        ),
    }
}

// Compiles a sheet to cells, a word for each.
pub fn compile_cells(s: &[u8], words: &mut [u64]) -> Listing
    ensures { Listed s.now result words.old words.new }
{
    let mut rows = [Row::empty(); limits::MAX_STATEMENTS];
    let mut statics = [Entry::empty(); limits::MAX_STATEMENTS];
    let mut cells = [0u64; limits::MAX_CELLS];
    match compiler::compile(s, &mut rows, &mut statics, &mut cells) {
        Err(f) => verdicts::with_signals(verdicts::refusal(f), 0, 0),
        Ok((c, n)) => netlist_entries::handed(
            c.statements,
            c.inputs,
            c.outputs,
            &cells[..n as usize],
            words,
        ),
    }
}
