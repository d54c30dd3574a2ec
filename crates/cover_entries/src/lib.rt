// The entries that check a cover of a netlist, in a file or as I, O and a word for each cell: one for each form, since C calls both, over one check.
#![tactic(auto)]

ghost use Rattle.std.specs.Prelude.{◌≡◌, length};
ghost use Rattle.cells.specs.Words.{cells_of};
ghost use Rattle.cells.specs.Netlist.{netlist_of, WellFormed};
ghost use Rattle.files.specs.Read.{read_file, netlist};
ghost use Rattle.netlists.specs.Words.{judge_cells};
ghost use Rattle.cuts.specs.Cutting.{HasOrder};
ghost use Rattle.cover_entries.specs.Covers.{Judges, CoverChecked};

use files::Header;
use number::Refusal;
use verdicts::Answer;

// A cover of a netlist that was accepted.
fn judged(h: Header, cells: &[u64], cover: &[u16]) -> Answer
    requires { WellFormed (netlist_of h.inputs h.outputs cells.now) × HasOrder (cells_of cells.now)
        × (h.cells ≡ length cells.now) }
    ensures { Judges (netlist (netlist_of h.inputs h.outputs cells.now)) cover.now result }
{
    let mut tabled = [0u8; limits::MAX_CELLS];
    let mut marks = [0u64; limits::MAX_CELLS];
    let mut values = [0u16; limits::MAX_CELLS];
    let mut stack = [0u16; limits::MAX_CELLS];
    match covers::check(
        h.inputs,
        h.outputs,
        cells,
        cover,
        &mut tabled,
        &mut marks,
        &mut values,
        &mut stack,
    ) {
        Ok(()) => verdicts::acceptance(0, h.cells as u16),
        Err(place) => verdicts::refusal(Refusal::Cover.at(place)),
    }
}

// Checks a cover of the netlist in a file.
pub fn cover_file(s: &[u8], cover: &[u16]) -> Answer
    ensures { CoverChecked (read_file s.now) cover.now result }
{
    let mut cells = [0u64; limits::MAX_CELLS];
    let mut order = [0u16; limits::MAX_CELLS];
    match netlists::check_file(s, &mut cells, &mut order) {
        Err(f) => verdicts::refusal(f),
        Ok(h) => {
            let m = h.cells as usize;
            judged(h, &cells[..m], cover)
        }
    }
}

// Checks a cover of a netlist handed in as I, O and words.
pub fn cover_cells(inputs: u32, outputs: u32, words: &[u64], cover: &[u16]) -> Answer
    ensures { CoverChecked (judge_cells inputs outputs words.now) cover.now result }
{
    let mut order = [0u16; limits::MAX_CELLS];
    match netlists::check_cells(inputs, outputs, words, &mut order) {
        Err(f) => verdicts::refusal(f),
        Ok(h) => judged(h, words, cover),
    }
}
