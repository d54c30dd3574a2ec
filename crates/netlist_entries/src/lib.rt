// The entries that take a netlist, in a file or as I, O and a word for each cell. C calls one for each form; what follows the check they share. `written`
// and `handed` serve the compiled netlist of a sheet as well.
#![tactic(auto)]

ghost use Rattle.std.specs.Prelude.{◌≡◌, ◌≤◌, map, length};
ghost use Rattle.limits.specs.Limits.{max_cells};
ghost use Rattle.bits.specs.Bits.{whole};
ghost use Rattle.cells.specs.Words.{word, cells_of};
ghost use Rattle.cells.specs.Netlist.{netlist_of, WellFormed};
ghost use Rattle.files.specs.Read.{read_file, netlist};
ghost use Rattle.netlists.specs.Words.{judge_cells};
ghost use Rattle.verdicts.specs.Answers.{acceptance};
ghost use Rattle.verdicts.specs.Runs.{Once};
ghost use Rattle.netlist_entries.specs.Files.{Filed, NetWritten};
ghost use Rattle.netlist_entries.specs.Cells.{Handed, NetListed};
ghost use Rattle.netlist_entries.specs.Netlists.{NetChecked, NetRuns, NetReactedMany};
ghost use Rattle.netlist_entries.specs.Code.{Checked};

use bits::Bits;
use files::Header;
use number::Refusal;
use verdicts::{Answer, Course, Listing, Reaction};

// Checks a netlist file.
pub fn check_file(s: &[u8]) -> Answer
    ensures { NetChecked (read_file s.now) result }
{
    let mut cells = [0u64; limits::MAX_CELLS];
    let mut order = [0u16; limits::MAX_CELLS];
    match netlists::check_file(s, &mut cells, &mut order) {
        Err(f) => verdicts::refusal(f),
        Ok(h) => verdicts::acceptance(0, h.cells as u16),
    }
}

// Checks a netlist handed in as I, O and a word for each cell.
pub fn check_cells(inputs: u32, outputs: u32, words: &[u64]) -> Answer
    ensures { NetChecked (judge_cells inputs outputs words.now) result }
{
    let mut order = [0u16; limits::MAX_CELLS];
    match netlists::check_cells(inputs, outputs, words, &mut order) {
        Err(f) => verdicts::refusal(f),
        Ok(_) => verdicts::acceptance(0, words.len() as u16),
    }
}

// The file of accepted cells, or BUFFER.
pub fn written(
    statements: u16,
    inputs: u32,
    outputs: u32,
    cells: &[u64],
    buffer: &mut [u8],
) -> Answer
    requires { WellFormed (netlist_of inputs outputs cells.now) × (length cells.now ≤ max_cells) }
    ensures { Filed (netlist (netlist_of inputs outputs cells.now)) (acceptance statements (length cells.now)) result
        buffer.old buffer.new }
{
    match netlists::write_file(inputs, outputs, cells, buffer) {
        Err(f) => verdicts::refusal(f),
        Ok(_) => verdicts::acceptance(statements, cells.len() as u16),
    }
}

// The words of accepted cells, or BUFFER at their count, which is compared before the first is written.
pub fn handed(
    statements: u16,
    inputs: u16,
    outputs: u16,
    cells: &[u64],
    words: &mut [u64],
) -> Listing
    requires { (map word (cells_of cells.now) ≡ cells.now) × (length cells.now ≤ max_cells) }
    ensures { Handed (netlist (netlist_of inputs outputs cells.now)) (acceptance statements (length cells.now)) result
        words.old words.new }
{
    let count = cells.len();
    if words.len() < count {
        return verdicts::with_signals(verdicts::refusal(Refusal::Buffer.at(count)), 0, 0);
    }
    words[..count].copy_from_slice(cells);
    verdicts::with_signals(
        verdicts::acceptance(statements, count as u16),
        inputs,
        outputs,
    )
}

// Reads a netlist file to cells, a word for each.
pub fn read_file(s: &[u8], words: &mut [u64]) -> Listing
    ensures { NetListed (read_file s.now) result words.old words.new }
{
    let mut cells = [0u64; limits::MAX_CELLS];
    let mut order = [0u16; limits::MAX_CELLS];
    match netlists::check_file(s, &mut cells, &mut order) {
        Err(f) => verdicts::with_signals(verdicts::refusal(f), 0, 0),
        Ok(h) => {
            let m = h.cells as usize;
            handed(0, h.inputs as u16, h.outputs as u16, &cells[..m], words)
        }
    }
}

// Writes a netlist handed in as I, O and words to a file. An empty buffer asks for the file's length.
pub fn write_cells(inputs: u32, outputs: u32, words: &[u64], buffer: &mut [u8]) -> Answer
    ensures { NetWritten (judge_cells inputs outputs words.now) result buffer.old buffer.new }
{
    let mut order = [0u16; limits::MAX_CELLS];
    match netlists::check_cells(inputs, outputs, words, &mut order) {
        Err(f) => verdicts::refusal(f),
        Ok(_) => written(0, inputs, outputs, words, buffer),
    }
}

// The clocks of a netlist that was accepted.
fn clocks(
    h: Header,
    cells: &[u64],
    order: &[u16],
    values: &mut [bool],
    state: Bits,
    events: &[u64],
    signals: &mut [u64],
    states: &mut [u64],
) -> Course
    requires { Checked h.inputs h.outputs h.cells cells.now order.now values.old }
    ensures { NetRuns (netlist (netlist_of h.inputs h.outputs cells.now))
        (record { state = whole state; events = events.now; signals = signals.old; states = states.old })
        (record { course = result; signals = signals.new; states = states.new }) }
{
    let mut places = [0u16; limits::MAX_CELLS];
    let mut operands = [0u16; limits::MAX_REGISTERS as usize];
    let k = run::number_registers(cells, &mut places, &mut operands);
    let needed = verdicts::needed(events);
    let own = run::events_ok(h.inputs, events);
    let fit = run::state_ok(k as u32, state);
    let room = verdicts::has_room(needed, signals.len(), states.len());
    match verdicts::first_fault(own, fit, room, needed) {
        Err(f) => verdicts::with_state(verdicts::refusal(f), state),
        Ok(()) => {
            let ready = run::Ready {
                cells,
                order,
                places: &places,
                operands: &operands[..k],
                inputs: h.inputs,
                outputs: h.outputs,
            };
            let last = ready.clocks(state, events, values, signals, states);
            verdicts::with_state(verdicts::acceptance(0, h.cells as u16), last)
        }
    }
}

// The reactions of the netlist in a file to many events.
pub fn react_file_many(
    s: &[u8],
    state: Bits,
    events: &[u64],
    outputs: &mut [u64],
    states: &mut [u64],
) -> Course
    ensures { NetReactedMany (read_file s.now)
        (record { state = whole state; events = events.now; signals = outputs.old; states = states.old })
        (record { course = result; signals = outputs.new; states = states.new }) }
{
    let mut cells = [0u64; limits::MAX_CELLS];
    let mut order = [0u16; limits::MAX_CELLS];
    let mut values = [false; limits::MAX_CELLS];
    match netlists::check_file(s, &mut cells, &mut order) {
        Err(f) => verdicts::with_state(verdicts::refusal(f), state),
        Ok(h) => {
            let m = h.cells as usize;
            clocks(
                h,
                &cells[..m],
                &order,
                &mut values[..m],
                state,
                events,
                outputs,
                states,
            )
        }
    }
}

// The reactions of the netlist that I, O and words mean to many events.
pub fn react_cells_many(
    inputs: u32,
    outputs: u32,
    words: &[u64],
    state: Bits,
    events: &[u64],
    signals: &mut [u64],
    states: &mut [u64],
) -> Course
    ensures { NetReactedMany (judge_cells inputs outputs words.now)
        (record { state = whole state; events = events.now; signals = signals.old; states = states.old })
        (record { course = result; signals = signals.new; states = states.new }) }
{
    let mut order = [0u16; limits::MAX_CELLS];
    let mut values = [false; limits::MAX_CELLS];
    match netlists::check_cells(inputs, outputs, words, &mut order) {
        Err(f) => verdicts::with_state(verdicts::refusal(f), state),
        Ok(h) => {
            let m = h.cells as usize;
            clocks(
                h,
                words,
                &order,
                &mut values[..m],
                state,
                events,
                signals,
                states,
            )
        }
    }
}

// The reaction of the netlist in a file: a run over one event.
pub fn react_file(s: &[u8], state: Bits, event: Bits) -> Reaction
    ensures { Once (NetReactedMany (read_file s.now)) (whole state) (whole event) result }
{
    verdicts::run_once(event, |events, outputs, states| {
        react_file_many(s, state, events, outputs, states)
    })
}

// The reaction of a netlist handed in as I, O and words: a run over one event.
pub fn react_cells(inputs: u32, outputs: u32, words: &[u64], state: Bits, event: Bits) -> Reaction
    ensures { Once (NetReactedMany (judge_cells inputs outputs words.now)) (whole state) (whole event) result }
{
    verdicts::run_once(event, |events, signals, states| {
        react_cells_many(inputs, outputs, words, state, events, signals, states)
    })
}
