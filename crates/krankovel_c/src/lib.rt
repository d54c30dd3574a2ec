// The public entries for C; include/krankovel.h documents them. Each hands on what the entry of its name answers, so its contract is the entry's own.
#![tactic(auto)]

ghost use Rattle.std.specs.Prelude.{◌≡◌};
ghost use Rattle.bits.specs.Bits.{has, whole};
ghost use Rattle.sheet.specs.Read.{read_sheet};
ghost use Rattle.rules.specs.States.{at_rest};
ghost use Rattle.files.specs.Read.{read_file};
ghost use Rattle.netlists.specs.Words.{judge_cells};
ghost use Rattle.sheet_entries.specs.Sheets.{reading_of, Checked, Fitting, ReactedMany};
ghost use Rattle.netlist_entries.specs.Files.{NetWritten};
ghost use Rattle.netlist_entries.specs.Cells.{NetListed};
ghost use Rattle.netlist_entries.specs.Netlists.{NetChecked, NetReactedMany};
ghost use Rattle.compile_entries.specs.Compile.{Written, Listed};
ghost use Rattle.verdicts.specs.Runs.{Once};
ghost use Rattle.tables.specs.Reordering.{Reorders};
ghost use Rattle.cover_entries.specs.Covers.{CoverChecked};

use krankovel::{Answer, Bits, Course, Listing, Reaction, Reading, Reordered, Table};

#[unsafe(no_mangle)]
pub extern "C" fn krankovel_read(s: &[u8]) -> Reading
    ensures { result ≡ reading_of (read_sheet s.now) }
{
    krankovel::read(s)
}

#[unsafe(no_mangle)]
pub extern "C" fn krankovel_check(s: &[u8]) -> Answer
    ensures { Checked s.now result }
{
    krankovel::check(s)
}

#[unsafe(no_mangle)]
pub extern "C" fn krankovel_compile(s: &[u8], buffer: &mut [u8]) -> Answer
    ensures { Written s.now result buffer.old buffer.new }
{
    krankovel::compile(s, buffer)
}

#[unsafe(no_mangle)]
pub extern "C" fn krankovel_compile_cells(s: &[u8], words: &mut [u64]) -> Listing
    ensures { Listed s.now result words.old words.new }
{
    krankovel::compile_cells(s, words)
}

#[unsafe(no_mangle)]
pub extern "C" fn krankovel_fits(s: &[u8], state: Bits) -> Answer
    ensures { Fitting s.now (whole state) result }
{
    krankovel::fits(s, state)
}

#[unsafe(no_mangle)]
pub extern "C" fn krankovel_rest(state: Bits) -> bool
    ensures { result ≡ at_rest (has (whole state)) }
{
    krankovel::rest(state)
}

#[unsafe(no_mangle)]
pub extern "C" fn krankovel_react(s: &[u8], state: Bits, event: Bits) -> Reaction
    ensures { Once (ReactedMany s.now) (whole state) (whole event) result }
{
    krankovel::react(s, state, event)
}

#[unsafe(no_mangle)]
pub extern "C" fn krankovel_check_file(s: &[u8]) -> Answer
    ensures { NetChecked (read_file s.now) result }
{
    krankovel::check_file(s)
}

#[unsafe(no_mangle)]
pub extern "C" fn krankovel_read_file(s: &[u8], words: &mut [u64]) -> Listing
    ensures { NetListed (read_file s.now) result words.old words.new }
{
    krankovel::read_file(s, words)
}

#[unsafe(no_mangle)]
pub extern "C" fn krankovel_react_file(s: &[u8], state: Bits, event: Bits) -> Reaction
    ensures { Once (NetReactedMany (read_file s.now)) (whole state) (whole event) result }
{
    krankovel::react_file(s, state, event)
}

#[unsafe(no_mangle)]
pub extern "C" fn krankovel_check_cells(inputs: u32, outputs: u32, words: &[u64]) -> Answer
    ensures { NetChecked (judge_cells inputs outputs words.now) result }
{
    krankovel::check_cells(inputs, outputs, words)
}

#[unsafe(no_mangle)]
pub extern "C" fn krankovel_write_cells(
    inputs: u32,
    outputs: u32,
    words: &[u64],
    buffer: &mut [u8],
) -> Answer
    ensures { NetWritten (judge_cells inputs outputs words.now) result buffer.old buffer.new }
{
    krankovel::write_cells(inputs, outputs, words, buffer)
}

#[unsafe(no_mangle)]
pub extern "C" fn krankovel_react_cells(
    inputs: u32,
    outputs: u32,
    words: &[u64],
    state: Bits,
    event: Bits,
) -> Reaction
    ensures { Once (NetReactedMany (judge_cells inputs outputs words.now)) (whole state) (whole event) result }
{
    krankovel::react_cells(inputs, outputs, words, state, event)
}

#[unsafe(no_mangle)]
pub extern "C" fn krankovel_react_many(
    s: &[u8],
    state: Bits,
    events: &[u64],
    emissions: &mut [u64],
    states: &mut [u64],
) -> Course
    ensures { ReactedMany s.now
        (record { state = whole state; events = events.now; signals = emissions.old; states = states.old })
        (record { course = result; signals = emissions.new; states = states.new }) }
{
    krankovel::react_many(s, state, events, emissions, states)
}

#[unsafe(no_mangle)]
pub extern "C" fn krankovel_react_file_many(
    s: &[u8],
    state: Bits,
    events: &[u64],
    outputs: &mut [u64],
    states: &mut [u64],
) -> Course
    ensures { NetReactedMany (read_file s.now)
        (record { state = whole state; events = events.now; signals = outputs.old; states = states.old })
        (record { course = result; signals = outputs.new; states = states.new }) }
{
    krankovel::react_file_many(s, state, events, outputs, states)
}

#[unsafe(no_mangle)]
pub extern "C" fn krankovel_react_cells_many(
    inputs: u32,
    outputs: u32,
    words: &[u64],
    state: Bits,
    events: &[u64],
    signals: &mut [u64],
    states: &mut [u64],
) -> Course
    ensures { NetReactedMany (judge_cells inputs outputs words.now)
        (record { state = whole state; events = events.now; signals = signals.old; states = states.old })
        (record { course = result; signals = signals.new; states = states.new }) }
{
    krankovel::react_cells_many(inputs, outputs, words, state, events, signals, states)
}

#[unsafe(no_mangle)]
pub extern "C" fn krankovel_reorder(table: Table, order: u64) -> Reordered
    ensures { Reorders order table result }
{
    table.reorder(order)
}

#[unsafe(no_mangle)]
pub extern "C" fn krankovel_cover_file(s: &[u8], cover: &[u16]) -> Answer
    ensures { CoverChecked (read_file s.now) cover.now result }
{
    krankovel::cover_file(s, cover)
}

#[unsafe(no_mangle)]
pub extern "C" fn krankovel_cover_cells(
    inputs: u32,
    outputs: u32,
    words: &[u64],
    cover: &[u16],
) -> Answer
    ensures { CoverChecked (judge_cells inputs outputs words.now) cover.now result }
{
    krankovel::cover_cells(inputs, outputs, words, cover)
}
