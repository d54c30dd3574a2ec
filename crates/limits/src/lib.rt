// The limits, each with its number in one place, and each asked by one test before the next of its kind is taken: "At most: 256 statements, nesting level 64
// (the root is level 1), 63 halts, 64 signals with tick, 8 traps one in another, 1,024 cells". The level is counted down where statements are read.
#![tactic(auto)]

ghost use Rattle.std.specs.Prelude.{◌≡◌, ◌||◌, ◌+◌, leb, ltb};
ghost use Rattle.number.specs.Counts.{of_signal, of_halt, of_stmt};
ghost use Rattle.limits.specs.Limits.{max_statements, max_halts, max_signals, max_traps, max_registers, many_signals, many_cells};

use number::{HaltNo, SignalNo, StmtNo};

pub const MAX_STATEMENTS: usize = 256;

pub const MAX_LEVEL: u16 = 64;

pub const MAX_HALTS: u32 = 63;

pub const MAX_SIGNALS: u32 = 64;

pub const MAX_TRAPS: u16 = 8;

pub const MAX_CELLS: usize = 1024;

pub const MAX_REGISTERS: u32 = 1 + MAX_HALTS;

pub const MAX_CODES: usize = 2 + MAX_TRAPS as usize;

// Whether the statement n would be past the last.
pub fn statements_full(n: StmtNo) -> bool
    ensures { result ≡ leb max_statements (of_stmt n) }
{
    MAX_STATEMENTS <= n.number() as usize
}

// Whether the halt h would be past the last.
pub fn halts_full(h: HaltNo) -> bool
    ensures { result ≡ leb max_halts (of_halt h) }
{
    MAX_HALTS <= h.number() as u32
}

// Whether the signal s would be past the last.
pub fn signals_full(s: SignalNo) -> bool
    ensures { result ≡ leb max_signals (of_signal s) }
{
    MAX_SIGNALS <= s.number() as u32
}

// Whether tick, the inputs and the outputs are too many signals: "Header COUNT".
pub fn header_full(inputs: u32, outputs: u32) -> bool
    ensures { result ≡ many_signals inputs outputs }
{
    MAX_SIGNALS <= inputs || MAX_SIGNALS - inputs <= outputs
}

// Whether a trap inside d traps would be one too many.
pub fn traps_full(d: u16) -> bool
    ensures { result ≡ leb max_traps d }
{
    MAX_TRAPS <= d
}

// Whether so many cells are too many: ROOM of a sheet, COUNT of a file.
pub fn many_cells(n: usize) -> bool
    ensures { result ≡ many_cells n }
{
    MAX_CELLS < n
}

// Whether a register after k others would be past the last.
pub fn registers_full(k: u32) -> bool
    ensures { result ≡ leb max_registers k }
{
    MAX_REGISTERS <= k
}

// "EMIT: tick or an input".
pub fn tick_or_input(s: SignalNo, inputs: u16) -> bool
    ensures { result ≡ leb (of_signal s) inputs }
{
    s.number() <= inputs
}

// "EXIT: level not 2..1+d", d being the number of traps around.
pub fn no_level(k: u32, d: u16) -> bool
    ensures { result ≡ (ltb k 2 || ltb (1 + d) k) }
{
    k < 2 || 1 + (d as u32) < k
}
