// The entries that take a sheet and run it, or ask of it.
#![tactic(auto)]

ghost use Rattle.std.specs.Prelude.{◌≡◌};
ghost use Rattle.bits.specs.Bits.{has, whole};
ghost use Rattle.sheet.specs.Read.{read_sheet};
ghost use Rattle.rules.specs.States.{at_rest};
ghost use Rattle.verdicts.specs.Runs.{Once};
ghost use Rattle.sheet_entries.specs.Sheets.{reading_of, Checked, Fitting, ReactedMany};

use bits::Bits;
use number::{HaltNo, Refusal};
use sets::Entry;
use sheet::Row;
use verdicts::{Answer, Course, Reaction, Reading};

// Reads a sheet and goes no further.
pub fn read(s: &[u8]) -> Reading
    ensures { result ≡ reading_of (read_sheet s.now) }
{
    let mut rows = [Row::empty(); limits::MAX_STATEMENTS];
    match sheet::read_sheet(s, &mut rows) {
        Err(f) => Reading {
            number: u8::from(f.refusal),
            place: f.place,
            statements: 0,
            halts: 0,
            signals: 0,
        },
        Ok(c) => Reading {
            number: 0,
            place: 0,
            statements: c.statements,
            halts: c.halts,
            signals: c.signals,
        },
    }
}

// Checks a sheet.
pub fn check(s: &[u8]) -> Answer
    ensures { Checked s.now result }
{
    let mut rows = [Row::empty(); limits::MAX_STATEMENTS];
    let mut statics = [Entry::empty(); limits::MAX_STATEMENTS];
    let mut cells = [0u64; limits::MAX_CELLS];
    match compiler::compile(s, &mut rows, &mut statics, &mut cells) {
        Err(f) => verdicts::refusal(f),
        Ok((c, n)) => verdicts::acceptance(c.statements, n),
    }
}

// Whether a state fits a sheet.
pub fn fits(s: &[u8], state: Bits) -> Answer
    ensures { Fitting s.now (whole state) result }
{
    let mut rows = [Row::empty(); limits::MAX_STATEMENTS];
    let mut statics = [Entry::empty(); limits::MAX_STATEMENTS];
    let mut cells = [0u64; limits::MAX_CELLS];
    match compiler::compile(s, &mut rows, &mut statics, &mut cells) {
        Err(f) => verdicts::refusal(f),
        Ok((c, n)) => {
            if rules::fits(&rows, &statics, state) {
                verdicts::acceptance(c.statements, n)
            } else {
                verdicts::refusal(Refusal::State.at(0))
            }
        }
    }
}

// "At rest shall mean: boot on and no halt set."
pub fn rest(state: Bits) -> bool
    ensures { result ≡ at_rest (has (whole state)) }
{
    state.member(bits::BOOT) && rules::no_halts_from(state, HaltNo::new(0))
}

// The reactions of a sheet to many events, by the interpreter. Inlined into its callers: as a function of its own it would clear the rows twice, the second
// time one by one.
#[inline(always)]
pub fn react_many(
    s: &[u8],
    state: Bits,
    events: &[u64],
    emissions: &mut [u64],
    states: &mut [u64],
) -> Course
    ensures { ReactedMany s.now
        (record { state = whole state; events = events.now; signals = emissions.old; states = states.old })
        (record { course = result; signals = emissions.new; states = states.new }) }
{
    let mut rows = [Row::empty(); limits::MAX_STATEMENTS];
    let mut statics = [Entry::empty(); limits::MAX_STATEMENTS];
    let mut cells = [0u64; limits::MAX_CELLS];
    match compiler::compile(s, &mut rows, &mut statics, &mut cells) {
        Err(f) => verdicts::with_state(verdicts::refusal(f), state),
        Ok((c, n)) => {
            let p = interpreter::prepare(&rows, c, n);
            interpreter::react_many(p, &rows, &statics, state, events, emissions, states)
        }
    }
}

// The reaction of a sheet, by the interpreter: a run over one event.
pub fn react(s: &[u8], state: Bits, event: Bits) -> Reaction
    ensures { Once (ReactedMany s.now) (whole state) (whole event) result }
{
    verdicts::run_once(event, |events, emissions, states| {
        react_many(s, state, events, emissions, states)
    })
}
