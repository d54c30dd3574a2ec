// The reactions of a sheet by the rules. E is made anew of tick, the inputs and the emissions until nothing changes that the sheet asks for; the netlist is
// not run.
#![tactic(auto)]

ghost use Rattle.std.specs.Prelude.{◌≡◌, true};
ghost use Rattle.bits.specs.Bits.{whole};
ghost use Rattle.sheet.specs.Read.{only};
ghost use Rattle.rules.specs.Words.{Runnable, root, Fitted};
ghost use Rattle.interpreter.specs.Tested.{asks_one, asks_two, Covers, Tested};
ghost use Rattle.interpreter.specs.Settle.{Settling, AgreedAt};
ghost use Rattle.interpreter.specs.Program.{Prepared, Prepares, MayRun, RanRows, ProgramRuns, ProgramReacts};

use bits::Bits;
use number::{SignalNo, StmtNo};
use rules::Yield;
use sets::Entry;
use sheet::{Binary, Counts, Head, Row, Unary};
use verdicts::{Course, Reaction};

// A sheet that was compiled, made ready once for all events: its counts, how many cells it has, and the signals that it asks for. Its rows and its static sets
// stand beside it, in the columns that it was compiled into.
#[derive(Clone, Copy, Debug, PartialEq, Eq)]
pub struct Program {
    pub counts: Counts,
    pub cells: u16,
    pub asks: Bits,
}

// The signal x, if it has a bit.
fn asked(x: SignalNo) -> Bits
    ensures { Covers (whole result) (only x) }
{
    let k = bits::signal_bit(x);
    if bits::WIDTH <= k {
        return Bits::empty();
    }
    Bits::empty().add(k)
}

fn asked_by_one(u: Unary) -> Bits
    ensures { Covers (whole result) (asks_one u) }
{
    match u {
        Unary::Watching(s) => asked(s),
        Unary::Loop | Unary::Trap | Unary::Signal(_) => Bits::empty(),
    }
}

fn asked_by_two(b: Binary) -> Bits
    ensures { Covers (whole result) (asks_two b) }
{
    match b {
        Binary::Present(s) => asked(s),
        Binary::Sequence | Binary::Parallel => Bits::empty(),
    }
}

// The signals that statement n asks for.
fn tested(rows: &[Row], n: StmtNo) -> Bits
    requires { Runnable rows.now n }
    ensures { Tested rows.now n (whole result) }
{
    match sheet::row_at(rows, n).head {
        Head::Zero(_) => Bits::empty(),
        Head::One(u) => {
            let p = tested(rows, sheet::first_part(n));
            asked_by_one(u).join(p)
        }
        Head::Two(b) => {
            let p = tested(rows, sheet::first_part(n));
            let q = tested(rows, sheet::second_part(rows, n));
            asked_by_two(b).join(p.join(q))
        }
    }
}

// What was compiled into the rows, made ready.
pub fn prepare(rows: &[Row], counts: Counts, cells: u16) -> Program
    requires { Runnable rows.now root }
    ensures { Prepares rows.now counts cells result }
{
    Program {
        counts,
        cells,
        asks: tested(rows, StmtNo::new(0)),
    }
}

// The yield of the root under the one E that agrees with the rules. `asks` has the signals that the sheet asks for: where a round changes none of them, another
// would do the same. Emissions of an earlier round are dropped: keeping them could stop at a set that does not agree. Fewer rounds than there can be signals
// change E, so after so many it agrees.
fn agreed(rows: &[Row], asks: Bits, state: Bits, event: Bits) -> Yield
    requires { Settling rows.now (whole state) (whole event) × Tested rows.now root (whole asks) }
    ensures { AgreedAt rows.now (whole state) (whole event) result }
{
    let given = event.add(bits::TICK);
    let mut e = given;
    for _round in 1..limits::MAX_SIGNALS {
        let r = rules::react(rows, e, state);
        let renewed = given.join(r.emits);
        if asks.same_at(renewed, e) {
            return r;
        }
        e = renewed;
    }
    rules::react(rows, e, state)
}

// A moment for each event, each from the state after the one before. The emissions and the states go to the first places of the lent slices; the last state
// comes back. `run::Ready::clocks` is this loop with another step: one loop for both would take a trait and a struct of each step's columns, which is more
// to read.
pub fn moments(
    rows: &[Row],
    asks: Bits,
    state: Bits,
    events: &[u64],
    emissions: &mut [u64],
    states: &mut [u64],
) -> Bits
    requires { MayRun rows.now (whole asks) (whole state) events.now emissions.old states.old }
    ensures { RanRows rows.now (whole state) events.now
        emissions.old emissions.new states.old states.new (whole result) }
{
    let mut last = state;
    for j in 0..bits::count(events) {
        let r = agreed(rows, asks, last, Bits::read(events, j));
        r.emits.write(emissions, j);
        last = rules::next_state(r);
        last.write(states, j);
    }
    last
}

// The reactions of a program that was made ready, where `fit` says whether the state fits: EVENT, STATE or BUFFER, or a moment for each event.
fn run_from(
    p: Program,
    rows: &[Row],
    statics: &[Entry],
    state: Bits,
    fit: bool,
    events: &[u64],
    emissions: &mut [u64],
    states: &mut [u64],
) -> Course
    requires { Prepared p rows.now statics.now × Fitted rows.now (whole state) fit }
    ensures program_runs { ProgramRuns p rows.now statics.now
        (record { state = whole state; events = events.now; signals = emissions.old; states = states.old })
        (record { course = result; signals = emissions.new; states = states.new }) }
    ensures fitted { fit ≡ true → Fitted rows.now (whole result.state) true }
{
    let needed = verdicts::needed(events);
    let own = run::events_ok(p.counts.inputs as u32, events);
    let room = verdicts::has_room(needed, emissions.len(), states.len());
    match verdicts::first_fault(own, fit, room, needed) {
        Err(f) => verdicts::with_state(verdicts::refusal(f), state),
        Ok(()) => {
            let last = moments(rows, p.asks, state, events, emissions, states);
            verdicts::with_state(verdicts::acceptance(p.counts.statements, p.cells), last)
        }
    }
}

// The reactions of a program that was made ready, from any state.
pub fn react_many(
    p: Program,
    rows: &[Row],
    statics: &[Entry],
    state: Bits,
    events: &[u64],
    emissions: &mut [u64],
    states: &mut [u64],
) -> Course
    requires { Prepared p rows.now statics.now }
    ensures { ProgramRuns p rows.now statics.now
        (record { state = whole state; events = events.now; signals = emissions.old; states = states.old })
        (record { course = result; signals = emissions.new; states = states.new }) }
{
    let fit = rules::fits(rows, statics, state);
    run_from(p, rows, statics, state, fit, events, emissions, states)
}

// The reaction of a program that was made ready to one event: a run over it. The state fits, and so does the next one, so that nothing has to ask it again.
pub fn react(p: Program, rows: &[Row], statics: &[Entry], state: Bits, event: Bits) -> Reaction
    requires { Prepared p rows.now statics.now × Fitted rows.now (whole state) true }
    ensures program_reacts { ProgramReacts p rows.now statics.now (whole state) (whole event) result }
    ensures fitted { Fitted rows.now (whole result.state) true }
{
    verdicts::run_once(event, |events, emissions, states| {
        run_from(p, rows, statics, state, true, events, emissions, states)
    })
}
