// A trace: a sheet, and the instants of its reactions. One line's step, from state and line to state and text; all lines that reads bring; the whole output of
// an input; and the program, of which no contract says more than that it is safe, since its bytes come from and go to the system: it reads, answers what was
// read, writes, and so on.
#![tactic(auto)]

mod feeding;
mod text;

ghost use Rattle.std.specs.Prelude.{◌≡◌, true, ℕ};
ghost use Rattle.bits.specs.Bits.{whole};
ghost use Rattle.rules.specs.Words.{Runnable, root, Fitted};
ghost use Rattle.interpreter.specs.Program.{Prepared};
ghost use Rattle.texts.specs.Written.{bad_text};
ghost use Rattle.texts.specs.Puts.{Writes};
ghost use Rattle.tracing.specs.Texts.{refused_text};
ghost use Rattle.tracing.specs.Steps as Steps;
ghost use Rattle.tracing.specs.Stands.{Outputs, Columns, Sound, Prints, Ready, Opens, Moves, step_of, Does};

use bits::Bits;
pub use feeding::{feed, serve, traced};
use interpreter::Program;
use sets::Entry;
use sheet::{Counts, Row};
use texts::{Page, Source};
use verdicts::Reaction;

// "a sheet in hex (up to 2,048 digits)"
const SHEET_DIGITS: usize = 2048;

// The bytes of the longest sheet.
const SHEET_ROOM: usize = SHEET_DIGITS / 2;

// One byte more than the longest line that is well-formed: a line that is cut there is malformed all the same.
pub const LINE_ROOM: usize = SHEET_DIGITS + 1;

// A program that was made ready of an accepted sheet, its outputs, the state and the instants counted. The program's rows and static sets stand beside it, in
// lent columns.
#[derive(Clone, Copy, Debug, PartialEq, Eq)]
pub struct Running {
    pub program: Program,
    pub outputs: Bits,
    pub state: Bits,
    pub instants: u64,
}

// What is awaited: the sheet's line; an event's, of a program that runs; or nothing more.
#[derive(Clone, Copy, Debug, PartialEq, Eq)]
pub enum Trace {
    Sheet,
    Event(Running),
    Nothing,
}

// A trace, and the bytes that its lines are taken from.
#[derive(Clone, Copy, Debug, PartialEq, Eq)]
pub struct Fed {
    pub trace: Trace,
    pub source: Source,
}

// "Signal 0 is tick, then I inputs, O outputs": the outputs, 1+I to I+O, as far as a set has bits for them.
fn outputs_of(inputs: u16, outputs: u16) -> Bits
    ensures { Outputs inputs outputs (whole result) }
{
    let first = 1 + u32::from(inputs);
    let past = first + u32::from(outputs);
    let mut set = Bits::empty();
    for s in first..past.min(bits::WIDTH) {
        set = set.add(s);
    }
    set
}

// The outputs among some signals, where `outputs` has all outputs.
fn outputs_in(signals: Bits, outputs: Bits) -> Bits
    ensures { (I O : ℕ) → Outputs I O (whole outputs) → whole result ≡ Steps.outputs_in I O (whole signals) }
{
    signals.meet(outputs)
}

fn bad_line(page: &mut Page) -> Trace
    ensures { Prints Trace.Nothing bad_text result page.old page.new }
{
    page.bytes(b"bad line\n");
    Trace::Nothing
}

fn refused_line(number: u8, place: usize, page: &mut Page)
    ensures { Writes (refused_text number place) page.old page.new }
{
    text::word_line(page, b"no ", number as u64, place as u64);
}

// A sheet was compiled into the rows: the program is made ready, once for all events.
fn ready(rows: &[Row], c: Counts, n: u16) -> Running
    requires { Runnable rows.now root }
    ensures { Ready rows.now c n result }
{
    Running {
        program: interpreter::prepare(rows, c, n),
        outputs: outputs_of(c.inputs, c.outputs),
        state: Bits::empty(),
        instants: 0,
    }
}

// A sheet: refused, or compiled and made ready.
fn open_sheet(s: &[u8], rows: &mut [Row], statics: &mut [Entry], page: &mut Page) -> Trace
    requires { Columns rows.old statics.old }
    ensures { Opens s.now result rows.new statics.new page.old page.new }
{
    let mut cells = [0u64; limits::MAX_CELLS];
    match compiler::compile(s, rows, statics, &mut cells) {
        Err(f) => {
            let no = verdicts::refusal(f);
            refused_line(no.number, no.place, page);
            Trace::Nothing
        }
        Ok((c, n)) => {
            text::word_line(page, b"ok ", c.statements as u64, n as u64);
            Trace::Event(ready(rows, c, n))
        }
    }
}

// The sheet's line.
fn first_line(rows: &mut [Row], statics: &mut [Entry], line: &[u8], page: &mut Page) -> Trace
    requires { Columns rows.old statics.old }
    ensures { Does (step_of line.now) Trace.Sheet result rows.old rows.new statics.old statics.new
        page.old page.new }
{
    if line.len() > SHEET_DIGITS {
        return bad_line(page);
    }
    let mut bytes = [0u8; SHEET_ROOM];
    let Some(n) = texts::hex_bytes(line, &mut bytes) else {
        return bad_line(page);
    };
    open_sheet(&bytes[..n], rows, statics, page)
}

// An instant was accepted. A word can count all the lines that are ever read.
fn instant(k: Running, r: Reaction, page: &mut Page) -> Trace
    ensures { Moves k r result page.old page.new }
{
    let instants = k.instants.saturating_add(1);
    let shown = outputs_in(r.signals, k.outputs);
    text::instant_line(page, instants, shown, r.state, sheet_entries::rest(r.state));
    Trace::Event(Running {
        state: r.state,
        instants,
        ..k
    })
}

// An event's line: a reaction of the program that was made ready.
fn event_line(k: Running, rows: &[Row], statics: &[Entry], line: &[u8], page: &mut Page) -> Trace
    requires { Prepared k.program rows.now statics.now × Fitted rows.now (whole k.state) true }
    ensures { Does (step_of line.now) (Trace.Event k) result rows.now rows.now statics.now statics.now
        page.old page.new }
{
    let Some(event) = texts::set_value(line) else {
        return bad_line(page);
    };
    let r = interpreter::react(k.program, rows, statics, k.state, event);
    if r.number > 0 {
        refused_line(r.number, r.place, page);
        return Trace::Event(k);
    }
    instant(k, r, page)
}

// One line's step. The columns have room for the longest sheet.
pub fn step(
    trace: Trace,
    rows: &mut [Row],
    statics: &mut [Entry],
    line: &[u8],
    page: &mut Page,
) -> Trace
    requires { Columns rows.old statics.old × Sound trace rows.old statics.old }
    ensures { Does (step_of line.now) trace result rows.old rows.new statics.old statics.new
        page.old page.new }
{
    match trace {
        Trace::Sheet => first_line(rows, statics, line, page),
        Trace::Event(k) => event_line(k, rows, statics, line, page),
        Trace::Nothing => {
            // Nothing is printed.
            page.bytes(b"");
            trace
        }
    }
}
