// The sheet: its statements, the reader into rows, and what a later walk reads off a row.
#![tactic(auto)]

ghost use Rattle.std.specs.Prelude.{◌≡◌, ◌<◌, ◌≤◌, ◌+◌, length, set};
ghost use Rattle.number.specs.Counts.{of_stmt};
ghost use Rattle.number.specs.Number.{number_at};
ghost use Rattle.number.specs.Refusals.{fault};
ghost use Rattle.limits.specs.Limits.{max_statements, max_level, max_signals};
ghost use Rattle.sheet.specs.Read.{past, signal_at, naming, emitting, exiting, halt_at, local_at, trap_at};
ghost use Rattle.sheet.specs.Read.{of_kind, head_at, inside, further, read_stmt, root_read, read_sheet};
ghost use Rattle.sheet.specs.Rows.{stmt_span, empty_row, row_at};
ghost use Rattle.sheet.specs.Contract.{around, LocalFits, Noted, DidStmt, DidSheet};

use bits::Bits;
use number::{Cursor, Fault, HaltNo, Refusal, SignalNo, StmtNo};

// A statement without parts, and what is said of one with one or two before its parts.
#[derive(Clone, Copy, Debug, PartialEq, Eq)]
pub enum Leaf {
    Nothing,
    Halt(HaltNo),
    Emit(SignalNo),
    Exit(u16),
}

#[derive(Clone, Copy, Debug, PartialEq, Eq)]
pub enum Unary {
    Loop,
    Watching(SignalNo),
    Trap,
    Signal(SignalNo),
}

#[derive(Clone, Copy, Debug, PartialEq, Eq)]
pub enum Binary {
    Sequence,
    Present(SignalNo),
    Parallel,
}

#[derive(Clone, Copy, Debug, PartialEq, Eq)]
pub enum Head {
    Zero(Leaf),
    One(Unary),
    Two(Binary),
}

// Where the reader is: the offset, the next halt's number and the next local's.
#[derive(Clone, Copy, Debug, PartialEq, Eq)]
pub struct Marks {
    pub at: usize,
    pub halts: HaltNo,
    pub signals: SignalNo,
}

// What holds around a statement: the number of inputs and of traps, and the set of the signals that may be named.
#[derive(Clone, Copy, Debug, PartialEq, Eq)]
pub struct Env {
    pub inputs: u16,
    pub traps: u16,
    pub scope: Bits,
}

// How many of each a sheet has; signals with tick.
#[derive(Clone, Copy, Debug, PartialEq, Eq)]
pub struct Counts {
    pub inputs: u16,
    pub outputs: u16,
    pub statements: u16,
    pub halts: u16,
    pub signals: u16,
}

// What a row says: the statement without its parts, the number past its last part, its first halt and the one past its last.
#[derive(Clone, Copy, Debug, PartialEq, Eq)]
pub struct Row {
    pub head: Head,
    pub end: StmtNo,
    pub first: HaltNo,
    pub past: HaltNo,
}

impl Marks {
    // The marks past a number.
    fn past(self, c: Cursor) -> Marks
        ensures { result ≡ past self c.at }
    {
        Marks { at: c.at, ..self }
    }
}

// The signal that an operand names: SCOPE. Every number read in this file is taken apart in the paper's named form, a `let .. else` with a `return`, and not
// by `?`. The bytes, the Env and the marks go apart through the readers, since each part has marks of its own, and some an Env of their own.
fn read_signal(s: &[u8], e: Env, m: Marks) -> Result<(SignalNo, Marks), Fault>
    ensures { result ≡ signal_at s.now (around e) m }
{
    let at = m.at;
    let read = number::read_number(s, at);
    let Ok((v, next)) = read else {
        return Err(read.unwrap_err());
    };
    let scope = e.scope;
    if scope.member(v) {
        return Ok((SignalNo::new(v as u16), m.past(next)));
    }
    Err(Refusal::Scope.at(at))
}

// The operand of an emit: SCOPE, then EMIT.
fn emit_head(s: &[u8], e: Env, m: Marks) -> Result<(Head, Marks), Fault>
    ensures { result ≡ emitting (around e) m.at (signal_at s.now (around e) m) }
{
    let at = m.at;
    let (x, next) = read_signal(s, e, m)?;
    if limits::tick_or_input(x, e.inputs) {
        return Err(Refusal::Emit.at(at));
    }
    Ok((Head::Zero(Leaf::Emit(x)), next))
}

// This head and the next differ in the kind alone. One function that takes the kind as a closure would be no plainer: its proof would have to name what the
// closure makes.
fn present_head(s: &[u8], e: Env, m: Marks) -> Result<(Head, Marks), Fault>
    ensures { result ≡ naming (λ x. Head.Two (Binary.Present x)) (signal_at s.now (around e) m) }
{
    let (x, next) = read_signal(s, e, m)?;
    Ok((Head::Two(Binary::Present(x)), next))
}

fn watching_head(s: &[u8], e: Env, m: Marks) -> Result<(Head, Marks), Fault>
    ensures { result ≡ naming (λ x. Head.One (Unary.Watching x)) (signal_at s.now (around e) m) }
{
    let (x, next) = read_signal(s, e, m)?;
    Ok((Head::One(Unary::Watching(x)), next))
}

// The level of an exit: EXIT unless it is 2..1+d.
fn exit_head(s: &[u8], e: Env, m: Marks) -> Result<(Head, Marks), Fault>
    requires { e.traps ≤ max_level }
    ensures { result ≡ exiting (around e) m (number_at s.now m.at) }
{
    let at = m.at;
    let read = number::read_number(s, at);
    let Ok((k, next)) = read else {
        return Err(read.unwrap_err());
    };
    if limits::no_level(k, e.traps) {
        return Err(Refusal::Exit.at(at));
    }
    Ok((Head::Zero(Leaf::Exit(k as u16)), m.past(next)))
}

// A halt takes the next halt's number: COUNT past the last.
fn halt_head(place: usize, m: Marks) -> Result<(Head, Marks), Fault>
    ensures { result ≡ halt_at place m }
{
    let halt = m.halts;
    if limits::halts_full(halt) {
        return Err(Refusal::Count.at(place));
    }
    let halts = HaltNo::new(halt.number() + 1);
    let next = Marks { halts, ..m };
    Ok((Head::Zero(Leaf::Halt(halt)), next))
}

// A signal statement takes the next signal's number: COUNT past the last.
fn local_head(place: usize, m: Marks) -> Result<(Head, Marks), Fault>
    ensures { result ≡ local_at place m }
{
    let signal = m.signals;
    if limits::signals_full(signal) {
        return Err(Refusal::Count.at(place));
    }
    let signals = SignalNo::new(signal.number() + 1);
    let next = Marks { signals, ..m };
    Ok((Head::One(Unary::Signal(signal)), next))
}

// A trap: COUNT past so many one in another.
fn trap_head(place: usize, e: Env, m: Marks) -> Result<(Head, Marks), Fault>
    ensures { result ≡ trap_at place (around e) m }
{
    if limits::traps_full(e.traps) {
        return Err(Refusal::Count.at(place));
    }
    Ok((Head::One(Unary::Trap), m))
}

// The statement of kind k, which was read at `place`; m is past its kind.
fn head_of_kind(s: &[u8], e: Env, place: usize, k: u32, m: Marks) -> Result<(Head, Marks), Fault>
    requires { e.traps ≤ max_level }
    ensures { result ≡ of_kind s.now (around e) place m k }
{
    match k {
        0 => Ok((Head::Zero(Leaf::Nothing), m)),
        1 => halt_head(place, m),
        2 => emit_head(s, e, m),
        3 => Ok((Head::Two(Binary::Sequence), m)),
        4 => Ok((Head::One(Unary::Loop), m)),
        5 => present_head(s, e, m),
        6 => watching_head(s, e, m),
        7 => Ok((Head::Two(Binary::Parallel), m)),
        8 => trap_head(place, e, m),
        9 => exit_head(s, e, m),
        10 => local_head(place, m),
        _ => Err(Refusal::Kind.at(place)),
    }
}

// The head of the statement at the marks.
fn read_head(s: &[u8], e: Env, m: Marks) -> Result<(Head, Marks), Fault>
    requires { e.traps ≤ max_level }
    ensures { result ≡ head_at s.now (around e) m }
{
    let at = m.at;
    let read = number::read_number(s, at);
    let Ok((k, next)) = read else {
        return Err(read.unwrap_err());
    };
    head_of_kind(s, e, at, k, m.past(next))
}

// What holds inside a statement with one part.
fn inner(e: Env, u: Unary) -> Env
    requires { (e.traps < max_level) × LocalFits u }
    ensures { (around result ≡ inside (around e) u) × (result.traps ≤ e.traps + 1) }
{
    let scope = e.scope;
    match u {
        Unary::Loop => e,
        Unary::Watching(_) => e,
        Unary::Trap => Env {
            traps: e.traps + 1,
            ..e
        },
        Unary::Signal(x) => Env {
            scope: scope.add(bits::signal_bit(x)),
            ..e
        },
    }
}

impl Row {
    // What stands at a number where no statement was read.
    pub fn empty() -> Row
        ensures { result ≡ empty_row }
    {
        Row {
            head: Head::Zero(Leaf::Nothing),
            end: StmtNo::new(0),
            first: HaltNo::new(0),
            past: HaltNo::new(0),
        }
    }
}

// The row of statement n.
pub fn row_at(rows: &[Row], n: StmtNo) -> Row
    requires { of_stmt n < length rows.now }
    ensures { result ≡ row_at rows.now n }
{
    rows[n.number() as usize]
}

// The number after n: that of its first part, if it has any.
pub fn first_part(n: StmtNo) -> StmtNo
    requires { of_stmt n < stmt_span }
    ensures { result ≡ further n 1 }
{
    StmtNo::new(n.number() + 1)
}

// The number of the second part of n: the end of its first part.
pub fn second_part(rows: &[Row], n: StmtNo) -> StmtNo
    requires { (of_stmt n < stmt_span) × (of_stmt n + 1 < length rows.now) }
    ensures { result ≡ (row_at rows.now (further n 1)).end }
{
    let first = row_at(rows, first_part(n));
    first.end
}

// A statement whose parts, if any, were read: m stands before it, and `end` and `after` are past it.
fn noted(
    rows: &mut [Row],
    n: StmtNo,
    head: Head,
    m: Marks,
    end: StmtNo,
    after: Marks,
) -> (StmtNo, Marks)
    requires { of_stmt n < length rows.old }
    ensures { Noted n head m end after result rows.old rows.new }
{
    let first = m.halts;
    let past = after.halts;
    rows[n.number() as usize] = Row {
        head,
        end,
        first,
        past,
    };
    (end, after)
}

// The statement n, where `left` levels are left: its rows and those of its parts.
fn read_stmt(
    s: &[u8],
    rows: &mut [Row],
    left: usize,
    e: Env,
    n: StmtNo,
    m: Marks,
) -> Result<(StmtNo, Marks), Fault>
    requires { (max_statements ≤ length rows.old) × (e.traps + left ≤ max_level) }
    ensures { DidStmt n m.halts (read_stmt left s.now (around e) n m) result rows.old rows.new }
{
    let at = m.at;
    if left == 0 {
        return Err(Refusal::Count.at(at));
    }
    if limits::statements_full(n) {
        return Err(Refusal::Count.at(at));
    }
    let next = first_part(n);
    let (head, m1) = read_head(s, e, m)?;
    match head {
        Head::Zero(_) => Ok(noted(rows, n, head, m, next, m1)),
        Head::One(u) => {
            let (end, m2) = read_stmt(s, rows, left - 1, inner(e, u), next, m1)?;
            Ok(noted(rows, n, Head::One(u), m, end, m2))
        }
        Head::Two(_) => {
            let (middle, m2) = read_stmt(s, rows, left - 1, e, next, m1)?;
            let (end, m3) = read_stmt(s, rows, left - 1, e, middle, m2)?;
            Ok(noted(rows, n, head, m, end, m3))
        }
    }
}

// The statement of a sheet with i inputs and o outputs, and nothing after it.
fn read_root(s: &[u8], rows: &mut [Row], i: u16, o: u16, at: usize) -> Result<Counts, Fault>
    requires { (max_statements ≤ length rows.old) × (1 + i + o ≤ max_signals) }
    ensures { DidSheet (root_read s.now i o at) result rows.old rows.new }
{
    let n = 1 + i + o;
    let e = Env {
        inputs: i,
        traps: 0,
        scope: Bits::below(n as u32),
    };
    let m = Marks {
        at,
        halts: HaltNo::new(0),
        signals: SignalNo::new(n),
    };
    let (end, after) = read_stmt(s, rows, limits::MAX_LEVEL as usize, e, StmtNo::new(0), m)?;
    let last = after.at;
    if last < s.len() {
        return Err(Refusal::Extra.at(last));
    }
    let halts = after.halts;
    let signals = after.signals;
    Ok(Counts {
        inputs: i,
        outputs: o,
        statements: end.number(),
        halts: halts.number(),
        signals: signals.number(),
    })
}

// Reads a sheet into rows, one for each statement.
pub fn read_sheet(s: &[u8], rows: &mut [Row]) -> Result<Counts, Fault>
    requires { max_statements ≤ length rows.old }
    ensures { DidSheet (read_sheet s.now) result rows.old rows.new }
{
    let inputs = number::read_number(s, 0);
    let Ok((i, past_inputs)) = inputs else {
        return Err(inputs.unwrap_err());
    };
    let second = past_inputs.at;
    let outputs = number::read_number(s, second);
    let Ok((o, past_outputs)) = outputs else {
        return Err(outputs.unwrap_err());
    };
    if limits::header_full(i, o) {
        return Err(Refusal::Count.at(second));
    }
    read_root(s, rows, i as u16, o as u16, past_outputs.at)
}
