// The reaction rules: a start and a resumption of a statement, the states that fit and those at rest.
#![tactic(auto)]

ghost use Rattle.std.specs.Prelude.{◌≤◌, ◌≡◌, true};
ghost use Rattle.number.specs.Counts.{of_halt};
ghost use Rattle.limits.specs.Limits.{max_halts};
ghost use Rattle.bits.specs.Bits.{has, whole};
ghost use Rattle.sheet.specs.Rows.{row_at};
ghost use Rattle.sheet.specs.Stmt.{leaf};
ghost use Rattle.sets.specs.Codes.{caught};
ghost use Rattle.rules.specs.Rules.{Signals, Outcome, idle, followed, beside, trapped, start};
ghost use Rattle.rules.specs.States.{no_halts_from};
ghost use Rattle.rules.specs.Words.{Means, LeafInBits, Runnable, Started, Resumed, root, Reacted, Next, Inside, Known, ToldApart, KnownRoot, Fitted};
ghost use Rattle.rules.specs.Words.{sides_fit, PartsFit};

use bits::Bits;
use number::{HaltNo, StmtNo};
use sets::Entry;
use sheet::{Binary, Head, Leaf, Row, Unary};

// "A statement yields emissions, a code and halts." A halt stands at its bit of the state. The code has a word of its own, since a struct without gaps is
// handed on faster.
#[derive(Clone, Copy, Debug, PartialEq, Eq)]
pub struct Yield {
    pub emits: Bits,
    pub code: u64,
    pub halts: Bits,
}

// Ended, with nothing done.
fn idle() -> Yield
    ensures { Means result idle }
{
    Yield {
        emits: Bits::empty(),
        code: 0,
        halts: Bits::empty(),
    }
}

// A statement without parts, started. A halt is resumed as it is started.
fn leaf(l: Leaf) -> Yield
    requires { LeafInBits l }
    ensures { (E : Signals) → Means result (start E (leaf l)) }
{
    match l {
        Leaf::Nothing => idle(),
        Leaf::Halt(h) => Yield {
            emits: Bits::empty(),
            code: 1,
            halts: Bits::empty().add(bits::halt_bit(h)),
        },
        Leaf::Emit(s) => Yield {
            emits: Bits::empty().add(bits::signal_bit(s)),
            code: 0,
            halts: Bits::empty(),
        },
        Leaf::Exit(k) => Yield {
            emits: Bits::empty(),
            code: k as u64,
            halts: Bits::empty(),
        },
    }
}

// What comes of a, which ended, and of b after it.
fn followed(a: Yield, b: Yield) -> Yield
    requires { a.code ≡ 0 }
    ensures { (p q : Outcome) → Means a p → Means b q → Means result (followed p q) }
{
    let first = a.emits;
    let second = b.emits;
    Yield {
        emits: first.join(second),
        ..b
    }
}

// What comes of the two sides of a parallel.
fn beside(a: Yield, b: Yield) -> Yield
    ensures { (p q : Outcome) → Means a p → Means b q → Means result (beside p q) }
{
    let first = a.emits;
    let second = b.emits;
    let emits = first.join(second);
    let code = a.code.max(b.code);
    if 1 < code {
        return Yield {
            emits,
            code,
            halts: Bits::empty(),
        };
    }
    let first_halts = a.halts;
    let second_halts = b.halts;
    Yield {
        emits,
        code,
        halts: first_halts.join(second_halts),
    }
}

fn caught(code: u64) -> u64
    ensures { result ≡ caught code }
{
    if code < 2 {
        return code;
    }
    if code == 2 {
        return 0;
    }
    code - 1
}

// What a trap makes of its body's run.
fn trapped(a: Yield) -> Yield
    ensures { (p : Outcome) → Means a p → Means result (trapped p) }
{
    Yield {
        code: caught(a.code),
        ..a
    }
}

// No halt from this number on is set.
pub fn no_halts_from(state: Bits, h: HaltNo) -> bool
    requires { of_halt h ≤ max_halts }
    ensures { result ≡ no_halts_from (of_halt h) (has (whole state)) }
{
    state.none_in(bits::halt_bit(h), limits::MAX_HALTS - h.number() as u32)
}

// Whether one of the state's halts lies inside the statement: its halts are those from its row's first to before its row's past.
fn inside(rows: &[Row], n: StmtNo, state: Bits) -> bool
    requires { Runnable rows.now n }
    ensures { Inside rows.now n (whole state) result }
{
    let row = sheet::row_at(rows, n);
    let first = row.first;
    let past = row.past;
    let from = bits::halt_bit(first);
    !state.none_in(from, bits::halt_bit(past) - from)
}

// The statement at row n, started.
pub fn start(rows: &[Row], n: StmtNo, e: Bits) -> Yield
    requires { Runnable rows.now n }
    ensures { Started rows.now n (whole e) result }
{
    let row = sheet::row_at(rows, n);
    let head = row.head;
    match head {
        Head::Zero(l) => leaf(l),
        Head::One(u) => {
            let part = sheet::first_part(n);
            match u {
                Unary::Trap => trapped(start(rows, part, e)),
                _ => start(rows, part, e),
            }
        }
        Head::Two(b) => match b {
            Binary::Sequence => {
                let p = start(rows, sheet::first_part(n), e);
                if p.code != 0 {
                    return p;
                }
                followed(p, start(rows, sheet::second_part(rows, n), e))
            }
            Binary::Present(s) => {
                if e.member(bits::signal_bit(s)) {
                    return start(rows, sheet::first_part(n), e);
                }
                start(rows, sheet::second_part(rows, n), e)
            }
            Binary::Parallel => {
                let p = start(rows, sheet::first_part(n), e);
                beside(p, start(rows, sheet::second_part(rows, n), e))
            }
        },
    }
}

// The statement at row n, in which one of the state's halts lies, resumed.
#[cycle(resume_resume_part_resume_sides)]
pub fn resume(rows: &[Row], n: StmtNo, e: Bits, state: Bits) -> Yield
    requires { Runnable rows.now n × Inside rows.now n (whole state) true }
    ensures { Resumed rows.now n (whole e) (whole state) result }
{
    let row = sheet::row_at(rows, n);
    let head = row.head;
    match head {
        Head::Zero(l) => leaf(l),
        Head::One(u) => resume_part(rows, n, u, e, state),
        Head::Two(b) => resume_sides(rows, n, b, e, state),
    }
}

// What a statement of kind u does with its one part.
#[cycle(resume_resume_part_resume_sides)]
fn resume_part(rows: &[Row], n: StmtNo, u: Unary, e: Bits, state: Bits) -> Yield
    requires { Runnable rows.now n × Inside rows.now n (whole state) true × ((row_at rows.now n).head ≡ Head.One u) }
    ensures { Resumed rows.now n (whole e) (whole state) result }
{
    let part = sheet::first_part(n);
    match u {
        Unary::Loop => {
            let p = resume(rows, part, e, state);
            if p.code != 0 {
                return p;
            }
            followed(p, start(rows, part, e))
        }
        Unary::Watching(s) => {
            if e.member(bits::signal_bit(s)) {
                return idle();
            }
            resume(rows, part, e, state)
        }
        Unary::Trap => trapped(resume(rows, part, e, state)),
        Unary::Signal(_) => resume(rows, part, e, state),
    }
}

// What a statement of kind b does with its two parts. A side of a parallel without a halt of the state does nothing.
#[cycle(resume_resume_part_resume_sides)]
fn resume_sides(rows: &[Row], n: StmtNo, b: Binary, e: Bits, state: Bits) -> Yield
    requires { Runnable rows.now n × Inside rows.now n (whole state) true × ((row_at rows.now n).head ≡ Head.Two b) }
    ensures { Resumed rows.now n (whole e) (whole state) result }
{
    let first = sheet::first_part(n);
    let second = sheet::second_part(rows, n);
    if !inside(rows, first, state) {
        let q = resume(rows, second, e, state);
        return match b {
            Binary::Parallel => beside(idle(), q),
            _ => q,
        };
    }
    let p = resume(rows, first, e, state);
    match b {
        Binary::Sequence => {
            if p.code != 0 {
                return p;
            }
            followed(p, start(rows, second, e))
        }
        Binary::Present(_) => p,
        Binary::Parallel => {
            if !inside(rows, second, state) {
                return beside(p, idle());
            }
            beside(p, resume(rows, second, e, state))
        }
    }
}

// "Boot off starts the root; boot on resumes it, or does nothing if no halt is set."
pub fn react(rows: &[Row], e: Bits, state: Bits) -> Yield
    requires { Runnable rows.now root }
    ensures { Reacted rows.now (whole e) (whole state) result }
{
    let root = StmtNo::new(0);
    if state.member(bits::BOOT) {
        if !inside(rows, root, state) {
            return idle();
        }
        return resume(rows, root, e, state);
    }
    start(rows, root, e)
}

// "The next state has boot on."
pub fn next_state(r: Yield) -> Bits
    ensures { Next r (whole result) }
{
    let halts = r.halts;
    halts.add(bits::BOOT)
}

// Whether p and q may both have halts, or one of them alone.
fn sides_fit(b: Binary, p: bool, q: bool, ends_p: bool, ends_q: bool) -> bool
    ensures { result ≡ sides_fit b p q ends_p ends_q }
{
    match b {
        Binary::Parallel => (!p || q || ends_q) && (!q || p || ends_p),
        Binary::Sequence | Binary::Present(_) => !(p && q),
    }
}

// Whether the parts of a statement of kind b, at rows `first` and `second`, may have the halts that they have.
fn parts_fit(
    rows: &[Row],
    statics: &[Entry],
    b: Binary,
    first: StmtNo,
    second: StmtNo,
    state: Bits,
) -> bool
    requires { Known rows.now statics.now first × Known rows.now statics.now second }
    ensures { PartsFit rows.now b first second (whole state) result }
{
    let p = inside(rows, first, state);
    let q = inside(rows, second, state);
    sides_fit(
        b,
        p,
        q,
        sets::may_end(statics, first),
        sets::may_end(statics, second),
    )
}

// What a state that fits keeps apart.
fn apart(rows: &[Row], statics: &[Entry], n: StmtNo, state: Bits) -> bool
    requires { Known rows.now statics.now n }
    ensures { ToldApart rows.now n (whole state) result }
{
    let row = sheet::row_at(rows, n);
    let head = row.head;
    match head {
        Head::Zero(_) => true,
        Head::One(_) => apart(rows, statics, sheet::first_part(n), state),
        Head::Two(b) => {
            let first = sheet::first_part(n);
            let second = sheet::second_part(rows, n);
            parts_fit(rows, statics, b, first, second, state)
                && apart(rows, statics, first, state)
                && apart(rows, statics, second, state)
        }
    }
}

// "A state fits when: boot off means 0; only existing halts are set; .."
pub fn fits(rows: &[Row], statics: &[Entry], state: Bits) -> bool
    requires { KnownRoot rows.now statics.now }
    ensures { Fitted rows.now (whole state) result }
{
    if !state.member(bits::BOOT) {
        return no_halts_from(state, HaltNo::new(0));
    }
    let root = StmtNo::new(0);
    let row = sheet::row_at(rows, root);
    no_halts_from(state, row.past) && apart(rows, statics, root, state)
}
