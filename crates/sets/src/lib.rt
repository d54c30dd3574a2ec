// The static sets K and R of every statement, and the first statement at fault. A set of codes is a word with the codes as its bits;
// `statics` is the column of all K and R. It goes apart from the rows, since `fill` writes it while it reads them, and `given` and `may_end` need it alone.
#![tactic(auto)]

ghost use Rattle.std.specs.Prelude.{◌≡◌, ◌&&◌, ◌||◌, ℕ, ◌^◌, ◌<◌, ◌≤◌, length};
ghost use Rattle.number.specs.Counts.{of_stmt};
ghost use Rattle.limits.specs.Limits.{max_codes};
ghost use Rattle.bits.specs.Bits.{has};
ghost use Rattle.sheet.specs.Stmt.{Stmt, leaf, one, two};
ghost use Rattle.sheet.specs.declared.Binary.{Binary};
ghost use Rattle.sets.specs.Codes.{join, when, maxima, replaced, less0, with0, caught_codes};
ghost use Rattle.sets.specs.Static.{K, R, has_halts};
ghost use Rattle.sets.specs.Faults.{instant, twice};
ghost use Rattle.sets.specs.Words.{code_span, no_sets, LowLeaf, Low, Stands, Entered, Kept, Means, Wrote, Filled, Reads};
ghost use Rattle.sets.specs.Leads.{meet, UpTo, at_least, leads_sequence, leads_trap, leads_parallel, leads_one, leads_left, leads_right};
ghost use Rattle.sets.specs.Leads.{is_loop, is_x, first_led};

use number::StmtNo;
use sheet::{Binary, Head, Leaf, Row, Unary};

// Every set of codes is below it.
const CODE_SPAN: u64 = 1 << limits::MAX_CODES;

// K and R of a statement.
#[derive(Clone, Copy, Debug, PartialEq, Eq)]
pub struct Both {
    pub k: u64,
    pub r: u64,
}

// K and R as the column keeps them. A set of codes has room in 32 bits by far, and wider words would cost: each call clears a column of entries.
#[derive(Clone, Copy, Debug, PartialEq, Eq)]
pub struct Entry {
    pub k: u32,
    pub r: u32,
}

impl Entry {
    // What stands at a number whose statement has no entry.
    pub fn empty() -> Entry
        ensures { result ≡ no_sets }
    {
        Entry { k: 0, r: 0 }
    }
}

// a less 0.
fn without_0(a: u64) -> u64
    ensures { has result ≡ less0 (has a) }
{
    a - a % 2
}

// a and 0.
fn with_0(a: u64) -> u64
    ensures { has result ≡ with0 (has a) }
{
    a - a % 2 + 1
}

// a with 0 replaced by b.
fn replace_0(a: u64, b: u64) -> u64
    ensures { has result ≡ replaced (has a) (has b) }
{
    if a % 2 == 1 {
        return bits::join(a - 1, b);
    }
    a
}

// a, if `there`.
fn only_if(there: bool, a: u64) -> u64
    ensures { has result ≡ when there (has a) }
{
    if there {
        return a;
    }
    bits::EMPTY
}

// What a trap makes of a.
fn caught_codes(a: u64) -> u64
    ensures { has result ≡ caught_codes (has a) }
{
    if a % 2 == 1 {
        return 1 + a / 2 % 2 * 2 + a / 8 * 4;
    }
    a / 4 % 2 + a / 2 % 2 * 2 + a / 8 * 4
}

// The codes of a from the lowest of b on.
fn at_least(a: u64, b: u64) -> u64
    ensures { (has result ≡ at_least (has a) (has b)) × (result ≤ a) }
{
    if b == 0 {
        return bits::EMPTY;
    }
    if b % 2 == 1 {
        return a;
    }
    2 * at_least(a / 2, b / 2)
}

// The larger codes of all pairs.
fn maxima_of(a: u64, b: u64) -> u64
    ensures { has result ≡ maxima (has a) (has b) }
{
    bits::join(at_least(a, b), at_least(b, a))
}

// Whether a and b have a code in common.
fn meets(a: u64, b: u64) -> bool
    ensures { (n : ℕ) → a < 2 ^ n → result ≡ meet n (has a) (has b) }
{
    a & b != 0
}

// The codes up to the largest that a and b have in common.
fn up_to_common(a: u64, b: u64) -> u64
    ensures { (n : ℕ) → a < 2 ^ n → UpTo n a b result }
{
    if a == 0 {
        return bits::EMPTY;
    }
    let rest = up_to_common(a / 2, b / 2);
    if a % 2 + b % 2 == 2 {
        return 2 * rest + 1;
    }
    2 * rest + rest % 2
}

// K and R of a statement without parts.
fn leaf_sets(l: Leaf) -> Both
    requires { LowLeaf l }
    ensures { Means result (leaf l) }
{
    match l {
        Leaf::Nothing => Both {
            k: 1,
            r: bits::EMPTY,
        },
        Leaf::Halt(_) => Both { k: 2, r: 2 },
        Leaf::Emit(_) => Both {
            k: 1,
            r: bits::EMPTY,
        },
        Leaf::Exit(level) => Both {
            k: bits::add(bits::EMPTY, level as u32),
            r: bits::EMPTY,
        },
    }
}

// K and R of a statement with one part; `halts` says whether the part has any.
fn one_sets(u: Unary, halts: bool, p: Both) -> Both
    ensures { (t : Stmt) → Means p t → halts ≡ has_halts t → Means result (one u t) }
{
    match u {
        Unary::Loop => {
            let k = without_0(p.k);
            Both {
                k,
                r: replace_0(p.r, k),
            }
        }
        Unary::Watching(_) => Both {
            k: p.k,
            r: only_if(halts, with_0(p.r)),
        },
        Unary::Trap => Both {
            k: caught_codes(p.k),
            r: caught_codes(p.r),
        },
        Unary::Signal(_) => p,
    }
}

// Whether a statement has 0 in K or R.
fn ends(b: Both) -> bool
    ensures { result ≡ (has b.k 0 || has b.r 0) }
{
    bits::member(b.k, 0) || bits::member(b.r, 0)
}

// R of a parallel.
fn parallel_resumes(p: Both, q: Both) -> u64
    ensures { (t v : Stmt) → Means p t → Means q v → has result ≡ R (two Binary.Parallel t v) }
{
    let alone = bits::join(only_if(ends(q), p.r), only_if(ends(p), q.r));
    bits::join(maxima_of(p.r, q.r), alone)
}

// K and R of a statement with two parts.
fn two_sets(b: Binary, p: Both, q: Both) -> Both
    ensures { (t v : Stmt) → Means p t → Means q v → Means result (two b t v) }
{
    match b {
        Binary::Sequence => Both {
            k: replace_0(p.k, q.k),
            r: bits::join(replace_0(p.r, q.k), q.r),
        },
        Binary::Present(_) => Both {
            k: bits::join(p.k, q.k),
            r: bits::join(p.r, q.r),
        },
        Binary::Parallel => Both {
            k: maxima_of(p.k, q.k),
            r: parallel_resumes(p, q),
        },
    }
}

// Writes the entry of statement n, and hands it back.
fn entered(statics: &mut [Entry], n: StmtNo, b: Both) -> Both
    requires { (of_stmt n < length statics.old) × (b.k < code_span) × (b.r < code_span) }
    ensures { Wrote n b result statics.old statics.new }
{
    statics[n.number() as usize] = Entry {
        k: b.k as u32,
        r: b.r as u32,
    };
    b
}

// K and R of the statement n and of all its parts, in one pass: each goes into the column, where later walks read it.
pub fn fill(rows: &[Row], statics: &mut [Entry], n: StmtNo) -> Both
    requires { Stands rows.now n × (length rows.now ≤ length statics.old) }
    ensures { (s : Stands rows.now n) → Filled n s.stmt result statics.old statics.new }
{
    let row = sheet::row_at(rows, n);
    let head = row.head;
    let first = sheet::first_part(n);
    match head {
        Head::Zero(l) => entered(statics, n, leaf_sets(l)),
        Head::One(u) => {
            let halts = row.first.number() < row.past.number();
            let p = fill(rows, statics, first);
            entered(statics, n, one_sets(u, halts, p))
        }
        Head::Two(b) => {
            let p = fill(rows, statics, first);
            let q = fill(rows, statics, sheet::second_part(rows, n));
            entered(statics, n, two_sets(b, p, q))
        }
    }
}

// The entry of statement n: whatever the column holds there, sets of codes.
pub fn sets_of(statics: &[Entry], n: StmtNo) -> Both
    requires { of_stmt n < length statics.now }
    ensures { Reads statics.now n result }
{
    let entry = statics[n.number() as usize];
    Both {
        k: u64::from(entry.k) % CODE_SPAN,
        r: u64::from(entry.r) % CODE_SPAN,
    }
}

// K or R of statement n: the codes that it may give.
pub fn given(statics: &[Entry], n: StmtNo) -> u64
    requires { of_stmt n < length statics.now }
    ensures { (t : Stmt) → Low t → Entered statics.now n t → has result ≡ join (K t) (R t) }
{
    let b = sets_of(statics, n);
    bits::join(b.k, b.r)
}

// Whether statement n has 0 in K or R.
pub fn may_end(statics: &[Entry], n: StmtNo) -> bool
    requires { of_stmt n < length statics.now }
    ensures { (t : Stmt) → Low t → Entered statics.now n t → result ≡ (K t 0 || R t 0) }
{
    ends(sets_of(statics, n))
}

// Whether u is a loop over a part with 0 in K.
fn runs_on(u: Unary, k: u64) -> bool
    ensures { result ≡ (is_loop u && has k 0) }
{
    matches!(u, Unary::Loop) && bits::member(k, 0)
}

// INSTANT: the first loop at fault in statement n.
pub fn first_instant(rows: &[Row], statics: &[Entry], n: StmtNo) -> Option<StmtNo>
    requires { Stands rows.now n × (length rows.now ≤ length statics.now) }
    ensures { (s : Stands rows.now n) → Kept statics.now n s.stmt → result ≡ instant n s.stmt }
{
    let row = sheet::row_at(rows, n);
    let head = row.head;
    let first = sheet::first_part(n);
    match head {
        Head::Zero(_) => None,
        Head::One(u) => {
            let body = sets_of(statics, first);
            if runs_on(u, body.k) {
                return Some(n);
            }
            first_instant(rows, statics, first)
        }
        Head::Two(_) => {
            if let Some(m) = first_instant(rows, statics, first) {
                return Some(m);
            }
            first_instant(rows, statics, sheet::second_part(rows, n))
        }
    }
}

// The codes that lead to one of f from the left of a sequence whose right has k as K.
fn leads_sequence(k: u64, f: u64) -> u64
    ensures { k < code_span → has result ≡ leads_sequence (has k) (has f) }
{
    if meets(k, f) {
        return with_0(f);
    }
    without_0(f)
}

// .. from a trap's body; what no code stands for is left out.
fn leads_trap(f: u64) -> u64
    ensures { has result ≡ leads_trap (has f) }
{
    f % 2 + f / 2 % 2 * 2 + f % 2 * 4 + f / 4 % (CODE_SPAN / 8) * 8
}

// .. from a side of a parallel whose other side is q.
fn leads_parallel(q: Both, f: u64) -> u64
    ensures { q.r < code_span → has result ≡ leads_parallel (has q.k 0 || has q.r 0) (has q.r) (has f) }
{
    let with_other = bits::join(at_least(f, q.r), up_to_common(q.r, f));
    bits::join(with_other, only_if(ends(q), f))
}

// What leads on into each part, by the statement around it: all that the pass knows of the climb stands in these three.
fn leads_one(u: Unary, f: u64) -> u64
    ensures { has result ≡ leads_one u (has f) }
{
    match u {
        Unary::Loop => with_0(f),
        Unary::Watching(_) => f,
        Unary::Trap => leads_trap(f),
        Unary::Signal(_) => f,
    }
}

fn leads_left(b: Binary, q: Both, f: u64) -> u64
    ensures { (v : Stmt) → Low v → Means q v → has result ≡ leads_left b v (has f) }
{
    match b {
        Binary::Sequence => leads_sequence(q.k, f),
        Binary::Present(_) => f,
        Binary::Parallel => leads_parallel(q, f),
    }
}

// Into the right of a sequence they lead on as they are, since it has the codes of the whole; but none behind a left side that cannot end at once: no loop
// further out starts what stands there.
fn leads_right(b: Binary, p: Both, f: u64) -> u64
    ensures { (t : Stmt) → Low t → Means p t → has result ≡ leads_right b t (has f) }
{
    match b {
        Binary::Sequence => only_if(bits::member(p.k, 0), f),
        Binary::Present(_) => f,
        Binary::Parallel => leads_parallel(p, f),
    }
}

// Whether a head is that of a parallel or signal statement.
fn is_x(h: Head) -> bool
    ensures { result ≡ is_x h }
{
    matches!(h, Head::One(Unary::Signal(_)) | Head::Two(Binary::Parallel))
}

// Whether it is an X with a code of f in its R.
fn is_led(h: Head, r: u64, f: u64) -> bool
    ensures { r < code_span → result ≡ (is_x h && meet max_codes (has r) (has f)) }
{
    is_x(h) && meets(r, f)
}

// The first X of statement n with a code that leads to the fault, f being the codes that lead there from n.
fn first_led(rows: &[Row], statics: &[Entry], n: StmtNo, f: u64) -> Option<StmtNo>
    requires { Stands rows.now n × (length rows.now ≤ length statics.now) }
    ensures { (s : Stands rows.now n) → Kept statics.now n s.stmt → result ≡ first_led (has f) n s.stmt }
{
    let row = sheet::row_at(rows, n);
    let head = row.head;
    let own = sets_of(statics, n);
    if is_led(head, own.r, f) {
        return Some(n);
    }
    let first = sheet::first_part(n);
    match head {
        Head::Zero(_) => None,
        Head::One(u) => first_led(rows, statics, first, leads_one(u, f)),
        Head::Two(b) => {
            let second = sheet::second_part(rows, n);
            let q = sets_of(statics, second);
            if let Some(m) = first_led(rows, statics, first, leads_left(b, q, f)) {
                return Some(m);
            }
            let p = sets_of(statics, first);
            first_led(rows, statics, second, leads_right(b, p, f))
        }
    }
}

// TWICE: the first parallel or signal statement at fault in statement n.
pub fn first_twice(rows: &[Row], statics: &[Entry], n: StmtNo) -> Option<StmtNo>
    requires { Stands rows.now n × (length rows.now ≤ length statics.now) }
    ensures { (s : Stands rows.now n) → Kept statics.now n s.stmt → result ≡ twice n s.stmt }
{
    first_led(rows, statics, n, bits::EMPTY)
}
