// The numbers of a sheet: how one is read and written, the numbers of the four counts as types of their own, and the refusals by name.
#![tactic(auto)]

ghost use Rattle.std.specs.Prelude.{◌≡◌};
ghost use Rattle.number.specs.Counts.{signal_no, of_signal, halt_no, of_halt, stmt_no, of_stmt, cell_no, of_cell};
ghost use Rattle.number.specs.Refusals.{refusal_no, fault};
ghost use Rattle.number.specs.Number.{number_at, written, written_end};

// "a number of one count must never serve as a number of another": the fields are private, so nobody converts but by these functions.
#[derive(Clone, Copy, Debug, PartialEq, Eq, Hash)]
pub struct SignalNo(u16);

#[derive(Clone, Copy, Debug, PartialEq, Eq, Hash)]
pub struct HaltNo(u16);

#[derive(Clone, Copy, Debug, PartialEq, Eq, Hash)]
pub struct StmtNo(u16);

// Laid out for C, since a table of cells goes there whole.
#[repr(C)]
#[derive(Clone, Copy, Debug, PartialEq, Eq, Hash)]
pub struct CellNo(u16);

impl SignalNo {
    pub fn new(n: u16) -> SignalNo
        ensures { result ≡ signal_no n }
    {
        SignalNo(n)
    }

    pub fn number(self) -> u16
        ensures { result ≡ of_signal self }
    {
        self.0
    }
}

impl HaltNo {
    pub fn new(n: u16) -> HaltNo
        ensures { result ≡ halt_no n }
    {
        HaltNo(n)
    }

    pub fn number(self) -> u16
        ensures { result ≡ of_halt self }
    {
        self.0
    }
}

impl StmtNo {
    pub fn new(n: u16) -> StmtNo
        ensures { result ≡ stmt_no n }
    {
        StmtNo(n)
    }

    pub fn number(self) -> u16
        ensures { result ≡ of_stmt self }
    {
        self.0
    }
}

impl CellNo {
    pub fn new(n: u16) -> CellNo
        ensures { result ≡ cell_no n }
    {
        CellNo(n)
    }

    pub fn number(self) -> u16
        ensures { result ≡ of_cell self }
    {
        self.0
    }
}

// The paper's "Numbers returned", 1 to 16 in its order, and those that the requests add, 17 to 22, by the names that they have there. These stand here
// whether or not their request has landed, so that none adds a case to a type that every crate goes by. A refusal's number is the variant's own.
#[derive(Clone, Copy, Debug, PartialEq, Eq, Hash)]
pub enum Refusal {
    Short = 1,
    Number,
    Kind,
    Count,
    Scope,
    Emit,
    Exit,
    Extra,
    Instant,
    Twice,
    Room,
    Cycle,
    Event,
    State,
    Buffer,
    Cell,
    Word,
    Name,
    Cover,
    Order,
    Line,
    States,
}

// A refusal with its place.
#[derive(Clone, Copy, Debug, PartialEq, Eq, Hash)]
pub struct Fault {
    pub refusal: Refusal,
    pub place: usize,
}

impl Refusal {
    // This refusal at a place.
    pub fn at(self, place: usize) -> Fault
        ensures { result ≡ fault self place }
    {
        Fault {
            refusal: self,
            place,
        }
    }
}

impl From<Refusal> for u8 {
    ghost from_gives = { λ r n. n ≡ refusal_no r };

    fn from(r: Refusal) -> u8 {
        r as u8
    }
}

// Where a reader is.
#[derive(Clone, Copy, Debug, PartialEq, Eq, Hash)]
pub struct Cursor {
    pub at: usize,
}

// The number that begins at `at`, with the cursor past it.
pub fn read_number(s: &[u8], at: usize) -> Result<(u32, Cursor), Fault>
    ensures { result ≡ number_at s.now at }
{
    if s.len() <= at {
        return Err(Refusal::Short.at(at));
    }
    let low = s[at];
    if low < 128 {
        return Ok((low as u32, Cursor { at: at + 1 }));
    }
    let second = at + 1;
    if s.len() <= second {
        return Err(Refusal::Short.at(at));
    }
    let high = s[second];
    if high == 0 {
        return Err(Refusal::Number.at(at));
    }
    if 127 < high {
        return Err(Refusal::Number.at(at));
    }
    Ok((
        high as u32 * 128 + low as u32 % 128,
        Cursor { at: second + 1 },
    ))
}

// Writes the number v at `at` and answers the offset past it. Where it is too large or the room too short nothing is written, and the
// answer is `at`.
pub fn write_number(buf: &mut [u8], at: usize, v: u32) -> usize
    ensures { (result ≡ written_end buf.old at v) × (buf.new ≡ written buf.old at v) }
{
    if buf.len() <= at {
        return at;
    }
    if v < 128 {
        buf[at] = (v % 256) as u8;
        return at + 1;
    }
    let second = at + 1;
    if buf.len() <= second {
        return at;
    }
    if 16384 <= v {
        return at;
    }
    buf[at] = (v % 128 + 128) as u8;
    buf[second] = (v / 128 % 256) as u8;
    second + 1
}
