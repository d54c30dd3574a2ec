// The lines that reads bring, the whole output of an input, and the program.
ghost use Rattle.std.specs.Prelude.{◌≡◌, List, ℕ, ◌+◌, ◌*◌, ◌≤◌, length};
ghost use Rattle.io.specs.Counts.{IsPrefixLen};
ghost use Rattle.texts.specs.Reads.{Kept};
ghost use Rattle.tracing.specs.Sizes.{text_room};
ghost use Rattle.tracing.specs.Steps.{State};
ghost use Rattle.tracing.specs.Stands.{Columns, Stands, Sound, Does};
ghost use Rattle.tracing.specs.Output.{Answered};
ghost use Rattle.tracing.specs.Feeds.{turn_of, goes_on, Buffers, Feeds, ReadAnswered};

use crate::{Fed, LINE_ROOM, Trace};
use sets::Entry;
use sheet::Row;
use std::io::{Read, Write};
use texts::{Found, Page};

// The bytes of one read, and the room for what their lines print.
const READ: usize = 1024;

const OUT: usize = 65600;

// The step of a line; of many traces, a line `--` begins the next. The two programs differ in this line alone, so a flag tells them apart: a step handed in
// as a closure would have to promise all that `Does` says.
fn turn(
    many: bool,
    trace: Trace,
    rows: &mut [Row],
    statics: &mut [Entry],
    line: &[u8],
    page: &mut Page,
) -> Trace
    requires { Columns rows.old statics.old × Sound trace rows.old statics.old }
    ensures { Does (turn_of many line.now) trace result rows.old rows.new statics.old statics.new
        page.old page.new }
{
    let dashes: &[u8] = b"--";
    if many && line == dashes {
        page.bytes(b"--\n");
        return Trace::Sheet;
    }
    crate::step(trace, rows, statics, line, page)
}

impl Fed {
    // Whether to go on: not where the input has ended, nor where a trace has stopped, unless another may begin.
    #[tactic(auto, unfolding(crate::specs::Feeds::goes_on))]
    pub fn goes_on(&self, many: bool) -> bool
        ensures { result ≡ goes_on many self.now.source.ended self.now.trace }
    {
        if self.source.ended {
            return false;
        }
        if many {
            return true;
        }
        match self.trace {
            Trace::Sheet => true,
            Trace::Event(_) => true,
            Trace::Nothing => false,
        }
    }
}

// Answers all lines of the bytes at hand. Where the input has ended with them, that is the whole rest of the output.
pub fn feed(
    many: bool,
    from: Fed,
    bytes: &[u8],
    line: &mut [u8],
    rows: &mut [Row],
    statics: &mut [Entry],
    page: &mut Page,
) -> Fed
    requires { Buffers line.old rows.old statics.old × Sound from.trace rows.old statics.old }
    ensures prefix_len { (page.old.at + text_room * (length bytes.now + 1) ≤ length page.old.out.now → IsPrefixLen page.new.at page.new.out.now)
        × Sound result.trace rows.new statics.new }
    ensures same_buffer { page.new.out.ghost_name ≡ page.old.out.ghost_name }
    ensures same_room { length page.new.out.now ≡ length page.old.out.now }
    ensures feeds { (x : State) (text : List ℕ) → Stands from.trace rows.old statics.old x → Kept text from.source.held line.old
        → Feeds many x from.source bytes.now text result rows.new statics.new line.new page.old page.new }
{
    // The place fits its type: a fact of the read, for the arms that write nothing.
    let _begun = page.at;
    let mut now = from;
    // A turn for each line: how many there are shows only as they are found.
    loop {
        let next = texts::next_line(now.source, bytes, line);
        now.source = next.source;
        let Found::Line(n) = next.found else {
            return now;
        };
        now.trace = turn(many, now.trace, rows, statics, &line[..n], page);
    }
}

// The whole output of a trace, for all bytes of an input. An empty buffer asks for its length.
pub fn traced(input: &[u8], out: &mut [u8]) -> usize
    ensures { Answered input.now result out.old out.new }
{
    let mut line = [0u8; LINE_ROOM];
    let mut rows = [Row::empty(); limits::MAX_STATEMENTS];
    let mut statics = [Entry::empty(); limits::MAX_STATEMENTS];
    let from = Fed {
        trace: Trace::Sheet,
        source: texts::all_read(input),
    };
    let mut page = Page { out, at: 0 };
    let _ = feed(
        false,
        from,
        input,
        &mut line,
        &mut rows,
        &mut statics,
        &mut page,
    );
    page.at
}

// Reads once, answers what was read, and writes the answers out. Those that cannot be written are lost.
fn answer_read<R: Read, W: Write>(
    input: &mut R,
    output: &mut W,
    many: bool,
    from: Fed,
    bytes: &mut [u8],
    line: &mut [u8],
    rows: &mut [Row],
    statics: &mut [Entry],
    page: &mut Page,
) -> Fed
    requires { Buffers line.old rows.old statics.old × Sound from.trace rows.old statics.old × (text_room * (length bytes.old + 1) ≤ length page.old.out.now) }
    ensures sound { Sound result.trace rows.new statics.new }
    ensures same_room { length page.new.out.now ≡ length page.old.out.now }
    ensures read_answered { ReadAnswered many from result bytes.new line.old line.new rows.old rows.new
        statics.old statics.new page.old page.new }
{
    let source = texts::refill(input, bytes, from.source);
    page.at = 0;
    let fed = feed(
        many,
        Fed { source, ..from },
        bytes,
        line,
        rows,
        statics,
        page,
    );
    let _ = output.write_all(page.text());
    let _ = output.flush();
    fed
}

fn answer_reads<R: Read, W: Write>(
    input: &mut R,
    output: &mut W,
    many: bool,
    bytes: &mut [u8],
    line: &mut [u8],
    rows: &mut [Row],
    statics: &mut [Entry],
    page: &mut Page,
)
    requires { Buffers line.old rows.old statics.old × (text_room * (length bytes.old + 1) ≤ length page.old.out.now) }
{
    let mut now = Fed {
        trace: Trace::Sheet,
        source: texts::nothing_read(),
    };
    // More turns than any input has: the loop ends where the input does.
    for _ in 0..u64::MAX {
        now = answer_read(input, output, many, now, bytes, line, rows, statics, page);
        if !now.goes_on(many) {
            return;
        }
    }
}

// The program: one trace, or many.
pub fn serve<R: Read, W: Write>(input: &mut R, output: &mut W, many: bool) {
    let mut bytes = [0u8; READ];
    let mut line = [0u8; LINE_ROOM];
    let mut rows = [Row::empty(); limits::MAX_STATEMENTS];
    let mut statics = [Entry::empty(); limits::MAX_STATEMENTS];
    let mut out = [0u8; OUT];
    let mut page = Page {
        out: &mut out,
        at: 0,
    };
    answer_reads(
        input,
        output,
        many,
        &mut bytes,
        &mut line,
        &mut rows,
        &mut statics,
        &mut page,
    );
}
