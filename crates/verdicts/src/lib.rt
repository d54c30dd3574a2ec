// What the public entries answer: the paper's number and place, the counts, and the order of the faults that a run over events can have.
#![tactic(auto)]

ghost use Rattle.std.specs.Prelude.{◌≡◌, ◌&&◌, ◌*◌, ◌/◌, leb, length};
ghost use Rattle.bits.specs.Bits.{words, whole};
ghost use Rattle.verdicts.specs.Answers as Answers;

mod once;

use bits::Bits;
use number::{Fault, Refusal};
pub use once::run_once;

// The answers below go to C as they are, so that number and place, and what else two of them have in common, stand flat in each.

// The number, 0 for acceptance, its place, and the counts of statements and cells.
#[repr(C)]
#[derive(Clone, Copy, Debug, PartialEq, Eq)]
pub struct Answer {
    pub number: u8,
    pub place: usize,
    pub statements: u16,
    pub cells: u16,
}

// An answer with the signals that a reaction gives, signal s at bit s, and the next state.
#[repr(C)]
#[derive(Clone, Copy, Debug, PartialEq, Eq)]
pub struct Reaction {
    pub number: u8,
    pub place: usize,
    pub statements: u16,
    pub cells: u16,
    pub signals: Bits,
    pub state: Bits,
}

// An answer with the numbers of inputs and outputs, both 0 on a refusal, of a netlist whose cells were handed out.
#[repr(C)]
#[derive(Clone, Copy, Debug, PartialEq, Eq)]
pub struct Listing {
    pub number: u8,
    pub place: usize,
    pub statements: u16,
    pub cells: u16,
    pub inputs: u16,
    pub outputs: u16,
}

// What reading alone answers.
#[repr(C)]
#[derive(Clone, Copy, Debug, PartialEq, Eq)]
pub struct Reading {
    pub number: u8,
    pub place: usize,
    pub statements: u16,
    pub halts: u16,
    pub signals: u16,
}

// The answer to a run over events, with the state after the last of them; a refusal has the state handed in.
#[repr(C)]
#[derive(Clone, Copy, Debug, PartialEq, Eq)]
pub struct Course {
    pub number: u8,
    pub place: usize,
    pub statements: u16,
    pub cells: u16,
    pub state: Bits,
}

// A fault in the paper's numbers, with counts 0.
pub fn refusal(f: Fault) -> Answer
    ensures { result ≡ Answers.refusal f }
{
    Answer {
        number: u8::from(f.refusal),
        place: f.place,
        statements: 0,
        cells: 0,
    }
}

// Acceptance, with the counts.
pub fn acceptance(statements: u16, cells: u16) -> Answer
    ensures { result ≡ Answers.acceptance statements cells }
{
    Answer {
        number: 0,
        place: 0,
        statements,
        cells,
    }
}

// The answer to a run over one event, with the signals that it gave.
pub fn reaction_of(c: Course, signals: Bits) -> Reaction
    ensures { result ≡ Answers.reaction_of c (whole signals) }
{
    let state = c.state;
    Reaction {
        number: c.number,
        place: c.place,
        statements: c.statements,
        cells: c.cells,
        signals,
        state,
    }
}

// An answer with the numbers of inputs and outputs of a netlist.
pub fn with_signals(a: Answer, inputs: u16, outputs: u16) -> Listing
    ensures { result ≡ Answers.with_signals a inputs outputs }
{
    Listing {
        number: a.number,
        place: a.place,
        statements: a.statements,
        cells: a.cells,
        inputs,
        outputs,
    }
}

// An answer with the state after the last event.
pub fn with_state(a: Answer, state: Bits) -> Course
    ensures { result ≡ Answers.with_state a (whole state) }
{
    Course {
        number: a.number,
        place: a.place,
        statements: a.statements,
        cells: a.cells,
        state,
    }
}

// EVENT, STATE, BUFFER, in this order, of what the checks say; `needed` is the length that the lent slices need.
#[tactic(auto, unfolding(crate::specs::Answers::stop_of, crate::specs::Answers::verdict, number::specs::Number::pick))]
pub fn first_fault(events: bool, state: bool, room: bool, needed: usize) -> Result<(), Fault>
    ensures { result ≡ Answers.stop_of (Answers.verdict Answers.passes events state room needed) }
{
    if !events {
        return Err(Refusal::Event.at(0));
    }
    if !state {
        return Err(Refusal::State.at(0));
    }
    if !room {
        return Err(Refusal::Buffer.at(needed));
    }
    Ok(())
}

// The length that the lent slices need: an entry for each event.
pub fn needed(events: &[u64]) -> usize
    ensures { result ≡ length events.now / words * words }
{
    bits::count(events) * bits::WORDS
}

// Whether both lent slices, so long, are as long as needed.
pub fn has_room(needed: usize, signals: usize, states: usize) -> bool
    ensures { result ≡ (leb needed signals && leb needed states) }
{
    needed <= signals && needed <= states
}
