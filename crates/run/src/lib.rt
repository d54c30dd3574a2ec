// The clocks of a netlist: the values of its cells in one clock, its outputs and its next state; and many clocks, one after the other.
#![tactic(auto)]

ghost use Rattle.std.specs.Prelude.{◌≡◌, ◌&&◌, ◌||◌, [], ◌∷◌, ℕ, ◌<◌, ◌≤◌, eqb, length, get_or};
ghost use Rattle.std.proofs.lemmas.List.Edits.{sets};
ghost use Rattle.number.specs.Counts.{of_cell};
ghost use Rattle.number.specs.declared.CellNo.{CellNo};
ghost use Rattle.number.specs.declared.SignalNo.{SignalNo};
ghost use Rattle.limits.specs.Limits.{max_signals, max_registers};
ghost use Rattle.bits.specs.Bits.{has, signals_in, width, whole};
ghost use Rattle.cells.specs.Words.{cells_of};
ghost use Rattle.cells.specs.Needs.{pins_of, Among};
ghost use Rattle.cells.specs.Values as Values;
ghost use Rattle.cells.specs.Values.{value, Solves, operands_of};
ghost use Rattle.run.specs.Words.{event_ok, state_ok, outputs_of};
ghost use Rattle.run.specs.React as React;
ghost use Rattle.run.specs.React.{nets_in, HasSignals, Numbered, fed, Numberable, Numbers, Clockable, Clock};
ghost use Rattle.run.specs.Many.{events_ok, Room, Ran};

use bits::Bits;
use cells::Cell;
use number::CellNo;

// Whether an event has nothing but the inputs 1 to i.
fn event_ok(i: u32, event: Bits) -> bool
    requires { i < max_signals }
    ensures { result ≡ event_ok i (whole event) }
{
    !event.member(bits::TICK) && event.none_from(1 + i)
}

// Whether there are whole events, and each of them has nothing but the inputs 1 to i.
pub fn events_ok(i: u32, events: &[u64]) -> bool
    requires { i < max_signals }
    ensures { result ≡ events_ok i events.now }
{
    if !bits::is_whole(events) {
        return false;
    }
    for j in 0..bits::count(events) {
        if !event_ok(i, Bits::read(events, j)) {
            return false;
        }
    }
    true
}

// Whether a state has no bit past k registers.
pub fn state_ok(k: u32, state: Bits) -> bool
    ensures { result ≡ state_ok k (whole state) }
{
    state.none_from(k)
}

// The next operand at place k where the cell is a register; the place after it.
fn with_operand(operands: &mut [u16], k: usize, c: Cell) -> usize
    requires { Values.tally c k ≤ length operands.old }
    ensures { (result ≡ Values.tally c k) × (operands.new ≡ sets operands.old k (operands_of (c ∷ []))) }
{
    match c {
        Cell::Register(x) => {
            operands[k] = x.number();
            k + 1
        }
        _ => k,
    }
}

// Once for all clocks: which bit each cell is, if it is a register, and the registers' operands in the order of their bits. How many there are.
pub fn number_registers(cells: &[u64], places: &mut [u16], operands: &mut [u16]) -> usize
    requires { Numberable (cells_of cells.now) places.old operands.old }
    ensures { Numbers (cells_of cells.now) places.new operands.new result }
{
    let mut k: usize = 0;
    for (i, w) in cells.iter().enumerate() {
        places[i] = k as u16;
        k = with_operand(operands, k, cells::cell_in(*w));
    }
    k
}

// The value of a net.
fn net(values: &[bool], x: CellNo) -> bool
    requires { of_cell x < length values.now }
    ensures { result ≡ nets_in values.now x }
{
    values[x.number() as usize]
}

// What a cell asks for whose operands have their values; `bit` is the one that it is, if it is a register.
fn value_of(c: Cell, bit: u16, state: Bits, event: Bits, values: &[bool]) -> bool
    requires { (y : CellNo) → Among (pins_of c) y → of_cell y < length values.now }
    ensures { result ≡ value (signals_in (whole event)) (has (whole state) bit) (nets_in values.now) c }
{
    match c {
        Cell::Low => false,
        Cell::High => true,
        Cell::Input(s) => event.member(bits::signal_bit(s)),
        Cell::Gate(g, x, y) => cells::gate_value(g, net(values, x), net(values, y)),
        Cell::Register(_) => state.member(bit as u32),
    }
}

// w, with k where it is on.
fn with_bit(w: Bits, k: u32, on: bool) -> Bits
    requires { k < width }
    ensures { (j : ℕ) → has (whole result) j ≡ (has (whole w) j || (eqb j k && on)) }
{
    if on { w.add(k) } else { w }
}

// A netlist made ready for its clocks: an order of its cells, the bit that each is, if it is a register, and the registers' operands. It was judged and
// ordered and its registers were numbered before, so that each clock costs no more than these methods.
#[derive(Clone, Copy, Debug, PartialEq, Eq)]
pub struct Ready<'a> {
    pub cells: &'a [u64],
    pub order: &'a [u16],
    pub places: &'a [u16],
    pub operands: &'a [u16],
    pub inputs: u32,
    pub outputs: u32,
}

impl<'a> Ready<'a> {
    // The values of all cells in one clock, the one solution of their equations, in the order found once.
    fn settle(&self, state: Bits, event: Bits, values: &mut [bool])
        requires { React.Ready (cells_of self.now.cells.now) self.now.order.now values.old × Numbered (cells_of self.now.cells.now) self.now.places.now }
        ensures { Solves (signals_in (whole event)) (has (whole state)) (cells_of self.now.cells.now) (nets_in values.new) }
    {
        for n in &self.order[..self.cells.len()] {
            let x = *n as usize;
            let v = value_of(
                cells::cell_in(self.cells[x]),
                self.places[x],
                state,
                event,
                values,
            );
            values[x] = v;
        }
    }

    // The outputs that are present.
    fn shown(&self, values: &[bool]) -> Bits
        requires { HasSignals self.now.inputs self.now.outputs (length values.now) }
        ensures { (s : SignalNo) → signals_in (whole result) s ≡ outputs_of self.now.inputs self.now.outputs (nets_in values.now) s }
    {
        let mut w = Bits::empty();
        for s in 1 + self.inputs..1 + self.inputs + self.outputs {
            w = with_bit(w, s, values[1 + s as usize]);
        }
        w
    }

    // The next state: the values of the registers' operands, each at its bit.
    fn next_state(&self, values: &[bool]) -> Bits
        requires { (length self.now.operands.now ≤ max_registers)
            × ((b : ℕ) → b < length self.now.operands.now → get_or self.now.operands.now b 0 < length values.now) }
        ensures { (b : ℕ) → has (whole result) b ≡ fed self.now.operands.now (nets_in values.now) b }
    {
        let mut w = Bits::empty();
        for (k, x) in self.operands.iter().enumerate() {
            w = with_bit(w, k as u32, values[*x as usize]);
        }
        w
    }

    // A clock for each event, each from the state after the one before; `interpreter::moments` says why the two loops are two. The outputs and the states go
    // to the first places of the lent slices; the last state comes back.
    pub fn clocks(
        &self,
        state: Bits,
        events: &[u64],
        values: &mut [bool],
        signals: &mut [u64],
        states: &mut [u64],
    ) -> Bits
        requires { Clockable self.now.inputs self.now.outputs (cells_of self.now.cells.now)
            self.now.order.now self.now.places.now self.now.operands.now values.old × Room events.now signals.old states.old }
        ensures { Ran (Clock self.now.inputs self.now.outputs (cells_of self.now.cells.now)) (whole state) events.now
            signals.old signals.new states.old states.new (whole result) }
    {
        let mut last = state;
        for j in 0..bits::count(events) {
            self.settle(last, Bits::read(events, j), values);
            self.shown(values).write(signals, j);
            last = self.next_state(values);
            last.write(states, j);
        }
        last
    }
}
