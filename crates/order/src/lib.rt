// CYCLE: an order in which each cell stands after those that it needs in the same clock, or the lowest cell on a cycle.
#![tactic(auto)]

ghost use Rattle.std.specs.Prelude.{◌≡◌, ◌+◌, ◌<◌, ◌≤◌, ◌↔◌, IsTrue, length};
ghost use Rattle.number.specs.Counts.{of_cell};
ghost use Rattle.number.specs.Refusals.{fault};
ghost use Rattle.number.specs.declared.Refusal.TheVariants.{Cycle as CycleFault};
ghost use Rattle.cells.specs.Words.{cells_of};
ghost use Rattle.cells.specs.Needs.{IsCell, Closed};
ghost use Rattle.order.specs.Paths.{OnCycle, Lowest, Orderable, Answers};
ghost use Rattle.order.specs.Search.{WorkRoom, progress, IsUnmarked, unmet, Searching, IsNext, HasCycle, Stepped, Visited, AllVisited, Noted, Expanded};

use number::{CellNo, Fault, Refusal};

// The lowest cell on a cycle: no order of the cells is there.
#[derive(Clone, Copy, Debug, PartialEq, Eq, Hash)]
pub struct Cycle {
    pub lowest: CellNo,
}

// "CYCLE", at the number of the cell.
impl From<Cycle> for Fault {
    ghost from_gives = { λ c f. f ≡ fault CycleFault (of_cell c.lowest) };

    fn from(c: Cycle) -> Fault {
        Refusal::Cycle.at(c.lowest.number() as usize)
    }
}

// How far a search has come with a cell: it was not met, what it needs is looked at, or it is placed.
#[derive(Clone, Copy, Debug, PartialEq, Eq)]
enum Mark {
    New,
    Open,
    Placed,
}

// What is next for the cell on top of the stack: an operand that no search has met, an operand that is below it on the stack, or its place.
#[derive(Clone, Copy, Debug, PartialEq, Eq)]
enum Next {
    Fresh(CellNo),
    Back,
    Clear,
}

// A search over the cells: how far it has come with each, and a column with a place for each, where cells wait and are placed.
#[derive(Drop)]
struct Search<'a> {
    cells: &'a [u64],
    marks: [Mark; limits::MAX_CELLS],
    column: &'a mut [u16],
    ghost closed: { Closed (cells_of cells.now) },
    ghost room: { WorkRoom (cells_of cells.now) marks column.now },
}

impl<'a> Search<'a> {
    // What is next for the cell x.
    fn look(&self, x: CellNo) -> Next
        ensures { IsNext (cells_of self.now.cells.now) self.now.marks x result }
    {
        let Some((a, b)) = cells::pins_at(self.cells, x) else {
            return Next::Clear;
        };
        match self.marks[a.number() as usize] {
            Mark::New => return Next::Fresh(a),
            Mark::Open => return Next::Back,
            Mark::Placed => {}
        }
        match self.marks[b.number() as usize] {
            Mark::New => Next::Fresh(b),
            Mark::Open => Next::Back,
            Mark::Placed => Next::Clear,
        }
    }

    // The cell on top of the stack: an operand that is new comes on top of it, or it is placed. A cell is on top three times at most. The stack grows down
    // from the end of the column, the placed cells up from its beginning: together they are never more than all cells.
    fn advance(&mut self, top: usize, count: usize) -> Option<(usize, usize)>
        requires { Searching (cells_of self.old.cells.now) self.old.marks self.old.column.now top count × (0 < top) }
        ensures same { self.new.cells ≡ self.old.cells }
        ensures lent { self.new.column.ghost_name ≡ self.old.column.ghost_name }
        ensures stepped { Stepped (cells_of self.old.cells.now) self.old.marks top self.new.marks self.new.column.now result }
    {
        let at = self.column.len() - top;
        let x = self.column[at];
        match self.look(CellNo::new(x)) {
            Next::Fresh(y) => {
                let n = y.number();
                self.marks[n as usize] = Mark::Open;
                self.column[at - 1] = n;
                Some((top + 1, count))
            }
            Next::Back => None,
            Next::Clear => {
                self.marks[x as usize] = Mark::Placed;
                self.column[count] = x;
                Some((top - 1, count + 1))
            }
        }
    }

    // The search from the cell x, where it is new.
    fn visit(&mut self, x: CellNo, count: usize) -> Option<usize>
        requires { Searching (cells_of self.old.cells.now) self.old.marks self.old.column.now 0 count × IsCell (cells_of self.old.cells.now) x }
        ensures same { self.new.cells ≡ self.old.cells }
        ensures lent { self.new.column.ghost_name ≡ self.old.column.ghost_name }
        ensures visited { Visited (cells_of self.old.cells.now) self.old.marks self.new.marks self.new.column.now x result }
    {
        let n = x.number();
        match self.marks[n as usize] {
            Mark::New => self.marks[n as usize] = Mark::Open,
            _ => return Some(count),
        }
        let end = self.column.len();
        self.column[end - 1] = n;
        let mut top: usize = 1;
        let mut done = count;
        // No index: cells come on the stack and go.
        while 0 < top {
            let (t, d) = self.advance(top, done)?;
            top = t;
            done = d;
        }
        Some(done)
    }

    // The search from each cell in turn.
    fn place_all(&mut self) -> Option<usize>
        requires { IsUnmarked self.old.marks }
        ensures same { self.new.cells ≡ self.old.cells }
        ensures lent { self.new.column.ghost_name ≡ self.old.column.ghost_name }
        ensures visited { AllVisited (cells_of self.old.cells.now) self.new.column.now result }
    {
        let mut count: usize = 0;
        for i in 0..self.cells.len() {
            count = self.visit(CellNo::new(i as u16), count)?;
        }
        Some(count)
    }

    // The cell y waits on the stack, where it was not seen before.
    fn note(&mut self, top: usize, y: CellNo) -> usize
        requires { (of_cell y < length self.old.marks) × (progress self.old.marks y ≡ 0 → top < length self.old.column.now) }
        ensures same { self.new.cells ≡ self.old.cells }
        ensures noted { Noted self.old.marks self.old.column.now top y self.new.marks self.new.column.now result }
    {
        let n = y.number();
        match self.marks[n as usize] {
            Mark::New => {
                self.marks[n as usize] = Mark::Open;
                self.column[top] = n;
                top + 1
            }
            _ => top,
        }
    }

    // What the cell x needs is noted.
    fn expand(&mut self, top: usize, x: CellNo) -> usize
        requires { top + unmet (length (cells_of self.old.cells.now)) self.old.marks ≤ length (cells_of self.old.cells.now) }
        ensures same { self.new.cells ≡ self.old.cells }
        ensures expanded { Expanded (cells_of self.old.cells.now) self.old.marks self.old.column.now top x self.new.marks self.new.column.now result }
    {
        let Some((a, b)) = cells::pins_at(self.cells, x) else {
            return top;
        };
        let t = self.note(top, a);
        self.note(t, b)
    }

    // Whether the cell c reaches itself.
    fn on_cycle(&mut self, c: CellNo) -> bool
        requires { IsUnmarked self.old.marks × IsCell (cells_of self.old.cells.now) c }
        ensures same { self.new.cells ≡ self.old.cells }
        ensures answer { IsTrue result ↔ OnCycle (cells_of self.old.cells.now) c }
    {
        let mut top = self.expand(0, c);
        // No index: cells come on the stack and go.
        while 0 < top {
            let at = top - 1;
            let x = CellNo::new(self.column[at]);
            top = self.expand(at, x);
        }
        !matches!(self.marks[c.number() as usize], Mark::New)
    }

    // The lowest cell on a cycle, where there is one. Each cell below it is searched from: only a refusal pays for that.
    fn lowest(&mut self) -> CellNo
        requires { HasCycle (cells_of self.old.cells.now) }
        ensures { Lowest (cells_of self.old.cells.now) result }
    {
        for low in 0..self.cells.len() {
            let c = CellNo::new(low as u16);
            self.marks.fill(Mark::New);
            if self.on_cycle(c) {
                return c;
            }
        }
        unreachable!()
    }
}

// An order of the cells, in the first places of `order`, or the lowest cell on a cycle. What `order` holds at entry does not matter; on a cycle it is left
// as the search left it. No number of cells makes the calls nest deeper.
pub fn order_cells(cells: &[u64], order: &mut [u16]) -> Result<(), Cycle>
    requires { Orderable (cells_of cells.now) order.old }
    ensures { Answers (cells_of cells.now) order.new result }
{
    let mut search = Search {
        cells,
        marks: [Mark::New; limits::MAX_CELLS],
        column: order,
    };
    match search.place_all() {
        Some(_) => Ok(()),
        None => Err(Cycle {
            lowest: search.lowest(),
        }),
    }
}
