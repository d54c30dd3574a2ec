// Lookup tables of four pins: what one is, and its pins and truth table reordered together.
#![tactic(auto)]

mod rows;

ghost use Rattle.std.specs.Prelude.{◌≡◌, ◌<◌, length};
ghost use Rattle.tables.specs.Answering.{pins};
ghost use Rattle.tables.specs.Orders.{orders, order_at};
ghost use Rattle.tables.specs.Reordering.{table, moved_pins, moved_truth, Reorders};

use number::{CellNo, Refusal};

// The cell whose value the table answers, the cells at its pins, and a bit for each setting of the pins: pin p weighs 2 to the p.
#[repr(C)]
#[derive(Clone, Copy, Debug, PartialEq, Eq)]
pub struct Table {
    pub cell: CellNo,
    pub pins: [CellNo; Table::PINS],
    pub truth: u16,
}

// What a reorder answers: 0 with the table reordered, or ORDER with the table as it was. It goes through the C interface, which has no `Result`.
#[repr(C)]
#[derive(Clone, Copy, Debug, PartialEq, Eq)]
pub struct Reordered {
    pub number: u8,
    pub place: usize,
    pub table: Table,
}

impl Table {
    // The one place where the number of pins is written.
    pub const PINS: usize = 4;

    // Each pin may be low or high.
    pub const SETTINGS: usize = 1 << Table::PINS;

    // PINS factorial.
    pub const ORDERS: usize = 24;

    pub fn new(cell: CellNo, pins: [CellNo; Table::PINS], truth: u16) -> Table
        ensures { result ≡ table cell pins truth }
    {
        Table { cell, pins, truth }
    }

    // The pins in another order, and the truth table with them.
    pub fn reorder(self, order: u64) -> Reordered
        ensures { Reorders order self result }
    {
        if (Table::ORDERS as u64) <= order {
            return Reordered {
                number: u8::from(Refusal::Order),
                place: 0,
                table: self,
            };
        }
        let o = order as usize;
        let old = self.pins;
        let pins = moved_pins(old, o);
        let truth = moved_truth(self.truth, o);
        Reordered {
            number: 0,
            place: 0,
            table: Table::new(self.cell, pins, truth),
        }
    }
}

// Each new pin has the cell of the old pin that it carries. Its caller also learns here that as many pins came in as the array's type says.
fn moved_pins(old: [CellNo; Table::PINS], order: usize) -> [CellNo; Table::PINS]
    requires { order < orders }
    ensures { (result ≡ moved_pins (order_at order) old) × (length old ≡ pins) }
{
    let carried = rows::carried(order);
    let mut new = old;
    for (q, p) in carried.iter().enumerate() {
        new[q] = old[*p as usize];
    }
    new
}

// Each bit goes to the place that the order's row has for it.
fn moved_truth(truth: u16, order: usize) -> u16
    requires { order < orders }
    ensures { result ≡ moved_truth (order_at order) truth }
{
    let places = rows::places(order);
    let mut moved = 0;
    for (b, place) in places.iter().enumerate() {
        moved += (truth >> b) % 2 << *place;
    }
    moved
}
