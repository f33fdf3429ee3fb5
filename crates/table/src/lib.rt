// The table of handlers: rows of address and open or closed.
//
// Rows are held by value in one column of numbers, which is cheap to lend and to carry in a
// state: a row's number is twice its address, and one more where it is open.
//
// What makes a table, and what is said of one, are definitions here (specs/), with their laws. The
// code stands in two rooms: router_rows looks rows up and marks them, setup has the checks and reads
// the rows that a caller lends. Rows by value are made here alone, since a struct's fields are private
// to its crate: so every one there is keeps its law (`Held`).
//
// A row of an accepted table names its handler: its sub-address has no top bit.
#![tactic(auto)]

ghost use Rattle.std.specs.Prelude.{◌≡◌};
ghost use Rattle.table.specs.Table.{pack, no_rows, with_row};

use tapa::Refusal;

#[derive(Clone, Copy)]
pub struct Row {
    pub address: u16,
    pub opened: bool,
}

// Up to 16 rows by value, and whether there were more. Cells past the rows are zeros. Nobody makes one
// by hand: `no_rows` and `with_row` do. `more` stays a flag: `with_row` cannot fail, and a row too many is
// refused only when the table is checked, after a broken row (`judge_rows`, `stage_of`).
#[derive(Clone, Copy)]
pub struct Rows {
    cells: [u32; 16],
    count: usize,
    more: bool,
}

// A row as a number.
impl From<Row> for u32 {
    ghost from_gives = { λ row number. number ≡ pack row };

    fn from(row: Row) -> u32 {
        u32::from(row.address) * 2 + u32::from(row.opened)
    }
}

pub fn no_rows() -> Rows
    ensures { result ≡ no_rows }
{
    Rows {
        cells: [0; 16],
        count: 0,
        more: false,
    }
}

// One row more. A seventeenth is only noted.
pub fn with_row(rows: Rows, row: Row) -> Rows
    ensures { result ≡ with_row rows row }
{
    let at = rows.count;
    let mut next = rows;
    if at < 16 {
        next.cells[at] = u32::from(row);
        next.count = at + 1;
    } else {
        next.more = true;
    }
    next
}

impl Rows {
    pub fn cells(self) -> [u32; 16]
        ensures { result ≡ self.cells }
    {
        self.cells
    }

    pub fn count(self) -> usize
        ensures { result ≡ self.count }
    {
        self.count
    }

    // Whether there was a row that found no cell.
    pub fn more(self) -> bool
        ensures { result ≡ self.more }
    {
        self.more
    }
}
