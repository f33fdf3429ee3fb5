// The rows of a table, as code: looked up, and marked as open or closed.
//
// A row is one number in a column of 16 (room table says which). A look-up takes the column of any
// table of at most 16 rows. A mark keeps the law of the column, and with the rows the law leaves one
// column possible (table, proofs/Once.antt).
#![tactic(auto)]

ghost use Rattle.std.specs.Prelude.{◌≡◌, ◌≤◌};
ghost use Rattle.lists.specs.Lists.{find};
ghost use Rattle.table.specs.Table.{address_at, is_at, listed, opened_at, Column, Opened, rows_of};

use table::Row;

// ---- a row by its number

// The address of row i; past the cells it is 0.
pub fn address_at(cells: &[u32; 16], i: usize) -> u16
    ensures { result ≡ address_at cells.now i }
{
    if i < 16 {
        return (cells[i] / 2 % 0x10000) as u16;
    }
    0
}

// ---- look-up by handler
//
// A look-up walks all rows and has no early way out: so the compiler can compare several cells at once.

pub fn is_listed(cells: &[u32; 16], count: usize, handler: u16) -> bool
    requires { count ≤ 16 }
    ensures { result ≡ listed handler (rows_of cells.now count) }
{
    let wanted = u32::from(handler);
    let mut found = false;
    for cell in &cells[..count] {
        if *cell / 2 == wanted {
            found = true;
        }
    }
    found
}

// The number of a handler's row.
pub fn row_of(cells: &[u32; 16], count: usize, handler: u16) -> Option<usize>
    requires { count ≤ 16 }
    ensures { result ≡ find (is_at handler) (rows_of cells.now count) }
{
    let wanted = u32::from(handler);
    let mut found = None;
    for (i, cell) in cells[..count].iter().enumerate() {
        if *cell / 2 == wanted {
            found = Some(i);
        }
    }
    found
}

pub fn is_open(cells: &[u32; 16], count: usize, handler: u16) -> bool
    requires { count ≤ 16 }
    ensures { result ≡ opened_at handler (rows_of cells.now count) }
{
    let wanted = u32::from(handler) * 2 + 1;
    let mut found = false;
    for cell in &cells[..count] {
        if *cell == wanted {
            found = true;
        }
    }
    found
}

// ---- marks

// Marks a handler's row as open or closed. A handler that has no row changes nothing.
pub fn set_open(cells: &mut [u32; 16], count: usize, handler: u16, to: bool)
    requires { Column cells.old count }
    ensures { Opened cells.old cells.new count handler to }
{
    if let Some(i) = row_of(cells, count, handler) {
        cells[i] = u32::from(Row {
            address: handler,
            opened: to,
        });
    }
}
