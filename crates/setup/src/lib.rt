// Table set-up: the checks of a table, and the rows that a caller lends.
//
// The caller lends the rows as a slice of structs. They are read in order into rows by value (room
// table) and then checked: the row count, and in three passes every row's shape, repeats, and the
// number of multi rows. What each check says is defined in room table.
//
// `read_rows` and `set_up` are thin: all work is in functions over the column.
//
// What set-up hands back is made here alone, since a struct's fields are private to its crate: so every
// one there is keeps its law (`Settled`).
#![tactic(auto)]

ghost use Rattle.std.specs.Prelude.{◌≡◌, ◌≤◌, ◌<◌, length, get_or, take};
ghost use Rattle.lists.specs.Lists.{some_of, count as count_of};
ghost use Rattle.table.specs.Table.{Narrow, rows_of, shaped, misshapen, repeats, is_multi, judge_table, judge_rows, rows_read};
ghost use Rattle.setup.specs.Setup.{set_up_with, set_up_of};

use table::{Row, Rows};
use tapa::Refusal;

// An accepted table: its rows by value. Nobody makes one by hand: `set_up`, `set_up_own` and `set_up_with`
// do, and answer a refusal for rows that are no table.
#[derive(Clone, Copy)]
pub struct Accepted {
    rows: Rows,
}

// ---- acceptance

// The shape of an address that may stand in a row.
#[tactic(auto, unfolding(table::specs::Table::shaped, tapa::specs::Address::category_of, tapa::specs::Address::sub_address_of))]
fn is_shaped(address: u32) -> bool
    ensures { result ≡ shaped address }
{
    if 7 < address / 256 {
        return false;
    }
    if 127 < address % 256 {
        return false;
    }
    if address / 256 == 7 {
        return address == tapa::EVENT_HANDLER as u32;
    }
    true
}

fn has_misshapen(cells: &[u32; 16], count: usize) -> bool
    requires { count ≤ 16 }
    ensures { result ≡ some_of misshapen (rows_of cells.now count) }
{
    cells[..count].iter().any(|cell| !is_shaped(*cell / 2))
}

// Of rows that are shaped.
fn has_repeats(cells: &[u32; 16], count: usize) -> bool
    requires { Narrow cells.now count }
    ensures { result ≡ repeats (rows_of cells.now count) }
{
    (0..count).any(|i| router_rows::is_listed(cells, i, router_rows::address_at(cells, i)))
}

// Of rows that are shaped.
fn multi_count(cells: &[u32; 16], count: usize) -> usize
    requires { Narrow cells.now count }
    ensures { result ≡ count_of is_multi (rows_of cells.now count) }
{
    (0..count)
        .filter(|i| tapa::is_multi(router_rows::address_at(cells, *i)))
        .count()
}

// Whether the rows of a column are a table.
fn check_column(cells: &[u32; 16], count: usize) -> Result<(), Refusal>
    ensures { result ≡ judge_table (rows_of cells.now count) }
{
    if count < 1 {
        return Err(Refusal::RowCountOrShape);
    }
    if 16 < count {
        return Err(Refusal::RowCountOrShape);
    }
    if has_misshapen(cells, count) {
        return Err(Refusal::RowCountOrShape);
    }
    if has_repeats(cells, count) {
        return Err(Refusal::Repeat);
    }
    if 4 < multi_count(cells, count) {
        return Err(Refusal::TooManyMulti);
    }
    Ok(())
}

// Whether these rows are a table. A row that found no cell is one too many.
pub fn check(rows: Rows) -> Result<(), Refusal>
    ensures { result ≡ judge_rows rows }
{
    if rows.more() {
        return Err(Refusal::RowCountOrShape);
    }
    let cells = rows.cells();
    check_column(&cells, rows.count())
}

// ---- set-up

impl Accepted {
    pub fn rows(self) -> Rows
        ensures { result ≡ self.rows }
    {
        self.rows
    }
}

// The work of set-up, over rows by value.
pub fn set_up_with(rows: Rows) -> Result<Accepted, Refusal>
    ensures { result ≡ set_up_with rows }
{
    check(rows)?;
    Ok(Accepted { rows })
}

// ---- the lent rows

// The lent rows by value, read in order.
pub fn read_rows(rows: &[Row]) -> Rows
    ensures { result ≡ rows_read rows.now }
{
    let mut held = table::no_rows();
    for row in rows {
        held = table::with_row(held, *row);
    }
    held
}

// Table set-up: the lent rows are read, and kept where they are a table.
pub fn set_up(rows: &[Row]) -> Result<Accepted, Refusal>
    ensures { result ≡ set_up_of rows.now }
{
    set_up_with(read_rows(rows))
}

// Set-up with the first rows of one's own. There is one place more than a table has, so that a
// table that is too long can be lent too.
pub fn set_up_own(rows: [Row; 17], count: usize) -> Result<Accepted, Refusal>
    ensures { result ≡ set_up_of (take count rows) }
{
    set_up(&rows[..count.min(17)])
}
