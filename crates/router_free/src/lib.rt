// Who is free: the kept numbers as code. A command under way raises the number of the handler that it
// asks, its end lowers it, and a replaced handler has none.
//
// Where a number stands, and what each outcome does to it, is defined in room numbers. To answer whether
// a handler is free one row is looked up and one number is read: no wait and no owing is walked, and no
// thread but the one that is asked about is looked at. Every function takes any address and any thread.
#![tactic(auto)]

ghost use Rattle.std.specs.Prelude.{◌≡◌, ◌*◌, ◌≤◌, ◌<◌};
ghost use Rattle.lists.specs.Lists.{find};
ghost use Rattle.tapa.specs.Address.{handler_of};
ghost use Rattle.table.specs.Table.{is_at, rows_of};
ghost use Rattle.numbers.specs.Numbers.{cell_in, Cell, cell_of, raised_in, lowered_at, wiped, wiped_row};
ghost use Rattle.numbers.specs.Free.{free_in};

use tapa::Refusal;

// Threads are 0 to 7.
const LAST_THREAD: u8 = 7;

// ---- where a number stands

// The cell of the handler in a row.
fn cell_in(row: usize, handler: u16, thread: u8) -> usize
    requires { row < 16 }
    ensures { result ≡ cell_in row handler thread }
{
    if tapa::is_multi(handler) {
        return 8 * row + usize::from(thread);
    }
    8 * row
}

// The cell of an asked address, where it is one of the 128. A handler that has no row has none.
fn cell_of(cells: &[u32; 16], count: usize, asked: u16, thread: u8) -> Option<usize>
    requires { count ≤ 16 }
    ensures { Cell (cell_of (rows_of cells.now count) (handler_of asked) thread) result }
{
    let handler = tapa::handler(asked);
    let row = router_rows::row_of(cells, count, handler)?;
    let cell = cell_in(row, handler, thread);
    if cell < 128 { Some(cell) } else { None }
}

// ---- the numbers

// One command more under way that asks this address on this thread.
pub fn raise(cells: &[u32; 16], count: usize, numbers: &mut [u8; 128], asked: u16, thread: u8)
    requires { count ≤ 16 }
    ensures { numbers.new ≡ raised_in (cell_of (rows_of cells.now count) (handler_of asked) thread) numbers.old }
{
    if let Some(cell) = cell_of(cells, count, asked, thread) {
        numbers[cell] = numbers[cell].saturating_add(1);
    }
}

// One less.
pub fn lower(cells: &[u32; 16], count: usize, numbers: &mut [u8; 128], asked: u16, thread: u8)
    requires { count ≤ 16 }
    ensures { numbers.new ≡ lowered_at (cell_of (rows_of cells.now count) (handler_of asked) thread) numbers.old }
{
    if let Some(cell) = cell_of(cells, count, asked, thread) {
        numbers[cell] = numbers[cell].saturating_sub(1);
    }
}

// None left of a row, on any thread.
fn wipe_row(numbers: &mut [u8; 128], row: usize)
    requires { row < 16 }
    ensures { numbers.new ≡ wiped (8 * row) 8 numbers.old }
{
    numbers[8 * row..8 * row + 8].fill(0);
}

// None left of a handler.
pub fn wipe(cells: &[u32; 16], count: usize, numbers: &mut [u8; 128], handler: u16)
    requires { count ≤ 16 }
    ensures { numbers.new ≡ wiped_row (find (is_at handler) (rows_of cells.now count)) numbers.old }
{
    if let Some(row) = router_rows::row_of(cells, count, handler) {
        wipe_row(numbers, row);
    }
}

// ---- the question

// Whether the handler of an address is free on a thread.
pub fn is_free(
    cells: &[u32; 16],
    count: usize,
    numbers: &[u8; 128],
    address: u16,
    thread: u8,
) -> Result<bool, Refusal>
    requires { count ≤ 16 }
    ensures { result ≡ free_in (rows_of cells.now count) numbers.now address thread }
{
    let handler = tapa::handler(address);
    let Some(row) = router_rows::row_of(cells, count, handler) else {
        return Err(Refusal::NotInTable);
    };
    if LAST_THREAD < thread {
        return Err(Refusal::ThreadAbove7);
    }
    Ok(numbers[cell_in(row, handler, thread)] == 0)
}
