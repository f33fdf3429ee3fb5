// The start: a fresh router over a table that is accepted.
//
// A program that lends its rows sets the table up with `setup::set_up` or `setup::set_up_own`, and
// starts here from what that hands back. What a start requires of rows and of a table holds of all there are:
// nobody makes one by hand (rooms table and setup). A refused table starts nothing; who needs a router all
// the same takes the blank one.
#![tactic(auto)]

ghost use Rattle.std.specs.Prelude.{◌≡◌, Ok};
ghost use Rattle.table.specs.Table.{Held};
ghost use Rattle.setup.specs.Setup.{Settled};
ghost use Rattle.start.specs.Start.{fresh_over, blank as blank_router, started, start_with};

use router::Router;
use setup::Accepted;
use table::Rows;
use tapa::Refusal;

// A router over rows, before its first call: no place is in use.
fn fresh_over(rows: Rows) -> Router
    ensures { result ≡ fresh_over rows }
{
    let cells = rows.cells();
    let count = rows.count();
    let list = [0; 48];
    router::state_of(cells, count, list, 0)
}

// The router where a table is refused: over no rows.
pub fn blank() -> Router
    ensures { result ≡ blank_router }
{
    fresh_over(table::no_rows())
}

// A fresh router over the table that set-up accepted; a refusal goes on.
pub fn start_from(set: Result<Accepted, Refusal>) -> Result<Router, Refusal>
    requires { (table : Accepted) → set ≡ Ok table → Settled table }
    ensures { result ≡ started set }
{
    Ok(fresh_over(set?.rows()))
}

// A fresh router over rows by value, where they are a table.
pub fn start_with(rows: Rows) -> Result<Router, Refusal>
    requires { Held rows }
    ensures { result ≡ start_with rows }
{
    start_from(setup::set_up_with(rows))
}
