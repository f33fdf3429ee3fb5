// Session begun: the rows of a session file are read, and a router is started over them.
//
// The rows come first in the file. A broken one ends the run, and comes before the table is checked; a
// table that is refused ends it too. Otherwise the steps are next, which crate `session_turns` takes one
// by one. The state before the first item leaves all that the input has (crate `run`, `Begins`).
#![tactic(auto)]

ghost use Rattle.std.specs.Prelude.{◌≡◌, ◌≤◌, length};
ghost use Rattle.table.specs.Table.{Held};
ghost use Rattle.run.specs.Start.{heading_of, stage_of, cursor_at, started_by, Begins};

use fields::NextRow;
use router::Router;
use run::{Cursor, Heading, Item, Session, Stage, Tally};
use table::Row;
use tapa::Refusal;

// ---- the rows

// The rows of an input, up to the first field that is none.
fn read_rows(input: &[u8]) -> Heading
    requires { length input.now ≤ 65536 }
    ensures { result ≡ heading_of input.now }
{
    let mut rows = table::no_rows();
    let mut at = 0;
    let mut number = 1;
    loop {
        match fields::row_at(input, at) {
            NextRow::Row {
                address,
                opened,
                next,
            } => {
                rows = table::with_row(rows, Row { address, opened });
                at = next;
                number += 1;
            }
            NextRow::Torn => {
                return Heading {
                    rows,
                    at,
                    number,
                    torn: true,
                };
            }
            NextRow::Over => {
                return Heading {
                    rows,
                    at,
                    number,
                    torn: false,
                };
            }
        }
    }
}

// ---- the state before the first item

// A broken row comes before the table is checked.
fn stage_after(torn: bool, number: usize, answer: Result<(), Refusal>) -> Stage
    ensures { result ≡ stage_of torn number answer }
{
    if torn {
        return Stage::Settled(Item::Broken(number));
    }
    match answer {
        Err(refusal) => Stage::Settled(Item::Refused(refusal)),
        Ok(()) => Stage::Steps,
    }
}

// The state after the rows, with a router: the first line is number 1.
fn after_rows(heading: Heading, router: Router, answer: Result<(), Refusal>) -> Session
    ensures cursor { result.cursor ≡ cursor_at heading.at heading.number (stage_of heading.torn heading.number answer) }
    ensures router { result.router ≡ router }
{
    Session {
        cursor: Cursor {
            at: heading.at,
            number: heading.number,
            step: 1,
            tally: Tally {
                accepted: 0,
                answered: 0,
                given: 0,
            },
            stage: stage_after(heading.torn, heading.number, answer),
        },
        router,
    }
}

// The table is checked. A refused one leaves a blank router.
fn started(heading: Heading) -> Session
    requires { Held heading.rows }
    ensures { result ≡ started_by heading }
{
    match start::start_with(heading.rows) {
        Ok(router) => after_rows(heading, router, Ok(())),
        Err(refusal) => after_rows(heading, start::blank(), Err(refusal)),
    }
}

// Begins a session. An input that is too long has no rows.
pub fn begin(input: &[u8]) -> Session
    ensures { Begins input.now result }
{
    if 65536 < input.len() {
        let router = start::blank();
        return Session {
            cursor: Cursor {
                at: 0,
                number: 1,
                step: 1,
                tally: Tally {
                    accepted: 0,
                    answered: 0,
                    given: 0,
                },
                stage: Stage::Settled(Item::TooLong),
            },
            router,
        };
    }
    let heading = read_rows(input);
    started(heading)
}
