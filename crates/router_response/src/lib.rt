// Type 'FF': what a response does to the arrays of a state.
//
// The wait of exactly its source and thread is answered and ends, and an answered Open Handler or
// Close Handler marks its row. Where no wait wants the response, an owing of it swallows it and ends.
// What is decided is defined in `rules` (`judge_response`), what is done in `routing`.
#![tactic(auto)]

ghost use Rattle.std.specs.Prelude.{◌≡◌};
ghost use Rattle.table.specs.Table.{Column};
ghost use Rattle.places.specs.Places as places;
ghost use Rattle.rules.specs.declared.Outcome.TheVariants.{Answered};
ghost use Rattle.rules.specs.Judge.{late};
ghost use Rattle.ruling.specs.Ruling.{places_in};
ghost use Rattle.routing.specs.Steps.{Placed, OnResponse, OpenOrClosed};

use message::Head;
use place::Place;
use places::NoLeaf;
use routing::Step;
use rules::Outcome;
use tapa::Refusal;

// The handler of an answered Open Handler or Close Handler becomes open or closed.
fn open_or_close(cells: &mut [u32; 16], count: usize, wait: Place, code: u16)
    requires { Column cells.old count }
    ensures { OpenOrClosed cells.old cells.new count wait code }
{
    if code != tapa::SUCCESSFUL {
        return;
    }
    if wait.kind == tapa::OPEN_HANDLER {
        router_rows::set_open(cells, count, tapa::handler(wait.asked), true);
        return;
    }
    if wait.kind == tapa::CLOSE_HANDLER {
        router_rows::set_open(cells, count, tapa::handler(wait.asked), false);
    }
}

// A response that no wait wants: it is owed, or it is a stray.
fn on_late(list: &mut [u64; 48], len: usize, head: Head) -> Step
    requires { places.Lawful list.old len }
    ensures { Placed (late (places_in list len) head) list len result }
{
    let Some(at) = router_walks::find_owed(list, len, head.source, head.thread) else {
        return routing::refuse(Refusal::StrayResponse, len);
    };
    let less = router_changes::remove(list, len, at);
    Step {
        outcome: Outcome::Swallowed {
            asked: head.source,
            thread: head.thread,
        },
        len: less,
    }
}

fn answered(head: Head, code: u16) -> Outcome
    ensures { result ≡ Answered head.source head.destination head.thread code }
{
    Outcome::Answered {
        asked: head.source,
        asker: head.destination,
        thread: head.thread,
        code,
    }
}

// By the wait of exactly its source: there is none; its handler holds a question (7); it has another
// asker (8); or it ends.
pub fn on_response(
    cells: &mut [u32; 16],
    count: usize,
    list: &mut [u64; 48],
    len: usize,
    head: Head,
    coded: Option<u16>,
) -> Step
    requires lawful { places.Lawful list.old len }
    requires column { Column cells.old count }
    ensures { OnResponse cells count list len head coded result }
{
    let Some(code) = coded else {
        return routing::refuse(Refusal::NoResponseCode, len);
    };
    let at = match router_walks::leaf_at(list, len, head.source, head.thread) {
        Ok(at) => at,
        Err(NoLeaf::Missing) => return on_late(list, len, head),
        Err(NoLeaf::Holds) => return routing::refuse(Refusal::StrayResponse, len),
    };
    let wait = router_walks::place_at(list, len, at);
    if wait.asker != head.destination {
        return routing::refuse(Refusal::WrongAsker, len);
    }
    open_or_close(cells, count, wait, code);
    let less = router_changes::remove(list, len, at);
    let outcome = answered(head, code);
    Step { outcome, len: less }
}
