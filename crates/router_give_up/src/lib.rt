// Give up and replaced: the calls that the kiosk makes of its own, without a message.
//
// A give up makes the wait that asks an address an owing, and writes a response to its asker. A
// replaced call ends a handler's owings and closes it. What is done is defined in `routing`
// (`OnGiveUp`, `OnReplaced`).
#![tactic(auto)]

ghost use Rattle.table.specs.Table.{Column};
ghost use Rattle.places.specs.Places as places;
ghost use Rattle.routing.specs.Steps.{OnGiveUp, OnReplaced};

use places::NoLeaf;
use routing::Step;
use rules::Outcome;
use tapa::Refusal;

// ---- Give up

// The wait that asks exactly this address becomes an owing, unless its handler holds a question.
pub fn on_give_up(
    list: &mut [u64; 48],
    len: usize,
    thread: u8,
    asked: u16,
    reply: &mut [u8],
) -> Step
    requires { places.Lawful list.old len }
    ensures { OnGiveUp list len thread asked reply result }
{
    if reply.len() < 10 {
        return routing::refuse(Refusal::BufferTooSmall, len);
    }
    if 7 < thread {
        return routing::refuse(Refusal::ThreadAbove7, len);
    }
    let at = match router_walks::leaf_at(list, len, asked, thread) {
        Ok(at) => at,
        Err(NoLeaf::Missing) => return routing::refuse(Refusal::NothingToGiveUp, len),
        Err(NoLeaf::Holds) => return routing::refuse(Refusal::HoldsAQuestion, len),
    };
    let wait = router_walks::place_at(list, len, at);
    let asker = wait.asker;
    message_writer::respond(reply, asker, asked, thread, tapa::HANDLER_ERROR);
    router_changes::owe(list, len, at);
    Step {
        outcome: Outcome::Given {
            asker,
            asked,
            thread,
        },
        len,
    }
}

// ---- Replaced

pub fn on_replaced(
    cells: &mut [u32; 16],
    count: usize,
    list: &mut [u64; 48],
    len: usize,
    address: u16,
) -> Step
    requires lawful { places.Lawful list.old len }
    requires column { Column cells.old count }
    ensures { OnReplaced cells count list len address result }
{
    let handler = tapa::handler(address);
    if !router_rows::is_listed(cells, count, handler) {
        return routing::refuse(Refusal::NotInTable, len);
    }
    if router_walks::stands_in(list, len, handler) {
        return routing::refuse(Refusal::StandsInAWait, len);
    }
    router_rows::set_open(cells, count, handler, false);
    let less = router_changes::drop_owed(list, len, handler);
    Step {
        outcome: Outcome::Reset { handler },
        len: less,
    }
}
