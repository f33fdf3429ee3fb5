// The code that decides: what the rules say of an event or a command, with no change to anything.
//
// Each function is held to a definition of `rules`: whether an event is taken, and which of the rules
// a to e is the first that applies to a command.
#![tactic(auto)]

ghost use Rattle.std.specs.Prelude.{◌≡◌, ◌≤◌};
ghost use Rattle.table.specs.Table.{rows_of};
ghost use Rattle.places.specs.Places.{Lawful, places_of};
ghost use Rattle.rules.specs.Judge.{is_add_event, judge_event, closed_to, may_ask, busy, judge_command};
ghost use Rattle.ruling.specs.Ruling.{held_view, ruled};

use message::Head;
use places::Standing;
use rules::Outcome;
use tapa::Refusal;

// ---- Type 'C0' to handler '0700'

pub fn is_add_event(head: Head) -> bool
    ensures { result ≡ is_add_event head }
{
    head.kind == tapa::ADD_EVENT && tapa::handler(head.destination) == tapa::EVENT_HANDLER
}

pub fn event(cells: &[u32; 16], count: usize) -> Outcome
    requires { count ≤ 16 }
    ensures { result ≡ judge_event (rows_of cells.now count) }
{
    if router_rows::is_open(cells, count, tapa::EVENT_HANDLER) {
        return Outcome::Event;
    }
    Outcome::Refused(Refusal::EventCannotBeTaken)
}

// ---- Any other type

// Rule c: whether the handler is closed to a command of this type.
fn is_closed(cells: &[u32; 16], count: usize, handler: u16, kind: u8) -> bool
    requires { count ≤ 16 }
    ensures { result ≡ closed_to (rows_of cells.now count) handler kind }
{
    !router_rows::is_open(cells, count, handler) && kind != tapa::OPEN_HANDLER
}

// Rule d: whether this source may ask on the thread.
fn may_ask(list: &[u64; 48], len: usize, thread: u8, source: u16) -> bool
    requires { Lawful list.now len }
    ensures { result ≡ may_ask (places_of list.now len) thread source }
{
    match router_walks::standing_of(list, len, thread, tapa::handler(source)) {
        Standing::Within => true,
        Standing::Outside => false,
        Standing::Empty => tapa::category(source) == tapa::TILL_DRIVER,
    }
}

// Rule e: whether the handler is the asker, stands in the thread's tree, or has its slot taken.
#[tactic(auto, unfolding(rules::specs::Judge::busy))]
fn is_busy(list: &[u64; 48], len: usize, source: u16, handler: u16, thread: u8) -> bool
    requires { Lawful list.now len }
    ensures { result ≡ busy (places_of list.now len) source handler thread }
{
    handler == tapa::handler(source)
        || router_walks::stands_on(list, len, thread, handler)
        || router_walks::taken(list, len, handler, thread)
}

// The first of the rules a to e that applies: back with its code, or on.
pub fn rule_for(
    cells: &[u32; 16],
    count: usize,
    list: &[u64; 48],
    len: usize,
    head: Head,
) -> Result<(), u16>
    requires lawful { Lawful list.now len }
    requires count_bound { count ≤ 16 }
    ensures { ruled head result ≡ judge_command (held_view cells.now count list.now len) head }
{
    let handler = tapa::handler(head.destination);
    if !router_rows::is_listed(cells, count, handler) {
        return Err(tapa::INVALID_DESTINATION);
    }
    if !known_types::is_known(tapa::category(head.destination), head.kind) {
        return Err(tapa::UNSUPPORTED_OPERATION);
    }
    if is_closed(cells, count, handler, head.kind) {
        return Err(tapa::MUST_BE_OPENED);
    }
    if !may_ask(list, len, head.thread, head.source) {
        return Err(tapa::HANDLER_ERROR);
    }
    if is_busy(list, len, head.source, handler, head.thread) {
        return Err(tapa::HANDLER_BUSY);
    }
    Ok(())
}
