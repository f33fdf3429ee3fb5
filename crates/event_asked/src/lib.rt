// What a message asks of the event queue (section 13): whether it is the queue's, and its command.
//
// Nothing is looked up in the queue here: a message alone decides. What a command then comes to is
// room `event_answers`'s; the definitions are room `events`'s.
#![tactic(auto)]

ghost use Rattle.std.specs.Prelude.{◌≡◌, ◌+◌, ◌≤◌, length};
ghost use Rattle.events.specs.Events.{elsewhere, checked, event_at, command_of};

use events::Command;
use message::Head;
use queue::{Event, Search};
use tapa::Refusal;

// ---- the checks

// Whether a message is not for the event queue.
#[tactic(auto, unfolding(events::specs::Events::elsewhere))]
fn is_elsewhere(head: Head) -> bool
    ensures { result ≡ elsewhere head }
{
    tapa::handler(head.destination) != tapa::EVENT_HANDLER || head.kind == tapa::RESPONSE
}

// The checks in their order; `room` is the length of the reply buffer, which takes the longest reply.
pub fn check(message: &[u8], room: usize) -> Result<Head, Refusal>
    ensures { result ≡ checked room message.now }
{
    let head = replies::open(message, room, 13)?;
    if is_elsewhere(head) {
        return Err(Refusal::NotThisPartsMessage);
    }
    Ok(head)
}

// ---- the readers of the data part

// The event whose three bytes stand from a place on.
fn event_at(part: &[u8], at: usize) -> Event
    requires { at + 3 ≤ length part.now }
    ensures { result ≡ event_at part.now at }
{
    Event {
        kind: part[at],
        location: tapa::pair(part[at + 1], part[at + 2]),
    }
}

// What a type and its data ask; a wrong length is as wrong as an unknown type.
#[tactic(auto, unfolding(events::specs::Events::command_of))]
pub fn read_command(kind: u8, part: &[u8]) -> Command
    ensures { result ≡ command_of kind part.now }
{
    match (kind, part.len()) {
        (tapa::ADD_EVENT, 3) => Command::Add(event_at(part, 0)),
        (tapa::ADD_EVENT, _) => Command::WrongAdd,
        (tapa::GET_EVENT, 0) => Command::Get,
        (tapa::FIND_EVENT, 4) => Command::Find(Search {
            by: part[0],
            wanted: event_at(part, 1),
        }),
        (tapa::FLUSH_QUEUE, 0) => Command::Flush,
        _ => Command::Wrong,
    }
}
