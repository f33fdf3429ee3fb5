// What a message to the event queue comes to (section 13): `handle` is the queue's one door.
//
// A queue goes in by value and comes back by value beside the answer; in between it is lent, and worked
// on in place. A command is judged first, and nothing is done; then what was decided is done, and then
// it is answered. The definitions and laws are room `events`'s.
#![tactic(auto)]

ghost use Rattle.std.specs.Prelude.{◌≡◌, ◌≤◌, length};
ghost use Rattle.replies.specs.Replies.{Answers};
ghost use Rattle.queue.specs.Places.{events_of, Lawful, HoldsAt};
ghost use Rattle.events.specs.Events.{taken_or, judge, apply, carried};
ghost use Rattle.events.specs.Ring.{start_after, HandlingAt};

use events::{Command, Handled, Outcome};
use message::Head;
use queue::{Event, Queue, Search};
use tapa::Refusal;

// ---- the reply

// A response that carries a found event and the code of success.
fn reply_event(reply: &mut [u8], head: Head, event: Event) -> Result<Option<usize>, Refusal>
    requires { 13 ≤ length reply.old }
    ensures { Answers head (carried (Outcome.Taken event)) reply.old reply.new result }
{
    let [high, low] = event.location.to_be_bytes();
    replies::with_part(reply, head, &[event.kind, high, low, 0, 0])
}

// The reply that an outcome has, if any.
fn answered(reply: &mut [u8], head: Head, outcome: Outcome) -> Result<Option<usize>, Refusal>
    requires { 13 ≤ length reply.old }
    ensures { Answers head (carried outcome) reply.old reply.new result }
{
    match outcome {
        Outcome::Added(_) | Outcome::Ignored => Ok(None),
        Outcome::Taken(event) => reply_event(reply, head, event),
        Outcome::Emptied => replies::with_code(reply, head, tapa::SUCCESSFUL),
        Outcome::Coded(code) => replies::with_code(reply, head, code),
    }
}

// ---- what a command comes to

// The event that was sought, or this code.
fn taken_or(code: u16, sought: Option<Event>) -> Outcome
    ensures { result ≡ taken_or code sought }
{
    sought.map_or(Outcome::Coded(code), |event| Outcome::Taken(event))
}

// Find, in the order of its failures.
#[tactic(auto, unfolding(events::specs::Events::judge))]
fn judge_find(queue: &Queue, search: Search) -> Outcome
    ensures { result ≡ judge (events_of queue.now) (Command.Find search) }
{
    if !queue::is_known_search(search.by) {
        return Outcome::Coded(tapa::UNSUPPORTED_OPERATION);
    }
    if event_ring::oldest(queue).is_none() {
        return Outcome::Coded(tapa::NO_EVENTS);
    }
    taken_or(
        tapa::NO_MATCHING_EVENTS,
        event_ring::oldest_met(queue, search),
    )
}

// What a command comes to. Nothing is done yet.
#[tactic(auto, unfolding(events::specs::Events::judge))]
fn judge(queue: &Queue, command: Command) -> Outcome
    ensures { result ≡ judge (events_of queue.now) command }
{
    match command {
        Command::Add(event) => {
            if event_ring::has_room(queue) {
                Outcome::Added(event)
            } else {
                Outcome::Ignored
            }
        }
        Command::WrongAdd => Outcome::Ignored,
        Command::Get => taken_or(tapa::NO_EVENTS, event_ring::oldest(queue)),
        Command::Find(search) => judge_find(queue, search),
        // Success is said only where there was something to flush.
        Command::Flush => match event_ring::oldest(queue) {
            None => Outcome::Coded(tapa::NO_EVENTS),
            Some(_) => Outcome::Emptied,
        },
        Command::Wrong => Outcome::Coded(tapa::UNSUPPORTED_OPERATION),
    }
}

// Does what was decided.
#[tactic(auto, unfolding(events::specs::Events::apply, events::specs::Ring::start_after))]
fn apply(queue: &mut Queue, outcome: Outcome)
    requires { Lawful queue.old }
    ensures { HoldsAt queue.new (apply outcome (events_of queue.old)) (start_after outcome (events_of queue.old) queue.old.start) }
{
    match outcome {
        Outcome::Added(event) => event_changes::add(queue, event),
        Outcome::Ignored => {}
        Outcome::Taken(event) => event_changes::take(queue, event),
        Outcome::Emptied => event_changes::clear(queue),
        Outcome::Coded(_) => {}
    }
}

// ---- a message

// Takes a message, in place.
fn serve(queue: &mut Queue, message: &[u8], reply: &mut [u8]) -> Result<Option<usize>, Refusal>
    requires { Lawful queue.old }
    ensures { HandlingAt queue.old message.now reply.old reply.new (record { answer = result; next = queue.new }) }
{
    let head = event_asked::check(message, reply.len())?;
    let command = event_asked::read_command(head.kind, message_reader::data_part(message));
    let outcome = judge(queue, command);
    apply(queue, outcome);
    answered(reply, head, outcome)
}

// Takes a message, and hands back what it comes to and the next queue.
pub fn handle(queue: Queue, message: &[u8], reply: &mut [u8]) -> Handled
    requires { Lawful queue }
    ensures { HandlingAt queue message.now reply.old reply.new result }
{
    let mut next = queue;
    let answer = serve(&mut next, message, reply);
    Handled { answer, next }
}
