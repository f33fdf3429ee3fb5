// The event queue (section 13): devices post events, and applications take them.
//
// A message is checked, read as a command, judged against the events that are held, and only then
// is anything done. What each step comes to is said here of the list of events, and of the place
// where the queue's ring then begins; what every message comes to follows (proofs/). How a queue
// keeps its events is the room `queue`'s; how a reply is written is the room `replies`'s; what it
// carries is decided here.
//
// The code is in the rooms `event_asked` (what a message asks) and `event_answers` (all that it comes
// to).
#![tactic(auto)]

use queue::{Event, Queue, Search};
use tapa::Refusal;

// A message as the queue reads it. A wrong Add is apart, since it has no reply.
#[derive(Clone, Copy)]
pub enum Command {
    Add(Event),
    WrongAdd,
    Get,
    Find(Search),
    Flush,
    Wrong,
}

// What is decided of a command.
#[derive(Clone, Copy)]
pub enum Outcome {
    Added(Event),
    Ignored,
    Taken(Event),
    Emptied,
    Coded(u16),
}

// What a message came to, beside the queue as it then is.
#[derive(Clone, Copy)]
pub struct Handled {
    pub answer: Result<Option<usize>, Refusal>,
    pub next: Queue,
}
