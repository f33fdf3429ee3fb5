// Arrivals: what a step of a session file brings, for the programs that explain and draw.
//
// The step is read by the readers that the session program stands on, crates `fields` and `message`;
// here its parts are only laid side by side. What becomes of the step is not asked here.
#![tactic(auto)]

ghost use Rattle.std.specs.Prelude.{◌≡◌};
ghost use Rattle.arrivals.specs.Arrivals.{call, head_of};

use fields::NextStep;
use message::Head;

#[derive(Clone, Copy)]
pub enum Arrival {
    // Bytes that are too few for a message, and how many they are.
    Unread { length: usize },
    // A message whose length does not agree: what it says of itself, and how much data came.
    Torn { head: Head, came: usize },
    Command(Head),
    // A response, and its code where its data has one.
    Response { head: Head, code: Option<u16> },
    GiveUp { thread: u8, address: u16 },
    Replaced { address: u16 },
    // No step, or one that cannot be read.
    Nothing,
}

// The head of a call, which has a thread and an address alone.
fn of_call(thread: u8, address: u16) -> Head
    ensures { result ≡ call thread address }
{
    Head {
        destination: address,
        source: 0,
        kind: 0,
        thread,
        length: 0,
    }
}

impl Arrival {
    // Its numbers, for whoever asks without regard to what came.
    pub fn head(&self) -> Head
        ensures { result ≡ head_of self.now }
    {
        match *self {
            Arrival::Torn { head, .. } | Arrival::Command(head) | Arrival::Response { head, .. } =>
                head,
            Arrival::GiveUp { thread, address } => of_call(thread, address),
            Arrival::Replaced { address } => of_call(0, address),
            Arrival::Unread { .. } | Arrival::Nothing => of_call(0, 0),
        }
    }
}

// Bytes that do not read: what the first 8 of them say.
fn of_torn(message: &[u8]) -> Arrival {
    let length = message.len();
    if length < 8 {
        return Arrival::Unread { length };
    }
    let head = Head {
        destination: tapa::pair(message[0], message[1]),
        source: tapa::pair(message[2], message[3]),
        kind: message[4],
        thread: message[5],
        length: usize::from(tapa::pair(message[6], message[7])),
    };
    Arrival::Torn {
        head,
        came: length - 8,
    }
}

fn of_message(message: &[u8]) -> Arrival {
    let Ok(head) = message_reader::read(message) else {
        return of_torn(message);
    };
    if head.kind != tapa::RESPONSE {
        return Arrival::Command(head);
    }
    let code = message_reader::response_code(message_reader::data_part(message));
    Arrival::Response { head, code }
}

// What the step at a place of a session file brings.
pub fn arrival_at(input: &[u8], at: usize) -> Arrival {
    match fields::step_at(input, at) {
        NextStep::Message { start, next } => match input.get(start..next) {
            Some(message) => of_message(message),
            None => Arrival::Nothing,
        },
        NextStep::GiveUp {
            thread,
            address,
            ..
        } => Arrival::GiveUp { thread, address },
        NextStep::Replaced { address, .. } => Arrival::Replaced { address },
        NextStep::Broken | NextStep::End => Arrival::Nothing,
    }
}
