// The rules of routing, as definitions: what comes of a call, and what it does to the state.
//
// `judge` says which outcome a call has, and changes nothing. `applied` says what an outcome does to
// the state, and checks nothing. Both speak of a view: the rows of the table and the places, which
// are the passed commands that are not done with. The outcome names the command that it concerns;
// whether an answer opens or closes a handler is read off that command's place.
//
// The conduct is the law that the rules keep: each thread's waits are a tree with one till driver as
// its root and no handler in it twice, and no handler has more commands under way than it may. That
// it is kept is proved here, without a line of code; the code of the next room is held to these rules.
//
// From the conduct comes the bound: at most 44 places over an accepted table, so there is room for each
// command that is passed. An old list of rules tested for it; specs/Old.antt keeps it.
#![tactic(auto)]

use tapa::Refusal;

// What comes of a call: of a message, of a give up, or of a replaced call.
#[derive(Clone, Copy)]
pub enum Outcome {
    // A command goes on, and becomes a wait of its thread's tree.
    Passed {
        asker: u16,
        asked: u16,
        kind: u8,
        thread: u8,
    },
    // A response goes on, and the wait that asked exactly this address ends.
    Answered {
        asked: u16,
        asker: u16,
        thread: u8,
        code: u16,
    },
    // A late response; the owing of exactly this address ends.
    Swallowed {
        asked: u16,
        thread: u8,
    },
    // An event goes on to the event queue.
    Event,
    // A command goes back to its asker, with a response that the router makes.
    Turned {
        asker: u16,
        asked: u16,
        thread: u8,
        code: u16,
    },
    // A wait was given up and is owed now; its asker gets a response that the router makes.
    Given {
        asker: u16,
        asked: u16,
        thread: u8,
    },
    // A handler was replaced: its owings end and it is closed.
    Reset {
        handler: u16,
    },
    Refused(Refusal),
}
