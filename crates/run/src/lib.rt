// The run of a session file: its steps with their outcomes, one at a time, and no text.
//
// The items that an input has are a definition over its bytes, `run_of`; what is left of them in a state
// is `items_in`. A state is a router and a small cursor beside it. Its law (`Ready`) speaks of the state
// alone: any input may be given to any state.
//
// Here are the types, the definitions and their laws. The code is in two rooms: `session_begun` reads the
// rows and starts a router over them; `session_turns` hands out the items, one a turn.
#![tactic(auto)]

use router::Router;
use rules::Outcome;
use table::Rows;
use tapa::Refusal;

// ---- what is handed out

// What a run counts of its outcomes.
#[derive(Clone, Copy)]
pub struct Tally {
    pub accepted: usize,
    pub answered: usize,
    pub given: usize,
}

// What the last line of a session counts.
#[derive(Clone, Copy)]
pub struct Totals {
    pub accepted: usize,
    pub answered: usize,
    pub given: usize,
    pub waiting: usize,
    pub owing: usize,
}

// What a run hands out: the outcome of a step, with the number of its line; how the run ends; or
// that nothing is left.
#[derive(Clone, Copy)]
pub enum Item {
    Came { step: usize, outcome: Outcome },
    Over(Totals),
    Broken(usize),
    Refused(Refusal),
    TooLong,
    Nothing,
}

// ---- a state

// What comes next: the step at the place, or an item that is settled.
#[derive(Clone, Copy)]
pub enum Stage {
    Steps,
    Settled(Item),
}

// The place of the next field and its number, the number of the next step's line, and the counts.
#[derive(Clone, Copy)]
pub struct Cursor {
    pub at: usize,
    pub number: usize,
    pub step: usize,
    pub tally: Tally,
    pub stage: Stage,
}

// A state of a run.
#[derive(Clone, Copy)]
pub struct Session {
    pub cursor: Cursor,
    pub router: Router,
}

// ---- one turn

// An item, the reply buffer after its call, whether something was handed out, and the next state.
#[derive(Clone, Copy)]
pub struct Turn {
    pub item: Item,
    pub reply: [u8; 10],
    pub more: bool,
    pub next: Session,
}

// The same where the arrays of the router are lent: of the state, what they do not hold.
#[derive(Clone, Copy)]
pub struct Went {
    pub item: Item,
    pub reply: [u8; 10],
    pub more: bool,
    pub cursor: Cursor,
    pub len: usize,
}

// What comes next, before the router is asked.
#[derive(Clone, Copy)]
pub enum Ahead {
    Message {
        start: usize,
        end: usize,
    },
    GiveUp {
        thread: u8,
        address: u16,
        end: usize,
    },
    Replaced {
        address: u16,
        end: usize,
    },
    Over,
    Last(Item),
}

// ---- the rows

// The rows of a file, the place and the number of the field after them, and whether that is a
// broken row.
#[derive(Clone, Copy)]
pub struct Heading {
    pub rows: Rows,
    pub at: usize,
    pub number: usize,
    pub torn: bool,
}
