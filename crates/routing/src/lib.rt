// Routing one message: what a call does to the arrays of a state, in place.
//
// Here stand the definitions that the code is held to, which are the rules' own `judge..` and
// `applied` said of lent arrays, and the laws of each step. The code, but for `refuse`, stands in three rooms, split as
// the rules are: router_response (type 'FF'), router_command (the common checks, an event, any other
// type) and router_give_up (give up, replaced). `ruling` decides, `router_walks` finds, and they do
// what follows. `router` lends them the arrays of its state.
//
// The law of a router's state stands here too, said of the arrays that hold it (`Lawful`): a step keeps
// it. A command that is passed becomes a place, and the law gives the room: at most 44 places are in use,
// and the list has 48 (proofs/Law.antt).
#![tactic(auto)]

ghost use Rattle.std.specs.Prelude.{◌≡◌};
ghost use Rattle.routing.specs.Steps.{refusing};

use rules::Outcome;
use tapa::Refusal;

// What a function that works in place answers: the outcome, and how many places there are now.
#[derive(Clone, Copy)]
pub struct Step {
    pub outcome: Outcome,
    pub len: usize,
}

// A refusal changes nothing.
pub fn refuse(refusal: Refusal, len: usize) -> Step
    ensures { result ≡ refusing refusal len }
{
    Step {
        outcome: Outcome::Refused(refusal),
        len,
    }
}
