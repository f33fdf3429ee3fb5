// Place: one passed command that is not done with.
//
// A place is open, as a wait, or owed, as an owing. It is packed into one number: thread, type,
// asked address and asker, and the mark of an owing on top, so that giving a wait up only sets a
// mark.
//
// The number and the tests that the rules ask of a place are definitions here (specs/). Their laws
// say each test in plain conditions on the fields (proofs/Words.antt). The code is room router_tests.
#![tactic(auto)]

// A passed command: exact asker, exact asked address, type, thread, and whether it was given up.
#[derive(Clone, Copy)]
pub struct Place {
    pub asker: u16,
    pub asked: u16,
    pub kind: u8,
    pub thread: u8,
    pub owed: bool,
}
