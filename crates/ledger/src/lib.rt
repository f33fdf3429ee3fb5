// The ledger: the lines of an input of commands to the data store.
//
// An input has fields of tag '02', a message each. Each message goes to the store, and has one line:
// its number and the reply's bytes, or its number and why it is refused. Any other field is broken:
// it has the last line.
//
// Here are the lines that an input prescribes, and the law of a page of them (specs/Ledger.antt). What
// a page says and what the store is then is fixed by it; where it ends is not, but that it gets on
// (`Paged`). All pages of an input together are the lines that it prescribes, and the store is then
// the one that they leave: proofs/Text.antt, `whole-text`, `whole-store`; after each page, `so_far`.
// The same of a plain list of files: proofs/Plain.antt. The code that fills the pages is room
// `store_lines`'s.
#![tactic(auto)]

use book::Book;

// The place of the next field in an input, and its number, all fields counted from 1.
#[derive(Clone, Copy)]
pub struct Cursor {
    pub at: usize,
    pub number: usize,
}

// What stands at a place: nothing, a field that is no message, or a message.
#[derive(Clone, Copy)]
pub enum Next {
    End,
    Broken,
    Message { start: usize, next: usize },
}

// The place after a line, and the store after its message.
#[derive(Clone, Copy)]
pub struct Heard {
    pub used: usize,
    pub book: Book,
}

// How many bytes of a page are used and how many lines they are, whether there may be more, and the
// store and the place after them.
#[derive(Clone, Copy)]
pub struct Page {
    pub used: usize,
    pub lines: usize,
    pub more: bool,
    pub next: Cursor,
    pub book: Book,
}
