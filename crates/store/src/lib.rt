// The data store (section 11): it keeps records in files for the till, the PSAM and the rest.
//
// What a message comes to is said twice. The contracts speak of book and area (specs/Store.antt); the
// theorems in proofs/Right.antt say that this is what room `files` says of a plain list of files
// (specs/Plain.antt).
//
// The code is in the rooms `store_asked` (what a message asks) and `store_answers` (all that it comes
// to).
#![tactic(auto)]

use book::Book;
use tapa::Refusal;

// How long a response's data are, and the book after the command.
#[derive(Clone, Copy)]
pub struct Done {
    pub long: usize,
    pub next: Book,
}

// What a message came to, beside the book as it then is.
#[derive(Clone, Copy)]
pub struct Handled {
    pub answer: Result<Option<usize>, Refusal>,
    pub next: Book,
}
