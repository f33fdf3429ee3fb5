// From the PSAM: pieces joined into a message, and the sources that responses go back to.
//
// The PSAM sends a message as pieces of at most 252 data bytes, each with two status bytes. Here stand
// the joiner and its answers, what it makes of a piece, of the whole and of a message whose source it
// keeps (specs), and the laws of it: every way of cutting a message joins to the same message
// (proofs/Delivered.antt), and a response goes to the source that was kept last on its thread
// (proofs/ToLast.antt). The code is in psam_pieces, psam_whole and psam_sources.
#![tactic(auto)]

use tapa::Refusal;

// How many bytes are joined, and for each thread whether a source is kept, and which.
#[derive(Clone, Copy)]
pub struct Joiner {
    pub joined: usize,
    pub sources: [u16; 8],
    pub kept: [bool; 8],
}

// What a piece is by its status: more follow, or it is the last.
#[derive(Clone, Copy)]
pub enum Piece {
    NotLast,
    Last,
}

// The answer to a piece: Get Next is to be sent (`None`), or the buffer starts with a message of so many
// bytes.
#[derive(Clone, Copy)]
pub struct Joined {
    pub answer: Result<Option<usize>, Refusal>,
    pub next: Joiner,
}

// Whether a source was kept, and the joiner that has it.
#[derive(Clone, Copy)]
pub struct Kept {
    pub answer: Result<(), Refusal>,
    pub next: Joiner,
}
