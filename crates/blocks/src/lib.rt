// Blocks: a session file explained, a block for each line that the session program prints.
//
// A block begins with the line of its item, and below it stand words. What the words are is chosen in
// crate `telling`, and nothing is promised of it. Each of their lines is set in by four spaces, and no
// line of a transcript begins with a space. So the words cannot be taken for the transcript: of all that
// is written, the lines that begin with no space are the transcript, byte for byte (proofs/Heads.antt,
// `first-lines`).
//
// Blocks are gathered in pages. A block is begun while there is room for the longest, 41,025 bytes: a
// line of 64, 8,192 bytes of words with four spaces before each, and a line feed.
//
// Here are the definitions and their laws. Crate `show_notes` sets words in, crate `show_blocks` writes
// the blocks.
#![tactic(auto)]

use run::Session;

// How many bytes of a page are used, whether it was full before the end was seen, and the next state.
#[derive(Clone, Copy)]
pub struct Page {
    pub used: usize,
    pub more: bool,
    pub next: Session,
}
