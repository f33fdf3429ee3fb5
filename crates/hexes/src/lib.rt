// Hexes: a session file as text that people read and write, in both directions.
//
// The text is made of hex digits in any grouping; a byte's two digits stand on one line, and `#`
// begins a comment that goes to the end of the line. Written, it has one field a line: the header,
// the contents in groups (a message's as Table 3 has them), and a comment that names the field.
//
// Here stand the answers of both directions, what a text reads as and how bytes are written (specs), and
// the laws of both: what is written reads as the same bytes, whatever they are (proofs/Back.antt,
// `reads-back`). The code is in session_hex_reader and session_hex_writer.
#![tactic(auto)]

// ---- from text to bytes

// What ends a text before its end, with the place: a digit without its second one, or a character that
// is none.
#[derive(Clone, Copy)]
pub enum Mistake {
    Odd(usize),
    Foreign(usize),
}

// What a character is: a digit with its value, a space between digits, the end of a line, the `#` of a
// comment, or none of a text.
#[derive(Clone, Copy)]
pub enum Class {
    Digit(u8),
    Blank,
    Feed,
    Hash,
    Other,
}

// What a text is in the middle of: nothing, a byte whose first digit was read at a place, or a comment.
#[derive(Clone, Copy)]
pub enum Mode {
    Between,
    Half { digit: u8, at: usize },
    Comment,
}

// What one character does.
#[derive(Clone, Copy)]
pub enum Step {
    Go(Mode),
    Byte(u8),
    Stop(Mistake),
}

// How much of the buffer was filled, how many bytes the text has, and how it ends.
#[derive(Clone, Copy)]
pub struct Taken {
    pub length: usize,
    pub count: usize,
    pub ends: Result<(), Mistake>,
}

// A place of a text as people count: from 1.
#[derive(Clone, Copy)]
pub struct Spot {
    pub line: usize,
    pub column: usize,
}

// ---- from bytes to text

// The field that is being written: its header as far as it has come, and how many of its bytes
// were written.
#[derive(Clone, Copy)]
pub struct Cursor {
    pub tag: u8,
    pub high: u8,
    pub low: u8,
    pub at: usize,
}

// How much of the buffer was filled, and the cursor after the bytes.
#[derive(Clone, Copy)]
pub struct Written {
    pub used: usize,
    pub next: Cursor,
}
