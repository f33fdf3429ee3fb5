// Answers: what a part of the build answered, as a word and its numbers, and the text of it.
//
// Every part has answers of its own. Here each becomes one `Came`, a word with its numbers, so that
// one function writes them all. Each function that writes takes the place of the next byte and
// answers the place after its text, as those of crate `text` do.
#![tactic(auto)]

use rules::Outcome;
use tapa::Refusal;

// The words, numbered as they stand in the text of `put_word`.
const MESSAGE: usize = 1;

const REFUSED: usize = 2;

pub const WRITTEN: usize = 3;

const REPLY: usize = 4;

const NOTHING: usize = 5;

const CUTTING: usize = 6;

pub const COMMAND: usize = 7;

const DONE: usize = 8;

pub const IDLE: usize = 9;

const KEPT: usize = 10;

const MORE: usize = 11;

const STARTED: usize = 12;

const PASSED: usize = 13;

const ANSWERED: usize = 14;

const TURNED: usize = 15;

const EVENT: usize = 16;

const SWALLOWED: usize = 17;

const GIVEN: usize = 18;

const RESET: usize = 19;

pub const BROKEN: usize = 20;

// A word, with what stands after it.
#[derive(Clone, Copy)]
pub enum Came {
    Plain(usize),
    Number(usize, usize),
    Numbers(usize, usize, usize),
    Address(usize, u16),
}

// ---- what each part answered

fn refused(refusal: Refusal) -> Came {
    Came::Number(REFUSED, tapa::number(refusal) as usize)
}

// A message or Get Next, written.
pub fn of_writing(word: usize, writing: Result<usize, Refusal>) -> Came {
    match writing {
        Ok(n) => Came::Number(word, n),
        Err(refusal) => refused(refusal),
    }
}

// A reply of the event queue or of the data store.
pub fn of_reply(answer: Result<Option<usize>, Refusal>) -> Came {
    match answer {
        Ok(Some(n)) => Came::Number(REPLY, n),
        Ok(None) => Came::Plain(NOTHING),
        Err(refusal) => refused(refusal),
    }
}

pub fn of_start(start: Result<u8, Refusal>) -> Came {
    match start {
        Ok(_) => Came::Plain(CUTTING),
        Err(refusal) => refused(refusal),
    }
}

pub fn of_cut(cut: Result<Option<usize>, Refusal>) -> Came {
    match cut {
        Ok(Some(n)) => Came::Number(COMMAND, n),
        Ok(None) => Came::Plain(DONE),
        Err(refusal) => refused(refusal),
    }
}

pub fn of_keeping(keeping: Result<(), Refusal>) -> Came {
    match keeping {
        Ok(()) => Came::Plain(KEPT),
        Err(refusal) => refused(refusal),
    }
}

// A piece; so many bytes are joined after it.
pub fn of_joined(answer: Result<Option<usize>, Refusal>, joined: usize) -> Came {
    match answer {
        Ok(None) => Came::Number(MORE, joined),
        Ok(Some(n)) => Came::Numbers(MESSAGE, n, joined),
        Err(refusal) => Came::Numbers(REFUSED, tapa::number(refusal) as usize, joined),
    }
}

pub fn of_checked(checked: Result<(), Refusal>) -> Came {
    match checked {
        Ok(()) => Came::Plain(STARTED),
        Err(refusal) => refused(refusal),
    }
}

pub fn of_outcome(outcome: Outcome) -> Came {
    match outcome {
        Outcome::Passed {
            asker: _,
            asked,
            kind: _,
            thread: _,
        } => Came::Address(PASSED, asked),
        Outcome::Answered {
            asked: _,
            asker,
            thread: _,
            code: _,
        } => Came::Address(ANSWERED, asker),
        Outcome::Turned { .. } => Came::Plain(TURNED),
        Outcome::Event => Came::Plain(EVENT),
        Outcome::Swallowed { .. } => Came::Plain(SWALLOWED),
        Outcome::Given { .. } => Came::Plain(GIVEN),
        Outcome::Reset { .. } => Came::Plain(RESET),
        Outcome::Refused(refusal) => refused(refusal),
    }
}

// ---- the text of it

// Writes a word with a space before it: the one of that number in the text.
fn put_word(line: &mut [u8], at: usize, word: usize) -> usize {
    let words =
        b" message refused written reply nothing cutting command done idle kept more started passed answered turned event swallowed given reset broken";
    let mut next = at;
    let mut passed: usize = 0;
    let mut i = 0;
    while i < words.len() {
        if words[i] == b' ' {
            passed += 1;
        }
        if passed == word {
            next = text::put(line, next, words[i]);
        }
        i += 1;
    }
    next
}

// Writes what came of a field.
pub fn put_came(line: &mut [u8], at: usize, came: Came) -> usize {
    match came {
        Came::Plain(word) => put_word(line, at, word),
        Came::Number(word, n) => {
            let a = put_word(line, at, word);
            lines::put_number(line, a, b" ", n)
        }
        Came::Numbers(word, n, m) => {
            let a = put_word(line, at, word);
            let b = lines::put_number(line, a, b" ", n);
            lines::put_number(line, b, b" ", m)
        }
        Came::Address(word, address) => {
            let a = put_word(line, at, word);
            lines::put_address(line, a, b" ", address)
        }
    }
}

// Writes bytes as hexadecimal, or a dash where there are none.
pub fn put_bytes(line: &mut [u8], at: usize, bytes: &[u8]) -> usize {
    let next = text::put(line, at, b' ');
    if bytes.len() == 0 {
        return text::put(line, next, b'-');
    }
    text::put_all_hex(line, next, bytes)
}

fn put_byte(line: &mut [u8], at: usize, byte: u8) -> usize {
    let next = text::put(line, at, b' ');
    text::put_hex(line, next, byte)
}

// Writes a message that is read: its addresses, type, thread and data.
pub fn put_message(line: &mut [u8], message: &[u8]) -> usize {
    match message_reader::read(message) {
        Err(refusal) => put_came(line, 0, refused(refusal)),
        Ok(head) => {
            let a = lines::put_address(line, 0, b" message ", head.destination);
            let b = lines::put_address(line, a, b" ", head.source);
            let c = put_byte(line, b, head.kind);
            let d = put_byte(line, c, head.thread);
            put_bytes(line, d, message_reader::data_part(message))
        }
    }
}
