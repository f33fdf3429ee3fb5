// Towards the PSAM: a response cut into commands.
//
// The PSAM takes a response as commands of at most 248 data bytes each. Here stand the cutter and its
// answers, what a response is cut into (specs), and the laws of it: the commands together carry the
// whole response, and no more are handed out than it takes (proofs/Whole.antt). The code is in
// psam_commands.
#![tactic(auto)]

use tapa::Refusal;

// A handing out, and the place after it. What is handed out is a command of so many bytes, or none once
// all were.
#[derive(Clone, Copy)]
pub struct Handed {
    pub cut: Result<Option<usize>, Refusal>,
    pub next: usize,
}

// A response's data and the place in it, with the thread that the commands bear.
#[derive(Clone, Copy)]
pub struct Cutter<'a> {
    pub part: &'a [u8],
    pub thread: u8,
    pub at: usize,
}

// A handing out, and the cutter at the next place.
#[derive(Clone, Copy)]
pub struct Step<'a> {
    pub cut: Result<Option<usize>, Refusal>,
    pub rest: Cutter<'a>,
}

// A start, which is a response's thread or why the message can't be cut, and the cutter at the first
// place. A refused start has nothing to cut.
#[derive(Clone, Copy)]
pub struct Begun<'a> {
    pub start: Result<u8, Refusal>,
    pub cutter: Cutter<'a>,
}

// A start, the first handing out and the place after it.
#[derive(Clone, Copy)]
pub struct First {
    pub start: Result<u8, Refusal>,
    pub cut: Result<Option<usize>, Refusal>,
    pub next: usize,
}
