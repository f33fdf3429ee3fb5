// The cutter: a response handed to the PSAM, command by command.
//
// `start_check` says whether a message is a response that can be cut, `part_to_cut` is the data to
// cut, and `cut_next` writes the command at a place into a lent buffer and answers the place after
// it: cutter `HandsOut`. Nothing is copied but into that buffer.
//
// `Cutter` holds the data and the place for callers that like to have both in one value. Its
// functions are thin: they take it apart and call the ones above.
#![tactic(auto)]

ghost use Rattle.std.specs.Prelude.{◌≡◌, ◌+◌, ◌≤◌, length};
ghost use Rattle.lists.specs.Lists.{onto};
ghost use Rattle.cutter.specs.Cutting.{start_of, thread_of, PartToCut, command_head, command_of, cutter_at, HandsOut, Steps, Begins, Firsts};

use cutter::{Begun, Cutter, First, Handed, Step};
use tapa::Refusal;

// ---- the start

// Whether these bytes are a response that can be cut.
#[tactic(auto, unfolding(cutter::specs::Cutting::start_of))]
pub fn start_check(message: &[u8]) -> Result<u8, Refusal>
    ensures { result ≡ start_of message.now }
{
    let head = message_reader::read(message)?;
    if head.kind != tapa::RESPONSE {
        return Err(Refusal::NotThisPartsMessage);
    }
    if 7 < head.thread {
        return Err(Refusal::ThreadAbove7);
    }
    if head.length < 2 {
        return Err(Refusal::NoResponseCode);
    }
    Ok(head.thread)
}

// The data to cut, as a part of the message; the empty part where the start is refused.
pub fn part_to_cut(message: &[u8]) -> &[u8]
    ensures { PartToCut message.entry result }
{
    match start_check(message) {
        Ok(_) => message_reader::data_part(message),
        Err(_) => &message[0..0],
    }
}

// ---- one command

// The five bytes before a command's data.
fn put_head(buffer: &mut [u8], thread: u8, p2: u8, count: u8)
    requires { 5 ≤ length buffer.old }
    ensures { buffer.new ≡ onto (command_head thread p2 count) buffer.old }
{
    buffer[..5].copy_from_slice(&[0xB0, 0xFE, thread, p2, count]);
}

// Writes a whole command at the start of a buffer.
fn put_command(buffer: &mut [u8], thread: u8, p2: u8, piece: &[u8])
    requires piece_in_bounds { 6 + length piece.now ≤ length buffer.old }
    requires piece_len_bound { length piece.now ≤ 248 }
    ensures { buffer.new ≡ onto (command_of thread p2 piece.now) buffer.old }
{
    put_head(buffer, thread, p2, piece.len() as u8);
    let n = octets::copy(piece, &mut buffer[5..]);
    buffer[5 + n] = 0x00;
}

// Writes the command at a place of the data into a buffer.
#[tactic(auto, unfolding(cutter::specs::Cutting::cut_at))]
pub fn cut_next(part: &[u8], thread: u8, at: usize, buffer: &mut [u8]) -> Handed
    ensures { HandsOut part.now thread at buffer.old buffer.new result }
{
    if buffer.len() < 254 {
        return Handed {
            cut: Err(Refusal::BufferTooSmall),
            next: at,
        };
    }
    if part.len() <= at {
        return Handed {
            cut: Ok(None),
            next: at,
        };
    }
    let left = part.len() - at;
    if 248 < left {
        let end = at + 248;
        put_command(buffer, thread, 0x01, &part[at..end]);
        return Handed {
            cut: Ok(Some(254)),
            next: end,
        };
    }
    put_command(buffer, thread, 0x00, &part[at..]);
    Handed {
        cut: Ok(Some(6 + left)),
        next: part.len(),
    }
}

// ---- the data and the place in one value

// A cutter at the first place of some data.
fn over<'a>(part: &'a [u8], thread: u8) -> Cutter<'a>
    ensures { result ≡ cutter_at part.entry thread 0 }
{
    Cutter {
        part,
        thread,
        at: 0,
    }
}

// A cutter over the data of a message.
pub fn begin<'a>(message: &'a [u8]) -> Begun<'a>
    ensures { Begins message.entry result }
{
    let start = start_check(message);
    Begun {
        start,
        cutter: over(part_to_cut(message), start.unwrap_or(0)),
    }
}

// Hands out the next command.
pub fn next<'a, 'b>(cutter: Cutter<'a>, buffer: &'b mut [u8]) -> Step<'a>
    ensures { Steps cutter.entry buffer.old buffer.new result }
{
    let handed = cut_next(cutter.part, cutter.thread, cutter.at, buffer);
    Step {
        cut: handed.cut,
        rest: Cutter {
            part: cutter.part,
            thread: cutter.thread,
            at: handed.next,
        },
    }
}

// Starts and hands out the first command; further ones from `next` on, by `cut_next`.
pub fn first_command(message: &[u8], buffer: &mut [u8]) -> First
    ensures { Firsts message.now buffer.old buffer.new result }
{
    let begun = begin(message);
    let step = next(begun.cutter, buffer);
    First {
        start: begun.start,
        cut: step.cut,
        next: step.rest.at,
    }
}
