// The writer of a message (Table 3).
//
// It fills the start of a lent buffer and leaves every byte after the message as it was: message `Wrote`.
#![tactic(auto)]

ghost use Rattle.std.specs.Prelude.{◌≡◌, ◌≤◌, length};
ghost use Rattle.lists.specs.Lists.{onto};
ghost use Rattle.message.specs.Message.{head_bytes, Wrote, responded};

use tapa::Refusal;

fn put_head(buffer: &mut [u8], destination: u16, source: u16, kind: u8, thread: u8, long: u16)
    requires { 8 ≤ length buffer.old }
    ensures { buffer.new ≡ onto (head_bytes destination source kind thread long) buffer.old }
{
    buffer[0..2].copy_from_slice(&destination.to_be_bytes());
    buffer[2..4].copy_from_slice(&source.to_be_bytes());
    buffer[4] = kind;
    buffer[5] = thread;
    buffer[6..8].copy_from_slice(&long.to_be_bytes());
}

// Writes a message at the start of a buffer, and answers its length.
pub fn write(
    buffer: &mut [u8],
    destination: u16,
    source: u16,
    kind: u8,
    thread: u8,
    part: &[u8],
) -> Result<usize, Refusal>
    ensures { Wrote destination source kind thread part.now buffer.old buffer.new result }
{
    let length = part.len();
    if 1024 < length {
        return Err(Refusal::TooLong);
    }
    if buffer.len() < 8 + length {
        return Err(Refusal::BufferTooSmall);
    }
    put_head(buffer, destination, source, kind, thread, length as u16);
    octets::copy(part, &mut buffer[8..]);
    Ok(8 + length)
}

// Writes a response that carries its code alone: ten bytes, where the buffer has them.
#[tactic(auto, unfolding(message::specs::Message::response_of, message::specs::Message::message_of))]
pub fn respond(buffer: &mut [u8], destination: u16, source: u16, thread: u8, code: u16)
    ensures { buffer.new ≡ responded destination source thread code buffer.old }
{
    if buffer.len() < 10 {
        return;
    }
    put_head(buffer, destination, source, tapa::RESPONSE, thread, 2);
    buffer[8..10].copy_from_slice(&code.to_be_bytes());
}
