// What the parts that are asked by messages share: which messages they take, and what they say back.
//
// A message is taken where the lent buffer holds the part's longest reply, and where the reader
// takes it; whether it is this part's is the part's own test (specs/Checked.antt).
//
// A reply is a response (type 'FF') to one message. Its source and destination are those of the
// message, swapped exactly, and its thread is the same; only the data are the part's own. It is
// written at the start of a lent buffer, and every byte after it stays.
//
// Nothing has to be checked first. Data or a buffer that the writer refuses are answered by its
// refusal, and the buffer is left as it was. A part that knows that its reply fits has its length:
// proofs/Laws.antt, `fitting`.
#![tactic(auto)]

ghost use Rattle.std.specs.Prelude.{◌≡◌};
ghost use Rattle.tapa.specs.Numbers.{two_bytes};
ghost use Rattle.replies.specs.Checked.{opened};
ghost use Rattle.replies.specs.Replies.{Replies};

use message::Head;
use tapa::Refusal;

// ---- what comes in

// The checks that are the same for every part, in their order; `room` is the length of the reply
// buffer, and `least` that of the part's longest reply.
pub fn open(message: &[u8], room: usize, least: usize) -> Result<Head, Refusal>
    ensures { result ≡ opened least room message.now }
{
    if room < least {
        return Err(Refusal::BufferTooSmall);
    }
    message_reader::read(message)
}

// ---- what goes back

// A response to the message with this head, with these data.
pub fn with_part(reply: &mut [u8], head: Head, part: &[u8]) -> Result<Option<usize>, Refusal>
    ensures { Replies head part.now reply.old reply.new result }
{
    let n = message_writer::write(
        reply,
        head.source,
        head.destination,
        tapa::RESPONSE,
        head.thread,
        part,
    )?;
    Ok(Some(n))
}

// A response that carries its code alone.
pub fn with_code(reply: &mut [u8], head: Head, code: u16) -> Result<Option<usize>, Refusal>
    ensures { Replies head (two_bytes code) reply.old reply.new result }
{
    let [high, low] = code.to_be_bytes();
    with_part(reply, head, &[high, low])
}
