// The reader of a message (Table 3).
//
// It takes any bytes and answers the head or a refusal: message `read_of`. The data is handed on as a part
// of the incoming slice that starts at byte 8, never as a copy.
#![tactic(auto)]

ghost use Rattle.std.specs.Prelude.{◌≡◌};
ghost use Rattle.message.specs.Message.{read_of, DataPart, code_of};

use message::Head;
use tapa::Refusal;

// The head of a message, or why these bytes are none.
pub fn read(message: &[u8]) -> Result<Head, Refusal>
    ensures { result ≡ read_of message.now }
{
    let &[
        to_high,
        to_low,
        from_high,
        from_low,
        kind,
        thread,
        high,
        low,
        ..
    ] = message
    else {
        return Err(Refusal::TooShort);
    };
    let length = usize::from(tapa::pair(high, low));
    if 1024 < length {
        return Err(Refusal::TooLong);
    }
    if message.len() < 8 + length {
        return Err(Refusal::FewerThanAnnounced);
    }
    if 8 + length < message.len() {
        return Err(Refusal::MoreThanAnnounced);
    }
    Ok(Head {
        destination: tapa::pair(to_high, to_low),
        source: tapa::pair(from_high, from_low),
        kind,
        thread,
        length,
    })
}

// The data of a message, as a part of it; the empty part of bytes that are no message.
pub fn data_part(message: &[u8]) -> &[u8]
    ensures { DataPart message.entry result }
{
    match read(message) {
        Ok(_) => &message[8..],
        Err(_) => &message[0..0],
    }
}

// The last two bytes of a response's data.
#[tactic(auto, unfolding(message::specs::Message::code_of))]
pub fn response_code(part: &[u8]) -> Option<u16>
    ensures { result ≡ code_of part.now }
{
    let [.., high, low] = part else {
        return None;
    };
    Some(tapa::pair(*high, *low))
}
