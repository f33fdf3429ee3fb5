// The part to send: 'a part of the incoming buffer or of the reply buffer, never a copy'.
#![tactic(auto)]

ghost use Rattle.sending.specs.Sending.{Sending, FirstTen};

use rules::Outcome;

// The ten bytes of a response that the router made, or all of a buffer that is smaller.
fn first_ten(reply: &[u8]) -> &[u8]
    ensures { FirstTen reply.entry result }
{
    &reply[..reply.len().min(10)]
}

// What goes on after an outcome: a part of the message or of the reply buffer, never a copy.
// Where nothing goes on, the part is empty.
pub fn part_to_send<'a>(outcome: Outcome, message: &'a [u8], reply: &'a [u8]) -> &'a [u8]
    ensures { Sending outcome message.entry reply.entry result }
{
    match outcome {
        Outcome::Passed { .. } | Outcome::Answered { .. } | Outcome::Event => message,
        Outcome::Turned { .. } | Outcome::Given { .. } => first_ten(reply),
        Outcome::Swallowed { .. } | Outcome::Reset { .. } | Outcome::Refused(_) => &message[..0],
    }
}
