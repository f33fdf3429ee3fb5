// The joined bytes judged, once the PSAM's last piece is there ('9000').
//
// They are a message as it stands, a response with the address that it goes to, or refused: joiner
// `whole_of`. A response goes to the source that the joiner keeps for its thread. The PSAM counts a
// response's code in the announced length although it leaves it out.
#![tactic(auto)]

ghost use Rattle.std.specs.Prelude.{◌≡◌, ◌≤◌, length};
ghost use Rattle.joiner.specs.Joining.{due_for, whole_of};

use joiner::Joiner;
use tapa::Refusal;

// The length that joined bytes are to announce: their data, and the code that a response lacks.
fn due_for(message: &[u8]) -> usize
    requires { 8 ≤ length message.now }
    ensures { result ≡ due_for message.now }
{
    let m = message.len();
    if message[4] != tapa::RESPONSE {
        return m - 8;
    }
    m - 8 + 2
}

// What the joined bytes are.
#[tactic(auto, unfolding(joiner::specs::Joining::whole_of))]
pub fn judge(joiner: Joiner, message: &[u8]) -> Result<Option<u16>, Refusal>
    ensures { result ≡ whole_of joiner message.now }
{
    if message.len() < 8 {
        return Err(Refusal::TooShort);
    }
    let thread = usize::from(message[5]);
    if 7 < thread {
        return Err(Refusal::ThreadAbove7);
    }
    let announced = usize::from(tapa::pair(message[6], message[7]));
    if 1024 < announced {
        return Err(Refusal::TooLong);
    }
    let due = due_for(message);
    if due < announced {
        return Err(Refusal::FewerThanAnnounced);
    }
    if announced < due {
        return Err(Refusal::MoreThanAnnounced);
    }
    if message[4] != tapa::RESPONSE {
        return Ok(None);
    }
    if !joiner.kept[thread] {
        return Err(Refusal::NoSourceKept);
    }
    Ok(Some(joiner.sources[thread]))
}
