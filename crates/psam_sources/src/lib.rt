// The joiner keeps the sources that responses from the PSAM go back to.
//
// A '42' command (ICC Command) says who asks on its thread. Its source is kept until the next one on
// that thread: joiner `kept_of`. psam_whole reads it when the PSAM's response is joined.
#![tactic(auto)]

ghost use Rattle.std.specs.Prelude.{◌≡◌};
ghost use Rattle.joiner.specs.Joining.{kept_of};

use joiner::{Joiner, Kept};
use tapa::Refusal;

// Keeps a command's source for its thread.
#[tactic(auto, unfolding(joiner::specs::Joining::kept_of))]
fn keep_in(joiner: &mut Joiner, message: &[u8]) -> Result<(), Refusal>
    ensures { record { answer = result; next = joiner.new } ≡ kept_of joiner.old message.now }
{
    let head = message_reader::read(message)?;
    if head.kind != tapa::ICC_COMMAND {
        return Err(Refusal::NotThisPartsMessage);
    }
    if 7 < head.thread {
        return Err(Refusal::ThreadAbove7);
    }
    let thread = usize::from(head.thread);
    joiner.sources[thread] = head.source;
    joiner.kept[thread] = true;
    Ok(())
}

// Keeps a command's source for its thread, and hands back the joiner that has it.
pub fn keep(joiner: Joiner, message: &[u8]) -> Kept
    ensures { result ≡ kept_of joiner message.now }
{
    let mut next = joiner;
    let answer = keep_in(&mut next, message);
    Kept { answer, next }
}
