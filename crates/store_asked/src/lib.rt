// What a message asks of the data store (section 11): whether it is the store's, and the fields of
// its data part, read where they stand in the message.
//
// No book is looked at here: a message alone decides. The shapes are room `files`'s, the checks room
// `store`'s.
#![tactic(auto)]

ghost use Rattle.std.specs.Prelude.{◌≡◌};
ghost use Rattle.files.specs.Asked.{ids_shape, key_shape, record_shape};
ghost use Rattle.store.specs.Store.{checked, elsewhere};

use message::Head;
use tapa::Refusal;

// The shortest reply buffer: a head, and LEN_SKEY, 255 of key, LEN_REC, 128 of data, a pointer and a code.
const LEAST: usize = 398;

// ---- the checks

// Whether a message is not for the data store.
#[tactic(auto, unfolding(store::specs::Store::elsewhere))]
fn is_elsewhere(head: Head) -> bool
    ensures { result ≡ elsewhere head }
{
    tapa::category(head.destination) != tapa::DATA_STORE || head.kind == tapa::RESPONSE
}

// The checks in their order; `room` is the length of the reply buffer.
pub fn check(message: &[u8], room: usize) -> Result<Head, Refusal>
    ensures { result ≡ checked room message.now }
{
    let head = replies::open(message, room, LEAST)?;
    if is_elsewhere(head) {
        return Err(Refusal::NotThisPartsMessage);
    }
    Ok(head)
}

// ---- the readers of the data part

// Whether LEN_SKEY, key, LEN_REC and record data stand from a place on, and nothing else.
pub fn has_record(part: &[u8], at: usize) -> bool
    ensures { result ≡ record_shape at part.now }
{
    let size = part.len();
    if size < at {
        return false;
    }
    let key = usize::from(tapa::byte_at(part, at));
    let long = usize::from(tapa::word_at(part, at + 1 + key));
    size == at + 3 + key + long && long <= 128
}

// Whether ID_FILE, LEN_SKEY and a key are all that stands there.
#[tactic(auto, unfolding(files::specs::Asked::key_shape))]
pub fn has_key(part: &[u8]) -> bool
    ensures { result ≡ key_shape part.now }
{
    part.len() == 3 + usize::from(tapa::byte_at(part, 2))
}

// Whether there are identifiers, 1 to 16 of two bytes each.
#[tactic(auto, unfolding(files::specs::Asked::ids_shape))]
pub fn has_ids(part: &[u8]) -> bool
    ensures { result ≡ ids_shape part.now }
{
    let long = part.len();
    0 < long && long <= 32 && long % 2 == 0
}
