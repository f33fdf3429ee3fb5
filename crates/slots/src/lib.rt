// The data store's area: 256 slots of 383 bytes, which the kiosk lends.
//
// A slot holds a record's key, its data behind it, and zeros; an empty slot is all zeros. Every
// write is of a whole slot, so nothing of an older record stays in it ('erases the data', TAPA
// 11.2.8), and what the area holds after a call is one equation. The slots do not touch:
// proofs/Slots.antt.
//
// Each function is total: where there is no such slot, or no room in it, nothing is written and
// nothing is read.
#![tactic(auto)]

ghost use Rattle.std.specs.Prelude.{◌+◌, ◌-◌, ◌≤◌, ◌++◌, ◌≡◌, length, replicate};
ghost use Rattle.lists.specs.Lists.{count};
ghost use Rattle.slots.specs.Slots.{SlotPart, holds_key, is_slot, wiped, written};

// The bytes of a slot: the longest key and the longest record data.
const SLOT: usize = 383;

// The bytes of an area of 256 slots.
const AREA: usize = 98048;

// Whether an area of so many bytes has a slot of this number.
fn is_slot(size: usize, slot: u16) -> bool
    ensures { result ≡ is_slot size slot }
{
    size == AREA && slot <= 255
}

// Bytes of a slot, from a place in it on; none where it has no such bytes.
pub fn part(area: &[u8], slot: u16, at: usize, count: usize) -> &[u8]
    ensures { SlotPart area.entry result slot at count }
{
    if is_slot(area.len(), slot) && at <= SLOT && count <= SLOT - at {
        let start = usize::from(slot) * SLOT + at;
        return &area[start..start + count];
    }
    &area[0..0]
}

// Whether the key in a slot is this one: its length and its bytes.
pub fn has_key(area: &[u8], slot: u16, long: u16, key: &[u8]) -> bool
    ensures { result ≡ holds_key area.now slot long key.now }
{
    octets::same(part(area, slot, 0, usize::from(long)), key)
}

fn fill(slot: &mut [u8], key: &[u8], bytes: &[u8])
    requires { length key.now + length bytes.now ≤ length slot.old }
    ensures { slot.new ≡ key.now ++ (bytes.now ++ replicate (length slot.old - length key.now - length bytes.now) 0) }
{
    slot.fill(0);
    let n = octets::copy(key, slot);
    let _m = octets::copy(bytes, &mut slot[n..]);
}

// A slot with a record's key and data, and zeros behind them.
pub fn write(area: &mut [u8], slot: u16, key: &[u8], bytes: &[u8])
    ensures { area.new ≡ written area.old slot key.now bytes.now }
{
    if !is_slot(area.len(), slot) || 255 < key.len() || 128 < bytes.len() {
        return;
    }
    let start = usize::from(slot) * SLOT;
    let end = start + SLOT;
    fill(&mut area[start..end], key, bytes);
}

// A slot of zeros.
pub fn wipe(area: &mut [u8], slot: u16)
    ensures { area.new ≡ wiped area.old slot }
{
    if !is_slot(area.len(), slot) {
        return;
    }
    let start = usize::from(slot) * SLOT;
    let end = start + SLOT;
    area[start..end].fill(0);
}
