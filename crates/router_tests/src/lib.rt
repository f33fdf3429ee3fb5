// One place, as code: packed into its number, read back, and tested.
//
// The tests are asked of the number, as the list of places keeps it. Each is one question that the
// rules ask of a passed command (room place says what it means), and none changes anything.
#![tactic(auto)]

ghost use Rattle.std.specs.Prelude.{◌≡◌};
ghost use Rattle.place.specs.Place.{unpack, Packed, open_on, asks_exactly, owes_exactly, stands, stands_on, holds_on, stands_in, on_slot, owed_by};

use place::Place;

// What marks a packed place as owed: the bit above its fields.
pub const MARK: u64 = 0x1000000000000;

// ---- a place as a number

pub fn pack_of(place: Place) -> u64
    ensures { Packed place result }
{
    let fields = u64::from(place.asker) * 0x100000000
        + u64::from(place.asked) * 0x10000
        + u64::from(place.kind) * 0x100
        + u64::from(place.thread);
    if place.owed { MARK + fields } else { fields }
}

pub fn place_of(x: u64) -> Place
    ensures { result ≡ unpack x }
{
    Place {
        asker: (x / 0x100000000 % 0x10000) as u16,
        asked: (x / 0x10000 % 0x10000) as u16,
        kind: (x / 0x100 % 0x100) as u8,
        thread: (x % 0x100) as u8,
        owed: MARK <= x,
    }
}

// ---- tests

// Whether it is a wait of this thread.
pub fn open_on(x: u64, thread: u8) -> bool
    ensures { result ≡ open_on thread (unpack x) }
{
    let place = place_of(x);
    !place.owed && place.thread == thread
}

// Whether it is a wait of this thread that asks exactly this address.
pub fn asks_exactly(x: u64, asked: u16, thread: u8) -> bool
    ensures { result ≡ asks_exactly asked thread (unpack x) }
{
    open_on(x, thread) && place_of(x).asked == asked
}

// Whether it is an owing on this thread of exactly this asked address.
pub fn owes_exactly(x: u64, asked: u16, thread: u8) -> bool
    ensures { result ≡ owes_exactly asked thread (unpack x) }
{
    let place = place_of(x);
    place.owed && place.thread == thread && place.asked == asked
}

fn has(place: Place, handler: u16) -> bool
    ensures { result ≡ stands handler place }
{
    tapa::handler(place.asker) == handler || tapa::handler(place.asked) == handler
}

// Whether it is a wait of this thread in which the handler stands as asker or asked.
pub fn has_on(x: u64, thread: u8, handler: u16) -> bool
    ensures { result ≡ stands_on thread handler (unpack x) }
{
    open_on(x, thread) && has(place_of(x), handler)
}

// Whether it is a wait of this thread that the handler asked.
pub fn holds_on(x: u64, thread: u8, handler: u16) -> bool
    ensures { result ≡ holds_on thread handler (unpack x) }
{
    open_on(x, thread) && tapa::handler(place_of(x).asker) == handler
}

// Whether it is a wait of any thread in which the handler stands as asker or asked.
pub fn has_open(x: u64, handler: u16) -> bool
    ensures { result ≡ stands_in handler (unpack x) }
{
    let place = place_of(x);
    !place.owed && has(place, handler)
}

// Whether the handler is asked in it: a single one on any thread, a multi one on this thread.
pub fn on_slot(x: u64, handler: u16, thread: u8) -> bool
    ensures { result ≡ on_slot handler thread (unpack x) }
{
    let place = place_of(x);
    tapa::handler(place.asked) == handler && (!tapa::is_multi(handler) || place.thread == thread)
}

// Whether it is an owing of the handler.
pub fn owed_by(x: u64, handler: u16) -> bool
    ensures { result ≡ owed_by handler (unpack x) }
{
    let place = place_of(x);
    place.owed && tapa::handler(place.asked) == handler
}
