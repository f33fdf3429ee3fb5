// How the event queue keeps its events (section 13): at most 100, oldest first, in a ring.
//
// The ring begins where the oldest event stands, and after the array's last place comes its first.
// So taking the oldest frees its place and begins the ring at the next one: no event moves. Adding
// writes one place. Only Find closes a gap, and then the younger events move.
//
// A queue is a value, and the rooms `event_ring` (look-ups) and `event_changes` work in place on one
// that the caller lends, so that no call copies it. What they promise speaks of the list of events
// (`events_of`) and of where the ring then begins. How an event is packed, and at which place it stands,
// is said in specs/Places.antt; who calls these rooms need not know it.
//
// Here are the definitions, their laws, and what concerns one event or one place.
#![tactic(auto)]

ghost use Rattle.std.specs.Prelude.{◌≡◌};
ghost use Rattle.queue.specs.Events.{known_search, meets};
ghost use Rattle.queue.specs.Places.{Packs, event_in, place_from};

// A type byte and the address where it happened.
#[derive(Clone, Copy)]
pub struct Event {
    pub kind: u8,
    pub location: u16,
}

// At most 100 events, oldest first from the ring's start on; each is packed into a number (`one-pack`), so
// that the array begins as zeros. Its law, `Lawful`, stays a clause: a queue is known by its events and its
// start alone (`one-queue`).
#[derive(Clone, Copy)]
pub struct Queue {
    pub places: [u32; 100],
    pub start: usize,
    pub count: usize,
}

// What a search is by (Search Type Coding), and what it is for. `by` is the byte itself: `known_search`
// and `meets` are said of every byte, and an unknown one has an answer of its own.
#[derive(Clone, Copy)]
pub struct Search {
    pub by: u8,
    pub wanted: Event,
}

// ---- a search

// Search types: bit 1 is by location, bit 2 by type, and all others are reserved.
const BY_LOCATION: u8 = 1;

const BY_TYPE: u8 = 2;

pub const BY_BOTH: u8 = 3;

// Whether a search type has a bit that is known, and none that is reserved.
#[tactic(auto, unfolding(crate::specs::Events::known_search))]
pub fn is_known_search(by: u8) -> bool
    ensures { result ≡ known_search by }
{
    match by {
        BY_LOCATION..=BY_BOTH => true,
        _ => false,
    }
}

// Whether an event meets a search. What the search type does not use is not looked at.
#[tactic(auto, unfolding(crate::specs::Events::meets))]
pub fn is_met(search: Search, event: Event) -> bool
    ensures { result ≡ meets search event }
{
    let by = search.by;
    let there = event.location == search.wanted.location;
    let alike = event.kind == search.wanted.kind;
    match by {
        BY_LOCATION => there,
        BY_TYPE => alike,
        BY_BOTH => alike && there,
        _ => false,
    }
}

// ---- the ring

// The place that lies this many places after a start: after place 99 comes place 0.
pub fn place_from(start: usize, further: usize) -> usize
    ensures { result ≡ place_from start further }
{
    (start % 100 + further % 100) % 100
}

// ---- an event as a number

// The type above the location: an event takes one place.
pub fn pack(event: Event) -> u32
    ensures { Packs event result }
{
    u32::from(event.kind) * 65536 + u32::from(event.location)
}

pub fn unpack(x: u32) -> Event
    ensures { result ≡ event_in x }
{
    Event {
        kind: (x / 65536 % 256) as u8,
        location: (x % 65536) as u16,
    }
}
