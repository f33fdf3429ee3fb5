// What a queue of events holds (section 13): a fresh one, and looks into its ring, which change nothing.
//
// What the answers are is said of the list of events: rooms `queue` and `events`. The changes are room
// `event_changes`'s.
#![tactic(auto)]

ghost use Rattle.std.specs.Prelude.{◌≡◌, [], ltb};
ghost use Rattle.lists.specs.Lists.{first, find};
ghost use Rattle.queue.specs.Events.{most, oldest, meets};
ghost use Rattle.queue.specs.Places.{event_in, number_at, events_of, HoldsAt};

use queue::{Event, Queue, Search};

// A queue that holds nothing; its ring begins at place 0.
pub fn fresh() -> Queue
    ensures { HoldsAt result [] 0 }
{
    Queue {
        places: [0; 100],
        start: 0,
        count: 0,
    }
}

// ---- what is held

// Whether one event more can be held.
pub fn has_room(queue: &Queue) -> bool
    ensures { result ≡ ltb queue.now.count most }
{
    queue.count < 100
}

// The event that stands so many places after the start: so many are older.
fn event_after(queue: &Queue, older: usize) -> Event
    ensures { result ≡ event_in (number_at queue.now.places queue.now.start older) }
{
    let place = queue::place_from(queue.start, older);
    queue::unpack(queue.places[place])
}

pub fn oldest(queue: &Queue) -> Option<Event>
    ensures { result ≡ oldest (events_of queue.now) }
{
    if queue.count == 0 {
        return None;
    }
    Some(event_after(queue, 0))
}

// The number of the oldest event that meets a search: how many are newer than it.
pub fn find(queue: &Queue, search: Search) -> Option<usize>
    ensures { result ≡ find (meets search) (events_of queue.now) }
{
    for older in 0..queue.count {
        if queue::is_met(search, event_after(queue, older)) {
            return Some(queue.count - 1 - older);
        }
    }
    None
}

// The oldest event that meets a search.
pub fn oldest_met(queue: &Queue, search: Search) -> Option<Event>
    ensures { result ≡ first (meets search) (events_of queue.now) }
{
    let newer = find(queue, search)?;
    Some(event_after(queue, queue.count - 1 - newer))
}
