// Changes of a queue of events (section 13): one more, one less, none left.
//
// The queue is lent and worked on in place. Adding writes one place. Taking the oldest frees its place,
// and no event moves; taking another one closes a gap, and the younger events move. What is then held,
// and where the ring begins, is said of the list of events: rooms `queue` and `events`.
#![tactic(auto)]

ghost use Rattle.std.specs.Prelude.{[], ◌-◌, ◌<◌};
ghost use Rattle.lists.specs.Lists.{without, without_at};
ghost use Rattle.queue.specs.Events.{added, meets, like_of};
ghost use Rattle.queue.specs.Places.{place_from, events_of, Lawful, start_without, HoldsAt};

use queue::{Event, Queue, Search};

// One event more, where there is room; a full queue stays as it is.
pub fn add(queue: &mut Queue, event: Event)
    requires { Lawful queue.old }
    ensures { HoldsAt queue.new (added event (events_of queue.old)) queue.old.start }
{
    if event_ring::has_room(queue) {
        let place = queue::place_from(queue.start, queue.count);
        queue.places[place] = queue::pack(event);
        queue.count += 1;
    }
}

// The oldest event goes: one place is freed, and the ring begins at the next one. No event moves.
fn drop_oldest(queue: &mut Queue)
    requires lawful { Lawful queue.old }
    requires count_nonzero { 0 < queue.old.count }
    ensures { HoldsAt queue.new (without_at (queue.old.count - 1) (events_of queue.old)) (place_from queue.old.start 1) }
{
    queue.places[queue.start] = 0;
    queue.start = queue::place_from(queue.start, 1);
    queue.count -= 1;
}

// The event goes that has this many newer ones; those move down, and the last place is freed.
fn close_gap(queue: &mut Queue, newer: usize)
    requires lawful { Lawful queue.old }
    requires newer_lt_count { newer < queue.old.count }
    ensures { HoldsAt queue.new (without_at newer (events_of queue.old)) queue.old.start }
{
    let last = queue.count - 1;
    for older in last - newer..last {
        let gap = queue::place_from(queue.start, older);
        let behind = queue::place_from(queue.start, older + 1);
        queue.places[gap] = queue.places[behind];
    }
    let newest = queue::place_from(queue.start, last);
    queue.places[newest] = 0;
    queue.count = last;
}

// The oldest event of this type and location goes. Where that is the oldest of all, as in Get,
// nothing is searched and no event moves.
pub fn take(queue: &mut Queue, event: Event)
    requires { Lawful queue.old }
    ensures { HoldsAt queue.new (without (meets (like_of event)) (events_of queue.old)) (start_without event (events_of queue.old) queue.old.start) }
{
    let search = Search {
        by: queue::BY_BOTH,
        wanted: event,
    };
    let Some(first) = event_ring::oldest(queue) else {
        return;
    };
    if queue::is_met(search, first) {
        drop_oldest(queue);
    } else if let Some(newer) = event_ring::find(queue, search) {
        close_gap(queue, newer);
    }
}

// All events go, and the ring begins at place 0.
pub fn clear(queue: &mut Queue)
    ensures { HoldsAt queue.new [] 0 }
{
    *queue = Queue {
        places: [0; 100],
        start: 0,
        count: 0,
    };
}
