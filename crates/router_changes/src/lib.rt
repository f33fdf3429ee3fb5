// What is done to the list of places: one more, one owed from now on, one less, a handler's owings
// ended.
//
// A change works in place on the lent list and keeps its law (`Lawful`, room places). Where the number
// of places may change, it answers the next one.
#![tactic(auto)]

ghost use Rattle.lists.specs.Lists.{keep, without_at, changed_at};
ghost use Rattle.places.specs.Places.{places_of, Lawful, Becomes, pushed, owing, not_owed_by};

use place::Place;

// One place more, the newest. A full list stays as it is: no place is dropped. The law of a router's
// state gives the room: at most 44 places are in use (rules, Bound).
pub fn push(list: &mut [u64; 48], n: usize, place: Place) -> usize
    requires { Lawful list.old n }
    ensures { Becomes list.new result (pushed place (places_of list.old n)) }
{
    if 48 <= n {
        return n;
    }
    list[n] = router_tests::pack_of(place);
    n + 1
}

// The place with a number is owed from now on. Past the count nothing happens.
pub fn owe(list: &mut [u64; 48], n: usize, at: usize)
    requires { Lawful list.old n }
    ensures { Becomes list.new n (changed_at owing at (places_of list.old n)) }
{
    if n <= at {
        return;
    }
    let x = list[at];
    if x < router_tests::MARK {
        list[at] = x + router_tests::MARK;
    }
}

// The place with a number goes, and the newer ones move down. Past the count nothing happens.
pub fn remove(list: &mut [u64; 48], n: usize, at: usize) -> usize
    requires { Lawful list.old n }
    ensures { Becomes list.new result (without_at at (places_of list.old n)) }
{
    if n <= at {
        return n;
    }
    list.copy_within(at + 1..n, at);
    list[n - 1] = 0;
    n - 1
}

// A handler's owings end; the places that stay keep their order. Each place is cleared as it is
// passed and, where it stays, put behind the last that stayed.
pub fn drop_owed(list: &mut [u64; 48], n: usize, handler: u16) -> usize
    requires { Lawful list.old n }
    ensures { Becomes list.new result (keep (not_owed_by handler) (places_of list.old n)) }
{
    let mut kept = 0;
    for seen in 0..n {
        let x = list[seen];
        list[seen] = 0;
        if !router_tests::owed_by(x, handler) {
            list[kept] = x;
            kept += 1;
        }
    }
    kept
}
