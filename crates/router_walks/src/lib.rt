// What the list of places is asked: which wait a response or a give up is about, what is owed, where
// a handler stands, and whether it is taken.
//
// A walk goes over the lent list once, from its newest place on, and changes nothing: what is asked about
// is mostly among the newest. (Only a leaf takes two walks, and the first of them ends where it is found.)
// Room places says what the answers mean,
// room router_tests what is asked of one place.
#![tactic(auto)]

ghost use Rattle.std.specs.Prelude.{◌≡◌};
ghost use Rattle.lists.specs.Lists.{find, some_of};
ghost use Rattle.places.specs.Places.{places_of, place_at, Lawful, owes_exactly, stands_on, stands_in, on_slot, leaf_of, standing_of};

use place::Place;
use places::{NoLeaf, Standing};

// ---- a place by its number

// The place with a number; past the count it is one of zeros.
pub fn place_at(list: &[u64; 48], n: usize, at: usize) -> Place
    requires { Lawful list.now n }
    ensures { result ≡ place_at list.now at }
{
    if at < n {
        return router_tests::place_of(list[at]);
    }
    router_tests::place_of(0)
}

// ---- a thread's tree

// The wait of a thread that asks exactly this address: a leaf, unless its handler holds a question on
// the thread.
pub fn leaf_at(list: &[u64; 48], n: usize, asked: u16, thread: u8) -> Result<usize, NoLeaf>
    requires { Lawful list.now n }
    ensures { result ≡ leaf_of asked thread (places_of list.now n) }
{
    let places = &list[..n];
    let handler = tapa::handler(asked);
    let Some(at) = places
        .iter()
        .rposition(|x| router_tests::asks_exactly(*x, asked, thread))
    else {
        return Err(NoLeaf::Missing);
    };
    if places
        .iter()
        .any(|x| router_tests::holds_on(*x, thread, handler))
    {
        return Err(NoLeaf::Holds);
    }
    Ok(at)
}

// Where a handler stands to a thread's tree: one walk from the newest place tells whether it is in it, and
// whether there is one at all. It stops at the innermost question, where the next asker mostly stands.
pub fn standing_of(list: &[u64; 48], n: usize, thread: u8, handler: u16) -> Standing
    requires { Lawful list.now n }
    ensures { result ≡ standing_of thread handler (places_of list.now n) }
{
    let mut waits = false;
    for newer in 0..n {
        let x = list[n - newer - 1];
        if router_tests::has_on(x, thread, handler) {
            return Standing::Within;
        }
        if router_tests::open_on(x, thread) {
            waits = true;
        }
    }
    if waits {
        return Standing::Outside;
    }
    Standing::Empty
}

// ---- an owing, and a handler

// The owing on a thread of exactly this asked address.
pub fn find_owed(list: &[u64; 48], n: usize, asked: u16, thread: u8) -> Option<usize>
    requires { Lawful list.now n }
    ensures { result ≡ find (owes_exactly asked thread) (places_of list.now n) }
{
    list[..n]
        .iter()
        .rposition(|x| router_tests::owes_exactly(*x, asked, thread))
}

// Whether a handler stands in a wait of a thread as asker or asked.
pub fn stands_on(list: &[u64; 48], n: usize, thread: u8, handler: u16) -> bool
    requires { Lawful list.now n }
    ensures { result ≡ some_of (stands_on thread handler) (places_of list.now n) }
{
    list[..n]
        .iter()
        .rposition(|x| router_tests::has_on(*x, thread, handler))
        .is_some()
}

// Whether a handler stands in a wait of any thread as asker or asked.
pub fn stands_in(list: &[u64; 48], n: usize, handler: u16) -> bool
    requires { Lawful list.now n }
    ensures { result ≡ some_of (stands_in handler) (places_of list.now n) }
{
    list[..n]
        .iter()
        .rposition(|x| router_tests::has_open(*x, handler))
        .is_some()
}

// Whether a handler is asked or owing: a single one on any thread, a multi one on this thread.
pub fn taken(list: &[u64; 48], n: usize, handler: u16, thread: u8) -> bool
    requires { Lawful list.now n }
    ensures { result ≡ some_of (on_slot handler thread) (places_of list.now n) }
{
    list[..n]
        .iter()
        .rposition(|x| router_tests::on_slot(*x, handler, thread))
        .is_some()
}
