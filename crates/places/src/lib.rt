// Places: the one list of passed commands that are not done with.
//
// One list holds the waits and the owings. Each place is packed into a number (room place), and
// the caller lends the 48 numbers and says how many are in use. They stand oldest first, and a
// free cell is 0.
//
// The definitions read the list newest first (`places_of`), so that a place's number is how many places
// are older: its index. The code stands in two rooms: router_walks has what the list is asked,
// router_changes what is done to it.
//
// The law of a list (`Lawful`) is that of any array that holds a list (room lists, Arrays). A
// change keeps the law, and the places with the law leave one array possible: proofs/Once.antt.
#![tactic(auto)]

// Why a thread's tree has no leaf at an exact address: the handler of the wait that asks it holds a
// question of its own on the thread, or no wait asks it.
#[derive(Clone, Copy)]
pub enum NoLeaf {
    Holds,
    Missing,
}

// Where a handler stands to a thread's tree: in one of its waits as asker or asked, in none of them,
// or there is no wait.
#[derive(Clone, Copy)]
pub enum Standing {
    Within,
    Outside,
    Empty,
}
