// The router: its state, and the calls that take it and hand the next one back.
//
// `route`, `give_up` and `replaced` are methods with self by value, as the page names them: each
// copies the arrays of the state, 448 bytes, and makes the next one of the copies.
// `route_in`, `give_up_in` and `replaced_in` are the same calls over arrays that are lent: they change
// them in place, and copy nothing. Who keeps the arrays of a state in locals, as the loop of `pages`
// does, routes a message without a copy.
//
// The law of a state (`Lawful`) holds of every router that a start or a call hands back. With the
// view it leaves one state possible: proofs/Once.antt.
#![tactic(auto)]

ghost use Rattle.std.specs.Prelude.{◌≡◌};
ghost use Rattle.lists.specs.Lists.{count as count_of};
ghost use Rattle.places.specs.Places.{places_of, is_open, is_owed};
ghost use Rattle.places.specs.Places as places;
ghost use Rattle.router.specs.Router.{view_of, Lawful, Routes, GivesUp, Replaces, state_of, routed_to};

use routing::Step;
use rules::Outcome;

// The list of places with its length, and the table's rows with their count.
#[derive(Clone, Copy)]
pub struct Router {
    pub list: [u64; 48],
    pub len: usize,
    pub cells: [u32; 16],
    pub count: usize,
}

#[derive(Clone, Copy)]
pub struct Routed {
    pub outcome: Outcome,
    pub next: Router,
}

// A state is its parts: who owns the arrays makes it of them. No other place makes one.
pub fn state_of(cells: [u32; 16], count: usize, list: [u64; 48], len: usize) -> Router
    ensures { result ≡ state_of cells count list len }
{
    Router {
        list,
        len,
        cells,
        count,
    }
}

// ---- the calls in place: who owns the arrays of a state lends them

pub fn route_in(
    cells: &mut [u32; 16],
    count: usize,
    list: &mut [u64; 48],
    len: usize,
    message: &[u8],
    reply: &mut [u8],
) -> Step
    requires { Lawful (state_of cells.old count list.old len) }
    ensures { Routes (state_of cells.old count list.old len) message.now reply.old reply.new (routed_to result cells.new count list.new) }
{
    router_command::on_message(cells, count, list, len, message, reply)
}

// A give up looks at no row; cells and count are lent since the law of a state speaks of them too.
pub fn give_up_in(
    cells: &[u32; 16],
    count: usize,
    list: &mut [u64; 48],
    len: usize,
    thread: u8,
    asked: u16,
    reply: &mut [u8],
) -> Step
    requires { Lawful (state_of cells.now count list.old len) }
    ensures { GivesUp (state_of cells.now count list.old len) thread asked reply.old reply.new (routed_to result cells.now count list.new) }
{
    router_give_up::on_give_up(list, len, thread, asked, reply)
}

pub fn replaced_in(
    cells: &mut [u32; 16],
    count: usize,
    list: &mut [u64; 48],
    len: usize,
    address: u16,
) -> Step
    requires { Lawful (state_of cells.old count list.old len) }
    ensures { Replaces (state_of cells.old count list.old len) address (routed_to result cells.new count list.new) }
{
    router_give_up::on_replaced(cells, count, list, len, address)
}

// ---- the calls by value

// What a call in place answers, with what the arrays then hold.
fn routed_to(step: Step, cells: [u32; 16], count: usize, list: [u64; 48]) -> Routed
    ensures { result ≡ routed_to step cells count list }
{
    let outcome = step.outcome;
    let next = state_of(cells, count, list, step.len);
    Routed { outcome, next }
}

impl Router {
    pub fn route(self, message: &[u8], reply: &mut [u8]) -> Routed
        requires { Lawful self }
        ensures { Routes self message.now reply.old reply.new result }
    {
        let mut cells = self.cells;
        let mut list = self.list;
        let step = route_in(&mut cells, self.count, &mut list, self.len, message, reply);
        routed_to(step, cells, self.count, list)
    }

    pub fn give_up(self, thread: u8, asked: u16, reply: &mut [u8]) -> Routed
        requires { Lawful self }
        ensures { GivesUp self thread asked reply.old reply.new result }
    {
        let cells = self.cells;
        let mut list = self.list;
        let step = give_up_in(
            &cells, self.count, &mut list, self.len, thread, asked, reply,
        );
        routed_to(step, cells, self.count, list)
    }

    pub fn replaced(self, address: u16) -> Routed
        requires { Lawful self }
        ensures { Replaces self address result }
    {
        let mut cells = self.cells;
        let mut list = self.list;
        let step = replaced_in(&mut cells, self.count, &mut list, self.len, address);
        routed_to(step, cells, self.count, list)
    }
}

// ---- how many are under way

// How many places of a list are owed.
pub fn count_owed(list: &[u64; 48], len: usize) -> usize
    requires { places.Lawful list.now len }
    ensures { result ≡ count_of is_owed (places_of list.now len) }
{
    list[..len]
        .iter()
        .filter(|x| router_tests::place_of(**x).owed)
        .count()
}

// How many places of a list are open: every one that is not owed.
pub fn count_open(list: &[u64; 48], len: usize) -> usize
    requires { places.Lawful list.now len }
    ensures { result ≡ count_of is_open (places_of list.now len) }
{
    len - count_owed(list, len)
}

impl Router {
    // How many owings there are.
    pub fn owing(self) -> usize
        requires { Lawful self }
        ensures { result ≡ count_of is_owed (view_of self).places }
    {
        let list = self.list;
        count_owed(&list, self.len)
    }

    // How many waits there are: every place that is not owed.
    pub fn waiting(self) -> usize
        requires { Lawful self }
        ensures { result ≡ count_of is_open (view_of self).places }
    {
        let list = self.list;
        count_open(&list, self.len)
    }
}
