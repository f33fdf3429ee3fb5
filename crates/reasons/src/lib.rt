// Reasons: why a command was turned back, or a step refused, in one line of words.
//
// The reason is read off the code or the number of the refusal, and off the router as it was before the step: who had
// to answer whom, and who was closed or had no row. Where the code or the refusal says all there is to
// say, there is no line.
//
// As in crate `telling`, nothing is promised of the words.
#![tactic(auto)]

use arrivals::Arrival;
use message::Head;
use place::Place;
use router::Router;
use sentences::Teller;

// The oldest place that passes a test.
fn find<F: Fn(u64) -> bool>(router: &Router, passes: F) -> Option<Place>
    requires { F.IsAlwaysCallable passes }
{
    let mut places = router.list.iter().take(router.len);
    places
        .find(|&&x| passes(x))
        .map(|&x| router_tests::place_of(x))
}

// The same; where there is none it is one of zeros, so that a line is said all the same.
fn find_or_zeros<F: Fn(u64) -> bool>(router: &Router, passes: F) -> Place
    requires { F.IsAlwaysCallable passes }
{
    find(router, passes).unwrap_or(router_tests::place_of(0))
}

// ---- turned back

// What keeps a handler busy.
fn tell_taken(out: &mut Teller<'_>, router: &Router, handler: u16, thread: u8) {
    let place = find_or_zeros(router, |x| router_tests::on_slot(x, handler, thread));
    let form = if place.owed {
        sentences::OWES_REPLY
    } else {
        sentences::HAS_TO_ANSWER
    };
    let asker = usize::from(place.asker);
    out.say(&[form, usize::from(handler), asker, usize::from(place.thread)]);
}

// Why a handler could not be asked: by itself, by its own thread, or while it is busy.
fn tell_busy(out: &mut Teller<'_>, router: &Router, head: Head) {
    let handler = tapa::handler(head.destination);
    let thread = head.thread;
    if handler == tapa::handler(head.source) {
        out.say(&[sentences::ASKS_ITSELF, usize::from(handler)]);
        return;
    }
    match find(router, |x| router_tests::has_on(x, thread, handler)) {
        Some(_) => out.say(&[sentences::IN_THREAD, usize::from(handler)]),
        None => tell_taken(out, router, handler, thread),
    }
}

// Why an asker may not ask: the thread is another's, or nobody's.
fn tell_turn(out: &mut Teller<'_>, router: &Router, head: Head) {
    let thread = head.thread;
    match find(router, |x| router_tests::open_on(x, thread)) {
        Some(root) => {
            let asker = usize::from(root.asker);
            out.say(&[sentences::NOT_ITS_TURN, asker, usize::from(head.source)]);
        }
        None => out.say(&[sentences::NO_THREAD]),
    }
}

// A handler is closed. Of the event queue it is said that it stays so: it does not know Open Handler.
fn tell_closed(out: &mut Teller<'_>, handler: u16) {
    out.say(&[sentences::IS_CLOSED, usize::from(handler)]);
    if handler == tapa::EVENT_HANDLER {
        out.say(&[sentences::QUEUE_STAYS_CLOSED]);
    }
}

// Why a command was turned back, by its code.
pub fn tell_turned(out: &mut Teller<'_>, router: &Router, came: Arrival, code: u16) {
    let head = came.head();
    let handler = tapa::handler(head.destination);
    let name = names::category_name(head.destination);
    match code {
        tapa::INVALID_DESTINATION => out.say(&[sentences::NO_SUCH, usize::from(handler)]),
        tapa::UNSUPPORTED_OPERATION => {
            out.say(&[sentences::NOT_KNOWN, name, usize::from(handler)]);
        }
        tapa::MUST_BE_OPENED => tell_closed(out, handler),
        tapa::HANDLER_ERROR => tell_turn(out, router, head),
        tapa::HANDLER_BUSY => tell_busy(out, router, head),
        _ => {}
    }
}

// ---- refused

// Who has to have a row: the source of a message, or the address of a replaced call.
fn speaker(came: Arrival) -> u16 {
    match came {
        Arrival::Replaced { address } => address,
        _ => came.head().source,
    }
}

fn tell_unlisted(out: &mut Teller<'_>, address: u16) {
    let handler = tapa::handler(address);
    out.say(&[sentences::NO_SUCH, usize::from(handler)]);
}

// A handler that waits for somebody itself on the thread.
fn tell_waits(out: &mut Teller<'_>, router: &Router, address: u16, thread: u8) {
    let handler = tapa::handler(address);
    let place = find_or_zeros(router, |x| router_tests::holds_on(x, thread, handler));
    let asked = usize::from(place.asked);
    out.say(&[sentences::STILL_WAITS, usize::from(address), asked]);
}

// Whether it is a wait of this thread that asks this handler, by either of its addresses.
fn asks(x: u64, handler: u16, thread: u8) -> bool {
    let place = router_tests::place_of(x);
    router_tests::open_on(x, thread) && tapa::handler(place.asked) == handler
}

// Nobody waits for exactly this address on the thread; somebody may for its handler's other one.
fn tell_unasked(out: &mut Teller<'_>, router: &Router, address: u16, thread: u8) {
    let handler = tapa::handler(address);
    match find(router, |x| asks(x, handler, thread)) {
        Some(place) => {
            let asked = usize::from(place.asked);
            out.say(&[sentences::ASKED_AS, asked, usize::from(address)]);
        }
        None => out.say(&[sentences::NOBODY_WAITS, usize::from(address)]),
    }
}

// A stray response: nobody waits for the address; or somebody does, and it waits for somebody itself.
fn tell_stray(out: &mut Teller<'_>, router: &Router, address: u16, thread: u8) {
    match find(router, |x| router_tests::asks_exactly(x, address, thread)) {
        Some(_) => tell_waits(out, router, address, thread),
        None => tell_unasked(out, router, address, thread),
    }
}

// Who asked.
fn tell_asker(out: &mut Teller<'_>, router: &Router, address: u16, thread: u8) {
    let place = find_or_zeros(router, |x| router_tests::asks_exactly(x, address, thread));
    out.say(&[sentences::ASKED_BY, usize::from(place.asker)]);
}

// The event queue has no row, or is closed.
fn tell_no_queue(out: &mut Teller<'_>, router: &Router) {
    let queue = tapa::EVENT_HANDLER;
    if router.count <= 16 && router_rows::is_listed(&router.cells, router.count, queue) {
        tell_closed(out, queue);
    } else {
        tell_unlisted(out, queue);
    }
}

// The open question that a device stands in.
fn tell_stands(out: &mut Teller<'_>, router: &Router, address: u16) {
    let handler = tapa::handler(address);
    let place = find_or_zeros(router, |x| router_tests::has_open(x, handler));
    let asker = usize::from(place.asker);
    let asked = usize::from(place.asked);
    let thread = usize::from(place.thread);
    if tapa::handler(place.asked) == handler {
        out.say(&[sentences::HAS_QUESTION, asked, asker, thread]);
    } else {
        out.say(&[sentences::WAITS_FOR, asker, asked, thread]);
    }
}

// Why a step was refused, by its number; of a number that has no reason here nothing is said.
pub fn tell_refused(out: &mut Teller<'_>, router: &Router, came: Arrival, number: u8) {
    let head = came.head();
    let (asker, asked, thread) = (head.source, head.destination, head.thread);
    match number {
        4 => tell_unlisted(out, speaker(came)),
        7 => tell_stray(out, router, asker, thread),
        8 => tell_asker(out, router, asker, thread),
        10 => tell_no_queue(out, router),
        14 => tell_unasked(out, router, asked, thread),
        16 => tell_stands(out, router, asked),
        20 => tell_waits(out, router, asked, thread),
        _ => {}
    }
}
