// Telling: what is said below the line of an item, in plain words.
//
// For a step: what came, what became of it, how its thread now stands, and the page of the support
// book that tells what to do. The sentences stand in crate `sentences`; here they are chosen, and their
// holes are filled.
//
// Nothing is promised of the words; they are tried on the examples. Crate `blocks` sets them in, so
// that they cannot be taken for lines of the transcript.
#![tactic(auto)]

use arrivals::Arrival;
use fields::NextRow;
use message::Head;
use place::Place;
use router::Router;
use rules::Outcome;
use run::{Item, Totals};
use sentences::Teller;
use tapa::Refusal;

// ---- parts

// What stands after an address that asks for an enciphered response.
fn mark(address: u16) -> usize {
    if address == tapa::handler(address) {
        names::NOTHING
    } else {
        sentences::ENCIPHERED
    }
}

// How much data there is, and the end of the line.
fn say_data(out: &mut Teller<'_>, length: usize) {
    match length {
        0 => out.say(&[sentences::NO_DATA]),
        1 => out.say(&[sentences::ONE_BYTE]),
        _ => out.say(&[sentences::BYTES, length]),
    }
}

// Of the event queue: that it stays closed.
fn say_if_queue(out: &mut Teller<'_>, handler: u16) {
    if handler == tapa::EVENT_HANDLER {
        out.say(&[sentences::QUEUE_STAYS_CLOSED]);
    }
}

// ---- what came

// Who says something to whom: the sentence, its first seven values, and two that it has besides.
fn put_message(out: &mut Teller<'_>, form: usize, head: Head, a: usize, b: usize) {
    out.put(&[
        form,
        usize::from(head.thread),
        names::category_name(head.source),
        usize::from(head.source),
        mark(head.source),
        names::category_name(head.destination),
        usize::from(head.destination),
        mark(head.destination),
        a,
        b,
    ]);
}

fn tell_command(out: &mut Teller<'_>, head: Head) {
    let form = if ruling::is_add_event(head) {
        sentences::REPORTS
    } else {
        sentences::ASKS
    };
    let name = names::type_name(head.kind);
    put_message(out, form, head, name, usize::from(head.kind));
    say_data(out, head.length);
}

// The code is not counted with the data.
fn tell_response(out: &mut Teller<'_>, head: Head, code: Option<u16>) {
    match code {
        Some(code) => {
            let name = names::code_name(code);
            put_message(out, sentences::ANSWERS, head, usize::from(code), name);
            say_data(out, head.length.saturating_sub(2));
        }
        None => {
            put_message(out, sentences::ANSWERS_BARE, head, 0, 0);
            say_data(out, head.length);
        }
    }
}

// What came.
fn tell_arrival(out: &mut Teller<'_>, came: Arrival) {
    match came {
        Arrival::Unread { length } => out.say(&[sentences::UNREAD, length]),
        Arrival::Torn { head, came } => {
            put_message(out, sentences::TORN, head, head.length, came);
            out.end_line();
        }
        Arrival::Command(head) => tell_command(out, head),
        Arrival::Response { head, code } => tell_response(out, head, code),
        Arrival::GiveUp { thread, address } => {
            let name = names::category_name(address);
            let thread = usize::from(thread);
            out.say(&[
                sentences::GIVES_UP,
                thread,
                name,
                usize::from(address),
                mark(address),
            ]);
        }
        Arrival::Replaced { address } => {
            let name = names::category_name(address);
            out.say(&[
                sentences::REPLACES,
                name,
                usize::from(address),
                mark(address),
            ]);
        }
        Arrival::Nothing => {}
    }
}

// ---- how a thread stands

// An open question of a thread, or an owed reply: the first of its line, or one more.
fn put_place(out: &mut Teller<'_>, place: Place, first: bool) {
    let thread = usize::from(place.thread);
    let name = names::category_name(place.asker);
    let asker = usize::from(place.asker);
    let asked = usize::from(place.asked);
    let a = mark(place.asker);
    let b = mark(place.asked);
    match (place.owed, first) {
        (false, true) => out.put(&[sentences::OPEN_FIRST, thread, name, asker, a, asked, b]),
        (false, false) => out.put(&[sentences::OPEN_MORE, asker, a, asked, b]),
        (true, true) => out.put(&[sentences::OWED_FIRST, thread, asked, b, asker, a]),
        (true, false) => out.put(&[sentences::OWED_MORE, asked, b, asker, a]),
    }
}

// The open questions of a thread, or its owed replies, oldest first, in one line; whether there are any.
fn tell_places(out: &mut Teller<'_>, router: &Router, thread: u8, owed: bool) -> bool {
    let mut any = false;
    for &x in router.list.iter().take(router.len) {
        let place = router_tests::place_of(x);
        if place.thread == thread && place.owed == owed {
            put_place(out, place, !any);
            any = true;
        }
    }
    if any {
        out.end_line();
    }
    any
}

// How the thread of a step stands.
fn tell_thread(out: &mut Teller<'_>, router: &Router, thread: u8) {
    if !tell_places(out, router, thread, false) {
        out.say(&[sentences::NONE_OPEN, usize::from(thread)]);
    }
    tell_places(out, router, thread, true);
}

// What each thread has at the end; one that has nothing is not named.
fn tell_all_threads(out: &mut Teller<'_>, router: &Router) {
    for thread in 0..8 {
        tell_places(out, router, thread, false);
        tell_places(out, router, thread, true);
    }
}

// ---- what became of it

fn tell_turned(out: &mut Teller<'_>, came: Arrival, code: u16, before: &Router) {
    let name = names::code_name(code);
    let asker = usize::from(came.head().source);
    out.say(&[sentences::TURNED, asker, usize::from(code), name]);
    reasons::tell_turned(out, before, came, code);
}

fn tell_given(out: &mut Teller<'_>, asker: u16, asked: u16) {
    let code = tapa::HANDLER_ERROR;
    let name = names::code_name(code);
    let asker = usize::from(asker);
    out.say(&[
        sentences::GIVEN,
        asker,
        usize::from(code),
        name,
        usize::from(asked),
    ]);
}

// Whether a handler has a row that is marked as open.
fn is_open(router: &Router, handler: u16) -> bool {
    router.count <= 16 && router_rows::is_open(&router.cells, router.count, handler)
}

// The answer, and whether it opened or closed the handler that gave it.
fn tell_answered(out: &mut Teller<'_>, asked: u16, asker: u16, before: &Router, after: &Router) {
    out.say(&[sentences::ANSWERED, usize::from(asker), usize::from(asked)]);
    let handler = tapa::handler(asked);
    match (is_open(before, handler), is_open(after, handler)) {
        (false, true) => out.say(&[sentences::NOW_OPEN, usize::from(handler)]),
        (true, false) => out.say(&[sentences::NOW_CLOSED, usize::from(handler)]),
        _ => {}
    }
}

fn tell_refused(out: &mut Teller<'_>, came: Arrival, refusal: Refusal, before: &Router) {
    let number = tapa::number(refusal);
    let name = names::refusal_name(number);
    out.say(&[sentences::REFUSED, name]);
    reasons::tell_refused(out, before, came, number);
}

// What became of a step.
fn tell_outcome(
    out: &mut Teller<'_>,
    came: Arrival,
    outcome: Outcome,
    before: &Router,
    after: &Router,
) {
    match outcome {
        Outcome::Passed { asked, .. } => out.say(&[sentences::PASSED, usize::from(asked)]),
        Outcome::Answered { asked, asker, .. } => tell_answered(out, asked, asker, before, after),
        Outcome::Swallowed { asked, .. } => out.say(&[sentences::SWALLOWED, usize::from(asked)]),
        Outcome::Event => out.say(&[sentences::EVENT]),
        Outcome::Turned { code, .. } => tell_turned(out, came, code, before),
        Outcome::Given { asker, asked, .. } => tell_given(out, asker, asked),
        Outcome::Reset { handler } => {
            out.say(&[sentences::RESET, usize::from(handler)]);
            say_if_queue(out, handler);
        }
        Outcome::Refused(refusal) => tell_refused(out, came, refusal, before),
    }
}

// The page of the book on a refusal.
fn see_refusal(out: &mut Teller<'_>, refusal: Refusal) {
    let number = usize::from(tapa::number(refusal));
    out.say(&[sentences::SEE_REFUSAL, number / 10, number % 10]);
}

// The page of the book, where the router refused or made a code.
fn tell_page(out: &mut Teller<'_>, outcome: Outcome) {
    match outcome {
        Outcome::Turned { code, .. } => out.say(&[sentences::SEE_CODE, usize::from(code)]),
        Outcome::Given { .. } => {
            out.say(&[sentences::SEE_CODE, usize::from(tapa::HANDLER_ERROR)]);
        }
        Outcome::Refused(refusal) => see_refusal(out, refusal),
        _ => {}
    }
}

// The thread of what came, where it is told of: bytes that do not read have none.
fn thread_of(came: Arrival) -> Option<u8> {
    match came {
        Arrival::Command(head) | Arrival::Response { head, .. } => Some(head.thread),
        Arrival::GiveUp { thread, .. } => Some(thread),
        _ => None,
    }
}

fn tell_step(
    out: &mut Teller<'_>,
    came: Arrival,
    outcome: Outcome,
    before: &Router,
    after: &Router,
) {
    tell_arrival(out, came);
    tell_outcome(out, came, outcome, before, after);
    if let Some(thread) = thread_of(came)
        && thread < 8
    {
        tell_thread(out, after, thread);
    }
    tell_page(out, outcome);
}

// ---- how a session ends

fn tell_totals(out: &mut Teller<'_>, sums: Totals, router: &Router) {
    out.say(&[sentences::ALL_PASSED, sums.accepted]);
    out.say(&[sentences::ALL_ANSWERED, sums.answered]);
    out.say(&[sentences::ALL_GIVEN, sums.given]);
    out.say(&[sentences::ALL_WAITING, sums.waiting]);
    out.say(&[sentences::ALL_OWING, sums.owing]);
    tell_all_threads(out, router);
}

// What is said of an item, from the start of the buffer: with what came, and the router before and
// after it.
pub fn tell(
    words: &mut [u8],
    sheet: &[u8],
    came: Arrival,
    item: Item,
    before: &Router,
    after: &Router,
) -> usize {
    let mut out = Teller::new(words, sheet);
    match item {
        Item::Came { outcome, .. } => tell_step(&mut out, came, outcome, before, after),
        Item::Over(sums) => tell_totals(&mut out, sums, after),
        Item::Broken(number) => {
            out.say(&[sentences::BROKEN, number]);
            out.say(&[sentences::SEE_BROKEN]);
        }
        Item::Refused(refusal) => {
            let name = names::refusal_name(tapa::number(refusal));
            out.say(&[sentences::BAD_TABLE, name]);
            see_refusal(&mut out, refusal);
        }
        Item::TooLong => {
            out.say(&[sentences::TOO_LONG]);
            out.say(&[sentences::SEE_TOO_LONG]);
        }
        Item::Nothing => {}
    }
    out.place()
}

// ---- the rows

fn tell_row(out: &mut Teller<'_>, number: usize, address: u16, opened: bool) {
    let form = if opened {
        sentences::OPEN_ROW
    } else {
        sentences::CLOSED_ROW
    };
    out.say(&[
        form,
        number,
        names::category_name(address),
        usize::from(address),
        mark(address),
        names::device_name(address),
    ]);
    if !opened {
        say_if_queue(out, address);
    }
}

// What is said of the rows of a file, from the start of the buffer. Of rows that are too many only
// the first 16 are named; of an input that is too long none is read.
pub fn tell_rows(words: &mut [u8], sheet: &[u8], input: &[u8]) -> usize {
    if 65536 < input.len() {
        return 0;
    }
    let mut out = Teller::new(words, sheet);
    let mut at = 0;
    for number in 1..=16 {
        let NextRow::Row {
            address,
            opened,
            next,
        } = fields::row_at(input, at)
        else {
            return out.place();
        };
        tell_row(&mut out, number, address, opened);
        at = next;
    }
    if let NextRow::Row { .. } = fields::row_at(input, at) {
        out.say(&[sentences::MORE_ROWS]);
    }
    out.place()
}
