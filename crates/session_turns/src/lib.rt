// Session turns: a session hands out its items, one a turn: the outcome of a step, how the run ends, or
// that nothing is left.
//
// A turn is `next_in`, over the router's arrays, which a loop owns and lends, so that no message copies
// them; `next` is the same turn by value. What a turn hands out, and the state after it, are those of
// crate `run` (`Turns`), where the law of a state stands too.
#![tactic(auto)]

ghost use Rattle.std.specs.Prelude.{◌≡◌, ◌≤◌, length};
ghost use Rattle.places.specs.Places as places;
ghost use Rattle.places.specs.Places.{places_of};
ghost use Rattle.fields.specs.Fields.{message, give-up, replaced};
ghost use Rattle.fields.specs.Places.{between};
ghost use Rattle.run.specs.State.{tallied, totals_of, hands_out, Sound, Ready, went_by, ahead_of, Stepped, Turns, session_of, turn_of, came_to, ended_at};

use fields::NextStep;
use routing::Step;
use rules::Outcome;
use run::{Ahead, Cursor, Item, Session, Stage, Tally, Totals, Turn, Went};

// ---- a step

// The counts after an outcome.
fn tally_with(outcome: Outcome, tally: Tally) -> Tally
    requires { (tally.accepted ≤ 65536) × (tally.answered ≤ 65536) × (tally.given ≤ 65536) }
    ensures { result ≡ tallied outcome tally }
{
    let mut next = tally;
    match outcome {
        Outcome::Passed { .. } => next.accepted += 1,
        Outcome::Answered { .. } => next.answered += 1,
        Outcome::Given { .. } => next.given += 1,
        Outcome::Turned { .. } | Outcome::Swallowed { .. } | Outcome::Event => {}
        Outcome::Reset { .. } | Outcome::Refused(_) => {}
    }
    next
}

// The cursor after a step whose field ends at `end`.
fn after_step(cursor: Cursor, outcome: Outcome, end: usize) -> Cursor
    requires { Sound cursor }
    ensures { result ≡ went_by cursor outcome end }
{
    Cursor {
        at: end,
        number: cursor.number + 1,
        step: cursor.step + 1,
        tally: tally_with(outcome, cursor.tally),
        stage: Stage::Steps,
    }
}

// What a call of the router comes to, with the reply buffer after it.
fn stepped(cursor: Cursor, done: Step, reply: [u8; 10], end: usize) -> Went
    requires { Sound cursor }
    ensures { result ≡ came_to cursor done reply end }
{
    Went {
        item: Item::Came {
            step: cursor.step,
            outcome: done.outcome,
        },
        reply,
        more: true,
        cursor: after_step(cursor, done.outcome, end),
        len: done.len,
    }
}

// A message is routed.
fn on_message(
    cells: &mut [u32; 16],
    count: usize,
    list: &mut [u64; 48],
    len: usize,
    cursor: Cursor,
    input: &[u8],
    start: usize,
    end: usize,
) -> Went
    requires ready { Ready (session_of cells.old count list.old len cursor) }
    requires start_le_end { (start ≤ end) × (end ≤ length input.now) }
    ensures { Stepped (session_of cells.old count list.old len cursor) (message (between input.now start end)) end (turn_of result cells.new count list.new) }
{
    let mut reply = [0u8; 10];
    let done = router::route_in(cells, count, list, len, &input[start..end], &mut reply);
    stepped(cursor, done, reply, end)
}

// A handler is given up.
fn on_give_up(
    cells: &[u32; 16],
    count: usize,
    list: &mut [u64; 48],
    len: usize,
    cursor: Cursor,
    thread: u8,
    address: u16,
    end: usize,
) -> Went
    requires { Ready (session_of cells.now count list.old len cursor) }
    ensures { Stepped (session_of cells.now count list.old len cursor) (give-up thread address) end (turn_of result cells.now count list.new) }
{
    let mut reply = [0u8; 10];
    let done = router::give_up_in(cells, count, list, len, thread, address, &mut reply);
    stepped(cursor, done, reply, end)
}

// A handler was replaced. That has no reply.
fn on_replaced(
    cells: &mut [u32; 16],
    count: usize,
    list: &mut [u64; 48],
    len: usize,
    cursor: Cursor,
    address: u16,
    end: usize,
) -> Went
    requires { Ready (session_of cells.old count list.old len cursor) }
    ensures { Stepped (session_of cells.old count list.old len cursor) (replaced address) end (turn_of result cells.new count list.new) }
{
    let reply = [0u8; 10];
    let done = router::replaced_in(cells, count, list, len, address);
    stepped(cursor, done, reply, end)
}

// ---- the end

// The counts at the end, with what the places say is under way.
fn sum_up(list: &[u64; 48], len: usize, tally: Tally) -> Totals
    requires { places.Lawful list.now len }
    ensures { result ≡ totals_of tally (places_of list.now len) }
{
    Totals {
        accepted: tally.accepted,
        answered: tally.answered,
        given: tally.given,
        waiting: router::count_open(list, len),
        owing: router::count_owed(list, len),
    }
}

// Whether something is handed out.
fn hands_out(item: Item) -> bool
    ensures { result ≡ hands_out item }
{
    !matches!(item, Item::Nothing)
}

// The last item: nothing is left after it.
fn ended(cursor: Cursor, item: Item, len: usize) -> Went
    ensures { result ≡ ended_at cursor item len }
{
    Went {
        item,
        reply: [0; 10],
        more: hands_out(item),
        cursor: Cursor {
            stage: Stage::Settled(Item::Nothing),
            ..cursor
        },
        len,
    }
}

// ---- one turn, in place

// What comes next: an item that is settled, or what stands at the place.
fn look_ahead(cursor: Cursor, input: &[u8]) -> Ahead
    ensures { result ≡ ahead_of input.now cursor }
{
    if let Stage::Settled(item) = cursor.stage {
        return Ahead::Last(item);
    }
    if 65536 < input.len() {
        return Ahead::Last(Item::TooLong);
    }
    match fields::step_at(input, cursor.at) {
        NextStep::Message { start, next } => Ahead::Message { start, end: next },
        NextStep::GiveUp {
            thread,
            address,
            next,
        } => Ahead::GiveUp {
            thread,
            address,
            end: next,
        },
        NextStep::Replaced { address, next } => Ahead::Replaced { address, end: next },
        NextStep::Broken => Ahead::Last(Item::Broken(cursor.number)),
        NextStep::End => Ahead::Over,
    }
}

// Hands out the next item. The arrays of the router are lent, and changed in place.
pub fn next_in(
    cells: &mut [u32; 16],
    count: usize,
    list: &mut [u64; 48],
    len: usize,
    cursor: Cursor,
    input: &[u8],
) -> Went
    requires { Ready (session_of cells.old count list.old len cursor) }
    ensures { Turns input.now (session_of cells.old count list.old len cursor) (turn_of result cells.new count list.new) }
{
    match look_ahead(cursor, input) {
        Ahead::Message { start, end } => on_message(
            cells, count, list, len, cursor, input, start, end,
        ),
        Ahead::GiveUp {
            thread,
            address,
            end,
        } => on_give_up(cells, count, list, len, cursor, thread, address, end),
        Ahead::Replaced { address, end } => on_replaced(
            cells, count, list, len, cursor, address, end,
        ),
        Ahead::Over => {
            let sums = sum_up(list, len, cursor.tally);
            ended(cursor, Item::Over(sums), len)
        }
        Ahead::Last(item) => ended(cursor, item, len),
    }
}

// ---- one turn, by value

// A session is its parts: who owns the arrays makes it of them.
pub fn session_of(
    cells: [u32; 16],
    count: usize,
    list: [u64; 48],
    len: usize,
    cursor: Cursor,
) -> Session
    ensures { result ≡ session_of cells count list len cursor }
{
    let router = router::state_of(cells, count, list, len);
    Session { cursor, router }
}

// What was handed out in place, with what the arrays then hold.
fn turn_of(went: Went, cells: [u32; 16], count: usize, list: [u64; 48]) -> Turn
    ensures { result ≡ turn_of went cells count list }
{
    let reply = went.reply;
    Turn {
        item: went.item,
        reply,
        more: went.more,
        next: session_of(cells, count, list, went.len, went.cursor),
    }
}

// One turn of a session: hands out the next item.
pub fn next(session: Session, input: &[u8]) -> Turn
    requires { Ready session }
    ensures { Turns input.now session result }
{
    let router = session.router;
    let mut cells = router.cells;
    let mut list = router.list;
    let went = next_in(
        &mut cells,
        router.count,
        &mut list,
        router.len,
        session.cursor,
        input,
    );
    turn_of(went, cells, router.count, list)
}
