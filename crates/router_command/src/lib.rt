// A message: the common checks in their order, and then what follows by its type.
//
// A response goes to router_response, an event changes nothing. Any other type is a command: `ruling`
// says whether it is turned back, with a response in the reply buffer, or passed and becomes a wait.
// What is done is defined in `routing` (`OnMessage`), and so is the law of a router's state, which a
// message keeps.
#![tactic(auto)]

ghost use Rattle.std.specs.Prelude.{◌≡◌, ◌≤◌, ◌<◌, length, Ok};
ghost use Rattle.message.specs.Message.{code_of, part_of};
ghost use Rattle.table.specs.Table.{Column};
ghost use Rattle.places.specs.Places as places;
ghost use Rattle.rules.specs.Judge.{turned, judge_command, judge_kind};
ghost use Rattle.rules.specs.Apply.{place};
ghost use Rattle.ruling.specs.Ruling.{held_view, view_in, ruled};
ghost use Rattle.routing.specs.Law.{Lawful};
ghost use Rattle.routing.specs.Steps.{Wrote, Stepped, OnMessage};

use message::Head;
use place::Place;
use routing::Step;
use rules::Outcome;
use tapa::Refusal;

// ---- Any other type

fn turned_back(head: Head, code: u16) -> Outcome
    ensures { result ≡ turned head code }
{
    Outcome::Turned {
        asker: head.source,
        asked: head.destination,
        thread: head.thread,
        code,
    }
}

fn passed(head: Head) -> Outcome
    ensures { result ≡ ruled head (Ok tt) }
{
    Outcome::Passed {
        asker: head.source,
        asked: head.destination,
        kind: head.kind,
        thread: head.thread,
    }
}

// A passed command as a wait.
fn wait_of(head: Head) -> Place
    ensures { result ≡ place head.source head.destination head.kind head.thread }
{
    Place {
        asker: head.source,
        asked: head.destination,
        kind: head.kind,
        thread: head.thread,
        owed: false,
    }
}

// Does what the rules say: a response into the reply buffer, or one place more. No rule tests for
// room, so it is required here; `on_message` has it from the law.
fn on_command(
    cells: &[u32; 16],
    count: usize,
    list: &mut [u64; 48],
    len: usize,
    head: Head,
    reply: &mut [u8],
) -> Step
    requires lawful { places.Lawful list.old len }
    requires len_bound { len < 48 }
    requires count_bound { count ≤ 16 }
    requires in_bounds { 10 ≤ length reply.old }
    ensures { Wrote (judge_command (held_view cells.now count list.old len) head) list len reply result }
{
    if let Err(code) = ruling::rule_for(cells, count, list, len, head) {
        message_writer::respond(reply, head.source, head.destination, head.thread, code);
        let outcome = turned_back(head, code);
        return Step { outcome, len };
    }
    let more = router_changes::push(list, len, wait_of(head));
    let outcome = passed(head);
    Step { outcome, len: more }
}

// ---- a message

// A message that passed the common checks, by its type.
fn on_type(
    cells: &mut [u32; 16],
    count: usize,
    list: &mut [u64; 48],
    len: usize,
    head: Head,
    message: &[u8],
    reply: &mut [u8],
) -> Step
    requires lawful { places.Lawful list.old len }
    requires len_bound { len < 48 }
    requires column { Column cells.old count }
    requires in_bounds { 10 ≤ length reply.old }
    ensures { Stepped (judge_kind (view_in cells count list len) head (code_of (part_of message.now))) cells count list len reply result }
{
    if head.kind == tapa::RESPONSE {
        let coded = message_reader::response_code(message_reader::data_part(message));
        return router_response::on_response(cells, count, list, len, head, coded);
    }
    if ruling::is_add_event(head) {
        let outcome = ruling::event(cells, count);
        return Step { outcome, len };
    }
    on_command(cells, count, list, len, head, reply)
}

// The common checks, and then by type.
pub fn on_message(
    cells: &mut [u32; 16],
    count: usize,
    list: &mut [u64; 48],
    len: usize,
    message: &[u8],
    reply: &mut [u8],
) -> Step
    requires { Lawful cells.old count list.old len }
    ensures on_message { OnMessage cells count list len message reply result }
    ensures lawful { Lawful cells.new count list.new result.len }
{
    if reply.len() < 10 {
        return routing::refuse(Refusal::BufferTooSmall, len);
    }
    let head = match message_reader::read(message) {
        Ok(head) => head,
        Err(refusal) => return routing::refuse(refusal, len),
    };
    if !router_rows::is_listed(cells, count, tapa::handler(head.source)) {
        return routing::refuse(Refusal::NotInTable, len);
    }
    if 7 < head.thread {
        return routing::refuse(Refusal::ThreadAbove7, len);
    }
    on_type(cells, count, list, len, head, message, reply)
}
