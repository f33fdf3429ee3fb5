// What a message to the data store comes to (section 11): `handle` is the store's one door.
//
// The book goes in by value and comes back by value beside the answer; the kiosk lends the area of
// 98,048 bytes in which the keys and the data stand, and the buffer for the reply. What both hold
// after a call is part of the contract, also of a refusal. A response's data are written into a
// buffer of their own, since the reply is not touched before the command is done. The definitions
// and laws are room `store`'s.
#![tactic(auto)]

ghost use Rattle.std.specs.Prelude.{Some, ◌*◌, ◌+◌, ◌≤◌, ◌≡◌, length, take};
ghost use Rattle.book.specs.Book.{Lawful, entries_of, rec_of};
ghost use Rattle.files.specs.Asked.{seen_part, sight_bytes, words_of};
ghost use Rattle.file_commands.specs.Erasing.{made_book};
ghost use Rattle.files.specs.Coded.{answered, left_in, result_code};
ghost use Rattle.lists.specs.Lists.{over};
ghost use Rattle.record_commands.specs.Records.{added_book};
ghost use Rattle.sights.specs.Sights.{sight_of};
ghost use Rattle.store.specs.Store.{Did, Handling, MakesAtMost, Says, Shows, add_deed, clear_deed, create_deed, deed_of, delete_deed, delete_files_deed, find_deed, find_delete_deed, get_deed, handled, ids_part, mark_deed, pointer_part, update_deed};
ghost use Rattle.tapa.specs.Numbers.{two_bytes};

use book::{Book, Entry};
use file_commands::Made;
use record_commands::Added;
use sights::Got;
use store::{Done, Handled};

// The longest response's data: LEN_SKEY, 255 of key, LEN_REC, 128 of data, a pointer and a code.
type Body = [u8; 390];

// ---- the writers of the response's data

// Bytes at a place; the answer is the place behind them.
fn put(body: &mut [u8], at: usize, bytes: &[u8]) -> usize
    requires { at + length bytes.now ≤ length body.old }
    ensures { (result ≡ at + length bytes.now) × (body.new ≡ over body.old at bytes.now) }
{
    let n = octets::copy(bytes, &mut body[at..]);
    at + n
}

// A number as its two bytes at a place; the answer is the place behind them.
fn put_word(body: &mut [u8], at: usize, x: u16) -> usize
    requires { at + 2 ≤ length body.old }
    ensures { (result ≡ at + 2) × (body.new ≡ over body.old at (two_bytes x)) }
{
    put(body, at, &x.to_be_bytes())
}

// The first n identifiers.
fn put_ids(body: &mut [u8], ids: &[u16; 16], n: usize) -> usize
    requires { (n ≤ 16) × (length ids.now ≡ 16) × (32 ≤ length body.old) }
    ensures { (result ≡ n * 2) × (body.new ≡ over body.old 0 (words_of (take n ids.now))) }
{
    for i in 0..n {
        put_word(body, i * 2, ids[i]);
    }
    n * 2
}

// A record and a pointer, as Get and Find show them, before the code.
fn put_record(body: &mut Body, area: &[u8], x: Entry, pointer: u16) -> usize
    requires { (length area.now ≡ 98048) × (x.slot ≤ 255) × (x.keylen ≤ 255) × (x.len ≤ 128) }
    ensures { (result ≡ x.keylen + x.len + 5) × (body.new ≡ over body.old 0 (sight_bytes (Some (rec_of area.now x)) pointer)) }
{
    let key = usize::from(x.keylen);
    let long = [(x.keylen % 256) as u8];
    let a = put(body, 0, &long);
    let b = put(body, a, slots::part(area, x.slot, 0, key));
    let c = put_word(body, b, x.len);
    let d = put(body, c, slots::part(area, x.slot, key, usize::from(x.len)));
    put_word(body, d, pointer)
}

// A response of nothing but a code.
fn code_alone(b: Book, body: &mut Body, code: u16) -> Done
    ensures { Says (two_bytes code) body.old body.new b result }
{
    Done {
        long: put_word(body, 0, code),
        next: b,
    }
}

// A response of nothing but a code: that of a command that took files or records away, or failed.
fn gone(b: Book, body: &mut Body, done: Result<Book, u16>) -> Done
    ensures { Says (two_bytes (result_code done)) body.old body.new (left_in b done) result }
{
    match done {
        Ok(next) => code_alone(next, body, tapa::SUCCESSFUL),
        Err(code) => code_alone(b, body, code),
    }
}

// A response of the new files' identifiers and a code; of a code alone where the command failed.
fn made(b: Book, body: &mut Body, n: usize, done: Result<Made, u16>) -> Done
    requires { MakesAtMost n done }
    ensures { Says (answered (ids_part n) done) body.old body.new (made_book b done) result }
{
    match done {
        Ok(made) => {
            let end = put_ids(body, &made.ids, n);
            Done {
                long: put_word(body, end, tapa::SUCCESSFUL),
                next: made.next,
            }
        }
        Err(code) => code_alone(b, body, code),
    }
}

// A response of a record's pointer and a code; of a code alone where the command failed.
fn added(b: Book, body: &mut Body, done: Result<Added, u16>) -> Done
    ensures { Says (answered pointer_part done) body.old body.new (added_book b done) result }
{
    match done {
        Ok(added) => {
            let end = put_word(body, 0, added.pointer);
            Done {
                long: put_word(body, end, tapa::SUCCESSFUL),
                next: added.next,
            }
        }
        Err(code) => code_alone(b, body, code),
    }
}

// A response with what Get or Find got; of a code alone where the command failed.
fn shown(b: Book, area: &[u8], body: &mut Body, done: Result<Got, u16>) -> Done
    requires lawful { Lawful b area.now }
    requires shows { Shows b done }
    ensures { Says (seen_part (sight_of area.now (entries_of b) done)) body.old body.new b result }
{
    match done {
        Ok(got) => {
            let end = put_record(body, area, store_entries::entry_at(b, got.at), got.other);
            Done {
                long: put_word(body, end, tapa::SUCCESSFUL),
                next: b,
            }
        }
        Err(code) => code_alone(b, body, code),
    }
}

// ---- the nine commands

// Create leaves the area as it is; it is lent here since the law is one of book and area.
fn on_create(b: Book, area: &[u8], part: &[u8], body: &mut Body) -> Done
    requires { Lawful b area.now }
    ensures { Did (create_deed part.now b area.now) body.old body.new area.now result }
{
    if part.len() != 4 {
        return code_alone(b, body, tapa::UNSUPPORTED_OPERATION);
    }
    let n = tapa::byte_at(part, 0);
    let done = file_commands::create(b, n, tapa::byte_at(part, 1), tapa::word_at(part, 2));
    made(b, body, usize::from(n), done)
}

fn on_delete_files(b: Book, area: &mut [u8], part: &[u8], body: &mut Body) -> Done
    requires { Lawful b area.old }
    ensures { Did (delete_files_deed part.now b area.old) body.old body.new area.new result }
{
    if !store_asked::has_ids(part) {
        return code_alone(b, body, tapa::UNSUPPORTED_OPERATION);
    }
    let done = file_commands::delete_files(b, area, part);
    gone(b, body, done)
}

fn on_add(b: Book, area: &mut [u8], part: &[u8], body: &mut Body) -> Done
    requires { Lawful b area.old }
    ensures { Did (add_deed part.now b area.old) body.old body.new area.new result }
{
    if !store_asked::has_record(part, 2) {
        return code_alone(b, body, tapa::UNSUPPORTED_OPERATION);
    }
    let f = tapa::word_at(part, 0);
    let end = 3 + usize::from(tapa::byte_at(part, 2));
    let done = record_commands::add(b, area, f, &part[3..end], &part[end + 2..]);
    added(b, body, done)
}

fn on_get(b: Book, area: &[u8], part: &[u8], body: &mut Body) -> Done
    requires { Lawful b area.now }
    ensures { Did (get_deed part.now b area.now) body.old body.new area.now result }
{
    if part.len() != 5 {
        return code_alone(b, body, tapa::UNSUPPORTED_OPERATION);
    }
    let orientation = part[4];
    if 3 < orientation {
        return code_alone(b, body, tapa::UNSUPPORTED_OPERATION);
    }
    let f = tapa::word_at(part, 0);
    let p = tapa::word_at(part, 2);
    shown(b, area, body, sights::get(b, f, p, orientation))
}

fn on_update(b: Book, area: &mut [u8], part: &[u8], body: &mut Body) -> Done
    requires { Lawful b area.old }
    ensures { Did (update_deed part.now b area.old) body.old body.new area.new result }
{
    if !store_asked::has_record(part, 4) {
        return code_alone(b, body, tapa::UNSUPPORTED_OPERATION);
    }
    let f = tapa::word_at(part, 0);
    let p = tapa::word_at(part, 2);
    let end = 5 + usize::from(tapa::byte_at(part, 4));
    let done = record_commands::update(b, area, f, p, &part[5..end], &part[end + 2..]);
    added(b, body, done)
}

fn on_find(b: Book, area: &[u8], part: &[u8], body: &mut Body) -> Done
    requires { Lawful b area.now }
    ensures { Did (find_deed part.now b area.now) body.old body.new area.now result }
{
    if !store_asked::has_key(part) {
        return code_alone(b, body, tapa::UNSUPPORTED_OPERATION);
    }
    let done = sights::find(b, area, tapa::word_at(part, 0), &part[3..]);
    shown(b, area, body, done)
}

fn on_delete(b: Book, area: &mut [u8], part: &[u8], body: &mut Body) -> Done
    requires { Lawful b area.old }
    ensures { Did (delete_deed part.now b area.old) body.old body.new area.new result }
{
    if part.len() != 4 {
        return code_alone(b, body, tapa::UNSUPPORTED_OPERATION);
    }
    let done = record_commands::delete(b, area, tapa::word_at(part, 0), tapa::word_at(part, 2));
    gone(b, body, done)
}

fn on_find_delete(b: Book, area: &mut [u8], part: &[u8], body: &mut Body) -> Done
    requires { Lawful b area.old }
    ensures { Did (find_delete_deed part.now b area.old) body.old body.new area.new result }
{
    if !store_asked::has_key(part) {
        return code_alone(b, body, tapa::UNSUPPORTED_OPERATION);
    }
    let done = record_commands::find_delete(b, area, tapa::word_at(part, 0), &part[3..]);
    gone(b, body, done)
}

fn on_clear(b: Book, area: &mut [u8], part: &[u8], body: &mut Body) -> Done
    requires { Lawful b area.old }
    ensures { Did (clear_deed part.now b area.old) body.old body.new area.new result }
{
    if part.len() != 2 {
        return code_alone(b, body, tapa::UNSUPPORTED_OPERATION);
    }
    let done = file_commands::clear(b, area, tapa::word_at(part, 0));
    gone(b, body, done)
}

// ---- what the store recognises beside them

// Open Handler and Close Handler: the router keeps the mark, so there is nothing to do.
fn on_mark(b: Book, area: &[u8], part: &[u8], body: &mut Body) -> Done
    requires { Lawful b area.now }
    ensures { Did (mark_deed part.now b area.now) body.old body.new area.now result }
{
    if part.len() != 0 {
        return code_alone(b, body, tapa::UNSUPPORTED_OPERATION);
    }
    code_alone(b, body, tapa::SUCCESSFUL)
}

// ---- all of it

// Does what a type and its data ask; a type that is not the store's is a wrong shape.
fn obey(kind: u8, b: Book, area: &mut [u8], part: &[u8], body: &mut Body) -> Done
    requires { Lawful b area.old }
    ensures { Did (deed_of kind part.now b area.old) body.old body.new area.new result }
{
    match kind {
        tapa::CREATE_FILE => on_create(b, area, part, body),
        tapa::DELETE_FILE => on_delete_files(b, area, part, body),
        tapa::ADD_RECORD => on_add(b, area, part, body),
        tapa::GET_RECORD => on_get(b, area, part, body),
        tapa::UPDATE_RECORD => on_update(b, area, part, body),
        tapa::FIND_RECORD => on_find(b, area, part, body),
        tapa::DELETE_RECORD => on_delete(b, area, part, body),
        tapa::FIND_AND_DELETE => on_find_delete(b, area, part, body),
        tapa::CLEAR_FILE => on_clear(b, area, part, body),
        tapa::OPEN_HANDLER => on_mark(b, area, part, body),
        tapa::CLOSE_HANDLER => on_mark(b, area, part, body),
        _ => code_alone(b, body, tapa::UNSUPPORTED_OPERATION),
    }
}

// Takes a message, and hands back what it comes to and the next book.
pub fn handle(b: Book, area: &mut [u8], message: &[u8], reply: &mut [u8]) -> Handled
    requires { Lawful b area.old }
    ensures { Handling (handled b area.old message.now reply.old) area.new reply.new result }
{
    match store_asked::check(message, reply.len()) {
        Err(refusal) => Handled {
            answer: Err(refusal),
            next: b,
        },
        Ok(head) => {
            let mut body = [0u8; 390];
            let done = obey(
                head.kind,
                b,
                area,
                message_reader::data_part(message),
                &mut body,
            );
            let long = done.long;
            let next = done.next;
            let answer = replies::with_part(reply, head, &body[0..long]);
            Handled { answer, next }
        }
    }
}
