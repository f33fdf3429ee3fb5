// The lines of an input of commands to the data store, page by page (room `ledger` has what they are).
//
// Lines are gathered into pages, as in room pages: a program keeps what a page tells on the disk, and
// then prints the page. So a page ends before a command that may change the store, where only such
// as read stand on it: these need not wait for the disk.
#![tactic(auto, using(text::proofs::Calls::calls))]

ghost use Rattle.std.specs.Prelude.{◌≡◌, Ok, Some};
ghost use Rattle.fields.specs.Places.{step_at};
ghost use Rattle.image.specs.Image.{Storable};
ghost use Rattle.ledger.specs.Ledger.{Counted, Hearing, Paged, heard, next_of, said_line, said_text};
ghost use Rattle.text.specs.Text.{Writes, pen, puts};

use book::Book;
use fields::NextStep;
use ledger::{Cursor, Heard, Next, Page};
use tapa::Refusal;
use text::Writer;

// The longest line has 809 bytes: five digits, ` reply `, 398 bytes as hex, and a line's end.
const LINE: usize = 1024;

// ---- where an input stands

// Before the first field.
pub fn begin() -> Cursor
    ensures { (result.at ≡ 0) × (result.number ≡ 1) }
{
    Cursor { at: 0, number: 1 }
}

// What stands at a place.
fn next_at(input: &[u8], at: usize) -> Next
    ensures { result ≡ next_of (step_at input.now at) }
{
    match fields::step_at(input, at) {
        NextStep::Message { start, next } => Next::Message { start, next },
        NextStep::GiveUp { .. } | NextStep::Replaced { .. } | NextStep::Broken => Next::Broken,
        NextStep::End => Next::End,
    }
}

// Whether a message may change the store: it is no Get and no Find.
fn may_change(message: &[u8]) -> bool {
    if message.len() < 5 {
        return false;
    }
    let kind = message[4];
    kind != tapa::GET_RECORD && kind != tapa::FIND_RECORD
}

// ---- the line of a message

// The first n bytes of a reply.
#[tactic(auto, using(text::proofs::Calls::calls, std::proofs::lemmas::List::take_min))]
fn put_reply(out: &mut Writer<'_>, reply: &[u8], n: usize)
    ensures { Writes out.old out.new (said_text (Ok (Some n)) reply.now) }
{
    out.put_all(b" reply ");
    out.put_all_hex(&reply[..n.min(reply.len())]);
}

// What came of a message. The store never answers `None`.
fn put_said(out: &mut Writer<'_>, answer: Result<Option<usize>, Refusal>, reply: &[u8])
    ensures { Writes out.old out.new (said_text answer reply.now) }
{
    match answer {
        Ok(Some(n)) => put_reply(out, reply, n),
        Ok(None) => {}
        Err(refusal) => out.put_number(b" refused ", usize::from(tapa::number(refusal))),
    }
}

// The line of a message, from a place on; the answer is the place behind it.
fn put_line(
    page: &mut [u8],
    at: usize,
    number: usize,
    answer: Result<Option<usize>, Refusal>,
    reply: &[u8],
) -> usize
    ensures { pen page.new result ≡ puts (pen page.old at) (said_line number answer reply.now) }
{
    let mut out = Writer::new(page, at);
    out.put_decimal(number);
    put_said(&mut out, answer, reply);
    out.put(b'\n');
    out.place()
}

// Hands a message to the store, and writes its line from a place on.
fn hear(
    b: Book,
    area: &mut [u8],
    message: &[u8],
    number: usize,
    page: &mut [u8],
    at: usize,
) -> Heard
    requires { Storable b area.old }
    ensures { Hearing number (heard b area.old message.now) page.old at area.new page.new result }
{
    let mut reply = [0u8; 398];
    let handled = store_answers::handle(b, area, message, &mut reply);
    Heard {
        used: put_line(page, at, number, handled.answer, &reply),
        book: handled.next,
    }
}

// ---- a page

fn page_of(book: Book, at: usize, number: usize, used: usize, lines: usize, more: bool) -> Page
    ensures { result ≡ record { used = used; lines = lines; more = more; next = record { at = at; number = number }; book = book } }
{
    Page {
        used,
        lines,
        more,
        next: Cursor { at, number },
        book,
    }
}

// Fills a page.
pub fn fill_page(b: Book, area: &mut [u8], cursor: Cursor, input: &[u8], page: &mut [u8]) -> Page
    requires { Storable b area.old × Counted cursor }
    ensures { Paged input.now b area.old cursor page.old area.new page.new result }
{
    let mut book = b;
    let mut at = cursor.at;
    let mut number = cursor.number;
    let mut used = 0;
    let mut count = 0;
    let mut changing = false;
    if 65536 < input.len() {
        used = lines::long_line(page, 0);
        return page_of(book, at, number, used, 1, false);
    }
    while LINE <= page.len() - used {
        match next_at(input, at) {
            Next::End => return page_of(book, at, number, used, count, false),
            Next::Broken => {
                used = lines::broken_line(page, used, number);
                return page_of(book, at, number, used, count + 1, false);
            }
            Next::Message { start, next } => {
                let changes = may_change(&input[start..next]);
                if changes && !changing && 0 < count {
                    return page_of(book, at, number, used, count, true);
                }
                changing = changing || changes;
                let heard = hear(book, area, &input[start..next], number, page, used);
                book = heard.book;
                used = heard.used;
                at = next;
                number += 1;
                count += 1;
            }
        }
    }
    page_of(book, at, number, used, count, true)
}
