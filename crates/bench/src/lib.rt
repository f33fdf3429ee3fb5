// The workbench: every part of the build, the data store too, run on any bytes by hand.
//
// An input is fields of a tag byte, two length bytes (high first) and contents. Each field asks
// one part for one thing and has one line: the field's number, a word, and what came of it. The
// parts' states go from field to field; the memory of the joiner and of the data store is lent.
// docs/WORKBENCH.md has the table of tags.
//
// What is proved: no input stops the bench, the parts are called within their laws (the data store's
// is one of its book and its area), every field is counted from 1, the line of a whole field begins
// with its number, and every line lies in the lent buffer. The parts promise what they answer; crate
// `answers` writes it.
#![tactic(auto)]

ghost use Rattle.std.specs.Prelude.{◌≡◌, ◌+◌, ◌≤◌, length, replicate};
ghost use Rattle.router.specs.Router as routers;
ghost use Rattle.book.specs.Book as books;
ghost use Rattle.bench.specs.Bench.{Lawful, Right, Sound, Ready, Placed, Lines, Turns};

use answers::Came;
use book::Book;
use fields::Read;
use joiner::Joiner;
use queue::Queue;
use router::{Routed, Router};
use rules::Outcome;
use table::{Row, Rows};
use tapa::Refusal;

// The longest input, and the largest buffer that a field can have lent.
const LONGEST: usize = 65536;

const LARGEST: usize = 2048;

// What the parts but the data store keep from field to field. There is a router before a field
// starts one, so that its law always holds; `started` says whether a field did. What is cut is told
// by its two places in the input, and `cut` is the cutter's place in it.
#[derive(Clone, Copy)]
struct Parts {
    queue: Queue,
    joiner: Joiner,
    router: Router,
    started: bool,
    rows: Rows,
    cutting: bool,
    from: usize,
    to: usize,
    thread: u8,
    cut: usize,
}

// The parts, the data store's book, and the place and number of the next field. The book's law
// speaks of the lent area too: so it stands apart, and only functions that have the area see it.
#[derive(Clone, Copy)]
pub struct Bench {
    parts: Parts,
    book: Book,
    at: usize,
    number: usize,
}

// What a part answered, and the parts after it.
#[derive(Clone, Copy)]
struct Asked {
    came: Came,
    next: Parts,
}

// The place after a field's text, and the parts after it.
#[derive(Clone, Copy)]
struct Told {
    place: usize,
    next: Parts,
}

// The same of a message to the data store, and the book after it.
#[derive(Clone, Copy)]
struct Stored {
    place: usize,
    next: Book,
}

// The same, and the bench after it.
#[derive(Clone, Copy)]
struct Said {
    place: usize,
    next: Bench,
}

// One field: the length of its line, whether more fields may follow, and the bench after it.
#[derive(Clone, Copy)]
pub struct Turn {
    pub length: usize,
    pub more: bool,
    pub next: Bench,
}

// What is to be done with a field: ask, with or without a buffer, or say this word alone.
#[derive(Clone, Copy)]
enum Field {
    Plain,
    Lent,
    Word(usize),
}

// ---- bytes of a field. Each function is total, so that its callers show nothing.

// The bytes between two places, or none where there are no such.
fn between(input: &[u8], from: usize, to: usize) -> &[u8] {
    if from <= to {
        if to <= input.len() {
            return &input[from..to];
        }
    }
    &input[0..0]
}

// A buffer of the largest size, each byte '55'.
pub fn buffer() -> [u8; 2048]
    ensures { result ≡ replicate 2048 85 }
{
    [0x55; 2048]
}

// How many bytes a field has lent: the number at its start, and no more than there are.
fn lent_size(contents: &[u8], most: usize) -> usize
    ensures { result ≤ most }
{
    let n = tapa::word_at(contents, 0) as usize;
    if n <= most { n } else { most }
}

// ---- which field it is

// Whether so many bytes are right for a tag that has a buffer lent: n, and what is asked.
fn fits_lent(tag: u8, long: usize) -> bool {
    match tag {
        0x11 => 8 <= long,
        0x12 | 0x16 | 0x19 => 2 <= long,
        0x14 => long == 2,
        0x1A => long == 5,
        0x1D => long == 3,
        _ => false,
    }
}

// The same for a tag that has none.
fn fits_plain(tag: u8, long: usize) -> bool {
    match tag {
        0x10 | 0x13 | 0x15 => true,
        0x18 => long == 0,
        0x1B => long == 2,
        _ => false,
    }
}

// Whether a field is a row: an address, and 0 or 1.
fn is_row(tag: u8, contents: &[u8]) -> bool {
    if tag != 0x17 {
        return false;
    }
    if contents.len() != 3 {
        return false;
    }
    tapa::byte_at(contents, 2) <= 1
}

// Whether a field is a message to the data store: n, and the message.
fn is_for_store(tag: u8, contents: &[u8]) -> bool {
    if tag != 0x1C {
        return false;
    }
    if contents.len() < 2 {
        return false;
    }
    tapa::word_at(contents, 0) as usize <= LARGEST
}

// What is to be done with a field that is neither.
fn field_of(tag: u8, contents: &[u8], cutting: bool, started: bool) -> Field {
    let idle = match tag {
        0x14 => !cutting,
        0x19..=0x1B => !started,
        _ => false,
    };
    if fits_lent(tag, contents.len()) {
        if LARGEST < tapa::word_at(contents, 0) as usize {
            return Field::Word(answers::BROKEN);
        }
        if idle {
            return Field::Word(answers::IDLE);
        }
        return Field::Lent;
    }
    if fits_plain(tag, contents.len()) {
        if idle {
            return Field::Word(answers::IDLE);
        }
        return Field::Plain;
    }
    Field::Word(answers::BROKEN)
}

// ---- fields without a buffer

impl Parts {
    // Tag 13: a response to be cut, begun through the struct that holds it. No buffer is lent yet.
    fn on_begin(self, message: &[u8], from: usize, to: usize) -> Asked
        requires { Right self }
        ensures { Right result.next }
    {
        let mut none = [0u8; 1];
        let first = psam_commands::first_command(message, &mut none);
        let start = first.start;
        let came = answers::of_start(start);
        let mut next = self;
        if let Ok(thread) = start {
            next.cutting = true;
            next.from = from;
            next.to = to;
            next.thread = thread;
            next.cut = 0;
        }
        Asked { came, next }
    }

    // Tag 15: a command whose source is to be kept.
    fn on_keeping(self, message: &[u8]) -> Asked
        requires { Right self }
        ensures { Right result.next }
    {
        let before = self.joiner;
        let kept = psam_sources::keep(before, message);
        let after = kept.next;
        let answer = kept.answer;
        let came = answers::of_keeping(answer);
        let mut next = self;
        next.joiner = after;
        Asked { came, next }
    }

    // Tag 17: a row. It has no line.
    fn on_row(self, address: u16, opened: bool) -> Parts
        requires { Right self }
        ensures { Right result }
    {
        let rows = table::with_row(self.rows, Row { address, opened });
        let mut next = self;
        next.rows = rows;
        next
    }

    // Tag 18: a router on the gathered rows. A refused table leaves the router that was there.
    fn on_start(self) -> Asked
        requires { Right self }
        ensures { Right result.next }
    {
        let begun = start::start_with(self.rows);
        let mut next = self;
        next.rows = table::no_rows();
        match begun {
            Ok(router) => {
                next.router = router;
                next.started = true;
                Asked {
                    came: answers::of_checked(Ok(())),
                    next,
                }
            }
            Err(refusal) => Asked {
                came: answers::of_checked(Err(refusal)),
                next,
            },
        }
    }

    // Tag 1B: a handler that was replaced.
    fn on_replaced(self, address: u16) -> Asked
        requires { Right self }
        ensures { Right result.next }
    {
        let before = self.router;
        let routed = before.replaced(address);
        let after = routed.next;
        let outcome = routed.outcome;
        let came = answers::of_outcome(outcome);
        let mut next = self;
        next.router = after;
        Asked { came, next }
    }

    fn ask_plain(self, tag: u8, contents: &[u8], from: usize, to: usize) -> Asked
        requires { Right self }
        ensures { Right result.next }
    {
        match tag {
            0x13 => self.on_begin(contents, from, to),
            0x15 => self.on_keeping(contents),
            0x18 => self.on_start(),
            _ => self.on_replaced(tapa::word_at(contents, 0)),
        }
    }

    fn on_plain(self, line: &mut [u8], tag: u8, contents: &[u8], from: usize, to: usize) -> Told
        requires { Right self }
        ensures { Right result.next }
    {
        if tag == 0x10 {
            return Told {
                place: answers::put_message(line, contents),
                next: self,
            };
        }
        let asked = self.ask_plain(tag, contents, from, to);
        let came = asked.came;
        let next = asked.next;
        Told {
            place: answers::put_came(line, 0, came),
            next,
        }
    }
}

// ---- fields with a buffer

// Tag 11: a message written.
fn write(asked: &[u8], buffer: &mut [u8]) -> Came {
    let writing = message_writer::write(
        buffer,
        tapa::word_at(asked, 0),
        tapa::word_at(asked, 2),
        tapa::byte_at(asked, 4),
        tapa::byte_at(asked, 5),
        between(asked, 6, asked.len()),
    );
    answers::of_writing(answers::WRITTEN, writing)
}

// What a piece came to. The buffer is said as the message that is handed on, and then the rest.
fn put_joined(
    line: &mut [u8],
    answer: Result<Option<usize>, Refusal>,
    joined: usize,
    work: &[u8],
) -> usize {
    let a = answers::put_came(line, 0, answers::of_joined(answer, joined));
    let part = psam_pieces::joined_part(answer, work);
    if part.len() == 0 {
        return answers::put_bytes(line, a, work);
    }
    let b = answers::put_bytes(line, a, part);
    text::put_all_hex(line, b, between(work, part.len(), work.len()))
}

// An outcome, the part to send, and the whole reply buffer.
fn put_sent<'a>(line: &mut [u8], outcome: Outcome, message: &'a [u8], reply: &'a [u8]) -> usize {
    let a = answers::put_came(line, 0, answers::of_outcome(outcome));
    let b = answers::put_bytes(line, a, sending::part_to_send(outcome, message, reply));
    answers::put_bytes(line, b, reply)
}

// Tag 19, a message to route, or 1A, a wait to give up: its thread and its asked address.
fn ask_router(router: Router, tag: u8, asked: &[u8], reply: &mut [u8]) -> Routed
    requires { routers.Lawful router }
    ensures { routers.Lawful result.next }
{
    if tag == 0x19 {
        return router.route(asked, reply);
    }
    router.give_up(tapa::byte_at(asked, 0), tapa::word_at(asked, 1), reply)
}

impl Parts {
    // Tag 12: a message to the event queue.
    fn on_event(self, message: &[u8], buffer: &mut [u8]) -> Asked
        requires { Right self }
        ensures { Right result.next }
    {
        let queue = self.queue;
        let handled = event_answers::handle(queue, message, buffer);
        let after = handled.next;
        let answer = handled.answer;
        let came = answers::of_reply(answer);
        let mut next = self;
        next.queue = after;
        Asked { came, next }
    }

    // Tag 14: the next command of what is cut. The first is had through the struct that holds the
    // slice, any other by its place: a struct that holds a slice cannot stay in the bench.
    fn on_command(self, message: &[u8], buffer: &mut [u8]) -> Asked
        requires { Right self }
        ensures { Right result.next }
    {
        let mut next = self;
        if self.cut == 0 {
            let first = psam_commands::first_command(message, buffer);
            let cut = first.cut;
            next.cut = first.next;
            return Asked {
                came: answers::of_cut(cut),
                next,
            };
        }
        let part = psam_commands::part_to_cut(message);
        let handed = psam_commands::cut_next(part, self.thread, self.cut, buffer);
        let cut = handed.cut;
        next.cut = handed.next;
        Asked {
            came: answers::of_cut(cut),
            next,
        }
    }

    // What a field asks of a part that is not the router. `message` is what is cut.
    fn ask_lent(self, tag: u8, asked: &[u8], message: &[u8], buffer: &mut [u8]) -> Asked
        requires { Right self }
        ensures { Right result.next }
    {
        match tag {
            0x11 => Asked {
                came: write(asked, buffer),
                next: self,
            },
            0x12 => self.on_event(asked, buffer),
            0x14 => self.on_command(message, buffer),
            _ => {
                let writing = psam_pieces::get_next(tapa::byte_at(asked, 0), buffer);
                Asked {
                    came: answers::of_writing(answers::COMMAND, writing),
                    next: self,
                }
            }
        }
    }

    // Tag 16: a piece from the PSAM.
    fn on_piece(self, line: &mut [u8], piece: &[u8], work: &mut [u8]) -> Told
        requires { Right self }
        ensures { Right result.next }
    {
        let before = self.joiner;
        let done = psam_pieces::join(before, piece, work);
        let after = done.next;
        let answer = done.answer;
        let mut next = self;
        next.joiner = after;
        let place = put_joined(line, answer, after.joined, work);
        Told { place, next }
    }

    // Tags 19 and 1A: a message or a give up for the router; then the part to send.
    fn on_router(self, line: &mut [u8], tag: u8, asked: &[u8], reply: &mut [u8]) -> Told
        requires { Right self }
        ensures { Right result.next }
    {
        let before = self.router;
        let routed = ask_router(before, tag, asked, reply);
        let outcome = routed.outcome;
        let after = routed.next;
        let mut next = self;
        next.router = after;
        let place = put_sent(line, outcome, asked, reply);
        Told { place, next }
    }

    fn with_buffer(
        self,
        line: &mut [u8],
        tag: u8,
        asked: &[u8],
        message: &[u8],
        buffer: &mut [u8],
    ) -> Told
        requires { Right self }
        ensures { Right result.next }
    {
        if 0x19 <= tag {
            if tag <= 0x1A {
                return self.on_router(line, tag, asked, buffer);
            }
        }
        let said = self.ask_lent(tag, asked, message, buffer);
        let came = said.came;
        let next = said.next;
        let a = answers::put_came(line, 0, came);
        Told {
            place: answers::put_bytes(line, a, buffer),
            next,
        }
    }

    // Lends the first n bytes of a buffer: of the joiner's own, or of a new one.
    fn on_lent(
        self,
        line: &mut [u8],
        tag: u8,
        contents: &[u8],
        message: &[u8],
        work: &mut [u8],
    ) -> Told
        requires { Right self }
        ensures { Right result.next }
    {
        let asked = between(contents, 2, contents.len());
        if tag == 0x16 {
            let n = lent_size(contents, work.len());
            return self.on_piece(line, asked, &mut work[..n]);
        }
        let mut lent = buffer();
        let n = lent_size(contents, LARGEST);
        self.with_buffer(line, tag, asked, message, &mut lent[..n])
    }

    // What is said of a field that is no message to the data store.
    fn on_field(
        self,
        line: &mut [u8],
        tag: u8,
        input: &[u8],
        from: usize,
        to: usize,
        work: &mut [u8],
    ) -> Told
        requires { Right self }
        ensures { Right result.next }
    {
        let contents = between(input, from, to);
        let message = between(input, self.from, self.to);
        match field_of(tag, contents, self.cutting, self.started) {
            Field::Plain => self.on_plain(line, tag, contents, from, to),
            Field::Lent => self.on_lent(line, tag, contents, message, work),
            Field::Word(word) => Told {
                place: answers::put_came(line, 0, Came::Plain(word)),
                next: self,
            },
        }
    }
}

// ---- the data store

// Tag 1C: a message to the data store, and a buffer for the reply.
fn ask_store(b: Book, area: &mut [u8], line: &mut [u8], message: &[u8], reply: &mut [u8]) -> Stored
    requires { books.Lawful b area.old }
    ensures { books.Lawful result.next area.new }
{
    let handled = store_answers::handle(b, area, message, reply);
    let answer = handled.answer;
    let next = handled.next;
    let a = answers::put_came(line, 0, answers::of_reply(answer));
    let place = answers::put_bytes(line, a, reply);
    Stored { place, next }
}

// The same, lending the first n bytes of a new buffer.
fn on_store(b: Book, area: &mut [u8], line: &mut [u8], contents: &[u8]) -> Stored
    requires { books.Lawful b area.old }
    ensures { books.Lawful result.next area.new }
{
    let mut lent = buffer();
    let n = lent_size(contents, LARGEST);
    let asked = between(contents, 2, contents.len());
    ask_store(b, area, line, asked, &mut lent[..n])
}

// ---- one field after the other

// A sum, at most so much.
fn sum_within(a: usize, b: usize, most: usize) -> usize
    ensures { result ≤ most }
{
    if most < a {
        return most;
    }
    if most - a < b {
        return most;
    }
    a + b
}

impl Bench {
    // What is said of a field after its number.
    fn on_field(
        self,
        line: &mut [u8],
        tag: u8,
        input: &[u8],
        from: usize,
        to: usize,
        work: &mut [u8],
        area: &mut [u8],
    ) -> Said
        requires { Lawful self area.old }
        ensures { Lawful result.next area.new }
    {
        let contents = between(input, from, to);
        if is_for_store(tag, contents) {
            let stored = on_store(self.book, area, line, contents);
            let after = stored.next;
            let mut next = self;
            next.book = after;
            return Said {
                place: stored.place,
                next,
            };
        }
        let before = self.parts;
        let told = before.on_field(line, tag, input, from, to, work);
        let after = told.next;
        let mut next = self;
        next.parts = after;
        Said {
            place: told.place,
            next,
        }
    }

    // The same with LF.
    fn rest_of(
        self,
        line: &mut [u8],
        tag: u8,
        input: &[u8],
        from: usize,
        to: usize,
        work: &mut [u8],
        area: &mut [u8],
    ) -> Said
        requires { Lawful self area.old }
        ensures { Lawful result.next area.new }
    {
        let said = self.on_field(line, tag, input, from, to, work, area);
        let next = said.next;
        Said {
            place: text::put(line, said.place, b'\n'),
            next,
        }
    }

    // The whole line of a field: its number, and the rest. One that does not fit is cut at the end.
    fn line_of(
        self,
        line: &mut [u8],
        tag: u8,
        input: &[u8],
        from: usize,
        to: usize,
        work: &mut [u8],
        area: &mut [u8],
    ) -> Said
        requires sound { Sound self area.old }
        requires in_bounds { 64 ≤ length line.old }
        ensures { Lines self line.new area.new result }
    {
        let a = text::put_decimal(line, 0, self.number);
        let said = self.rest_of(&mut line[a..], tag, input, from, to, work, area);
        let next = said.next;
        Said {
            place: sum_within(a, said.place, line.len()),
            next,
        }
    }

    // A whole field. A row is gathered, and has no line.
    fn on_whole(
        self,
        input: &[u8],
        work: &mut [u8],
        area: &mut [u8],
        line: &mut [u8],
        tag: u8,
        from: usize,
        to: usize,
    ) -> Turn
        requires sound { Sound self area.old }
        requires placed { Placed input.now self from to }
        requires in_bounds { 64 ≤ length line.old }
        ensures { Turns input.now self line.new area.new result }
    {
        let number = self.number + 1;
        let contents = between(input, from, to);
        if is_row(tag, contents) {
            let before = self.parts;
            let after = before.on_row(tapa::word_at(contents, 0), tapa::byte_at(contents, 2) == 1);
            let mut gathered = self;
            gathered.parts = after;
            gathered.at = to;
            gathered.number = number;
            return Turn {
                length: 0,
                more: true,
                next: gathered,
            };
        }
        let said = self.line_of(line, tag, input, from, to, work, area);
        let mut next = said.next;
        next.at = to;
        next.number = number;
        Turn {
            length: said.place,
            more: true,
            next,
        }
    }

    // The field at the place, and its line at the start of the buffer. `work` is the joiner's
    // buffer and `area` the data store's: the same two for every field of an input. The line's buffer
    // has 8,192 bytes: every field's number fits, and a longer line is cut at the end.
    pub fn turn(self, input: &[u8], work: &mut [u8], area: &mut [u8], line: &mut [u8; 8192]) -> Turn
        requires { Sound self area.old }
        ensures { Turns input.now self line.new area.new result }
    {
        if LONGEST < input.len() {
            return Turn {
                length: lines::long_line(line, 0),
                more: false,
                next: self,
            };
        }
        match fields::read_at(input, self.at) {
            Read::End => Turn {
                length: 0,
                more: false,
                next: self,
            },
            // The end of the input cuts this field: it is none of the table's.
            Read::Cut(_) => {
                let said = self.line_of(line, 0x00, input, 0, 0, work, area);
                let next = said.next;
                Turn {
                    length: said.place,
                    more: false,
                    next,
                }
            }
            Read::Field { tag, start, long } => self.on_whole(
                input,
                work,
                area,
                line,
                tag,
                start,
                start + long,
            ),
        }
    }
}

// A bench before the first field.
pub fn fresh() -> Bench
    ensures { (Ready result) × (result.number ≡ 1) }
{
    let queue = event_ring::fresh();
    let joiner = psam_pieces::fresh();
    let rows = table::no_rows();
    let router = start::blank();
    let book = store_entries::fresh();
    let parts = Parts {
        queue,
        joiner,
        router,
        started: false,
        rows,
        cutting: false,
        from: 0,
        to: 0,
        thread: 0,
        cut: 0,
    };
    Bench {
        parts,
        book,
        at: 0,
        number: 1,
    }
}
