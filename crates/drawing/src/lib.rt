// Drawing: which forms make the picture of a session, and where.
//
// A list of forms is filled, eight numbers each, and crate `picture` writes it. Nothing is written here,
// so nothing is promised of it but that no input stops it: the picture is tried, in a browser.
//
// A page has the router's column and one for each row of the table, and 40 rows of steps. A step's row
// shows the step, and below it, down to the next row, how the columns now stand: bars for what has to
// be answered, dotted ones for what is owed, a grey band where a handler is closed.
//
// `x` is the left edge of a column, 16 left of its line; `y` is the top of a row, 20 above its arrow.
#![tactic(auto)]

ghost use Rattle.std.specs.Prelude.{◌≡◌, ◌+◌, ◌≤◌, ◌<◌};

use arrivals::Arrival;
use message::Head;
use place::Place;
use router::Router;
use rules::Outcome;
use run::{Item, Totals};

// How many steps go on a page.
const ROWS: usize = 40;

// No session file has so many pages.
const MOST: usize = 1000000;

// The left edge of the router's column.
const HUB: u16 = 324;

// ---- forms

// The forms of a part of the picture, in their order: each is 8 numbers of a list that is lent.
#[derive(Drop)]
pub struct Forms<'a> {
    list: &'a mut [usize; 2048],
    count: usize,
    ghost bounded: { count ≤ 256 },
}

impl<'a> Forms<'a> {
    // No form yet.
    pub fn new(list: &'a mut [usize; 2048]) -> Forms<'a>
        ensures { result.count ≡ 0 }
    {
        Forms { list, count: 0 }
    }

    // One form more, where the list has room for it. Numbers that it does not have are 0.
    fn add(&mut self, form: &[usize]) {
        if self.count == 256 {
            return;
        }
        let at = self.count * 8;
        let there = form.len().min(8);
        let list = &mut *self.list;
        list[at..at + 8].fill(0);
        list[at..at + there].copy_from_slice(&form[..there]);
        self.count += 1;
    }

    // The numbers of the forms.
    fn drawn(&self) -> &[usize] {
        let list = &self.list[..];
        &list[..self.count * 8]
    }
}

// ---- places on a page

// How many pages there are: the last row, which is no step, goes below the last page's steps.
fn page_count(total: usize) -> usize {
    total.saturating_sub(2) / ROWS + 1
}

// Whether a row begins a page. The last one does only where it is the first.
fn is_first(row: usize, total: usize) -> bool {
    row == 0 || 1 < total.saturating_sub(row) && row % ROWS == 0
}

// The top of a row on its page.
fn top_of(row: usize, total: usize) -> u16 {
    let above = row % ROWS;
    if above == 0 && !is_first(row, total) {
        return 246 + ROWS as u16 * 30;
    }
    246 + above as u16 * 30
}

// Where the lines of a page end, from its first row on: below its last step.
fn end_of(row: usize, total: usize) -> u16 {
    let steps = total.saturating_sub(row).saturating_sub(1).min(ROWS);
    266 + steps as u16 * 30
}

// How high the picture is: a single page ends below its rows.
fn height_of(total: usize) -> usize {
    let pages = page_count(total) % MOST;
    if pages == 1 {
        return usize::from(end_of(0, total)) + 96;
    }
    pages * 1584
}

// The line of a column.
fn line_of(x: u16) -> usize
    ensures { result ≡ x + 16 }
{
    usize::from(x) + 16
}

fn colour_of(thread: u8) -> usize
    ensures { result < 8 }
{
    usize::from(thread % 8)
}

// The code of what came, and 0 where it has none. Of bytes that do not read it is the length that they
// announce.
fn code_of(came: Arrival) -> u16 {
    match came {
        Arrival::Response { code, .. } => code.unwrap_or(0),
        Arrival::Torn { head, .. } => (head.length % 65536) as u16,
        _ => 0,
    }
}

// ---- a row

// What is drawn at a height of a page: where its forms go, the router that it shows, and its top.
#[derive(Drop)]
struct Row<'a, 'b> {
    forms: &'a mut Forms<'b>,
    router: &'a Router,
    y: u16,
}

// Between two columns, in the colour of a thread, so far below the top of the row.
#[derive(Clone, Copy)]
struct Arrow {
    colour: usize,
    from: u16,
    to: u16,
    below: u16,
}

impl Row<'_, '_> {
    fn add(&mut self, form: &[usize]) {
        self.forms.add(form);
    }

    // So far below the top.
    fn down(&self, by: u16) -> usize
        ensures { result ≡ self.now.y + by }
    {
        usize::from(self.y) + usize::from(by)
    }

    // ---- columns

    // Where the column of a row of the table stands: the fewer there are, the further apart.
    fn place_of(&self, number: usize) -> u16
        requires { number < 16 }
    {
        let apart = match self.router.count {
            0..=6 => 100,
            7..=10 => 64,
            _ => 40,
        };
        HUB + (number as u16 + 1) * apart
    }

    // Where a handler's column stands. A handler that has no row is shown in the router's.
    fn lane_of(&self, address: u16) -> u16 {
        let wanted = u32::from(tapa::handler(address));
        let mut cells = self.router.cells.iter().take(self.router.count);
        match cells.position(|&cell| cell / 2 % 65536 == wanted) {
            Some(number) => self.place_of(number),
            None => HUB,
        }
    }

    // ---- how the columns stand after a step

    // What has to be answered, or is owed. Each thread has its own place within a column, so that bars
    // stand side by side.
    fn draw_place(&mut self, place: Place) {
        let form = if place.owed {
            stencil::OWED
        } else {
            stencil::WAIT
        };
        let colour = colour_of(place.thread);
        let x = usize::from(self.lane_of(place.asked)) + 6 + colour * 3;
        let y = self.down(20);
        self.add(&[form, colour, x, y]);
    }

    fn draw_places(&mut self) {
        let router = self.router;
        for &x in router.list.iter().take(router.len) {
            self.draw_place(router_tests::place_of(x));
        }
    }

    // A grey band, where a column's handler is closed.
    fn draw_bands(&mut self) {
        let router = self.router;
        for (number, cell) in router.cells.iter().take(router.count).enumerate() {
            if cell % 2 == 0 {
                let x = line_of(self.place_of(number));
                let y = self.down(20);
                self.add(&[stencil::SHUT, x, y]);
            }
        }
    }

    // ---- arrows

    fn draw_line(&mut self, form: usize, arrow: Arrow) {
        let y = self.down(arrow.below);
        self.add(&[
            form,
            arrow.colour,
            line_of(arrow.from),
            y,
            line_of(arrow.to),
        ]);
    }

    // The arrow's head: it points away from where the arrow begins.
    fn draw_head(&mut self, arrow: Arrow) {
        let form = if arrow.from < arrow.to {
            stencil::RIGHT_HEAD
        } else {
            stencil::LEFT_HEAD
        };
        let y = self.down(arrow.below);
        self.add(&[form, arrow.colour, line_of(arrow.to), y]);
    }

    // The thread's number in a circle, where the arrow begins.
    fn draw_thread(&mut self, arrow: Arrow) {
        let x = line_of(arrow.from);
        let y = self.down(arrow.below);
        self.add(&[stencil::THREAD, arrow.colour, x, y]);
        self.add(&[stencil::THREAD_NUMBER, x, y + 4, arrow.colour]);
    }

    // A line with its head and its thread, and the type or the code in the middle.
    fn draw_arrow(&mut self, form: usize, arrow: Arrow, label: usize, value: usize) {
        self.draw_line(form, arrow);
        self.draw_head(arrow);
        self.draw_thread(arrow);
        self.draw_label(label, value, arrow);
    }

    fn draw_label(&mut self, form: usize, value: usize, arrow: Arrow) {
        let x = (usize::from(arrow.from) + usize::from(arrow.to)) / 2 + 16;
        let y = self.down(16);
        self.add(&[form, x, y, value]);
    }

    // A cross over the router's column, or over the bar of a thread.
    fn draw_cross(&mut self, x: usize) {
        let y = self.down(14);
        self.add(&[stencil::CROSS, x, y]);
    }

    // ---- the words beside a step

    fn draw_addresses(&mut self, form: usize, from: u16, to: u16) {
        let y = self.down(17);
        self.add(&[form, y, usize::from(from), usize::from(to)]);
    }

    fn draw_type(&mut self, kind: u8) {
        let y = self.down(29);
        let name = names::type_name(kind);
        self.add(&[stencil::OF_TYPE, y, usize::from(kind), name]);
    }

    fn draw_code(&mut self, code: u16) {
        let y = self.down(29);
        let name = names::code_name(code);
        self.add(&[stencil::WITH_CODE, y, usize::from(code), name]);
    }

    // ---- the step by its outcome

    // A question goes to who is asked.
    fn draw_question(&mut self, words: usize, asker: u16, asked: u16, kind: u8, thread: u8) {
        let arrow = Arrow {
            colour: colour_of(thread),
            from: self.lane_of(asker),
            to: self.lane_of(asked),
            below: 20,
        };
        self.draw_arrow(
            stencil::QUESTION,
            arrow,
            stencil::TYPE_LABEL,
            usize::from(kind),
        );
        self.draw_type(kind);
        self.draw_addresses(words, asker, asked);
    }

    fn draw_answered(&mut self, asked: u16, asker: u16, thread: u8, code: u16) {
        let arrow = Arrow {
            colour: colour_of(thread),
            from: self.lane_of(asked),
            to: self.lane_of(asker),
            below: 20,
        };
        self.draw_arrow(
            stencil::ANSWER,
            arrow,
            stencil::CODE_LABEL,
            usize::from(code),
        );
        self.draw_addresses(stencil::ANSWERED, asked, asker);
        self.draw_code(code);
    }

    fn draw_event(&mut self, head: Head) {
        self.draw_question(
            stencil::EVENT,
            head.source,
            head.destination,
            head.kind,
            head.thread,
        );
    }

    // A reply that comes late ends at the router, in a filled square.
    fn draw_swallowed(&mut self, head: Head, code: u16) {
        let arrow = Arrow {
            colour: colour_of(head.thread),
            from: self.lane_of(head.source),
            to: HUB,
            below: 20,
        };
        let y = self.down(14);
        self.draw_line(stencil::ANSWER, arrow);
        self.add(&[stencil::SWALLOW, arrow.colour, usize::from(HUB) + 11, y]);
        self.draw_thread(arrow);
        self.draw_label(stencil::CODE_LABEL, usize::from(code), arrow);
        self.draw_addresses(stencil::SWALLOWED, head.source, head.source);
        self.draw_code(code);
    }

    // The router's own answer to an asker.
    fn draw_reply(&mut self, arrow: Arrow) {
        self.draw_line(stencil::ANSWER, arrow);
        self.draw_head(arrow);
    }

    // The code of the router's own answer, beside the router's column and beside the step.
    fn draw_reply_code(&mut self, code: u16, below: u16) {
        let y = self.down(below);
        let x = usize::from(HUB) + 40;
        self.add(&[stencil::CODE_LABEL, x, y, usize::from(code)]);
        self.draw_code(code);
    }

    fn draw_turned_words(&mut self, head: Head) {
        let from = usize::from(head.source);
        let to = usize::from(head.destination);
        let y = self.down(17);
        self.add(&[stencil::TURNED, y, from, to, usize::from(head.kind)]);
    }

    // A question that is turned back: as far as the router, a cross there, and the router's answer.
    fn draw_turned(&mut self, head: Head, code: u16) {
        let colour = colour_of(head.thread);
        let asker = self.lane_of(head.source);
        let question = Arrow {
            colour,
            from: asker,
            to: HUB,
            below: 17,
        };
        let answer = Arrow {
            colour,
            from: HUB,
            to: asker,
            below: 28,
        };
        self.draw_line(stencil::QUESTION, question);
        self.draw_reply(answer);
        self.draw_thread(question);
        self.draw_cross(usize::from(HUB) + 10);
        self.draw_reply_code(code, 13);
        self.draw_turned_words(head);
    }

    // A wait that ends without its answer: a cross at who was asked, and the router's answer to the asker.
    fn draw_given(&mut self, asker: u16, asked: u16, thread: u8) {
        let arrow = Arrow {
            colour: colour_of(thread),
            from: HUB,
            to: self.lane_of(asker),
            below: 20,
        };
        self.draw_reply(arrow);
        self.draw_thread(arrow);
        let bar = usize::from(self.lane_of(asked)) + arrow.colour * 3;
        self.draw_cross(bar);
        self.draw_reply_code(tapa::HANDLER_ERROR, 16);
        self.draw_addresses(stencil::GIVEN, asker, asked);
    }

    fn draw_reset(&mut self, handler: u16) {
        let x = line_of(self.lane_of(handler));
        let y = self.down(20);
        self.add(&[stencil::RING, x, y]);
        self.draw_addresses(stencil::RESET, handler, handler);
    }

    // A refused step is a mark in the margin.
    fn draw_refused(&mut self, number: u8) {
        let y = usize::from(self.y);
        self.add(&[stencil::MARGIN_MARK, y + 5]);
        self.add(&[stencil::MARGIN_NUMBER, y + 16, usize::from(number)]);
        self.add(&[stencil::REASON, y + 29, names::refusal_name(number)]);
    }

    fn draw_outcome(&mut self, came: Arrival, outcome: Outcome) {
        match outcome {
            Outcome::Passed {
                asker,
                asked,
                kind,
                thread,
            } => self.draw_question(stencil::PASSED, asker, asked, kind, thread),
            Outcome::Answered {
                asked,
                asker,
                thread,
                code,
            } => self.draw_answered(asked, asker, thread, code),
            Outcome::Swallowed { .. } => self.draw_swallowed(came.head(), code_of(came)),
            Outcome::Event => self.draw_event(came.head()),
            Outcome::Turned { code, .. } => self.draw_turned(came.head(), code),
            Outcome::Given {
                asker,
                asked,
                thread,
            } => self.draw_given(asker, asked, thread),
            Outcome::Reset { handler } => self.draw_reset(handler),
            Outcome::Refused(refusal) => self.draw_refused(tapa::number(refusal)),
        }
    }

    // A step: how the columns stand after it, then the step itself over them.
    fn draw_step(&mut self, came: Arrival, outcome: Outcome, step: usize) {
        self.draw_bands();
        self.draw_places();
        let y = self.down(17);
        self.add(&[stencil::STEP, y, step]);
        self.draw_outcome(came, outcome);
    }

    // ---- the last row

    fn draw_totals(&mut self, sums: Totals) {
        let y = usize::from(self.y);
        self.add(&[
            stencil::TOTALS,
            y + 36,
            sums.accepted,
            sums.answered,
            sums.given,
        ]);
        self.add(&[stencil::MORE_TOTALS, y + 50, sums.waiting, sums.owing]);
    }

    fn draw_bad_table(&mut self, number: u8) {
        let y = self.down(36);
        let name = names::refusal_name(number);
        self.add(&[stencil::BAD_TABLE, y, usize::from(number), name]);
    }

    fn draw_item(&mut self, came: Arrival, item: Item) {
        let last = self.down(36);
        match item {
            Item::Came { step, outcome } => self.draw_step(came, outcome, step),
            Item::Over(sums) => self.draw_totals(sums),
            Item::Broken(number) => self.add(&[stencil::BROKEN, last, number]),
            Item::Refused(refusal) => self.draw_bad_table(tapa::number(refusal)),
            Item::TooLong => self.add(&[stencil::TOO_LONG, last]),
            Item::Nothing => {}
        }
    }

    // ---- pages

    // The heads of the columns and their lines.
    fn draw_columns(&mut self, end: usize) {
        let router = self.router;
        for (number, cell) in router.cells.iter().take(router.count).enumerate() {
            let address = (cell / 2 % 65536) as u16;
            let form = if cell % 2 == 1 {
                stencil::COLUMN
            } else {
                stencil::CLOSED_COLUMN
            };
            let x = line_of(self.place_of(number));
            let name = names::category_name(address);
            self.add(&[stencil::LANE, x, end]);
            self.add(&[form, x + 4, usize::from(address), name]);
        }
    }

    // A page, up to its rows.
    fn draw_page(&mut self, row: usize, total: usize) {
        let page = row / ROWS % MOST;
        let end = usize::from(end_of(row, total));
        let hub = line_of(HUB);
        self.add(&[stencil::PAGE, page * 1584]);
        self.add(&[stencil::PAGE_NUMBER, page + 1, page_count(total)]);
        self.add(&[stencil::ROUTER_LANE, hub, end]);
        self.add(&[stencil::ROUTER, hub + 4]);
        self.draw_columns(end);
        self.draw_places();
        self.add(&[stencil::REASON, end + 60, stencil::LEGEND]);
        self.add(&[stencil::REASON, end + 74, stencil::MORE_LEGEND]);
    }
}

// ---- what `picture` asks for: the forms of a part

impl Forms<'_> {
    // A row: what came and what became of it, with the router before and after. The first row of a page
    // begins it, and ends the one before.
    pub fn draw_row(
        &mut self,
        came: Arrival,
        item: Item,
        before: &Router,
        after: &Router,
        row: usize,
        total: usize,
    ) -> &[usize] {
        self.count = 0;
        if is_first(row, total) {
            if 0 < row {
                self.add(&[stencil::PAGE_END]);
            }
            let mut head = Row {
                forms: self,
                router: before,
                y: 216,
            };
            head.draw_page(row, total);
        }
        let mut strip = Row {
            forms: self,
            router: after,
            y: top_of(row, total),
        };
        strip.draw_item(came, item);
        self.drawn()
    }

    // The beginning of the file.
    pub fn draw_opening(&mut self, total: usize) -> &[usize] {
        let height = height_of(total);
        self.count = 0;
        self.add(&[stencil::OPENING, height, height]);
        self.add(&[stencil::TITLE]);
        for style in stencil::STYLES..stencil::STYLES + stencil::STYLE_COUNT {
            self.add(&[stencil::RAW, style]);
        }
        self.add(&[stencil::PRINTED, height % 100000000 * 3 / 16]);
        self.drawn()
    }

    // The end of the file.
    pub fn draw_closing(&mut self) -> &[usize] {
        self.count = 0;
        self.add(&[stencil::PAGE_END]);
        self.add(&[stencil::CLOSING]);
        self.drawn()
    }
}

// ---- the same in a list that is lent, with how many forms there are now in it as the answer

// A row, with the router before and after.
pub fn draw_row(
    list: &mut [usize; 2048],
    came: Arrival,
    item: Item,
    before: Router,
    after: Router,
    row: usize,
    total: usize,
) -> usize {
    let mut forms = Forms::new(list);
    let drawn = forms.draw_row(came, item, &before, &after, row, total);
    drawn.len() / 8
}

// The beginning of the file.
pub fn draw_opening(list: &mut [usize; 2048], total: usize) -> usize {
    Forms::new(list).draw_opening(total).len() / 8
}

// The end of the file.
pub fn draw_closing(list: &mut [usize; 2048]) -> usize {
    Forms::new(list).draw_closing().len() / 8
}
