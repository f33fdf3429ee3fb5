// Sentences: the wordings of the program that explains a session, on a sheet.
//
// Every line that is said below a line of the transcript is one of these forms, or a few of them one
// after the other. `#`, `@`, `^` and `$` are holes (crate `forms`). Crates `telling` and `reasons` choose
// among them.
#![tactic(auto)]

ghost use Rattle.std.specs.Prelude.{◌≡◌, [], ◌∷◌, ◌++◌};
ghost use Rattle.text.specs.Text.{pen, pen_of, Writes};
ghost use Rattle.forms.specs.Forms.{form_text};

use text::Writer;

// Cells of the sheet. A form is numbers, of which the first is a cell and some of the others may be
// (forms, `form_text`); so these are numbers and no enum.
pub const ENCIPHERED: usize = names::FREE;

pub const OPEN_ROW: usize = names::FREE + 1;

pub const CLOSED_ROW: usize = names::FREE + 2;

pub const MORE_ROWS: usize = names::FREE + 3;

pub const ASKS: usize = names::FREE + 4;

pub const ANSWERS: usize = names::FREE + 5;

pub const ANSWERS_BARE: usize = names::FREE + 6;

pub const REPORTS: usize = names::FREE + 7;

pub const GIVES_UP: usize = names::FREE + 8;

pub const REPLACES: usize = names::FREE + 9;

pub const UNREAD: usize = names::FREE + 10;

pub const NO_DATA: usize = names::FREE + 11;

pub const ONE_BYTE: usize = names::FREE + 12;

pub const BYTES: usize = names::FREE + 13;

pub const PASSED: usize = names::FREE + 14;

pub const ANSWERED: usize = names::FREE + 15;

pub const SWALLOWED: usize = names::FREE + 16;

pub const EVENT: usize = names::FREE + 17;

pub const TURNED: usize = names::FREE + 18;

pub const GIVEN: usize = names::FREE + 19;

pub const RESET: usize = names::FREE + 20;

pub const REFUSED: usize = names::FREE + 21;

pub const NOW_OPEN: usize = names::FREE + 22;

pub const NOW_CLOSED: usize = names::FREE + 23;

pub const NO_SUCH: usize = names::FREE + 24;

pub const NOT_KNOWN: usize = names::FREE + 25;

pub const IS_CLOSED: usize = names::FREE + 26;

pub const NOT_ITS_TURN: usize = names::FREE + 27;

pub const IN_THREAD: usize = names::FREE + 28;

pub const OPEN_FIRST: usize = names::FREE + 29;

pub const OPEN_MORE: usize = names::FREE + 30;

pub const NONE_OPEN: usize = names::FREE + 31;

pub const OWED_FIRST: usize = names::FREE + 32;

pub const OWED_MORE: usize = names::FREE + 33;

pub const SEE_CODE: usize = names::FREE + 34;

pub const SEE_REFUSAL: usize = names::FREE + 35;

pub const SEE_BROKEN: usize = names::FREE + 36;

pub const SEE_TOO_LONG: usize = names::FREE + 37;

pub const BROKEN: usize = names::FREE + 38;

pub const BAD_TABLE: usize = names::FREE + 39;

pub const TOO_LONG: usize = names::FREE + 40;

pub const ALL_PASSED: usize = names::FREE + 41;

pub const ALL_ANSWERED: usize = names::FREE + 42;

pub const ALL_GIVEN: usize = names::FREE + 43;

pub const ALL_WAITING: usize = names::FREE + 44;

pub const ALL_OWING: usize = names::FREE + 45;

pub const HAS_TO_ANSWER: usize = names::FREE + 46;

pub const OWES_REPLY: usize = names::FREE + 47;

pub const ASKS_ITSELF: usize = names::FREE + 48;

pub const NO_THREAD: usize = names::FREE + 49;

pub const STILL_WAITS: usize = names::FREE + 50;

pub const ASKED_AS: usize = names::FREE + 51;

pub const NOBODY_WAITS: usize = names::FREE + 52;

pub const ASKED_BY: usize = names::FREE + 53;

pub const HAS_QUESTION: usize = names::FREE + 54;

pub const WAITS_FOR: usize = names::FREE + 55;

pub const TORN: usize = names::FREE + 56;

pub const QUEUE_STAYS_CLOSED: usize = names::FREE + 57;

// What came.
fn write_arrivals(sheet: &mut [u8]) {
    show_sheet::engrave(
        sheet,
        ENCIPHERED,
        b" (enciphered)|row #: $ @$, open$|row #: $ @$, closed$|more rows follow: a table has at most 16\
        |thread #: the $ @$ asks the $ @$: $ ('^'), |thread #: the $ @$ answers the $ @$: code @, $; \
        |thread #: the $ @$ answers the $ @$ without a code; |thread #: the $ @$ reports to the $ @$: $ ('^'), \
        |thread #: the question to the $ @$ is to be given up|the $ @$ is said to be replaced\
        |too few bytes for a message: #|no data|1 byte of data|# bytes of data",
    );
}

// What became of it.
fn write_outcomes(sheet: &mut [u8]) {
    show_sheet::engrave(
        sheet,
        PASSED,
        b"passed on; @ now has to answer|passed on; @ has its answer from @\
        |it comes late, and goes to nobody; @ owes it no more|it goes to the event queue; no answer is due\
        |turned back, and not passed on; @ is told code @, $|given up; @ is told code @, $; @ now owes a late reply\
        |@ is closed now, and owes no late reply any more|refused, and nothing changed: $\
        |@ is open now|@ is closed now",
    );
}

// Why a command was turned back.
fn write_reasons(sheet: &mut [u8]) {
    show_sheet::engrave(
        sheet,
        NO_SUCH,
        b"why: the table has no handler @|why: the $ @ does not know this type|why: @ is closed\
        |why: the thread is that of @, and @ has no question there to answer\
        |why: @ has its part in the open questions of this thread already",
    );
}

// Why a command was turned back or a step refused, by what stood open before.
fn write_causes(sheet: &mut [u8]) {
    show_sheet::engrave(
        sheet,
        HAS_TO_ANSWER,
        b"why: @ has to answer @ on thread # first|why: @ still owes @ a late reply, on thread #\
        |why: @ asks itself|why: only a till driver can begin a thread|why: @ itself still waits, for @\
        |why: on this thread @ was asked, and not @|why: nobody waits for @ on this thread\
        |why: it was asked by @|why: @ has to answer @ on thread #|why: @ waits for @ on thread #\
        |thread #: from the $ @$ to the $ @$: bytes of data announced: #, came: #\
        |the event queue cannot be opened again: give 0700 open, and do not declare it replaced",
    );
}

// How a thread stands, and where to read on.
fn write_standings(sheet: &mut [u8]) {
    show_sheet::engrave(
        sheet,
        OPEN_FIRST,
        b"open on thread #: $ @$ asks @$|, @$ asks @$|open on thread #: nothing\
        |owed on thread #: a late reply of @$ to @$|, of @$ to @$\
        |see docs/book/code-@.md|see docs/book/refusal-##.md\
        |see docs/book/line-broken.md|see docs/book/line-too-long.md",
    );
}

// How a session ends.
fn write_ends(sheet: &mut [u8]) {
    show_sheet::engrave(
        sheet,
        BROKEN,
        b"field # of the file cannot be read; nothing from there on was done\
        |the table of handlers is refused, so no step was done: $\
        |the file has more than 65,536 bytes; nothing of it was done\
        |questions that were passed on: #|of these answered: #|of these given up: #|of these still open: #|late replies still owed: #",
    );
}

// Writes the names and the sentences onto a sheet.
pub fn write_sheet(sheet: &mut [u8]) {
    names::write_names(sheet);
    write_arrivals(sheet);
    write_outcomes(sheet);
    write_reasons(sheet);
    write_causes(sheet);
    write_standings(sheet);
    write_ends(sheet);
}

// ---- what is said

// The words that are said, one after the other, and the sheet that has them. Where the words are full,
// nothing more is said.
#[derive(Drop)]
pub struct Teller<'a> {
    out: Writer<'a>,
    sheet: &'a [u8],
}

impl<'a> Teller<'a> {
    // Nothing is said yet. What is said will be of this sheet, and stands in these words.
    pub fn new(words: &'a mut [u8], sheet: &'a [u8]) -> Teller<'a>
        ensures text { pen_of result.out ≡ pen words.old 0 }
        ensures lent { result.out.bytes.ghost_name ≡ words.entry.ghost_name }
        ensures sheet { result.sheet.now ≡ sheet.now }
    {
        let out = Writer::new(words, 0);
        Teller { out, sheet }
    }
}

impl Teller<'_> {
    // A part of a line.
    pub fn put(&mut self, form: &[usize])
        ensures sheet { self.new.sheet.now ≡ self.old.sheet.now }
        ensures text { Writes self.old.out self.new.out (form_text self.old.sheet.now form.now) }
    {
        show_forms::put_form(&mut self.out, self.sheet, form);
    }

    // The end of a line.
    pub fn end_line(&mut self)
        ensures sheet { self.new.sheet.now ≡ self.old.sheet.now }
        ensures text { Writes self.old.out self.new.out (10 ∷ []) }
    {
        self.out.put(b'\n');
    }

    // A sentence that is a line of its own.
    #[tactic(auto, using(text::proofs::Calls::calls))]
    pub fn say(&mut self, form: &[usize])
        ensures sheet { self.new.sheet.now ≡ self.old.sheet.now }
        ensures text { Writes self.old.out self.new.out (form_text self.old.sheet.now form.now ++ (10 ∷ [])) }
    {
        self.put(form);
        self.end_line();
    }

    // How much has been said.
    pub fn place(&self) -> usize
        ensures { result ≡ self.now.out.at }
    {
        self.out.place()
    }
}
