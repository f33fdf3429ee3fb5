// Lines: the text of each line that the session program prints, with its LF.
//
// What a step's line says is what the rules say of its outcome, as text. With numbers of at most five
// digits no line has more than 64 bytes: proofs/Short.antt. Each line written out: proofs/Example.antt.
//
// Each function writes one line with a writer of crate `text`, so every byte of the lent buffer is fixed,
// also where it is too small.
#![tactic(auto, using(text::proofs::Calls::calls))]

ghost use Rattle.std.specs.Prelude.{◌≡◌, ◌++◌};
ghost use Rattle.text.specs.Text.{pen, puts, Writes, decimal_of, hexes_of, word_hex_of};
ghost use Rattle.tapa.specs.Refusals.{number_of};
ghost use Rattle.rules.specs.Said.{said_outcome};
ghost use Rattle.lines.specs.Lines.{lf, text_of, counted, step_line, totals_line, broken_line, table_line, long_line};

use rules::Outcome;
use tapa::Refusal;
use text::Writer;

// ---- parts of a line

// A word and the reply's bytes.
fn put_reply(out: &mut Writer<'_>, word: &[u8], reply: &[u8; 10])
    ensures { Writes out.old out.new (word.now ++ hexes_of reply.now) }
{
    out.put_all(word);
    out.put_all_hex(reply);
}

// A word and the number of a refusal.
fn put_refusal(out: &mut Writer<'_>, word: &[u8], refusal: Refusal)
    ensures { Writes out.old out.new (counted word.now (number_of refusal)) }
{
    out.put_number(word, usize::from(tapa::number(refusal)));
}

// What came of a step.
#[tactic(auto, unfolding(crate::specs::Lines::word_of, crate::specs::Lines::text_of, message::specs::Message::response_of, message::specs::Message::message_of))]
fn put_said(out: &mut Writer<'_>, outcome: Outcome, reply: &[u8; 10])
    ensures { Writes out.old out.new (text_of (said_outcome outcome) reply.now) }
{
    match outcome {
        Outcome::Passed { asked, .. } => out.put_address(b" passed ", asked),
        Outcome::Answered { asker, .. } => out.put_address(b" answered ", asker),
        Outcome::Turned { .. } => put_reply(out, b" turned ", reply),
        Outcome::Given { .. } => put_reply(out, b" given ", reply),
        Outcome::Refused(refusal) => put_refusal(out, b" refused ", refusal),
        Outcome::Swallowed { .. } => out.put_all(b" swallowed"),
        Outcome::Event => out.put_all(b" event"),
        Outcome::Reset { .. } => out.put_all(b" reset"),
    }
}

// ---- lines

// Every line ends in LF.
fn end_line(out: &mut Writer<'_>)
    ensures { Writes out.old out.new lf }
{
    out.put(b'\n');
}

// The line of a step: its number and what came of it.
pub fn put_step(out: &mut Writer<'_>, number: usize, outcome: Outcome, reply: &[u8; 10])
    ensures { Writes out.old out.new (step_line number (said_outcome outcome) reply.now) }
{
    out.put_decimal(number);
    put_said(out, outcome, reply);
    end_line(out);
}

// The last line of a session that has no broken field. Its five numbers come one by one: the struct that
// holds them is of room `run`, which this room does not stand on.
pub fn put_totals(
    out: &mut Writer<'_>,
    accepted: usize,
    answered: usize,
    given: usize,
    waiting: usize,
    owing: usize,
)
    ensures { Writes out.old out.new (totals_line accepted answered given waiting owing) }
{
    out.put_number(b"totals ", accepted);
    out.put_number(b" ", answered);
    out.put_number(b" ", given);
    out.put_number(b" ", waiting);
    out.put_number(b" ", owing);
    end_line(out);
}

// The line of a broken field, with the field's number.
pub fn put_broken(out: &mut Writer<'_>, number: usize)
    ensures { Writes out.old out.new (broken_line number) }
{
    out.put_number(b"broken ", number);
    end_line(out);
}

// The only line where the table is refused.
pub fn put_table(out: &mut Writer<'_>, refusal: Refusal)
    ensures { Writes out.old out.new (table_line refusal) }
{
    put_refusal(out, b"table refused ", refusal);
    end_line(out);
}

// The only line of an input that is too long.
pub fn put_too_long(out: &mut Writer<'_>)
    ensures { Writes out.old out.new long_line }
{
    out.put_all(b"too long\n");
}

// ---- the same on a buffer and a place, with the place after it as the answer

// A word and a number.
pub fn put_number(line: &mut [u8], at: usize, word: &[u8], n: usize) -> usize
    ensures { pen line.new result ≡ puts (pen line.old at) (word.now ++ decimal_of n) }
{
    let mut out = Writer::new(line, at);
    out.put_number(word, n);
    out.place()
}

// A word and an address.
pub fn put_address(line: &mut [u8], at: usize, word: &[u8], address: u16) -> usize
    ensures { pen line.new result ≡ puts (pen line.old at) (word.now ++ word_hex_of address) }
{
    let mut out = Writer::new(line, at);
    out.put_address(word, address);
    out.place()
}

// The line of a broken field, with the field's number.
pub fn broken_line(line: &mut [u8], at: usize, number: usize) -> usize
    ensures { pen line.new result ≡ puts (pen line.old at) (broken_line number) }
{
    let mut out = Writer::new(line, at);
    put_broken(&mut out, number);
    out.place()
}

// The only line of an input that is too long.
pub fn long_line(line: &mut [u8], at: usize) -> usize
    ensures { pen line.new result ≡ puts (pen line.old at) long_line }
{
    let mut out = Writer::new(line, at);
    put_too_long(&mut out);
    out.place()
}
