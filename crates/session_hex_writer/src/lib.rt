// A session file as text: one field a line, in groups, with a comment that names the field.
//
// The bytes come part by part, and so does the text; the cursor knows where in a field a part ends:
// hexes `Writes`. `write_end` ends the line of a field that the end of the input cuts.
#![tactic(auto)]

ghost use Rattle.std.specs.Prelude.{◌≡◌, ◌++◌};
ghost use Rattle.text.specs.Text.{pen, puts, hex_of, Writes};
ghost use Rattle.hexes.specs.Writing.{fresh_cursor, is_over, advanced, splits_at, name_of, gap_of, end_of, Writes as WritesPart};

use hexes::{Cursor, Written};
use text::Writer;

// ---- the field that is being written

// Before the first field, which is as after one.
pub fn fresh() -> Cursor
    ensures { result ≡ fresh_cursor }
{
    Cursor {
        tag: 0,
        high: 0,
        low: 0,
        at: 3,
    }
}

// Whether the field is over.
fn is_over(cursor: Cursor) -> bool
    ensures { result ≡ is_over cursor }
{
    cursor.at >= 3 + usize::from(tapa::pair(cursor.high, cursor.low))
}

// One byte more.
#[tactic(auto, unfolding(hexes::specs::Writing::advanced))]
fn advance(cursor: Cursor, byte: u8) -> Cursor
    ensures { result ≡ advanced cursor byte }
{
    if is_over(cursor) {
        return Cursor {
            tag: byte,
            high: 0,
            low: 0,
            at: 1,
        };
    }
    match cursor.at {
        1 => Cursor {
            high: byte,
            low: 0,
            at: 2,
            ..cursor
        },
        2 => Cursor {
            low: byte,
            at: 3,
            ..cursor
        },
        at => Cursor {
            at: at + 1,
            ..cursor
        },
    }
}

// ---- its text

// Whether a group ends.
#[tactic(auto, unfolding(hexes::specs::Writing::splits_at))]
fn splits(tag: u8, at: usize) -> bool
    ensures { result ≡ splits_at tag at }
{
    match (tag, at) {
        (_, 1 | 3) => true,
        (3, _) => at == 4,
        (2, _) => matches!(at, 5 | 7 | 8 | 9 | 11),
        _ => at == 5,
    }
}

// The end of a field's line.
#[tactic(auto, unfolding(hexes::specs::Writing::name_of))]
fn put_name(out: &mut Writer<'_>, tag: u8)
    ensures { Writes out.old out.new (name_of tag) }
{
    match tag {
        1 => out.put_all(b"  # row\n"),
        2 => out.put_all(b"  # message\n"),
        3 => out.put_all(b"  # give up\n"),
        4 => out.put_all(b"  # replaced\n"),
        _ => out.put_all(b"  # unknown\n"),
    }
}

// A byte, and what stands after it. The cursor is the one after the byte.
#[tactic(auto, using(text::proofs::Calls::calls), unfolding(hexes::specs::Writing::gap_of))]
fn put_byte(out: &mut Writer<'_>, cursor: Cursor, byte: u8)
    ensures { Writes out.old out.new (hex_of byte ++ gap_of cursor) }
{
    out.put_hex(byte);
    if is_over(cursor) {
        put_name(out, cursor.tag);
    } else if splits(cursor.tag, cursor.at) {
        out.put(b' ');
    }
}

// Writes a part of the bytes at the start of the page.
pub fn write(cursor: Cursor, part: &[u8], page: &mut [u8]) -> Written
    ensures { WritesPart cursor part.now page.old page.new result }
{
    let mut out = Writer::new(page, 0);
    let mut next = cursor;
    for byte in part {
        next = advance(next, *byte);
        put_byte(&mut out, next, *byte);
    }
    Written {
        used: out.place(),
        next,
    }
}

// Writes the end of the last line at the start of the page, where a field was cut.
#[tactic(auto, using(text::proofs::Calls::calls), unfolding(hexes::specs::Writing::end_of))]
pub fn write_end(cursor: Cursor, page: &mut [u8]) -> usize
    ensures { pen page.new result ≡ puts (pen page.old 0) (end_of cursor) }
{
    let mut out = Writer::new(page, 0);
    if !is_over(cursor) {
        out.put_all(b"  # cut\n");
    }
    out.place()
}
