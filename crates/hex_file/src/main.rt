// Turns hex text into a session file, and a session file back into text (-d).
//
// Usage: ./kiosk hex [FILE] > NEW      text to bytes
//        ./kiosk hex -d [FILE]         bytes to text
//
// The text has hex digits in any grouping; a byte's two digits stand on one line, and `#` begins a
// comment that goes to the end of the line. A mistake is told with its line and column, and nothing
// is written. Back, each field has a line: tag, length, contents (a message's destination, source,
// type, thread, data length and data), and a comment that names it. That text gives the same bytes
// again, whatever they are.
//
// A session file has at most 65,536 bytes, a text at most 524,288 characters.
#![tactic(auto)]

ghost use Rattle.std.specs.Prelude.{◌≤◌, ◌<◌, ◌≡◌, length};

use hexes::Mistake;
use std::env::Env;
use text::Writer;

// Room for the longest text, and one character more.
fn large_text() -> [u8; 524289]
    ensures { 524289 ≡ length result }
{
    [0; 524289]
}

// A mistake that no call of the system made.
fn refuse(rt: HostRuntime, why: &[u8]) {
    inputs::say(rt, b"hex", why);
    inputs::tell(rt, b"1");
}

// Names the place of a mistake.
fn refuse_at(rt: HostRuntime, text: &[u8], at: usize, why: &[u8]) {
    let spot = session_hex_reader::locate(text, at);
    let mut line = [0u8; 128];
    let mut out = Writer::new(&mut line, 0);
    out.put_number(b"line ", spot.line);
    out.put_number(b", column ", spot.column);
    out.put_all(why);
    let end = out.place();
    if end <= 128 {
        refuse(rt, &line[..end]);
    }
}

// Writes what stands at the start of a buffer.
fn send(rt: HostRuntime, bytes: &[u8], used: usize) -> bool {
    if bytes.len() < used {
        return false;
    }
    inputs::write(rt, b"hex", &bytes[..used])
}

fn show_bytes(rt: HostRuntime, text: &[u8]) {
    let mut out = io::large_buffer();
    let taken = session_hex_reader::read(text, &mut out);
    match taken.ends {
        Err(Mistake::Odd(at)) => refuse_at(rt, text, at, b": a digit without its second one"),
        Err(Mistake::Foreign(at)) => refuse_at(rt, text, at, b": no hex digit"),
        Ok(()) => {
            if 65536 < taken.count {
                refuse(rt, b"the text has more than 65,536 bytes");
            } else {
                send(rt, &out, taken.length);
            }
        }
    }
}

// The end of the part that begins at i: a page has room for its text, 15 characters a byte.
fn part_end(bytes: &[u8], i: usize) -> usize
    requires { i < length bytes.now }
    ensures lower_bound { i < result }
    ensures upper_bound { result ≤ length bytes.now }
{
    if bytes.len() - i < 4096 {
        return bytes.len();
    }
    i + 4096
}

fn show_text(rt: HostRuntime, bytes: &[u8]) {
    let mut page = io::large_buffer();
    let mut cursor = session_hex_writer::fresh();
    let mut i = 0;
    while i < bytes.len() {
        let end = part_end(bytes, i);
        let written = session_hex_writer::write(cursor, &bytes[i..end], &mut page);
        if !send(rt, &page, written.used) {
            return;
        }
        cursor = written.next;
        i = end;
    }
    let used = session_hex_writer::write_end(cursor, &mut page);
    send(rt, &page, used);
}

fn from_text(rt: HostRuntime, i: usize) {
    let mut text = large_text();
    let got = inputs::read(rt, b"hex", b"hex text", i, &mut text);
    let n = got.length;
    if 524288 < n {
        refuse(rt, b"the text has more than 524,288 characters");
        return;
    }
    if got.whole {
        show_bytes(rt, &text[..n]);
    }
}

fn from_bytes(rt: HostRuntime, i: usize) {
    let mut bytes = [0u8; 65537];
    let got = inputs::read(rt, b"hex", b"a session file", i, &mut bytes);
    let n = got.length;
    if 65536 < n {
        refuse(rt, b"the file has more than 65,536 bytes");
        return;
    }
    if got.whole {
        show_text(rt, &bytes[..n]);
    }
}

// Whether argument i is the last, or there is none.
fn is_last(rt: HostRuntime, i: usize) -> bool {
    let count = inputs::count(rt);
    count == 0 || count - 1 <= i
}

// Whether argument i is `-d`.
fn is_back(rt: HostRuntime, i: usize) -> bool {
    let mut word = io::buffer();
    match rt.arg(i, &mut word) {
        Ok(n) => octets::same(&word[..n], b"-d"),
        Err(_) => false,
    }
}

fn main(rt: HostRuntime) {
    let first = inputs::first_name(rt);
    let is_back = is_back(rt, first);
    let at = if is_back { first + 1 } else { first };
    if !is_last(rt, at) {
        inputs::say(rt, b"hex", b"one file at a time");
        inputs::tell(rt, b"2");
        return;
    }
    if is_back {
        from_bytes(rt, at);
    } else {
        from_text(rt, at);
    }
}
