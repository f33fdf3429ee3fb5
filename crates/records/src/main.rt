// Keeps the records of the data store in a file: commands in, one line a command out.
//
// Usage: ./kiosk records IMAGE [FILE..]
//
// IMAGE is the file with the records; where there is none, it is made. The commands are messages to
// the data store, each in a field of tag 02, and stand in the files or, without a file, in standard
// input. An input has at most 65,536 bytes. A change is on the disk before its line is printed.
// Where IMAGE is no whole image, or cannot be written, that is said, and it stays as it was.
// docs/book/the-kiosk-forgot.md says what to do then.
#![tactic(auto)]

ghost use Rattle.std.specs.Prelude.{◌≤◌, ◌≡◌, length};
ghost use Rattle.image.specs.Image.{Storable, image_of};
ghost use Rattle.records.specs.Records.{Held, Keeps, Room, Turned};

use book::Book;
use layout::Flaw;
use std::env::{Env, FillError};
use std::io::Print;
use vault::Kept;

// Whether a store is on the disk, and how long the image is that was kept last.
#[derive(Drop)]
struct Keeping {
    done: bool,
    size: usize,
}

// Whether to go on, the store, and how long the image is that was kept last.
#[derive(Drop)]
struct Turn {
    going: bool,
    book: Book,
    size: usize,
}

// ---- what is said

// Puts bytes on standard error. Where that fails there is nobody to tell.
fn put(rt: HostRuntime, bytes: &[u8]) {
    let _ = rt.stderr().write_all(bytes);
}

fn start_line(rt: HostRuntime, path: &[u8]) {
    put(rt, b"records: ");
    put(rt, path);
    put(rt, b": ");
}

// Says what is wrong with the image.
fn say(rt: HostRuntime, path: &[u8], what: &[u8]) {
    start_line(rt, path);
    put(rt, what);
    put(rt, b"\n");
    inputs::tell(rt, b"1");
}

// Says what failed, with the system's reason.
fn fail(rt: HostRuntime, path: &[u8], what: &[u8], code: i32) {
    start_line(rt, path);
    inputs::say_why(rt, what, code);
    inputs::tell(rt, b"1");
}

// Says that another program has the lock, or that another file has its name.
fn say_busy(rt: HostRuntime, path: &[u8], process: usize) {
    start_line(rt, path);
    if process == 0 {
        put(rt, path);
        put(rt, b".lock is in the way, and is no lock of this program\n");
    } else {
        put(rt, b"another program is at work on it (process ");
        let _ = rt.stderr().print(process);
        put(rt, b"); if there is none, remove ");
        put(rt, path);
        put(rt, b".lock\n");
    }
    inputs::tell(rt, b"1");
}

// Says what is wrong with bytes that are no image.
fn say_flaw(rt: HostRuntime, path: &[u8], flaw: Flaw) {
    match flaw {
        Flaw::Area => {}
        Flaw::Foreign => say(rt, path, b"it is no image of a data store"),
        Flaw::Version => say(rt, path, b"it is an image of another version"),
        Flaw::Cut => say(rt, path, b"it is cut short, or has bytes behind its end"),
        Flaw::Sum => say(
            rt,
            path,
            b"its bytes are not those that were written: the checksum differs",
        ),
        Flaw::Bent => say(
            rt,
            path,
            b"its checksum is right, but it holds what no store can hold",
        ),
    }
}

// ---- the image

// Without the lock nothing is changed. It is asked for again, so that there is a reason to say.
fn refuse_change(rt: HostRuntime, path: &[u8]) {
    let lock = vault::take(rt, path);
    if lock.busy {
        say_busy(rt, path, lock.process);
    } else if lock.ours {
        say(
            rt,
            path,
            b"it is not locked any more, so nothing was changed; start again",
        );
    } else {
        fail(
            rt,
            path,
            b"it cannot be changed, since it cannot be locked",
            lock.code,
        );
    }
}

// Has bytes on the disk as the image, or says why not. Where the image was read without its lock, it
// may be another one by now.
fn store(rt: HostRuntime, path: &[u8], locked: bool, bytes: &[u8]) -> bool {
    if !locked {
        refuse_change(rt, path);
        return false;
    }
    match vault::write(rt, path, bytes) {
        Kept::Whole => true,
        Kept::Lost => {
            refuse_change(rt, path);
            false
        }
        Kept::Failed(code) => {
            fail(rt, path, b"it could not be written", code);
            false
        }
        Kept::Unsure(code) => {
            fail(
                rt,
                path,
                b"it was written, but perhaps not to the disk",
                code,
            );
            false
        }
    }
}

// Has an image on the disk, where it is not the one that was kept last.
fn keep_image(
    rt: HostRuntime,
    path: &[u8],
    locked: bool,
    next: &[u8],
    last: &mut [u8],
    size: usize,
) -> Keeping
    requires { (length next.now ≤ 99652) × Room last.old size }
    ensures { Keeps next.now last.new result }
{
    if octets::same(next, &last[..size]) {
        return Keeping { done: true, size };
    }
    if !store(rt, path, locked, next) {
        return Keeping { done: false, size };
    }
    Keeping {
        done: true,
        size: octets::copy(next, last),
    }
}

// Room for the longest image.
fn image_buffer() -> [u8; 99652]
    ensures { 99652 ≡ length result }
{
    [0; 99652]
}

// Has a store on the disk, where it is not the one that was kept last. The buffer has room for each
// image, so it is never too small for `save`.
fn keep(
    rt: HostRuntime,
    path: &[u8],
    locked: bool,
    b: Book,
    area: &[u8],
    last: &mut [u8],
    size: usize,
) -> Keeping
    requires { Storable b area.now × Room last.old size }
    ensures { Keeps (image_of b area.now) last.new result }
{
    let mut next = image_buffer();
    match image::save(b, area, &mut next) {
        None => Keeping { done: false, size },
        Some(n) => keep_image(rt, path, locked, &next[..n], last, size),
    }
}

// ---- the lines

// Prints the lines of an input, a page at a time. What a page tells is on the disk before.
fn show(
    rt: HostRuntime,
    path: &[u8],
    locked: bool,
    b: Book,
    area: &mut [u8],
    last: &mut [u8],
    size: usize,
    input: &[u8],
) -> Turn
    requires { Held b area.old last.old size }
    ensures { Turned area.new last.new result }
{
    let mut page = io::buffer();
    let mut cursor = store_lines::begin();
    let mut book = b;
    let mut kept = size;
    loop {
        let filled = store_lines::fill_page(book, area, cursor, input, &mut page);
        let after = filled.book;
        book = after;
        let keeping = keep(rt, path, locked, book, area, last, kept);
        kept = keeping.size;
        let used = filled.used;
        if !keeping.done || !inputs::write(rt, b"records", &page[..used]) {
            return Turn {
                going: false,
                book,
                size: kept,
            };
        }
        if !filled.more {
            return Turn {
                going: true,
                book,
                size: kept,
            };
        }
        let next = filled.next;
        cursor = next;
    }
}

// Prints the lines of standard input or, where arguments name files, of each file in turn. One byte more
// than an input may have is read, so that a longer one is seen.
fn show_inputs(
    rt: HostRuntime,
    path: &[u8],
    locked: bool,
    b: Book,
    area: &mut [u8],
    last: &mut [u8],
    size: usize,
)
    requires { Held b area.old last.old size }
{
    let count = inputs::count(rt);
    let mut i = inputs::first_name(rt) + 1;
    let mut book = b;
    let mut kept = size;
    let mut input = [0u8; 65537];
    loop {
        let came = inputs::next(rt, b"records", b"commands", i, count, &mut input);
        let n = came.length;
        if !came.some {
            return;
        }
        let turn = show(rt, path, locked, book, area, last, kept, &input[..n]);
        if !turn.going {
            return;
        }
        i = came.next;
        if count <= i {
            return;
        }
        let after = turn.book;
        book = after;
        kept = turn.size;
    }
}

// Begins with an empty store, which is on the disk before the first line.
fn begin(rt: HostRuntime, path: &[u8], locked: bool, area: &mut [u8], last: &mut [u8])
    requires { (length area.old ≡ 98048) × (length last.old ≡ 99653) }
{
    let book = store_entries::fresh();
    let keeping = keep(rt, path, locked, book, area, last, 0);
    if keeping.done {
        show_inputs(rt, path, locked, book, area, last, keeping.size);
    }
}

// Goes on with the store of the image that stands in `last`.
fn resume(rt: HostRuntime, path: &[u8], locked: bool, area: &mut [u8], last: &mut [u8], size: usize)
    requires { Room last.old size }
{
    match image::load(&last[..size], area) {
        Ok(book) => show_inputs(rt, path, locked, book, area, last, size),
        Err(flaw) => say_flaw(rt, path, flaw),
    }
}

// Reads one byte more than the longest image has, so that a longer one is seen.
fn work(rt: HostRuntime, path: &[u8], locked: bool) {
    let mut area = [0u8; 98048];
    let mut last = [0u8; 99653];
    let got = inputs::read_file(rt, path, &mut last);
    let n = got.length;
    if got.whole {
        resume(rt, path, locked, &mut area, &mut last, n);
    } else if got.code == inputs::ENOENT {
        begin(rt, path, locked, &mut area, &mut last);
    } else {
        inputs::fail(rt, b"records", path, got.code);
    }
}

fn run(rt: HostRuntime, path: &[u8]) {
    if vault::is_link(rt, path) {
        say(rt, path, b"it is a symbolic link; name the file itself");
        return;
    }
    let lock = vault::take(rt, path);
    if lock.busy {
        say_busy(rt, path, lock.process);
        return;
    }
    work(rt, path, lock.ours);
    vault::free(rt, path);
}

fn ask(rt: HostRuntime) {
    inputs::say(
        rt,
        b"records",
        b"which image? Usage: ./kiosk records IMAGE [FILE..]",
    );
    inputs::tell(rt, b"2");
}

fn main(rt: HostRuntime) {
    let mut path = io::buffer();
    match rt.arg(inputs::first_name(rt), &mut path) {
        Ok(n) => {
            if n == 0 || octets::same(&path[..n], b"-") {
                ask(rt);
            } else {
                run(rt, &path[..n]);
            }
        }
        Err(FillError::NotPresent) => ask(rt),
        Err(FillError::TooLong) => {
            inputs::fail(rt, b"records", b"the image's name", inputs::ENAMETOOLONG);
        }
    }
}
