// Inputs: what a program is handed to read, whole or not at all, and what it says where it cannot.
//
// A read that fails is not the end of a file: the end is a read that hands over nothing. Nothing
// of an input that was not read to its end is of use; the program names it on standard error, with
// the system's reason, and goes on with the next. A write that fails is said likewise, and ends
// the program.
//
// These programs end with status 0 whatever came. Where the first argument is `--status`, whoever
// started the program has opened descriptor 3 for it to tell of failures, a digit each. Without that
// argument it writes nothing there.
//
// The system's reason for a failure is its number, in the field `code` of an answer. No contract can
// say what is read or written, so those here speak of lengths only, and of the number of the next
// argument, which grows.
#![tactic(auto)]

ghost use Rattle.std.specs.Prelude.{◌≡◌, ◌≤◌, ◌<◌};
ghost use Rattle.io.specs.Counts.{IsPrefixLen};

use std::env::{Env, FillError};
use std::fmt::Write;
use std::fs::File;
use std::io::{Error, ErrorKind, IsTerminal, Print, Read};
use std::{fmt, str};

// Where failures are told.
const STATUS_FILENO: i32 = 3;

// The system's number for a file that is not there.
pub const ENOENT: i32 = 2;

// For a name that is too long, and one that is no text.
pub const ENAMETOOLONG: i32 = 36;

const EILSEQ: i32 = 84;

// For memory that ran out, for what cannot be asked, and for any other error that has no number of its own.
const ENOMEM: i32 = 12;

const EINVAL: i32 = 22;

const EIO: i32 = 5;

// Where the system finds a name too long.
const PATH_MAX: usize = 4096;

// How many bytes of the buffer are the input's, and whether it was read to its end; where it was not, the
// system's number says why. A full buffer counts as an end: who must see a longer input lends one byte more.
#[derive(Clone, Copy)]
pub struct Got {
    pub length: usize,
    pub whole: bool,
    pub code: i32,
}

// ---- the system's reasons

// The system's number of an error.
pub fn code_of(e: &Error) -> i32 {
    match e.raw_os_error() {
        Some(code) => code,
        None => code_of_kind(e.kind()),
    }
}

fn code_of_kind(kind: ErrorKind) -> i32 {
    match kind {
        ErrorKind::OutOfMemory => ENOMEM,
        ErrorKind::InvalidInput => EINVAL,
        _ => EIO,
    }
}

// The system's words for an error, as far as there is room.
#[derive(Drop)]
struct Words {
    bytes: [u8; 320],
    used: usize,
}

impl fmt::Write for Words {
    fn write_str(&mut self, s: &str) -> fmt::Result {
        let used = self.used;
        if used < 320 {
            self.used = used + octets::copy(s.as_bytes(), &mut self.bytes[used..]);
        }
        Ok(())
    }
}

// How long a text is without its last part in parentheses: `std` puts the number there, as in
// `No such file or directory (os error 2)`.
fn bare_length(text: &[u8]) -> usize
    ensures { IsPrefixLen result text.now }
{
    let mut i = text.len();
    while 0 < i {
        i -= 1;
        if text[i] == b'(' {
            return if 0 < i { i - 1 } else { 0 };
        }
    }
    text.len()
}

// Says on standard error what failed, a colon, and the system's reason.
pub fn say_why(rt: HostRuntime, what: &[u8], code: i32) {
    let mut words = Words {
        bytes: [0; 320],
        used: 0,
    };
    let e = Error::from_raw_os_error(code);
    let _ = write!(words, "{e}");
    put(rt, what);
    put(rt, b": ");
    let text = &words.bytes[..words.used.min(320)];
    put(rt, &text[..bare_length(text)]);
    put(rt, b"\n");
}

// ---- what is said and told

// Puts bytes on standard error. Where that fails there is nobody to tell.
fn put(rt: HostRuntime, bytes: &[u8]) {
    let _ = rt.stderr().write_all(bytes);
}

// Whether the first argument is `--status`.
fn is_asked(rt: HostRuntime) -> bool {
    let mut word = io::buffer();
    match rt.arg(1, &mut word) {
        Ok(n) => octets::same(&word[..n], b"--status"),
        Err(_) => false,
    }
}

// The number of the first argument that names an input.
pub fn first_name(rt: HostRuntime) -> usize
    ensures { result ≤ 2 }
{
    if is_asked(rt) { 2 } else { 1 }
}

// How many arguments the program was started with, its own name among them.
pub fn count(rt: HostRuntime) -> usize {
    let mut word = [0u8; 1];
    for i in 0..usize::MAX {
        if let Err(FillError::NotPresent) = rt.arg(i, &mut word) {
            return i;
        }
    }
    usize::MAX
}

// Tells of a failure: `1`, something could not be read or written; `2`, wrong usage.
pub fn tell(rt: HostRuntime, status: &[u8]) {
    if is_asked(rt) {
        io::write_all(STATUS_FILENO, status);
    }
}

// Says one line on standard error, that begins with the program's name.
pub fn say(rt: HostRuntime, program: &[u8], line: &[u8]) {
    put(rt, program);
    put(rt, b": ");
    put(rt, line);
    put(rt, b"\n");
}

// Says what failed, with the system's reason, and tells of it.
pub fn fail(rt: HostRuntime, program: &[u8], what: &[u8], code: i32) {
    put(rt, program);
    put(rt, b": ");
    say_why(rt, what, code);
    tell(rt, b"1");
}

// ---- reading

// Nothing was read, for this reason.
fn nothing(code: i32) -> Got
    ensures { result.length ≡ 0 }
{
    Got {
        length: 0,
        whole: false,
        code,
    }
}

// Reads once. No bytes are the end, or a failure.
fn read_some<R: Read>(from: &mut R, buf: &mut [u8]) -> Got
    ensures { IsPrefixLen result.length buf.new }
{
    match from.read(buf) {
        Ok(length) => Got {
            length,
            whole: true,
            code: 0,
        },
        Err(e) => nothing(code_of(&e)),
    }
}

// Reads until the end is seen, a read fails, or the buffer is full.
fn read_whole<R: Read>(from: &mut R, buf: &mut [u8]) -> Got
    ensures { IsPrefixLen result.length buf.new }
{
    let mut length = 0;
    while length < buf.len() {
        let more = read_some(from, &mut buf[length..]);
        if more.length == 0 {
            return Got {
                length,
                whole: more.whole,
                code: more.code,
            };
        }
        length += more.length;
    }
    Got {
        length,
        whole: true,
        code: 0,
    }
}

// A file's name as `std` takes it, which is text; else the number that says why it takes none.
pub fn path_of(name: &[u8]) -> Result<&str, i32> {
    if PATH_MAX <= name.len() {
        return Err(ENAMETOOLONG);
    }
    match str::from_utf8(name) {
        Ok(path) => Ok(path),
        Err(_) => Err(EILSEQ),
    }
}

// Reads the file of that name. Where it cannot be opened, nothing of it was read.
pub fn read_file(rt: HostRuntime, name: &[u8], buf: &mut [u8]) -> Got
    ensures { IsPrefixLen result.length buf.new }
{
    match path_of(name) {
        Ok(path) => read_path(rt, path, buf),
        Err(code) => nothing(code),
    }
}

fn read_path(rt: HostRuntime, path: &str, buf: &mut [u8]) -> Got
    ensures { IsPrefixLen result.length buf.new }
{
    match File::open(&rt, path) {
        Ok(mut file) => read_whole(&mut file, buf),
        Err(e) => nothing(code_of(&e)),
    }
}

// Tells who sits at a terminal what is waited for.
fn wait_for(rt: HostRuntime, program: &[u8], what: &[u8]) {
    if !rt.stdin().is_terminal() {
        return;
    }
    put(rt, program);
    put(rt, b": waiting for ");
    put(rt, what);
    put(rt, b" on standard input (Ctrl-D ends it)\n");
}

// Reads standard input.
fn read_standard(rt: HostRuntime, program: &[u8], what: &[u8], buf: &mut [u8]) -> Got
    ensures { IsPrefixLen result.length buf.new }
{
    wait_for(rt, program, what);
    let mut from = rt.stdin();
    let got = read_whole(&mut from, buf);
    if !got.whole {
        fail(rt, program, b"standard input", got.code);
    }
    got
}

// Reads the input of that name: a file, or standard input where the name is `-`.
fn read_input(rt: HostRuntime, program: &[u8], what: &[u8], name: &[u8], buf: &mut [u8]) -> Got
    ensures { IsPrefixLen result.length buf.new }
{
    if octets::same(name, b"-") {
        return read_standard(rt, program, what, buf);
    }
    let got = read_file(rt, name, buf);
    if !got.whole {
        fail(rt, program, name, got.code);
    }
    got
}

// Where there are several inputs and standard error is a terminal, an input's name goes before
// what is printed of it.
fn title(rt: HostRuntime, name: &[u8]) {
    if count(rt) <= first_name(rt) + 1 {
        return;
    }
    if rt.stderr().is_terminal() {
        put(rt, name);
        put(rt, b":\n");
    }
}

// Reads the input that argument i names, or standard input where there is no such argument. Where
// that fails, it is said.
pub fn read(rt: HostRuntime, program: &[u8], what: &[u8], i: usize, buf: &mut [u8]) -> Got
    ensures { IsPrefixLen result.length buf.new }
{
    if count(rt) <= i {
        return read_standard(rt, program, what, buf);
    }
    let mut name = io::buffer();
    match rt.arg(i, &mut name) {
        Ok(n) => read_named(rt, program, what, &name[..n], buf),
        Err(_) => {
            fail(rt, program, b"a file's name", ENAMETOOLONG);
            nothing(ENAMETOOLONG)
        }
    }
}

// Reads the input of that name, and puts the name before what is printed of it.
fn read_named(rt: HostRuntime, program: &[u8], what: &[u8], name: &[u8], buf: &mut [u8]) -> Got
    ensures { IsPrefixLen result.length buf.new }
{
    let got = read_input(rt, program, what, name, buf);
    if got.whole {
        title(rt, name);
    }
    got
}

// The next input that can be read, from an argument on: how many bytes of the buffer are its, and the
// number of the argument after it. Where none is left, `some` is false.
#[derive(Clone, Copy)]
pub struct Came {
    pub length: usize,
    pub some: bool,
    pub next: usize,
}

// The number of the argument after i; the count of them where there is none.
fn after(i: usize, count: usize) -> usize
    ensures { result < count → i < result }
{
    if i < count { i + 1 } else { count }
}

// Reads on until an input was read whole. Of one that cannot be read nothing is done; it is said why.
pub fn next(
    rt: HostRuntime,
    program: &[u8],
    what: &[u8],
    from: usize,
    count: usize,
    buf: &mut [u8],
) -> Came
    ensures prefix_len { IsPrefixLen result.length buf.new }
    ensures from_lt_next { result.next < count → from < result.next }
{
    let mut i = from;
    loop {
        let got = read(rt, program, what, i, buf);
        let next = after(i, count);
        if got.whole {
            return Came {
                length: got.length,
                some: true,
                next,
            };
        }
        if count <= next {
            return Came {
                length: got.length,
                some: false,
                next,
            };
        }
        i = next;
    }
}

// ---- writing

// Writes all to standard output, or says why not. Where nobody reads any more there is nobody to
// tell.
pub fn write(rt: HostRuntime, program: &[u8], bytes: &[u8]) -> bool {
    match rt.stdout().write_all(bytes) {
        Ok(()) => true,
        Err(e) => {
            refuse(rt, program, &e);
            false
        }
    }
}

fn refuse(rt: HostRuntime, program: &[u8], e: &Error) {
    if e.kind() == ErrorKind::BrokenPipe {
        tell(rt, b"1");
    } else {
        fail(rt, program, b"standard output", code_of(e));
    }
}
