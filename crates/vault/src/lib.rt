// The vault: a file that is whole or not there, and one program at a time at work on it.
//
// `write` has the bytes on the disk in a new file before that file gets the old one's name. So
// whoever looks finds the old bytes or the new ones and never a part of them, also where the
// program was killed or the machine went dark.
//
// The lock of the file NAME is the file NAME.lock. Who wants it adds a line, with its process's
// number and the machine's boot; the system adds one line behind the other. The first line whose
// process lives has the lock, and removes the file at its end. So no two have it, it is never half
// made, and a program that was killed keeps nobody out: its line is passed over, and so is one of
// an earlier boot. The new file is NAME.new.N, with the process's number: who has the lock next
// finds in the lines what was left lying, and removes it.
//
// What fails is answered and not said, with the system's number of the reason. No contract can say
// what is read or written, so those here speak of lengths only.
#![tactic(auto)]

ghost use Rattle.std.specs.Prelude.{◌<◌, ◌≤◌, length};
ghost use Rattle.io.specs.Counts.{IsPrefixLen};

use inputs::ENOENT;
use std::fs::{File, OpenOptions};
use std::io::{Error, ErrorKind, Write};
use std::{fs, process};

// Whether a lock is ours, or another's: then the number of its process, or 0 where it is no lock. It
// is neither where it cannot be made or read: then the system's number says why. And whether it was
// read, and has no other's line.
#[derive(Clone, Copy)]
pub struct Lock {
    pub ours: bool,
    pub busy: bool,
    pub process: usize,
    pub code: i32,
    alone: bool,
}

// The bytes are on the disk; the lock is not ours, and nothing was written; the write failed, and
// the file is as it was; or it has its new bytes, and whether the disk has them is not known. The
// last two with the system's number of the reason.
#[derive(Clone, Copy)]
pub enum Kept {
    Whole,
    Lost,
    Failed(i32),
    Unsure(i32),
}

// ---- names

// A length, as far as there is room. A name that fills its buffer has no room for a path's end, so
// the system refuses it.
fn fit(n: usize, name: &[u8]) -> usize
    ensures { IsPrefixLen result name.now }
{
    if n < name.len() { n } else { name.len() }
}

// Bytes behind a name.
fn put(name: &mut [u8], at: usize, bytes: &[u8]) -> usize
    ensures { IsPrefixLen result name.new }
{
    let n = text::put_all(name, at, bytes);
    fit(n, name)
}

fn put_number(name: &mut [u8], at: usize, number: usize) -> usize
    ensures { IsPrefixLen result name.new }
{
    let n = text::put_decimal(name, at, number);
    fit(n, name)
}

fn lock_name(path: &[u8], name: &mut [u8]) -> usize
    ensures { IsPrefixLen result name.new }
{
    let n = put(name, 0, path);
    put(name, n, b".lock")
}

// The name of the new file of a process.
fn new_name(path: &[u8], process: usize, name: &mut [u8]) -> usize
    ensures { IsPrefixLen result name.new }
{
    let n = put(name, 0, path);
    let m = put(name, n, b".new.");
    put_number(name, m, process)
}

// How long the part of a path is that names its folder, its last `/` included.
fn folder_length(path: &[u8]) -> usize
    ensures { IsPrefixLen result path.now }
{
    let mut n = 0;
    let mut i = 0;
    while i < path.len() {
        if path[i] == b'/' {
            n = i + 1;
        }
        i += 1;
    }
    n
}

// Opens the folder that a file stands in; else the system's number says why not.
fn open_folder(rt: HostRuntime, path: &[u8]) -> Result<File, i32> {
    let n = folder_length(path);
    if n == 0 {
        return open_read(rt, b".");
    }
    open_read(rt, &path[..n])
}

fn open_read(rt: HostRuntime, name: &[u8]) -> Result<File, i32> {
    match inputs::path_of(name) {
        Ok(path) => coded(File::open(&rt, path)),
        Err(code) => Err(code),
    }
}

// An open file; else the system's number of the error.
fn coded(opened: Result<File, Error>) -> Result<File, i32> {
    match opened {
        Ok(file) => Ok(file),
        Err(e) => Err(inputs::code_of(&e)),
    }
}

// Whether a file is a symbolic link. To give a new file its name would replace the link.
pub fn is_link(rt: HostRuntime, path: &[u8]) -> bool {
    match inputs::path_of(path) {
        Ok(name) => is_link_at(rt, name),
        Err(_) => false,
    }
}

fn is_link_at(rt: HostRuntime, path: &str) -> bool {
    match fs::symlink_metadata(&rt, path) {
        Ok(found) => found.is_symlink(),
        Err(_) => false,
    }
}

// ---- a line of the lock

// The number of this process.
fn process(rt: HostRuntime) -> usize {
    process::id(rt.process()) as usize
}

// The machine's boot, behind a line; nothing where it cannot be read.
fn put_boot(rt: HostRuntime, line: &mut [u8], at: usize) -> usize
    ensures { IsPrefixLen result line.new }
{
    let mut id = [0u8; 36];
    let got = inputs::read_file(rt, b"/proc/sys/kernel/random/boot_id", &mut id);
    let n = got.length;
    put(line, at, &id[..n])
}

// The line of this process, without its end.
fn own_line(rt: HostRuntime, line: &mut [u8]) -> usize
    ensures { IsPrefixLen result line.new }
{
    let n = put_number(line, 0, process(rt));
    let m = put(line, n, b" ");
    put_boot(rt, line, m)
}

// A digit's value; 10 where it is none.
fn digit(c: u8) -> usize
    ensures { result ≤ 10 }
{
    if c < b'0' {
        return 10;
    }
    if b'9' < c {
        return 10;
    }
    (c - b'0') as usize
}

// The number that a line begins with, as far as it has nine digits; 0 where there is none.
fn number(line: &[u8]) -> usize
    ensures { result < 1000000000 }
{
    let mut n = 0;
    let mut i = 0;
    while i < line.len() {
        let d = digit(line[i]);
        if 9 < d {
            return n;
        }
        if 99999999 < n {
            return n;
        }
        n = n * 10 + d;
        i += 1;
    }
    n
}

// Where a byte stands first, from a place on; the length where it does not.
fn find(text: &[u8], from: usize, byte: u8) -> usize
    requires { from ≤ length text.now }
    ensures lower_bound { from ≤ result }
    ensures upper_bound { result ≤ length text.now }
{
    let mut i = from;
    while i < text.len() {
        if text[i] == byte {
            return i;
        }
        i += 1;
    }
    i
}

// What stands in a line from its first space on.
fn boot(line: &[u8]) -> &[u8] {
    let at = find(line, 0, b' ');
    &line[at..]
}

// Whether two lines are of two boots. One without its boot is of any.
fn is_of_another_boot(line: &[u8], own: &[u8]) -> bool {
    let theirs = boot(line);
    let ours = boot(own);
    if theirs.len() < 2 || ours.len() < 2 {
        return false;
    }
    !octets::same(theirs, ours)
}

// Whether /proc has no process of that number.
fn is_missing(rt: HostRuntime, process: usize) -> bool {
    let mut name = [0u8; 32];
    let n = put(&mut name, 0, b"/proc/");
    let m = put_number(&mut name, n, process);
    match inputs::path_of(&name[..m]) {
        Ok(path) => is_missing_at(rt, path),
        Err(_) => false,
    }
}

fn is_missing_at(rt: HostRuntime, path: &str) -> bool {
    match fs::symlink_metadata(&rt, path) {
        Ok(_) => false,
        Err(e) => e.kind() == ErrorKind::NotFound,
    }
}

// Whether /proc tells of the processes that these numbers are of: it has this one under its own
// number, and does not hide the first, as it may those of other users.
fn is_told(rt: HostRuntime) -> bool {
    let mut words = [0u8; 16];
    let got = inputs::read_file(rt, b"/proc/self/stat", &mut words);
    let n = got.length;
    number(&words[..n]) == process(rt) && !is_missing(rt, 1)
}

// Whether it is known that no process has this number.
fn is_gone(rt: HostRuntime, process: usize) -> bool {
    is_missing(rt, process) && is_told(rt)
}

// The number of a line's process where it lives, else 0. This process has our line and no other:
// another with its number is of one that is gone.
fn living(rt: HostRuntime, line: &[u8], own: &[u8]) -> usize {
    let n = number(line);
    if n == 0 || n == number(own) {
        return 0;
    }
    if is_of_another_boot(line, own) {
        return 0;
    }
    if is_gone(rt, n) {
        return 0;
    }
    n
}

// Whether a line has our process's number, or none.
fn is_ours_or_none(line: &[u8], own: &[u8]) -> bool {
    let n = number(line);
    n == 0 || n == number(own)
}

// ---- the lock

// Whose the lock is by its lines: the first's whose process lives. Our line counts where it stands
// last: an equal one before it is that of a process that is gone. Where it is nobody's, our line is
// not there.
fn judge(rt: HostRuntime, text: &[u8], own: &[u8]) -> Lock {
    let mut ours = false;
    let mut alone = true;
    let mut other = 0;
    let mut i = 0;
    while i < text.len() {
        let end = find(text, i, b'\n');
        if octets::same(&text[i..end], own) {
            ours = other == 0;
        } else if other == 0 {
            other = living(rt, &text[i..end], own);
        }
        alone = alone && is_ours_or_none(&text[i..end], own);
        i = end + 1;
    }
    Lock {
        ours,
        busy: !ours && 0 < other,
        process: other,
        code: ENOENT,
        alone,
    }
}

fn nobodys(code: i32) -> Lock {
    Lock {
        ours: false,
        busy: false,
        process: 0,
        code,
        alone: false,
    }
}

// Whether a byte can stand in a lock: one of its lines', or a zero, as a loss of power may leave it.
fn is_mark(c: u8) -> bool {
    if digit(c) < 10 {
        return true;
    }
    if b'a' <= c && c <= b'f' {
        return true;
    }
    c == b'-' || c == b' ' || c == b'\n' || c == 0
}

// Whether a file may be a lock, and is no other that happens to have its name.
fn is_lock(text: &[u8]) -> bool {
    let mut i = 0;
    while i < text.len() {
        if !is_mark(text[i]) {
            return false;
        }
        i += 1;
    }
    true
}

// Whose a lock is. It is nobody's where it cannot be read. A file that is no lock, or is too long for
// one, is somebody's: nothing is done to it.
fn owner(rt: HostRuntime, lock: &[u8], own: &[u8]) -> Lock {
    let mut lines = io::buffer();
    let got = inputs::read_file(rt, lock, &mut lines);
    let n = got.length;
    if !got.whole {
        return nobodys(got.code);
    }
    if n < 4096 && is_lock(&lines[..n]) {
        return judge(rt, &lines[..n], own);
    }
    Lock {
        ours: false,
        busy: true,
        process: 0,
        code: 0,
        alone: false,
    }
}

// Opens a file to add to its end.
fn open_append(rt: HostRuntime, path: &str) -> Result<File, Error> {
    OpenOptions::new().append(true).open(&rt, path)
}

// Makes a file to write to, where none has its name.
fn create(rt: HostRuntime, path: &str) -> Result<File, Error> {
    OpenOptions::new()
        .write(true)
        .create_new(true)
        .open(&rt, path)
}

// Opens a lock to add a line, and makes it where there is none.
fn open_lock(rt: HostRuntime, lock: &str) -> Result<File, Error> {
    match open_append(rt, lock) {
        Ok(file) => return Ok(file),
        Err(e) => {
            if e.kind() != ErrorKind::NotFound {
                return Err(e);
            }
        }
    }
    match create(rt, lock) {
        Ok(_) => {}
        Err(e) => {
            if e.kind() != ErrorKind::AlreadyExists {
                return Err(e);
            }
        }
    }
    open_append(rt, lock)
}

// Writes all to a file and has it on the disk.
fn fill(file: &mut File, bytes: &[u8]) -> Result<(), Error> {
    file.write_all(bytes)?;
    file.sync_all()
}

// A line as it is added: behind a line's end, since one before it may have been cut off.
fn put_line(own: &[u8], entry: &mut [u8]) -> usize
    ensures { IsPrefixLen result entry.new }
{
    let a = put(entry, 0, b"\n");
    let b = put(entry, a, own);
    put(entry, b, b"\n")
}

// Adds our line to a lock, at once; else the system's number says why not. That the disk has it too is
// for what a loss of power leaves lying; the lock does without.
fn enlist(rt: HostRuntime, lock: &[u8], own: &[u8]) -> Result<(), i32> {
    let path = inputs::path_of(lock)?;
    let mut file = coded(open_lock(rt, path))?;
    let mut entry = [0u8; 128];
    let n = put_line(own, &mut entry);
    let written = file.write_all(&entry[..n]);
    let _ = file.sync_all();
    done(written)
}

// All right; else the system's number of the error.
fn done(did: Result<(), Error>) -> Result<(), i32> {
    match did {
        Ok(()) => Ok(()),
        Err(e) => Err(inputs::code_of(&e)),
    }
}

// Takes a lock, unless it is another's.
fn take_once(rt: HostRuntime, lock: &[u8], own: &[u8]) -> Lock {
    let seen = owner(rt, lock, own);
    if seen.busy {
        return seen;
    }
    match enlist(rt, lock, own) {
        Ok(()) => owner(rt, lock, own),
        Err(code) => nobodys(code),
    }
}

// Who had the lock may have removed it, with our line, just as we came: then once more.
fn take_lock(rt: HostRuntime, lock: &[u8], own: &[u8]) -> Lock {
    let mut tries: usize = 0;
    while tries < 8 {
        let got = take_once(rt, lock, own);
        if got.ours || got.busy || got.code != ENOENT {
            return got;
        }
        tries += 1;
    }
    nobodys(ENOENT)
}

fn remove(rt: HostRuntime, name: &[u8]) {
    if let Ok(path) = inputs::path_of(name) {
        let _ = fs::remove_file(&rt, path);
    }
}

// Removes the new file of a process.
fn remove_new(rt: HostRuntime, path: &[u8], process: usize) {
    let mut name = io::buffer();
    let n = new_name(path, process, &mut name);
    remove(rt, &name[..n]);
}

// Removes the new files of the processes that have lines.
fn sweep(rt: HostRuntime, path: &[u8], lines: &[u8]) {
    let mut i = 0;
    while i < lines.len() {
        let end = find(lines, i, b'\n');
        let process = number(&lines[i..end]);
        if 0 < process {
            remove_new(rt, path, process);
        }
        i = end + 1;
    }
}

// Removes what was left lying by programs that are gone, and then their lines. With that the folder
// is on the disk: what they wrote last is, before anything is told of it.
fn tidy(rt: HostRuntime, path: &[u8], lock: &[u8], own: &[u8]) {
    let mut lines = io::buffer();
    let got = inputs::read_file(rt, lock, &mut lines);
    let n = got.length;
    sweep(rt, path, &lines[..n]);
    let mut entry = [0u8; 128];
    let m = put_line(own, &mut entry);
    if m < n {
        let mut name = io::buffer();
        let k = new_name(path, process(rt), &mut name);
        replace(rt, &name[..k], lock, &entry[..m]);
    }
}

// Takes the lock of a file. Where it is neither ours nor another's, its number says why.
pub fn take(rt: HostRuntime, path: &[u8]) -> Lock {
    let mut line = [0u8; 64];
    let n = own_line(rt, &mut line);
    let mut name = io::buffer();
    let m = lock_name(path, &mut name);
    let lock = take_lock(rt, &name[..m], &line[..n]);
    if lock.ours {
        tidy(rt, path, &name[..m], &line[..n]);
    }
    lock
}

// Whose the lock of a file is.
fn owner_of(rt: HostRuntime, path: &[u8]) -> Lock {
    let mut line = [0u8; 64];
    let n = own_line(rt, &mut line);
    let mut name = io::buffer();
    let m = lock_name(path, &mut name);
    owner(rt, &name[..m], &line[..n])
}

// Gives the lock of a file back. Where it could not be made, on a full disk, a file without a line
// may be left, which is removed too.
pub fn free(rt: HostRuntime, path: &[u8]) {
    let lock = owner_of(rt, path);
    if lock.ours || lock.alone {
        let mut name = io::buffer();
        let n = lock_name(path, &mut name);
        remove(rt, &name[..n]);
    }
}

// ---- the file

// Puts the bytes into a new file on the disk, and gives it another file's name. Where that fails
// there is no new file, and the other is as it was; the system's number says why.
fn put_in_place(rt: HostRuntime, new: &[u8], path: &[u8], bytes: &[u8]) -> Result<(), i32> {
    let from = inputs::path_of(new)?;
    let to = inputs::path_of(path)?;
    let mut file = coded(create(rt, from))?;
    let named = fill_and_name(rt, &mut file, from, to, bytes);
    if named.is_err() {
        remove(rt, new);
    }
    done(named)
}

fn fill_and_name(
    rt: HostRuntime,
    file: &mut File,
    new: &str,
    path: &str,
    bytes: &[u8],
) -> Result<(), Error> {
    fill(file, bytes)?;
    fs::rename(&rt, new, path)
}

// The same, and then the name is on the disk too.
fn replace(rt: HostRuntime, new: &[u8], path: &[u8], bytes: &[u8]) -> Kept {
    match open_folder(rt, path) {
        Ok(folder) => replace_in(rt, &folder, new, path, bytes),
        Err(code) => Kept::Failed(code),
    }
}

fn replace_in(rt: HostRuntime, folder: &File, new: &[u8], path: &[u8], bytes: &[u8]) -> Kept {
    match put_in_place(rt, new, path, bytes) {
        Ok(()) => synced(folder),
        Err(code) => Kept::Failed(code),
    }
}

fn synced(folder: &File) -> Kept {
    match folder.sync_all() {
        Ok(()) => Kept::Whole,
        Err(e) => Kept::Unsure(inputs::code_of(&e)),
    }
}

// The bytes, on the disk under this name; or that file as it was. The lock must be ours.
pub fn write(rt: HostRuntime, path: &[u8], bytes: &[u8]) -> Kept {
    let lock = owner_of(rt, path);
    if !lock.ours {
        return Kept::Lost;
    }
    let mut name = io::buffer();
    let n = new_name(path, process(rt), &mut name);
    replace(rt, &name[..n], path, bytes)
}
