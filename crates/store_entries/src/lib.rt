// The entries of the data store's book (section 11), one for each record: read, changed, and searched.
//
// A book goes in by value and comes back by value. Each function is total: past the end there is an
// entry of zeros, and a change there is none. A search is one walk over the entries: for a record, by its
// pointer or its key, or for the lowest pointer or slot that is free. The definitions and laws are room
// `book`'s.
#![tactic(auto)]

ghost use Rattle.std.specs.Prelude.{[], ◌≡◌, get_or, length, set, drop, take, ◌≤◌, true};
ghost use Rattle.book.specs.Book.{Shaped, book_of, entries_of, no_entry, no_kinds, pushed_of, Lawful, in_file, key_at, meant, pointers_of, slots_of};
ghost use Rattle.lists.specs.ByPlace.{cut, last, place};
ghost use Rattle.lists.specs.Least.{gap, least};

use book::{Book, Entry, Kind};

// ---- whole books

// A row of no file.
const NO_FILE: Kind = Kind {
    made: false,
    keymax: 0,
    recmax: 0,
};

// A book without files.
pub fn fresh() -> Book
    ensures { result ≡ book_of no_kinds [] }
{
    Book {
        kinds: [NO_FILE; 16],
        entries: [Entry::default(); 256],
        count: 0,
    }
}

// A book with the same files and no record.
pub fn emptied(b: Book) -> Book
    ensures { result ≡ book_of b.kinds [] }
{
    let kinds = b.kinds;
    Book {
        kinds,
        entries: [Entry::default(); 256],
        count: 0,
    }
}

// ---- entries

// How many records are held.
pub fn held(b: Book) -> usize
    requires { Shaped b }
    ensures { result ≡ length (entries_of b) }
{
    b.count
}

pub fn entry_at(b: Book, at: usize) -> Entry
    requires { Shaped b }
    ensures { result ≡ get_or (entries_of b) at no_entry }
{
    if at < b.count {
        return b.entries[at];
    }
    Entry::default()
}

// One entry more, where there is room.
pub fn pushed(b: Book, x: Entry) -> Book
    requires { Shaped b }
    ensures { result ≡ pushed_of b x }
{
    let n = b.count;
    if 256 <= n {
        return b;
    }
    let mut next = b;
    next.entries[n] = x;
    next.count = n + 1;
    next
}

// The entries behind a place move down, and the last place is freed.
pub fn removed(b: Book, at: usize) -> Book
    requires { Shaped b }
    ensures { result ≡ book_of b.kinds (cut (entries_of b) at) }
{
    let n = b.count;
    if n <= at {
        return b;
    }
    let mut next = b;
    next.entries.copy_within(at + 1..n, at);
    next.entries[n - 1] = Entry::default();
    next.count = n - 1;
    next
}

// Another entry at a place.
pub fn renewed(b: Book, at: usize, x: Entry) -> Book
    requires { Shaped b }
    ensures { result ≡ book_of b.kinds (set (entries_of b) at x) }
{
    if b.count <= at {
        return b;
    }
    let mut next = b;
    next.entries[at] = x;
    next
}

// ---- searches

// Whether an entry is of file f and has pointer p; '0000' is any.
fn is_meant(x: Entry, f: u16, p: u16) -> bool
    ensures { result ≡ meant f p x }
{
    x.file == f && (p == 0 || x.pointer == p)
}

// The first entry from a place on that is of file f and has pointer p.
pub fn first_from(b: Book, from: usize, f: u16, p: u16) -> Option<usize>
    requires { Shaped b }
    ensures { result ≡ place (meant f p) from (drop from (entries_of b)) }
{
    for i in from..b.count {
        if is_meant(b.entries[i], f, p) {
            return Some(i);
        }
    }
    None
}

// The last entry of file f before a place.
pub fn last_before(b: Book, end: usize, f: u16) -> Option<usize>
    requires { Shaped b }
    ensures { result ≡ last (in_file f) (take end (entries_of b)) }
{
    for i in (0..end.min(b.count)).rev() {
        if b.entries[i].file == f {
            return Some(i);
        }
    }
    None
}

// Whether an entry is of file f and its key is this one.
fn key_is(area: &[u8], x: Entry, f: u16, key: &[u8]) -> bool
    requires { (length area.now ≡ 98048) × (x.slot ≤ 255) × (x.keylen ≤ 255) }
    ensures { result ≡ key_at area.now f key.now x }
{
    x.file == f && slots::has_key(area, x.slot, x.keylen, key)
}

// The first entry from a place on that is of file f and has this key.
pub fn with_key(b: Book, area: &[u8], from: usize, f: u16, key: &[u8]) -> Option<usize>
    requires { Lawful b area.now }
    ensures { result ≡ place (key_at area.now f key.now) from (drop from (entries_of b)) }
{
    for i in from..b.count {
        if key_is(area, b.entries[i], f, key) {
            return Some(i);
        }
    }
    None
}

// ---- free numbers

// The lowest number from a first one on that is not marked, of 256.
fn lowest_unset(used: &[bool; 257], from: u16) -> u16
    requires { from ≤ 1 }
    ensures { result ≡ gap from used.now }
{
    for number in from..from + 256 {
        if !used[usize::from(number)] {
            return number;
        }
    }
    from + 256
}

// Marks a number, where there is room for it.
fn mark(used: &mut [bool; 257], number: u16)
    ensures { used.new ≡ set used.old number true }
{
    let place = usize::from(number);
    if place < used.len() {
        used[place] = true;
    }
}

// The lowest slot that no entry has.
pub fn free_slot(b: Book) -> u16
    requires { Shaped b }
    ensures { result ≡ least 0 (slots_of (entries_of b)) }
{
    let mut used = [false; 257];
    for x in &b.entries[..b.count] {
        mark(&mut used, x.slot);
    }
    lowest_unset(&used, 0)
}

// Whether an entry is a record of this file.
fn is_of(entry: Entry, f: u16) -> bool
    ensures { result ≡ in_file f entry }
{
    entry.file == f
}

// The lowest pointer that no entry of file f has.
pub fn free_pointer(b: Book, f: u16) -> u16
    requires { Shaped b }
    ensures { result ≡ least 1 (pointers_of f (entries_of b)) }
{
    let mut used = [false; 257];
    for x in &b.entries[..b.count] {
        if is_of(*x, f) {
            mark(&mut used, x.pointer);
        }
    }
    lowest_unset(&used, 1)
}
