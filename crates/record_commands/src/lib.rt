// The data store's commands that change records (section 11): Add, Update, Delete, Find and Delete.
//
// Each takes the book by value and the lent area, and answers the next book. What both then are is said in
// specs/Records.antt; a command that fails answers its response code, the number that goes on the wire, and
// they are as they were. That this is what the command does to a plain list of files is one theorem a
// command, in proofs/: Adds, Updates, Deletes. Nothing of a deleted record stays in the area, and nothing of
// what an Update replaced: proofs/Leaks.antt. That there is room exactly while fewer than 256 records are
// held: Adds, `room-add`.
//
// A command looks first at all that can fail; then it writes or wipes one slot. Add and Update walk the
// entries once for the record and once for the key, and Add once each for the free pointer and for the
// free slot.
#![tactic(auto)]

ghost use Rattle.std.specs.Prelude.{◌%◌, ◌<◌, ◌≡◌, length};
ghost use Rattle.book.specs.Book.{Lawful, entries_of};
ghost use Rattle.files.specs.Coded.{passing};
ghost use Rattle.lists.specs.ByPlace.{is_at};
ghost use Rattle.record_commands.specs.Records.{add_area, add_of, asked_code, code_of_add, twin_at, update_area, update_of, update_seen, delete_area, delete_of, erased_area, erased_book, find_delete_area, find_delete_of};

use book::{Book, Entry, Kind};
use sights::Got;

// The record's pointer, and the book with it.
#[derive(Clone, Copy)]
pub struct Added {
    pub pointer: u16,
    pub next: Book,
}

// ---- what Add and Update need

// The length of a key or of data in an entry; the law bounds it.
fn short(n: usize) -> u16
    ensures { result ≡ n % 65536 }
{
    (n % 65536) as u16
}

// What Add and Update look at first: the file, and the two lengths.
fn asked_code(k: Kind, key: &[u8], bytes: &[u8]) -> Result<(), u16>
    ensures { result ≡ passing (asked_code k key.now bytes.now) }
{
    if !k.made {
        return Err(tapa::INVALID_FILE_ID);
    }
    if usize::from(k.recmax) < bytes.len() {
        return Err(tapa::RECORD_TOO_LARGE);
    }
    if usize::from(k.keymax) < key.len() {
        return Err(tapa::SEARCH_KEY_TOO_LARGE);
    }
    Ok(())
}

// ---- Add

// What an Add looks at: then the key, and at last the room.
fn add_code(b: Book, area: &[u8], f: u16, key: &[u8], bytes: &[u8]) -> Result<(), u16>
    requires { Lawful b area.now }
    ensures { result ≡ passing (code_of_add b area.now f key.now bytes.now) }
{
    let k = store_kinds::kind_of(b, f);
    asked_code(k, key, bytes)?;
    if 0 < k.keymax && store_entries::with_key(b, area, 0, f, key).is_some() {
        return Err(tapa::SEARCH_KEY_EXISTING);
    }
    if 256 <= store_entries::held(b) {
        return Err(tapa::INSUFFICIENT_RESOURCES);
    }
    Ok(())
}

pub fn add(b: Book, area: &mut [u8], f: u16, key: &[u8], bytes: &[u8]) -> Result<Added, u16>
    requires { Lawful b area.old }
    ensures { (result ≡ add_of b area.old f key.now bytes.now) × (area.new ≡ add_area b area.old f key.now bytes.now) }
{
    add_code(b, area, f, key, bytes)?;
    let pointer = store_entries::free_pointer(b, f);
    let slot = store_entries::free_slot(b);
    slots::write(area, slot, key, bytes);
    let x = Entry {
        file: f,
        pointer,
        slot,
        keylen: short(key.len()),
        len: short(bytes.len()),
    };
    let next = store_entries::pushed(b, x);
    Ok(Added { pointer, next })
}

// ---- Update

// Whether another entry than the one at a place has this key, in a file with keys.
fn has_twin(b: Book, area: &[u8], f: u16, key: &[u8], keymax: u16, at: usize) -> bool
    requires lawful { Lawful b area.now }
    requires at_bound { at < 256 }
    ensures { result ≡ twin_at b area.now f key.now keymax at }
{
    if keymax == 0 {
        return false;
    }
    match store_entries::with_key(b, area, 0, f, key) {
        Some(i) if i == at => store_entries::with_key(b, area, at + 1, f, key).is_some(),
        Some(_) => true,
        None => false,
    }
}

// The place of an Update's record, and the record's pointer.
fn update_seen(b: Book, area: &[u8], f: u16, p: u16, key: &[u8], bytes: &[u8]) -> Result<Got, u16>
    requires { Lawful b area.now }
    ensures { result ≡ update_seen b area.now f p key.now bytes.now }
{
    let k = store_kinds::kind_of(b, f);
    asked_code(k, key, bytes)?;
    let at = store_entries::first_from(b, 0, f, p).ok_or(tapa::INVALID_RECORD_POINTER)?;
    if has_twin(b, area, f, key, k.keymax, at) {
        return Err(tapa::SEARCH_KEY_EXISTING);
    }
    let other = store_entries::entry_at(b, at).pointer;
    Ok(Got { at, other })
}

pub fn update(
    b: Book,
    area: &mut [u8],
    f: u16,
    p: u16,
    key: &[u8],
    bytes: &[u8],
) -> Result<Added, u16>
    requires { Lawful b area.old }
    ensures { (result ≡ update_of b area.old f p key.now bytes.now) × (area.new ≡ update_area b area.old f p key.now bytes.now) }
{
    let seen = update_seen(b, area, f, p, key, bytes)?;
    let x = store_entries::entry_at(b, seen.at);
    slots::write(area, x.slot, key, bytes);
    let y = Entry {
        keylen: short(key.len()),
        len: short(bytes.len()),
        ..x
    };
    let next = store_entries::renewed(b, seen.at, y);
    Ok(Added {
        pointer: seen.other,
        next,
    })
}

// ---- Delete, and Find and Delete

// The record at a place goes, and its slot is wiped.
fn erased(b: Book, area: &mut [u8], at: usize) -> Book
    requires lawful { Lawful b area.old }
    requires at_in_bounds { at < length (entries_of b) }
    ensures { (result ≡ erased_book b at) × (area.new ≡ erased_area b area.old at) }
{
    let x = store_entries::entry_at(b, at);
    slots::wipe(area, x.slot);
    store_entries::removed(b, at)
}

pub fn delete(b: Book, area: &mut [u8], f: u16, p: u16) -> Result<Book, u16>
    requires { Lawful b area.old }
    ensures { (result ≡ delete_of b f p) × (area.new ≡ delete_area b area.old f p) }
{
    if !store_kinds::kind_of(b, f).made {
        return Err(tapa::INVALID_FILE_ID);
    }
    let at = store_entries::first_from(b, 0, f, p).ok_or(tapa::INVALID_RECORD_POINTER)?;
    Ok(erased(b, area, at))
}

pub fn find_delete(b: Book, area: &mut [u8], f: u16, key: &[u8]) -> Result<Book, u16>
    requires { Lawful b area.old }
    ensures { (result ≡ find_delete_of b area.old f key.now) × (area.new ≡ find_delete_area b area.old f key.now) }
{
    let found = sights::find(b, area, f, key)?;
    Ok(erased(b, area, found.at))
}
