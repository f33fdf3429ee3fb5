// What the data store shows (section 11): Get and Find, which change nothing.
//
// Get goes by a pointer and an orientation, Find by a key. The answer is the record's place in the
// book, and the pointer that the response carries; or else the response code, which is the number that
// the response carries (room tapa names them). That this is what the command shows of a plain list of
// files is one theorem each: proofs/Sights.antt.
//
// Get walks the entries once: the look for the next record goes on from the place where the record
// was found, and that for the previous one goes back from there.
#![tactic(auto)]

ghost use Rattle.std.specs.Prelude.{◌<◌, ◌≡◌, cond, ltb};
ghost use Rattle.book.specs.Book.{Lawful, Shaped, entries_of, pointer_at};
ghost use Rattle.files.specs.Files.{nextward};
ghost use Rattle.sights.specs.Sights.{find_of, get_of, other_at, seek_at};
ghost use Rattle.tapa.specs.Codes.{file_seek_error, invalid_record_pointer};

use book::Book;

// A record's place in the book, and a pointer: the next or the previous one's, or its own.
#[derive(Clone, Copy)]
pub struct Got {
    pub at: usize,
    pub other: u16,
}

// ---- Get

fn pointer_at(b: Book, at: Option<usize>) -> u16
    requires { Shaped b }
    ensures { result ≡ pointer_at (entries_of b) at }
{
    match at {
        Some(i) => store_entries::entry_at(b, i).pointer,
        None => 0,
    }
}

fn is_nextward(o: u8) -> bool
    ensures { result ≡ nextward o }
{
    o == 0 || o == 2
}

// The pointer of the next record of the file, or of the previous one.
fn other_pointer(b: Book, f: u16, o: u8, i: usize) -> u16
    requires shaped { Shaped b }
    requires i_bound { i < 256 }
    ensures { result ≡ other_at o f (entries_of b) i }
{
    if is_nextward(o) {
        let z = store_entries::first_from(b, i + 1, f, 0);
        return pointer_at(b, z);
    }
    let z = store_entries::last_before(b, i, f);
    pointer_at(b, z)
}

// The entry that a pointer and an orientation name.
fn seek(b: Book, f: u16, p: u16, o: u8) -> Option<usize>
    requires { Shaped b }
    ensures { result ≡ seek_at o f p (entries_of b) }
{
    if o < 2 {
        if p == 0 {
            return None;
        }
        return store_entries::first_from(b, 0, f, p);
    }
    if o == 2 {
        return store_entries::first_from(b, 0, f, 0);
    }
    store_entries::last_before(b, store_entries::held(b), f)
}

// The code of a Get that finds no record.
fn missing(o: u8) -> u16
    ensures { result ≡ cond (ltb o 2) invalid_record_pointer file_seek_error }
{
    if o < 2 {
        tapa::INVALID_RECORD_POINTER
    } else {
        tapa::FILE_SEEK_ERROR
    }
}

// The orientation is the wire's byte: `get_of` answers each of the 256, and an enum would take four.
pub fn get(b: Book, f: u16, p: u16, o: u8) -> Result<Got, u16>
    requires { Shaped b }
    ensures { result ≡ get_of b f p o }
{
    if !store_kinds::kind_of(b, f).made {
        return Err(tapa::INVALID_FILE_ID);
    }
    let at = seek(b, f, p, o).ok_or(missing(o))?;
    let other = other_pointer(b, f, o, at);
    Ok(Got { at, other })
}

// ---- Find

pub fn find(b: Book, area: &[u8], f: u16, key: &[u8]) -> Result<Got, u16>
    requires { Lawful b area.now }
    ensures { result ≡ find_of b area.now f key.now }
{
    let k = store_kinds::kind_of(b, f);
    if !k.made {
        return Err(tapa::INVALID_FILE_ID);
    }
    if usize::from(k.keymax) < key.len() {
        return Err(tapa::SEARCH_KEY_TOO_LARGE);
    }
    let at = store_entries::with_key(b, area, 0, f, key).ok_or(tapa::FILE_SEEK_ERROR)?;
    let other = store_entries::entry_at(b, at).pointer;
    Ok(Got { at, other })
}
