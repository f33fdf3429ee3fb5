// The data store's commands on files (section 11): Create, Delete File, Clear.
//
// Each takes the book by value and answers the next book; where records go, the lent area's slots that
// they had are wiped. A command that fails answers its response code, and book and area are as they were. That this is what the command does to a plain list of files is one theorem a command,
// in proofs/: Creates, Erases. Identifiers has which ones are given and when there is room, Leaks
// that nothing of what went is left in the area.
//
// Delete File and Clear are one walk over the entries, however many files and records go: the files'
// rows are taken out of the table, and then every entry whose file is not made goes.
#![tactic(auto)]

ghost use Rattle.std.specs.Prelude.{◌≡◌};
ghost use Rattle.book.specs.Book.{Lawful, Shaped, entries_of};
ghost use Rattle.file_commands.specs.Erasing.{clear_area, clear_of, code_of_create, create_of, delete_files_area, delete_files_of, left_of, swept_area, swept_book};
ghost use Rattle.files.specs.Asked.{ids_of};
ghost use Rattle.files.specs.Coded.{passing};

use book::{Book, Kind};

// The identifiers of the new files before zeros, and the book with them.
#[derive(Clone, Copy)]
pub struct Made {
    pub ids: [u16; 16],
    pub next: Book,
}

// ---- Create

// What a Create looks at: its shape, then the room.
fn create_code(b: Book, n: u8, recmax: u16) -> Result<(), u16>
    requires { Shaped b }
    ensures { result ≡ passing (code_of_create b n recmax) }
{
    if n == 0 || 16 < n || 128 < recmax {
        return Err(tapa::UNSUPPORTED_OPERATION);
    }
    if 16 < store_kinds::files_held(b) + usize::from(n) {
        return Err(tapa::INSUFFICIENT_RESOURCES);
    }
    Ok(())
}

pub fn create(b: Book, n: u8, keymax: u8, recmax: u16) -> Result<Made, u16>
    requires { Shaped b }
    ensures { result ≡ create_of b n keymax recmax }
{
    create_code(b, n, recmax)?;
    let mut ids = [0u16; 16];
    let mut next = b;
    for i in 0..usize::from(n) {
        let one = store_kinds::with_file(next, u16::from(keymax), recmax);
        ids[i] = one.id;
        next = one.next;
    }
    Ok(Made { ids, next })
}

// ---- Delete File and Clear

// The book without the entries whose file is not made; their slots are wiped.
fn swept(b: Book, area: &mut [u8]) -> Book
    requires { Shaped b }
    ensures { (result ≡ swept_book b) × (area.new ≡ swept_area b.kinds (entries_of b) area.old) }
{
    let mut next = store_entries::emptied(b);
    for i in 0..store_entries::held(b) {
        let x = store_entries::entry_at(b, i);
        if store_kinds::kind_of(b, x.file).made {
            next = store_entries::pushed(next, x);
        } else {
            slots::wipe(area, x.slot);
        }
    }
    next
}

// The book without the rows of the files that the words of a list name; none where one is unknown when its
// turn comes.
fn left_of(b: Book, ids: &[u8]) -> Option<Book>
    requires { Shaped b }
    ensures { result ≡ left_of b (ids_of ids.now) }
{
    let mut left = b;
    // By the place of a word, as `ids_of` counts them; chunks of two would have to be tied to these places.
    for i in 0..ids.len() / 2 {
        let f = tapa::pair(ids[i * 2], ids[i * 2 + 1]);
        if !store_kinds::kind_of(left, f).made {
            return None;
        }
        left = store_kinds::with_kind(left, f, Kind::default());
    }
    Some(left)
}

// The files whose identifiers stand in a list of words; none where one is unknown or comes twice.
pub fn delete_files(b: Book, area: &mut [u8], ids: &[u8]) -> Result<Book, u16>
    requires { Lawful b area.old }
    ensures { (result ≡ delete_files_of b (ids_of ids.now)) × (area.new ≡ delete_files_area b (ids_of ids.now) area.old) }
{
    let left = left_of(b, ids).ok_or(tapa::INVALID_FILE_ID)?;
    Ok(swept(left, area))
}

// All records of a file; the file stays.
pub fn clear(b: Book, area: &mut [u8], f: u16) -> Result<Book, u16>
    requires { Lawful b area.old }
    ensures { (result ≡ clear_of b f) × (area.new ≡ clear_area b area.old f) }
{
    let k = store_kinds::kind_of(b, f);
    if !k.made {
        return Err(tapa::INVALID_FILE_ID);
    }
    let left = store_kinds::with_kind(b, f, Kind::default());
    let next = swept(left, area);
    Ok(store_kinds::with_kind(next, f, k))
}
