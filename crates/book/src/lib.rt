// The data store's book: which files there are, and which record stands in which slot.
//
// A book goes in by value and comes back by value. Its entries stand in the order of adding, all
// files mixed, and a free place is zeros. The keys and the data are in the lent area (room slots);
// book and area together stand for a list of files (`view_of`), and `Lawful` is what holds of them
// in every store. `Shaped` is the part of that law that the book has alone.
//
// The code is in the rooms `store_kinds` (the table of files) and `store_entries` (one entry more, less
// or another, which entry it is, and which numbers are free). Each function there is total: past the end
// there is an entry of zeros, and a change there is none.
#![tactic(auto)]

// A file's row in the table: whether it is made, and the longest key and data that it takes.
// (Not an `Option`: a row that is not made may have limits, which an image brings back: image `accepted-image`.)
#[derive(Clone, Copy, Default)]
pub struct Kind {
    pub made: bool,
    pub keymax: u16,
    pub recmax: u16,
}

// A record's entry: its file, its pointer there, its slot, and the lengths of its key and data.
#[derive(Clone, Copy, Default)]
pub struct Entry {
    pub file: u16,
    pub pointer: u16,
    pub slot: u16,
    pub keylen: u16,
    pub len: u16,
}

// The row of file f stands at place f - 1.
// (`Shaped` is no ghost field: `store_entries::emptied` takes any book, and `book_of` makes one of any lists.)
#[derive(Clone, Copy)]
pub struct Book {
    pub kinds: [Kind; 16],
    pub entries: [Entry; 256],
    pub count: usize,
}

// A new file's identifier, 0 where there is none, and the book with it.
#[derive(Clone, Copy)]
pub struct Created {
    pub id: u16,
    pub next: Book,
}
