// The layout of an image: the data store as the bytes of a file, and which bytes are such a file.
//
//     0    14   "kiosk store 1" and a line's end: the format and its version
//     14   48   the table of files, three bytes a row: made (1) or not (0), longest key, longest data
//     62    2   n, the number of records
//     64   6n   an entry a record: file, pointer (two bytes), slot, length of the key, of the data
//     ..  383n  the slot of each entry, whole, in the order of the entries
//     ..    4   Adler-32 of all bytes before
//
// Numbers have the high byte first. Free slots are not in it, so what was deleted is not either.
//
// `judge` says of any bytes whether they are the image of a store, and else what is wrong; what it
// asks of the entries is just the law of a store (room image, proofs/Trips.antt). It looks at the
// bytes where they stand and changes nothing. The readers are total: past the end there is a row
// that is not made, and an entry of zeros.
#![tactic(auto)]

ghost use Rattle.std.specs.Prelude.{◌+◌, ◌<◌, ◌≤◌, ◌≡◌, get_or, length, take};
ghost use Rattle.book.specs.Book.{kind_of, no_kind};
ghost use Rattle.layout.specs.Judged.{clashes, count_in, entries_in, entry_in, fits, kind_fits, row_fits, slots_in, sound, sum_fits, table_fits, table_in, twin_from, verdict_of};
ghost use Rattle.layout.specs.Layout.{size_of};
ghost use Rattle.lists.specs.Least.{same};

use book::{Entry, Kind};

// What is wrong with bytes that are not the image of a store: they are no image; one of another
// version; one that is cut short or has bytes behind its end; one whose checksum is not that of its
// bytes; one that holds what no store can hold. `Area` is of the memory that was lent to read it into,
// which has another size.
#[derive(Clone, Copy, PartialEq, Eq)]
pub enum Flaw {
    Foreign,
    Version,
    Cut,
    Sum,
    Bent,
    Area,
}

// ---- bytes

fn number_at(img: &[u8], at: usize) -> u16
    ensures { (result ≡ get_or img.now at 0) × (result ≤ 255) }
{
    u16::from(tapa::byte_at(img, at))
}

// ---- the parts of an image

// How many records it says that it holds.
pub fn held(img: &[u8]) -> usize
    ensures { (result ≡ count_in img.now) × (result ≤ 65535) }
{
    usize::from(tapa::word_at(img, 62))
}

// Row i of the table of files.
pub fn kind_in(img: &[u8], i: usize) -> Kind
    ensures { result ≡ get_or (table_in img.now) i no_kind }
{
    if 16 <= i {
        return Kind::default();
    }
    let at = 14 + i * 3;
    Kind {
        made: tapa::byte_at(img, at) == 1,
        keymax: number_at(img, at + 1),
        recmax: number_at(img, at + 2),
    }
}

// Entry i.
pub fn entry_in(img: &[u8], i: usize) -> Entry
    ensures { (result ≡ entry_in img.now i) × (result.slot ≤ 255) × (result.keylen ≤ 255) }
{
    if held(img) <= i {
        return Entry::default();
    }
    let at = 64 + i * 6;
    Entry {
        file: number_at(img, at),
        pointer: tapa::word_at(img, at + 1),
        slot: number_at(img, at + 3),
        keylen: number_at(img, at + 4),
        len: number_at(img, at + 5),
    }
}

// ---- what a store can hold

fn row_fits(img: &[u8], at: usize) -> bool
    requires { at ≤ 1000000 }
    ensures { result ≡ row_fits img.now at }
{
    if 1 < tapa::byte_at(img, at) {
        return false;
    }
    tapa::byte_at(img, at + 2) <= 128
}

fn table_fits(img: &[u8]) -> bool
    ensures { result ≡ table_fits img.now }
{
    for i in 0..16 {
        if !row_fits(img, 14 + i * 3) {
            return false;
        }
    }
    true
}

// The row of a file; one that is not made for an identifier that is none.
fn row_of(img: &[u8], f: u16) -> Kind
    ensures { result ≡ kind_of (table_in img.now) f }
{
    if f == 0 {
        return Kind::default();
    }
    kind_in(img, usize::from(f) - 1)
}

// Whether an entry keeps to the limits of its file, which is made.
fn is_within(kind: Kind, x: Entry) -> bool
    ensures { result ≡ kind_fits kind x }
{
    if !kind.made {
        return false;
    }
    if x.pointer == 0 {
        return false;
    }
    if 256 < x.pointer {
        return false;
    }
    if kind.keymax < x.keylen {
        return false;
    }
    x.len <= kind.recmax
}

// Whether two entries, each with its key, cannot both stand in a store.
fn clash(keyed: bool, x: Entry, key: &[u8], y: Entry, other: &[u8]) -> bool
    ensures { result ≡ clashes keyed x key.now y other.now }
{
    if x.slot == y.slot {
        return true;
    }
    if x.file != y.file {
        return false;
    }
    if x.pointer == y.pointer {
        return true;
    }
    if !keyed {
        return false;
    }
    octets::same(key, other)
}

// Whether a later entry clashes with entry i.
fn has_twin(img: &[u8], i: usize) -> bool
    requires { (length img.now ≡ size_of (count_in img.now)) × (i < count_in img.now) }
    ensures { result ≡ twin_from img.now i (i + 1) }
{
    let n = held(img);
    let slots = 64 + n * 6;
    let x = entry_in(img, i);
    let kind = row_of(img, x.file);
    let from = slots + i * 383;
    let end = from + usize::from(x.keylen);
    for j in i + 1..n {
        let y = entry_in(img, j);
        let start = slots + j * 383;
        let stop = start + usize::from(y.keylen);
        if clash(0 < kind.keymax, x, &img[from..end], y, &img[start..stop]) {
            return true;
        }
    }
    false
}

// Whether each entry is within its limits, and no two clash.
fn is_sound(img: &[u8]) -> bool
    requires { length img.now ≡ size_of (count_in img.now) }
    ensures { result ≡ sound (table_in img.now) (entries_in img.now) (slots_in img.now) }
{
    for i in 0..held(img) {
        let x = entry_in(img, i);
        if !is_within(row_of(img, x.file), x) {
            return false;
        }
        if has_twin(img, i) {
            return false;
        }
    }
    true
}

// Whether a store can hold what the image says.
fn is_fit(img: &[u8]) -> bool
    requires { length img.now ≡ size_of (count_in img.now) }
    ensures { result ≡ fits img.now }
{
    if !table_fits(img) {
        return false;
    }
    if 256 < held(img) {
        return false;
    }
    is_sound(img)
}

// ---- the frame: first line, length, checksum

// Whether two slices begin alike, as far as the shorter one goes.
fn agree(img: &[u8], name: &[u8]) -> bool
    ensures { result ≡ same (take (length name.now) img.now) (take (length img.now) name.now) }
{
    let n = img.len().min(name.len());
    octets::same(&img[..n], &name[..n])
}

// Whether the last four bytes are the checksum of those before.
fn sum_fits(img: &[u8]) -> bool
    requires { 4 ≤ length img.now }
    ensures { result ≡ sum_fits img.now }
{
    let n = img.len() - 4;
    let sums = adler::checksum(&img[..n]);
    let [a, b] = sums.high.to_be_bytes();
    let [c, d] = sums.low.to_be_bytes();
    octets::same(&img[n..], &[a, b, c, d])
}

// Whether some bytes are the image of a store. The checks in their order: the first that fails decides.
pub fn judge(img: &[u8]) -> Result<(), Flaw>
    ensures { result ≡ verdict_of img.now }
{
    if !agree(img, b"kiosk store ") {
        return Err(Flaw::Foreign);
    }
    if img.len() < 14 {
        return Err(Flaw::Cut);
    }
    if !octets::same(&img[12..14], b"1\n") {
        return Err(Flaw::Version);
    }
    if img.len() < 68 {
        return Err(Flaw::Cut);
    }
    if img.len() != 68 + held(img) * 389 {
        return Err(Flaw::Cut);
    }
    if !sum_fits(img) {
        return Err(Flaw::Sum);
    }
    if !is_fit(img) {
        return Err(Flaw::Bent);
    }
    Ok(())
}
