// The image: the data store as bytes, so that it outlives the program that keeps it.
//
// `save` writes a book and its area into a lent buffer, as room layout lays them out. `load` judges
// any bytes and, where they are an image, gives the book back and fills the slots of its entries; it
// judges all before it writes, so bytes that it refuses change nothing. A slot that no entry has is
// left as it was lent.
//
// What holds of every store (`Storable`) is what `save` requires and what `load` hands back. The
// theorems are in proofs/Trips.antt: what is saved is loaded again, the very book and the same
// records (`load-save`, `load-save-view`); what is loaded was saved (`accepted-image`); two stores
// with one image are one store (`one-image`); a single changed byte is seen (`one_byte`).
#![tactic(auto)]

ghost use Rattle.std.specs.Prelude.{◌*◌, ◌+◌, ◌<◌, ◌≤◌, [], ◌≡◌, drop, length};
ghost use Rattle.book.specs.Book.{Limits, Shaped, book_of, entries_of};
ghost use Rattle.image.specs.Image.{Storable, load_area, load_of, poured, saved_in, saved_of, slot_bytes};
ghost use Rattle.layout.specs.Judged.{count_in, entries_in, table_in};
ghost use Rattle.layout.specs.Layout.{entry_bytes, flat, kind_bytes, size_of};
ghost use Rattle.lists.specs.Lists.{All, over};
ghost use Rattle.slots.specs.Slots.{put as put_slot};
ghost use Rattle.tapa.specs.Numbers.{two_bytes};

use book::{Book, Entry, Kind};
use layout::Flaw;

// ---- writing

// Bytes at a place.
fn put(out: &mut [u8], at: usize, bytes: &[u8])
    requires { at + length bytes.now ≤ length out.old }
    ensures { out.new ≡ over out.old at bytes.now }
{
    let _n = octets::copy(bytes, &mut out[at..]);
}

// A number as its two bytes.
fn put_word(out: &mut [u8], at: usize, x: u16)
    requires { at + 2 ≤ length out.old }
    ensures { out.new ≡ over out.old at (two_bytes x) }
{
    put(out, at, &x.to_be_bytes());
}

fn put_kind(out: &mut [u8], at: usize, kind: Kind)
    requires { (at + 3 ≤ length out.old) × Limits kind }
    ensures { out.new ≡ over out.old at (kind_bytes kind) }
{
    let row = [u8::from(kind.made), kind.keymax as u8, kind.recmax as u8];
    put(out, at, &row);
}

fn put_entry(out: &mut [u8], at: usize, x: Entry)
    requires { (at + 6 ≤ length out.old) × (x.file ≤ 255) × (x.slot ≤ 255) × (x.keylen ≤ 255) × (x.len ≤ 255) }
    ensures { out.new ≡ over out.old at (entry_bytes x) }
{
    let [high, low] = x.pointer.to_be_bytes();
    let entry = [
        x.file as u8,
        high,
        low,
        x.slot as u8,
        x.keylen as u8,
        x.len as u8,
    ];
    put(out, at, &entry);
}

// The table of files.
fn put_kinds(out: &mut [u8], b: Book)
    requires { (62 ≤ length out.old) × Shaped b × All Limits b.kinds }
    ensures { out.new ≡ over out.old 14 (flat kind_bytes b.kinds) }
{
    for (i, kind) in b.kinds.iter().enumerate() {
        put_kind(out, 14 + i * 3, *kind);
    }
}

fn put_entries(out: &mut [u8], b: Book, area: &[u8])
    requires { (64 + length (entries_of b) * 6 ≤ length out.old) × Storable b area.now }
    ensures { out.new ≡ over out.old 64 (flat entry_bytes (entries_of b)) }
{
    for i in 0..store_entries::held(b) {
        put_entry(out, 64 + i * 6, store_entries::entry_at(b, i));
    }
}

// The slot of each entry, from a place on.
fn put_slots(out: &mut [u8], from: usize, b: Book, area: &[u8])
    requires { (from + length (entries_of b) * 383 ≤ length out.old) × Storable b area.now }
    ensures { out.new ≡ over out.old from (flat (slot_bytes area.now) (entries_of b)) }
{
    for i in 0..store_entries::held(b) {
        let x = store_entries::entry_at(b, i);
        put(out, from + i * 383, slots::part(area, x.slot, 0, 383));
    }
}

// The image of a store, into a lent buffer: how many bytes it has. Where the buffer has no room for
// them, there is none, and the buffer stays as it was.
pub fn save(b: Book, area: &[u8], out: &mut [u8]) -> Option<usize>
    requires { Storable b area.now }
    ensures { (result ≡ saved_of b out.old) × (out.new ≡ saved_in b area.now out.old) }
{
    let n = store_entries::held(b);
    let size = 68 + n * 389;
    if out.len() < size {
        return None;
    }
    put(out, 0, b"kiosk store 1\n");
    put_kinds(out, b);
    put_word(out, 62, n as u16);
    put_entries(out, b, area);
    put_slots(out, 64 + n * 6, b, area);
    let end = size - 4;
    let sums = adler::checksum(&out[0..end]);
    put_word(out, end, sums.high);
    put_word(out, end + 2, sums.low);
    Some(size)
}

// ---- reading

// A book with the files of an image, and no record.
fn with_kinds(img: &[u8]) -> Book
    ensures { result ≡ book_of (table_in img.now) [] }
{
    let mut next = store_entries::fresh();
    for i in 0..16u16 {
        next = store_kinds::with_kind(next, i + 1, layout::kind_in(img, usize::from(i)));
    }
    next
}

// The book of an image.
fn book_in(img: &[u8]) -> Book
    requires { count_in img.now ≤ 256 }
    ensures { result ≡ book_of (table_in img.now) (entries_in img.now) }
{
    let mut next = with_kinds(img);
    for i in 0..layout::held(img) {
        next = store_entries::pushed(next, layout::entry_in(img, i));
    }
    next
}

// A slot of the area, whole.
fn fill_slot(area: &mut [u8], slot: u16, bytes: &[u8])
    requires { (length area.old ≡ 98048) × (slot ≤ 255) × (length bytes.now ≡ 383) }
    ensures { area.new ≡ put_slot area.old slot bytes.now }
{
    put(area, usize::from(slot) * 383, bytes);
}

// The slots of an image, into the area.
fn pour(img: &[u8], area: &mut [u8])
    requires { (length area.old ≡ 98048) × (length img.now ≡ size_of (count_in img.now)) }
    ensures { area.new ≡ poured (entries_in img.now) (drop (64 + count_in img.now * 6) img.now) area.old }
{
    let n = layout::held(img);
    for i in 0..n {
        let x = layout::entry_in(img, i);
        let from = 64 + n * 6 + i * 383;
        fill_slot(area, x.slot, &img[from..from + 383]);
    }
}

// The store of an image, into a lent area of 98,048 bytes. Where it is refused, the area stays as it was.
pub fn load(img: &[u8], area: &mut [u8]) -> Result<Book, Flaw>
    ensures { (result ≡ load_of img.now area.old) × (area.new ≡ load_area img.now area.old) }
{
    if area.len() != 98048 {
        return Err(Flaw::Area);
    }
    layout::judge(img)?;
    pour(img, area);
    Ok(book_in(img))
}
