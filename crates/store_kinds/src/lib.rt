// The data store's table of files (section 11): which there are, and what each of them takes.
//
// A book goes in by value and comes back by value. An identifier that is none has the row of a file
// that is not made, and a change of it is none. The definitions and laws are room `book`'s.
#![tactic(auto)]

ghost use Rattle.std.specs.Prelude.{◌≤◌, ◌≡◌};
ghost use Rattle.book.specs.Book.{Shaped, free_kind, is_made, kind_of, one_more, with_kind, with_kinds};
ghost use Rattle.lists.specs.Lists.{count};

use book::{Book, Created, Kind};

// The row of a file; one that is not made for an identifier that is none (no `Option`: book `kind_of`).
pub fn kind_of(b: Book, f: u16) -> Kind
    requires { Shaped b }
    ensures { result ≡ kind_of b.kinds f }
{
    if f == 0 || 16 < f {
        return Kind::default();
    }
    b.kinds[usize::from(f) - 1]
}

// The book with another row for a file.
pub fn with_kind(b: Book, f: u16, kind: Kind) -> Book
    requires { Shaped b }
    ensures { result ≡ with_kinds b (with_kind b.kinds f kind) }
{
    if f == 0 || 16 < f {
        return b;
    }
    let mut next = b;
    next.kinds[usize::from(f) - 1] = kind;
    next
}

// How many files are made.
pub fn files_held(b: Book) -> usize
    requires { Shaped b }
    ensures { (result ≡ count is_made b.kinds) × (result ≤ 16) }
{
    b.kinds.iter().filter(|k| k.made).count()
}

fn free_kind(b: Book) -> Option<usize>
    requires { Shaped b }
    ensures { result ≡ free_kind 0 b.kinds }
{
    b.kinds.iter().position(|k| !k.made)
}

// One file more, under the lowest free identifier; identifier 0 where 16 are there.
pub fn with_file(b: Book, keymax: u16, recmax: u16) -> Created
    requires { Shaped b }
    ensures { result ≡ one_more b keymax recmax }
{
    match free_kind(b) {
        Some(i) => {
            let mut next = b;
            next.kinds[i] = Kind {
                made: true,
                keymax,
                recmax,
            };
            Created {
                id: (i % 65535) as u16 + 1,
                next,
            }
        }
        None => Created { id: 0, next: b },
    }
}
