// Fields: a session file, read one field at a time from the lent bytes.
//
// A field is a tag byte, two length bytes (high first) and the contents. The rows of the table
// come first, then the steps: messages, give-ups and replaced calls. A reader holds the place of
// the next field. It asks for rows until they are over, and from there on for steps; each answer
// names the place after its field.
//
// A broken row is told apart from any other broken field, since it comes before the table is
// checked. The file as a list, and that these answers unfold it, is in specs/ and proofs/Unfold.antt.
#![tactic(auto)]

ghost use Rattle.std.specs.Prelude.{◌≡◌, ◌+◌, ◌<◌, ◌≤◌, length, take, drop};
ghost use Rattle.fields.specs.Places.{read_at, row_at, step_at, row_placed, step_placed};
ghost use Rattle.fields.specs.Fields.{row_of, step_of};

// What stands at a place: nothing, a field that the end of the input cuts, or a whole field.
#[derive(Clone, Copy)]
pub enum Read {
    End,
    Cut(u8),
    Field { tag: u8, start: usize, long: usize },
}

// Asked at a place among the rows: a row, a broken one, or that the rows are over.
#[derive(Clone, Copy)]
pub enum NextRow {
    Row {
        address: u16,
        opened: bool,
        next: usize,
    },
    Torn,
    Over,
}

// Asked at a place after the rows. A message's bytes go from its start to the next field.
#[derive(Clone, Copy)]
pub enum NextStep {
    Message {
        start: usize,
        next: usize,
    },
    GiveUp {
        thread: u8,
        address: u16,
        next: usize,
    },
    Replaced {
        address: u16,
        next: usize,
    },
    Broken,
    End,
}

// What stands at a place.
pub fn read_at(s: &[u8], at: usize) -> Read
    ensures { result ≡ read_at s.now at }
{
    if s.len() <= at {
        return Read::End;
    }
    let tag = s[at];
    let left = s.len() - at;
    if left < 3 {
        return Read::Cut(tag);
    }
    let long = usize::from(tapa::word_at(s, at + 1));
    if left - 3 < long {
        return Read::Cut(tag);
    }
    Read::Field {
        tag,
        start: at + 3,
        long,
    }
}

// A whole field with a row's tag.
#[tactic(auto, using(crate::proofs::Contents::row_kinds))]
fn row_in(s: &[u8], start: usize, long: usize) -> NextRow
    requires { start + long ≤ length s.now }
    ensures { result ≡ row_placed (start + long) (row_of (take long (drop start s.now))) }
{
    if long != 3 {
        return NextRow::Torn;
    }
    let status = s[start + 2];
    if 1 < status {
        return NextRow::Torn;
    }
    NextRow::Row {
        address: tapa::word_at(s, start),
        opened: status == 1,
        next: start + long,
    }
}

// The row at a place.
pub fn row_at(s: &[u8], at: usize) -> NextRow
    ensures { result ≡ row_at s.now at }
{
    match read_at(s, at) {
        Read::Cut(1) => NextRow::Torn,
        Read::Field {
            tag: 1,
            start,
            long,
        } => row_in(s, start, long),
        Read::End | Read::Cut(_) | Read::Field { .. } => NextRow::Over,
    }
}

// A whole field among the steps.
#[tactic(auto, using(crate::proofs::Contents::step_kinds))]
fn step_in(s: &[u8], tag: u8, start: usize, long: usize) -> NextStep
    requires { start + long ≤ length s.now }
    ensures { result ≡ step_placed start (start + long) (step_of tag (take long (drop start s.now))) }
{
    let next = start + long;
    match (tag, long) {
        (2, _) => NextStep::Message { start, next },
        (3, 3) => NextStep::GiveUp {
            thread: s[start],
            address: tapa::word_at(s, start + 1),
            next,
        },
        (4, 2) => NextStep::Replaced {
            address: tapa::word_at(s, start),
            next,
        },
        _ => NextStep::Broken,
    }
}

// The step at a place.
pub fn step_at(s: &[u8], at: usize) -> NextStep
    ensures { result ≡ step_at s.now at }
{
    match read_at(s, at) {
        Read::End => NextStep::End,
        Read::Cut(_) => NextStep::Broken,
        Read::Field { tag, start, long } => step_in(s, tag, start, long),
    }
}
