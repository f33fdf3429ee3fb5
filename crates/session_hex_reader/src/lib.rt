// A session file from text: hex digits, blanks and comments read as bytes.
//
// The bytes are put into a lent buffer as far as there is room, and are all counted; a mistake ends the
// reading, and its place is answered: hexes `Reads`. `locate` says the line and the column of a place.
#![tactic(auto)]

ghost use Rattle.std.specs.Prelude.{◌≡◌, take};
ghost use Rattle.hexes.specs.Reading.{class_of, Low, Begun, GoesOn, step_of, ended_of, Reads, spot_of};

use hexes::{Class, Mistake, Mode, Spot, Step, Taken};
use text::Writer;

// ---- one character

// What a character is.
#[tactic(auto, unfolding(hexes::specs::Reading::class_of))]
fn class(c: u8) -> Class
    ensures value { result ≡ class_of c }
    ensures low { Low result }
{
    match c {
        b' ' | b'\t' | b'\r' => Class::Blank,
        b'\n' => Class::Feed,
        b'#' => Class::Hash,
        b'0'..=b'9' => Class::Digit(c - 48),
        b'A'..=b'F' => Class::Digit(c - 55),
        b'a'..=b'f' => Class::Digit(c - 87),
        _ => Class::Other,
    }
}

// What a character does, at a place.
#[tactic(auto, unfolding(hexes::specs::Reading::step_of))]
fn judge(mode: Mode, c: u8, i: usize) -> Step
    requires { Begun mode }
    ensures value { result ≡ step_of mode (class_of c) i }
    ensures begun { GoesOn result }
{
    match (mode, class(c)) {
        (Mode::Comment, Class::Feed) => Step::Go(Mode::Between),
        (Mode::Comment, _) => Step::Go(Mode::Comment),
        (Mode::Half { digit, .. }, Class::Digit(low)) => Step::Byte(digit * 16 + low),
        (Mode::Between, Class::Digit(digit)) => Step::Go(Mode::Half { digit, at: i }),
        (_, Class::Blank) => Step::Go(mode),
        (_, Class::Other) => Step::Stop(Mistake::Foreign(i)),
        (Mode::Half { at, .. }, _) => Step::Stop(Mistake::Odd(at)),
        (Mode::Between, Class::Feed) => Step::Go(Mode::Between),
        (Mode::Between, Class::Hash) => Step::Go(Mode::Comment),
    }
}

// How a text ends after its last character.
fn ended(mode: Mode) -> Result<(), Mistake>
    ensures { result ≡ ended_of mode }
{
    match mode {
        Mode::Half { at, .. } => Err(Mistake::Odd(at)),
        _ => Ok(()),
    }
}

// ---- a whole text

// Reads a text, and puts its bytes at the start of the buffer as far as there is room.
pub fn read(text: &[u8], out: &mut [u8]) -> Taken
    ensures { Reads text.now out.old out.new result }
{
    let mut to = Writer::new(out, 0);
    let mut mode = Mode::Between;
    let mut count = 0;
    for (i, c) in text.iter().enumerate() {
        match judge(mode, *c, i) {
            Step::Go(next) => mode = next,
            Step::Byte(byte) => {
                to.put(byte);
                count += 1;
                mode = Mode::Between;
            }
            Step::Stop(mistake) => {
                return Taken {
                    length: to.place(),
                    count,
                    ends: Err(mistake),
                };
            }
        }
    }
    Taken {
        length: to.place(),
        count,
        ends: ended(mode),
    }
}

// The line and the column of a place.
#[tactic(auto, using(std::proofs::lemmas::List::take_min), unfolding(hexes::specs::Reading::spot_of))]
pub fn locate(text: &[u8], at: usize) -> Spot
    ensures { result ≡ spot_of (take at text.now) }
{
    let mut line = 1;
    let mut column = 1;
    for c in &text[..at.min(text.len())] {
        if *c == b'\n' {
            line += 1;
            column = 1;
        } else {
            column += 1;
        }
    }
    Spot { line, column }
}
