// The joiner takes the pieces of a message from the PSAM.
//
// Each piece's data is written into the buffer that the caller lends, from where the last one ended.
// '9601' asks for Get Next; at '9000' the whole is judged (psam_whole), and handed on as a part of the
// buffer: joiner `Joins`. The same buffer is to be lent until then: the header is read from it.
//
// Of a response that is handed on, the destination becomes the kept source, and the code '0000', which
// the PSAM leaves out, is put at its end.
#![tactic(auto)]

ghost use Rattle.std.specs.Prelude.{◌≡◌, ◌+◌, ◌-◌, ◌≤◌, length, take};
ghost use Rattle.lists.specs.Lists.{onto};
ghost use Rattle.joiner.specs.Joining.{fresh_joiner, taking_of, joined_with, whole_of, whole_answer, whole_bytes, completed, Joins, PartFor, Asks};

use joiner::{Joined, Joiner, Piece};
use tapa::Refusal;

// ---- one piece

// The status of a piece that more follow, and of the last.
const MORE_DATA: u16 = 0x9601;

const ALL_SENT: u16 = 0x9000;

// What a piece is after so many joined bytes.
#[tactic(auto, unfolding(joiner::specs::Joining::taking_of))]
fn check_piece(joined: usize, piece: &[u8]) -> Result<Piece, Refusal>
    ensures { result ≡ taking_of joined piece.now }
{
    let n = piece.len();
    if n < 2 {
        return Err(Refusal::TooShort);
    }
    if 254 < n {
        return Err(Refusal::TooLong);
    }
    let status = tapa::pair(piece[n - 2], piece[n - 1]);
    if status != MORE_DATA {
        if status != ALL_SENT {
            return Err(Refusal::StatusNotUsable);
        }
        if 1034 - n < joined {
            return Err(Refusal::TooLong);
        }
        return Ok(Piece::Last);
    }
    if 1034 - n < joined {
        return Err(Refusal::TooLong);
    }
    Ok(Piece::NotLast)
}

// Writes a piece's data from where the last ended, and answers where it ends.
fn add_piece(joined: usize, piece: &[u8], buffer: &mut [u8]) -> usize
    requires in_bounds { 2 ≤ length piece.now }
    requires piece_in_bounds { joined + (length piece.now - 2) ≤ length buffer.old }
    ensures { (result ≡ joined + (length piece.now - 2)) × (buffer.new ≡ onto (joined_with joined piece.now buffer.old) buffer.old) }
{
    let n = piece.len() - 2;
    octets::copy(&piece[0..n], &mut buffer[joined..]);
    joined + n
}

// ---- the whole

// Puts a destination and the code '0000' to the m joined bytes of a response.
fn complete(m: usize, source: u16, buffer: &mut [u8])
    requires le_m { 2 ≤ m }
    requires m_in_bounds { m + 2 ≤ length buffer.old }
    ensures { buffer.new ≡ onto (completed source (take m buffer.old)) buffer.old }
{
    buffer[0] = (source / 256) as u8;
    buffer[1] = (source % 256) as u8;
    buffer[m] = 0x00;
    buffer[m + 1] = 0x00;
}

// Judges the first m bytes of the buffer, and puts to a response what it lacks.
fn finish(joiner: Joiner, m: usize, buffer: &mut [u8]) -> Result<Option<usize>, Refusal>
    requires { (m ≤ 1032) × (1032 ≤ length buffer.old) }
    ensures { (result ≡ whole_answer (whole_of joiner (take m buffer.old)) (take m buffer.old))
        × (buffer.new ≡ onto (whole_bytes (whole_of joiner (take m buffer.old)) (take m buffer.old)) buffer.old) }
{
    let Some(source) = psam_whole::judge(joiner, &buffer[0..m])? else {
        return Ok(Some(m));
    };
    complete(m, source, buffer);
    Ok(Some(m + 2))
}

// ---- the joiner

// A joiner that holds nothing.
pub fn fresh() -> Joiner
    ensures { result ≡ fresh_joiner }
{
    Joiner {
        joined: 0,
        sources: [0u16; 8],
        kept: [false; 8],
    }
}

// Takes one piece from the PSAM, in place. Nothing is joined once a piece is refused or the last is
// there; only a buffer that is too small leaves the count.
fn join_in(joiner: &mut Joiner, piece: &[u8], buffer: &mut [u8]) -> Result<Option<usize>, Refusal>
    ensures { Joins joiner.old piece.now buffer.old buffer.new (record { answer = result; next = joiner.new }) }
{
    if buffer.len() < 1032 {
        return Err(Refusal::BufferTooSmall);
    }
    let before = *joiner;
    joiner.joined = 0;
    let taken = check_piece(before.joined, piece)?;
    let m = add_piece(before.joined, piece, buffer);
    match taken {
        Piece::NotLast => {
            joiner.joined = m;
            Ok(None)
        }
        Piece::Last => finish(before, m, buffer),
    }
}

// Takes one piece from the PSAM, and hands back the joiner that goes on.
pub fn join(joiner: Joiner, piece: &[u8], buffer: &mut [u8]) -> Joined
    ensures { Joins joiner piece.now buffer.old buffer.new result }
{
    let mut next = joiner;
    let answer = join_in(&mut next, piece, buffer);
    Joined { answer, next }
}

// ---- what is handed on, and asked for

// The message that an answer hands on, as a part of the buffer; the empty part for any other.
pub fn joined_part(answer: Result<Option<usize>, Refusal>, buffer: &[u8]) -> &[u8]
    ensures { PartFor answer buffer.entry result }
{
    match answer {
        Ok(Some(n)) if n <= buffer.len() => &buffer[0..n],
        _ => &buffer[0..0],
    }
}

// Writes Get Next for a thread (Table 116), and answers its length.
pub fn get_next(thread: u8, buffer: &mut [u8]) -> Result<usize, Refusal>
    ensures { Asks thread buffer.old buffer.new result }
{
    if buffer.len() < 5 {
        return Err(Refusal::BufferTooSmall);
    }
    buffer[..5].copy_from_slice(&[0xB0, 0xFC, thread, 0x00, 0x00]);
    Ok(5)
}
