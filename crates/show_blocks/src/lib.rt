// Show blocks: a session explained, page by page: a line of the transcript for each item, and the words
// below it.
//
// The words are chosen in crate `telling` and set in by crate `show_notes`. A block is begun while the
// page has room for the longest. What the pages then hold is in crate `blocks` (`Told`, `first-lines`).
#![tactic(auto)]

ghost use Rattle.run.specs.State.{Ready};
ghost use Rattle.blocks.specs.Blocks.{Noted, Put, Told};

use blocks::Page;
use run::{Session, Turn};

// ---- before the first block

// What is said of the table, before the first block. The words are made in a buffer that is lent.
pub fn preface(
    input: &[u8],
    sheet: &[u8; 65536],
    page: &mut [u8; 65536],
    words: &mut [u8; 8192],
) -> usize
    ensures { Noted page.new result }
{
    let said = telling::tell_rows(words, sheet, input);
    show_notes::note(page, 0, words, said)
}

// ---- the blocks

// The block of a turn, from a place on: the line of its item, and the words below it. They are told
// from the states before and after it.
fn put_block(
    page: &mut [u8; 65536],
    at: usize,
    input: &[u8],
    sheet: &[u8; 65536],
    session: &Session,
    turn: &Turn,
    words: &mut [u8; 8192],
) -> usize
    ensures { Put turn.now page.old at page.new result }
{
    let came = arrivals::arrival_at(input, session.cursor.at);
    let line = transcript::put_line(page, at, turn.item, &turn.reply);
    let said = telling::tell(
        words,
        sheet,
        came,
        turn.item,
        &session.router,
        &turn.next.router,
    );
    show_notes::note(page, line, words, said)
}

// Fills a page with the blocks of the next items.
pub fn fill_page(
    session: Session,
    input: &[u8],
    sheet: &[u8; 65536],
    page: &mut [u8; 65536],
    words: &mut [u8; 8192],
) -> Page
    requires { Ready session }
    ensures { Told input.now session page.new result }
{
    let mut next = session;
    let mut used = 0;
    while used <= 24511 {
        let turn = session_turns::next(next, input);
        if !turn.more {
            return Page {
                used,
                more: false,
                next,
            };
        }
        used = put_block(page, used, input, sheet, &next, &turn, words);
        next = turn.next;
    }
    Page {
        used,
        more: true,
        next,
    }
}
