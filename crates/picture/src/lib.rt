// Picture: a session as an SVG picture, part by part.
//
// Which forms are drawn is chosen in crate `drawing`, into a list that is lent; here they are written, by
// crate `show_forms`, and nothing else is. So a picture is forms of the sheet, whatever the session file has
// in it, and what fills a form's holes are digits or other wordings: nothing of the file's bytes is written
// but as digits (proofs/Inked.antt).
//
// A part is the file's beginning, a page of rows, or its end; the parts in order are the picture. A part
// longer than its page would be cut. A row is begun while half of the page is free, and the longest row
// has under a third of one.
#![tactic(auto)]

ghost use Rattle.run.specs.State.{Ready};
ghost use Rattle.picture.specs.Picture.{Drawn, Added, Part};

use drawing::Forms;
use run::{Session, Turn};

// How many bytes of a page are used, whether it was full before the end was seen, and the next state.
// `more` is no Option of the state: `Part` and `Pictured` name it and the state side by side.
#[derive(Clone, Copy)]
pub struct Page {
    pub used: usize,
    pub more: bool,
    pub next: Session,
}

// ---- the rows

// How many rows the picture of a session that was just begun has: one for each item.
pub fn count_rows(session: Session, input: &[u8]) -> usize
    requires { Ready session }
{
    let mut next = session;
    loop {
        let turn = session_turns::next(next, input);
        if !turn.more {
            return next.cursor.step;
        }
        next = turn.next;
    }
}

// The row of a turn, from a place on. It is drawn from the states before and after it. The page and the
// place are two parameters, and no writer: `Added` speaks of them, and `fill_page` answers the place.
fn put_row(
    page: &mut [u8; 65536],
    at: usize,
    total: usize,
    input: &[u8],
    sheet: &[u8; 65536],
    session: &Session,
    turn: &Turn,
    list: &mut [usize; 2048],
) -> usize
    ensures { Added sheet.now page.old at page.new result }
{
    let came = arrivals::arrival_at(input, session.cursor.at);
    let row = session.cursor.step.saturating_sub(1);
    let mut forms = Forms::new(list);
    let drawn = forms.draw_row(
        came,
        turn.item,
        &session.router,
        &turn.next.router,
        row,
        total,
    );
    show_forms::put_list(page, at, sheet, drawn, drawn.len() / 8)
}

// Fills a page with the rows of the next items.
pub fn fill_page(
    session: Session,
    total: usize,
    input: &[u8],
    sheet: &[u8; 65536],
    page: &mut [u8; 65536],
    list: &mut [usize; 2048],
) -> Page
    requires { Ready session }
    ensures { Part input.now session sheet.now page.new result }
{
    let mut next = session;
    let mut used = 0;
    while used <= 32768 {
        let turn = session_turns::next(next, input);
        if !turn.more {
            return Page {
                used,
                more: false,
                next,
            };
        }
        used = put_row(page, used, total, input, sheet, &next, &turn, list);
        next = turn.next;
    }
    Page {
        used,
        more: true,
        next,
    }
}

// ---- the two ends

// The beginning of the file. The forms are chosen in a list that is lent.
pub fn opening(
    total: usize,
    sheet: &[u8; 65536],
    page: &mut [u8; 65536],
    list: &mut [usize; 2048],
) -> usize
    ensures { Drawn sheet.now page.new result }
{
    let mut forms = Forms::new(list);
    let begun = forms.draw_opening(total);
    show_forms::put_list(page, 0, sheet, begun, begun.len() / 8)
}

// The end of the file.
pub fn closing(sheet: &[u8; 65536], page: &mut [u8; 65536], list: &mut [usize; 2048]) -> usize
    ensures { Drawn sheet.now page.new result }
{
    let mut forms = Forms::new(list);
    let ended = forms.draw_closing();
    show_forms::put_list(page, 0, sheet, ended, ended.len() / 8)
}
