// Pages: the lines of a session, gathered into large parts for writing.
//
// A page is filled with whole lines while there is room for the longest. The pages of a session,
// from the first to the one that says that there is no more, are the text that its input prescribes:
// proofs/Text.antt, `whole-text`. What a program then does is to write each page once, in order.
//
// The loop owns the router's arrays and lends them, so that no message copies them: they are copied
// twice a page.
#![tactic(auto)]

ghost use Rattle.run.specs.State.{Ready};
ghost use Rattle.pages.specs.Pages.{Paged};

use run::Session;

// How many bytes of a page are used, whether it was full before the end of the lines was seen, and the
// next state.
#[derive(Clone, Copy)]
pub struct Page {
    pub used: usize,
    pub more: bool,
    pub next: Session,
}

// Fills a page.
pub fn fill_page(session: Session, input: &[u8], page: &mut [u8]) -> Page
    requires { Ready session }
    ensures { Paged input.now session page.old page.new result }
{
    let router = session.router;
    let count = router.count;
    let mut cells = router.cells;
    let mut list = router.list;
    let mut len = router.len;
    let mut cursor = session.cursor;
    let mut used = 0;
    while 64 <= page.len() - used {
        let went = session_turns::next_in(&mut cells, count, &mut list, len, cursor, input);
        let item = went.item;
        let reply = went.reply;
        cursor = went.cursor;
        len = went.len;
        if !went.more {
            return Page {
                used,
                more: false,
                next: session_turns::session_of(cells, count, list, len, cursor),
            };
        }
        used = transcript::put_line(page, used, item, &reply);
    }
    Page {
        used,
        more: true,
        next: session_turns::session_of(cells, count, list, len, cursor),
    }
}
