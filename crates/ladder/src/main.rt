// Draws a session file as an SVG picture: a column for each handler, time downwards, an arrow a step.
//
// Usage: ./kiosk ladder [FILE] > PICTURE.svg
//
// Without a file it reads standard input. Any browser shows the picture and prints it on A4 paper, 40
// steps a page; the pages stand one below the other. docs/book/explained.md tells how to read it.
//
// The sheet of shapes is written before anything is read. No contract can say what is read or written;
// the last that is proved is that of crate `picture`. `show` writes each part once, in order.
#![tactic(auto)]

// Draws the rows of one input; false where they cannot be written.
fn show_rows(
    rt: HostRuntime,
    sheet: &[u8; 65536],
    input: &[u8],
    total: usize,
    page: &mut [u8; 65536],
    list: &mut [usize; 2048],
) -> bool {
    let mut session = session_begun::begin(input);
    loop {
        let filled = picture::fill_page(session, total, input, sheet, page, list);
        let used = filled.used;
        let all = &page[..];
        if !inputs::write(rt, b"ladder", &all[..used]) {
            return false;
        }
        if !filled.more {
            return true;
        }
        session = filled.next;
    }
}

// The page and the list of forms are made once, and lent.
fn show(rt: HostRuntime, sheet: &[u8; 65536], input: &[u8]) {
    let mut page = io::large_buffer();
    let mut list = [0usize; 2048];
    let total = picture::count_rows(session_begun::begin(input), input);
    let begun = picture::opening(total, sheet, &mut page, &mut list);
    if !inputs::write(rt, b"ladder", &page[..begun]) {
        return;
    }
    if !show_rows(rt, sheet, input, total, &mut page, &mut list) {
        return;
    }
    let ended = picture::closing(sheet, &mut page, &mut list);
    inputs::write(rt, b"ladder", &page[..ended]);
}

// One picture at a time: two would be no file that a browser shows. One byte more than a session file
// may have is read, so that a longer one is seen.
fn main(rt: HostRuntime) {
    let first = inputs::first_name(rt);
    if first + 1 < inputs::count(rt) {
        inputs::say(rt, b"ladder", b"one file at a time");
        inputs::tell(rt, b"2");
        return;
    }
    let mut sheet = io::large_buffer();
    stencil::write_sheet(&mut sheet);
    let mut input = [0u8; 65537];
    let got = inputs::read(rt, b"ladder", b"a session file", first, &mut input);
    let n = got.length;
    if got.whole {
        show(rt, &sheet, &input[..n]);
    }
}
