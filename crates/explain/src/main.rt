// Explains a session file: below each line that `session` prints, in plain words, what came and what became of it.
//
// Usage: ./kiosk explain [FILE..]
//
// Without a file it reads standard input. The lines that begin with no space are those of `session`,
// to the byte; `./kiosk explain FILE | grep -v '^ '` prints just them. docs/book/explained.md reads a
// whole session so.
//
// The sheet of sentences is written before anything is read. No contract can say what is read or
// written; the last that is proved is that of crate `show_blocks`. `show` writes each part once, in order.
#![tactic(auto)]

// Prints the blocks of one input; false where they cannot be written.
fn show(
    rt: HostRuntime,
    sheet: &[u8; 65536],
    input: &[u8],
    page: &mut [u8; 65536],
    words: &mut [u8; 8192],
) -> bool {
    let rows = show_blocks::preface(input, sheet, page, words);
    let front = &page[..];
    if !inputs::write(rt, b"explain", &front[..rows]) {
        return false;
    }
    let mut session = session_begun::begin(input);
    loop {
        let filled = show_blocks::fill_page(session, input, sheet, page, words);
        let used = filled.used;
        let all = &page[..];
        if !inputs::write(rt, b"explain", &all[..used]) {
            return false;
        }
        if !filled.more {
            return true;
        }
        session = filled.next;
    }
}

// The sheet and the buffers are made once, and lent. One byte more than a session file may have is
// read, so that a longer one is seen.
fn main(rt: HostRuntime) {
    let mut sheet = io::large_buffer();
    sentences::write_sheet(&mut sheet);
    let mut input = [0u8; 65537];
    let mut page = io::large_buffer();
    let mut words = [0u8; 8192];
    let count = inputs::count(rt);
    let mut i = inputs::first_name(rt);
    loop {
        let came = inputs::next(rt, b"explain", b"a session file", i, count, &mut input);
        let n = came.length;
        if !came.some {
            return;
        }
        if !show(rt, &sheet, &input[..n], &mut page, &mut words) {
            return;
        }
        i = came.next;
        if count <= i {
            return;
        }
    }
}
