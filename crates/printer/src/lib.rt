// The printer: the lines of session files on standard output.
//
// Lines are gathered in a page of 65,536 bytes, and each page is written whole. No contract can say
// what was read or written; the last word that is proved is that of crate `pages`: the pages of a
// session, from the first to the last, are the text that its input prescribes. `show` writes each of
// them once, in order.
#![tactic(auto)]

// Prints the lines of one input; false where they cannot be written.
fn show(rt: HostRuntime, program: &[u8], input: &[u8], page: &mut [u8; 65536]) -> bool {
    let mut session = session_begun::begin(input);
    loop {
        let filled = pages::fill_page(session, input, page);
        let used = filled.used;
        let all = &page[..];
        if !inputs::write(rt, program, &all[..used]) {
            return false;
        }
        if !filled.more {
            return true;
        }
        session = filled.next;
    }
}

// Prints the lines of standard input or, where arguments name files, of each file in turn. The
// buffers are made once, and lent. One byte more than a session file may have is read, so that a longer
// one is seen.
pub fn show_inputs(rt: HostRuntime, program: &[u8]) {
    let count = inputs::count(rt);
    let mut input = [0u8; 65537];
    let mut page = [0u8; 65536];
    let mut i = inputs::first_name(rt);
    loop {
        let came = inputs::next(rt, program, b"a session file", i, count, &mut input);
        let n = came.length;
        if !came.some {
            return;
        }
        if !show(rt, program, &input[..n], &mut page) {
            return;
        }
        i = came.next;
        if count <= i {
            return;
        }
    }
}
