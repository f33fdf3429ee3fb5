// Runs any part of the build on any bytes: fields in, one line a field out (docs/WORKBENCH.md).
//
// Usage: ./kiosk workbench [FILE..]
//
// Without a file it reads standard input. An input has at most 65,536 bytes. docs/WORKBENCH.md has
// the table of fields, and examples/workbench.hex an example.
#![tactic(auto)]

// Prints the lines of one input, one at a time; false where they cannot be written.
fn show(rt: HostRuntime, program: &[u8], input: &[u8]) -> bool {
    let mut line = [0u8; 8192];
    let mut work = bench::buffer();
    let mut area = [0u8; 98048];
    let mut bench = bench::fresh();
    loop {
        let turn = bench.turn(input, &mut work, &mut area, &mut line);
        let used = turn.length;
        if !inputs::write(rt, program, &line[..used]) {
            return false;
        }
        if !turn.more {
            return true;
        }
        bench = turn.next;
    }
}

// Prints the lines of standard input or, where arguments name files, of each file in turn. One byte more
// than an input may have is read, so that a longer one is seen.
fn show_inputs(rt: HostRuntime, program: &[u8]) {
    let count = inputs::count(rt);
    let mut input = [0u8; 65537];
    let mut i = inputs::first_name(rt);
    loop {
        let came = inputs::next(rt, program, b"fields", i, count, &mut input);
        let n = came.length;
        if !came.some {
            return;
        }
        if !show(rt, program, &input[..n]) {
            return;
        }
        i = came.next;
        if count <= i {
            return;
        }
    }
}

fn main(rt: HostRuntime) {
    show_inputs(rt, b"workbench");
}
