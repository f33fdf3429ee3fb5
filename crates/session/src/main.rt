// Prints what became of each message and call of a session file, one line each, and the totals.
//
// Usage: ./kiosk session [FILE..]
//
// Without a file it reads standard input. A session file has at most 65,536 bytes. docs/book/ explains
// every line, and examples/README.md says how to write such a file.
#![tactic(auto)]

fn main(rt: HostRuntime) {
    printer::show_inputs(rt, b"session");
}
