// A kiosk in a few lines: a till driver asks its security module, which answers.
//
// docs/LIBRARY.md walks through it. Each line printed is what is to be sent on.
#![tactic(auto)]

ghost use Rattle.std.specs.Prelude.{IfOk};
ghost use Rattle.router.specs.Router.{Lawful};

use router::Router;
use std::io::Print;
use table::Row;
use tapa::Refusal;
use text::Writer;

// A fresh router over the till driver '0100' and the security module '0001', both open: two lent
// rows, read in order.
fn begin() -> Result<Router, Refusal>
    ensures { IfOk result Lawful }
{
    let till = Row {
        address: 0x0100,
        opened: true,
    };
    let module = Row {
        address: 0x0001,
        opened: true,
    };
    let mut rows = [till; 17];
    rows[1] = module;
    start::start_from(setup::set_up_own(rows, 2))
}

// Sends a part on: here, as a line of hexadecimal digits.
fn send(rt: HostRuntime, part: &[u8]) {
    let mut line = [0u8; 64];
    let mut out = Writer::new(&mut line, 0);
    out.put_all_hex(part);
    out.put(b'\n');
    let end = out.place();
    if end <= 64 {
        let _ = rt.stdout().write_all(&line[..end]);
    }
}

// Routes one message, sends what is to be sent, and hands the next state back.
fn carry(rt: HostRuntime, router: Router, message: &[u8]) -> Router
    requires { Lawful router }
    ensures { Lawful result }
{
    let mut reply = [0u8; 10];
    let routed = router.route(message, &mut reply);
    let outcome = routed.outcome;
    send(rt, sending::part_to_send(outcome, message, &reply));
    routed.next
}

fn main(rt: HostRuntime) {
    // A refused table starts no router.
    let Ok(kiosk) = begin() else {
        let _ = rt.stderr().write_all(b"example: the table is refused\n");
        return;
    };
    // Thread 3: an ICC command with one data byte, and its response with the code '0000'.
    let asked = carry(rt, kiosk, b"\x00\x01\x01\x00\x42\x03\x00\x01\xAA");
    let answered = carry(rt, asked, b"\x01\x00\x00\x01\xFF\x03\x00\x02\x00\x00");
    // The same response again belongs to no question: it is refused, and nothing goes on.
    carry(rt, answered, b"\x01\x00\x00\x01\xFF\x03\x00\x02\x00\x00");
}
