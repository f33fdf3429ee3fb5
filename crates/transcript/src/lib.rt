// The transcript: the line of each item of a run.
//
// The lines that an input prescribes are a definition over its bytes, `prescribed`: the line of each
// item of its run, in order. Every line ends in LF and has no other (proofs/Ends.antt), none has more
// than 64 bytes (proofs/Short.antt), and the last line of a session without a broken field has the
// totals of its history (proofs/Sums.antt).
#![tactic(auto)]

ghost use Rattle.std.specs.Prelude.{◌≡◌};
ghost use Rattle.text.specs.Text.{pen, puts, Writes};
ghost use Rattle.transcript.specs.Prescribed.{line_with};

use run::Item;
use text::Writer;

// Writes the line of an item. Where nothing is left, nothing is written.
#[tactic(auto, using(text::proofs::Calls::calls), unfolding(crate::specs::Prescribed::line_with))]
fn put_item(out: &mut Writer<'_>, item: Item, reply: &[u8; 10])
    ensures { Writes out.old out.new (line_with item reply.now) }
{
    match item {
        Item::Came { step, outcome } => lines::put_step(out, step, outcome, reply),
        Item::Over(sums) => lines::put_totals(
            out,
            sums.accepted,
            sums.answered,
            sums.given,
            sums.waiting,
            sums.owing,
        ),
        Item::Broken(number) => lines::put_broken(out, number),
        Item::Refused(refusal) => lines::put_table(out, refusal),
        Item::TooLong => lines::put_too_long(out),
        Item::Nothing => {}
    }
}

// Writes the line of an item from a place on, and answers the place after it. Pages hold the place
// themselves, since `fill_page` of the rooms above promises how many bytes are used.
pub fn put_line(line: &mut [u8], at: usize, item: Item, reply: &[u8; 10]) -> usize
    ensures { pen line.new result ≡ puts (pen line.old at) (line_with item reply.now) }
{
    let mut out = Writer::new(line, at);
    put_item(&mut out, item, reply);
    out.place()
}
