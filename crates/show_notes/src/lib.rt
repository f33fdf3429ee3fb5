// Show notes: words are written with each of their lines set in by four spaces, and the last one closed.
//
// Whatever the words are, no line of them can be taken for a line of the transcript (crate `blocks`).
#![tactic(auto, using(text::proofs::Calls::calls))]

ghost use Rattle.std.specs.Prelude.{◌≡◌, ◌++◌, ◌∷◌, [], cond, length, take};
ghost use Rattle.text.specs.Text.{pen, puts, ascii, Writes};
ghost use Rattle.blocks.specs.Words.{indented};

use text::Writer;

// Writes a byte of the words, set in by four spaces where it begins a line.
fn put_set_in(out: &mut Writer<'_>, fresh: bool, byte: u8)
    ensures { Writes out.old out.new (cond fresh (ascii "    ") [] ++ byte ∷ []) }
{
    if fresh {
        out.put_all(b"    ");
    }
    out.put(byte);
}

// Writes words, each line set in by four spaces, the last one closed.
fn indent(out: &mut Writer<'_>, words: &[u8])
    ensures { Writes out.old out.new (indented words.now) }
{
    let mut fresh = true;
    for byte in words {
        put_set_in(out, fresh, *byte);
        fresh = *byte == b'\n';
    }
    if !fresh {
        out.put(b'\n');
    }
}

// The words that stand at the start of a buffer. It has 8,192 bytes, so that a page has room for
// them, however many lines they are.
pub fn note(page: &mut [u8; 65536], at: usize, words: &[u8; 8192], said: usize) -> usize
    ensures result_after { pen page.new result ≡ puts (pen page.old at) (indented (take said words.now)) }
    ensures page_len { (length page.old ≡ 65536) × (length words.now ≡ 8192) }
{
    let mut out = Writer::new(page, at);
    indent(&mut out, &words[..said.min(8192)]);
    out.place()
}
