// Show sheet: wordings are written into the cells of a sheet, and found there again.
//
// A program engraves its sheet once and then only reads it. What a sheet is, and where a wording stands
// in it, is in crate `forms`.
#![tactic(auto)]

ghost use Rattle.std.specs.Prelude.{◌≡◌, nat_lt};
ghost use Rattle.std.specs.List.{position};
ghost use Rattle.text.specs.Text.{pen};
ghost use Rattle.forms.specs.Forms.{Spans, stylus, nibbed, engraved};

use forms::{Nib, Span};
use text::Writer;

// ---- written

// One byte of a wording that is being engraved: `|` goes on to the next cell.
#[tactic(auto, using(text::proofs::Calls::calls), unfolding(forms::specs::Forms::nibbed))]
fn engrave_byte(sheet: &mut [u8], nib: Nib, byte: u8) -> Nib
    ensures { stylus result.cell (pen sheet.new result.at) ≡ nibbed (stylus nib.cell (pen sheet.old nib.at)) byte }
{
    if byte == b'|' {
        let cell = (nib.cell % 512 + 1) % 512;
        return Nib {
            cell,
            at: cell * 128,
        };
    }
    let mut out = Writer::new(sheet, nib.at);
    out.put(byte);
    Nib {
        cell: nib.cell,
        at: out.place(),
    }
}

// Writes wordings into cells that follow one another, from a cell on; `|` stands between two. A sheet
// has 512 cells at most, and after the last comes the first.
pub fn engrave(sheet: &mut [u8], first: usize, wordings: &[u8])
    ensures { sheet.new ≡ engraved sheet.old first wordings.now }
{
    let cell = first % 512;
    let mut nib = Nib {
        cell,
        at: cell * 128,
    };
    for byte in wordings {
        nib = engrave_byte(sheet, nib, *byte);
    }
}

// ---- found

// Where the wording of a cell ends, where it ends before the cell does: at the first byte below 32.
fn wording_end(cell: &[u8]) -> Option<usize>
    ensures { result ≡ position (λ b. nat_lt b 32) cell.now }
{
    cell.iter().position(|byte| *byte < 32)
}

// Where the wording of a cell stands. One that is not there has no byte.
pub fn wording(sheet: &[u8], n: usize) -> Span
    ensures { Spans sheet.now n result }
{
    if n >= 512 || sheet.len() < n * 128 + 128 {
        return Span { start: 0, end: 0 };
    }
    let start = n * 128;
    let cell = &sheet[start..start + 128];
    let end = start + wording_end(cell).unwrap_or(128);
    Span { start, end }
}
