// Show forms: a form is written out, its wording with the holes filled, or a list of forms one after the
// other.
//
// No byte is written but by a form, so what is written is wordings of the sheet and digits, whatever the
// values are (crate `forms`, proofs/Ink.antt). The contracts are the equations of crate `text`.
#![tactic(auto)]

ghost use Rattle.std.specs.Prelude.{◌≡◌, ◌+◌, get_or};
ghost use Rattle.text.specs.Text.{pen, puts, Writes};
ghost use Rattle.forms.specs.Forms.{is_hole, wording_of, part_text, form_text, forms_text};

use text::Writer;

// ---- one part

// The characters that are filled.
#[tactic(auto, unfolding(forms::specs::Forms::is_hole))]
fn is_hole(byte: u8) -> bool
    ensures { result ≡ is_hole byte }
{
    matches!(byte, b'#' | b'@' | b'^' | b'$')
}

// The wording of a cell, as it stands.
fn put_wording(out: &mut Writer<'_>, sheet: &[u8], n: usize)
    ensures { Writes out.old out.new (wording_of sheet.now n) }
{
    let span = show_sheet::wording(sheet, n);
    out.put_all(&sheet[span.start..span.end]);
}

// One byte of a wording, or what fills its hole.
#[tactic(auto, unfolding(forms::specs::Forms::part_text))]
fn put_part(out: &mut Writer<'_>, sheet: &[u8], byte: u8, value: usize)
    ensures { Writes out.old out.new (part_text sheet.now byte value) }
{
    match byte {
        b'#' => out.put_decimal(value),
        b'@' => out.put_word_hex((value % 65536) as u16),
        b'^' => out.put_hex((value % 256) as u8),
        b'$' => put_wording(out, sheet, value),
        _ => out.put(byte),
    }
}

// ---- forms

// A value of a form. One that is missing is 0.
fn value_at(form: &[usize], k: usize) -> usize
    ensures { result ≡ get_or form.now k 0 }
{
    form.get(k).copied().unwrap_or(0)
}

// Writes a form.
pub fn put_form(out: &mut Writer<'_>, sheet: &[u8], form: &[usize])
    ensures { Writes out.old out.new (form_text sheet.now form.now) }
{
    let span = show_sheet::wording(sheet, value_at(form, 0));
    let wording = &sheet[span.start..span.end];
    let mut k = 1;
    for byte in wording {
        put_part(out, sheet, *byte, value_at(form, k));
        if is_hole(*byte) {
            k += 1;
        }
    }
}

// Writes the first forms of a list, one after the other; each has 8 numbers of it.
pub fn put_forms(out: &mut Writer<'_>, sheet: &[u8], list: &[usize], count: usize)
    ensures { Writes out.old out.new (forms_text sheet.now list.now count) }
{
    for i in 0..count.min(list.len() / 8) {
        put_form(out, sheet, &list[i * 8..i * 8 + 8]);
    }
}

// ---- the same on a buffer and a place, with the place after it as the answer

// Writes the first forms of a list.
pub fn put_list(page: &mut [u8], at: usize, sheet: &[u8], list: &[usize], count: usize) -> usize
    ensures { pen page.new result ≡ puts (pen page.old at) (forms_text sheet.now list.now count) }
{
    let mut out = Writer::new(page, at);
    put_forms(&mut out, sheet, list, count);
    out.place()
}
