// Forms: a sheet of wordings with holes, and how one of them is written out, filled.
//
// A sheet is a row of cells of 128 bytes. The wording of a cell goes from its first byte up to the
// first one below 32. Four characters of a wording are holes, each filled by the next value:
//
//   #  the value in decimal
//   @  the value as four hex digits: an address, a code
//   ^  the value as two hex digits: a byte
//   $  the wording of the cell with this number, as it stands
//
// A form is the number of a cell, and after it the values. Where values are missing they are 0, and a
// cell that the sheet does not have has no wording.
//
// Who writes by forms alone writes wordings of the sheet, their holes filled, whatever the values are;
// so every byte is a hex digit or stands in a wording: proofs/Ink.antt.
//
// Here are the definitions and their laws. Crate `show_sheet` writes a sheet and finds a wording in it,
// crate `show_forms` writes the forms.
#![tactic(auto)]

// A cell that is being written, and the place of its next byte.
#[derive(Clone, Copy)]
pub struct Nib {
    pub cell: usize,
    pub at: usize,
}

// Where a wording stands in its sheet.
#[derive(Clone, Copy)]
pub struct Span {
    pub start: usize,
    pub end: usize,
}
