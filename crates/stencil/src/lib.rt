// Stencil: the shapes and labels of a ladder picture, as wordings on a sheet.
//
// A picture is an SVG file: pages of 1,120 by 1,584 units (the sides of A4), one below the other. On a
// page each handler has a column, each step a row of 30 units. Every shape is a form with its places as
// values, so what is drawn is these wordings, TAPA's names, and digits.
//
// `#`, `@`, `^` and `$` are holes. A rule of the style sheet that needs `@` itself goes in through `$`.
#![tactic(auto)]

// Cells of the sheet. A form is numbers, of which the first is a cell and some of the others may be
// (forms, `form_text`); so these are numbers and no enum.

// ---- the file and its pages

pub const RAW: usize = names::FREE;

pub const OPENING: usize = names::FREE + 1;

pub const TITLE: usize = names::FREE + 2;

pub const PRINTED: usize = names::FREE + 3;

pub const STYLES: usize = names::FREE + 4;

pub const STYLE_COUNT: usize = 16;

pub const PAGE: usize = names::FREE + 20;

pub const PAGE_NUMBER: usize = names::FREE + 21;

pub const PAGE_END: usize = names::FREE + 22;

pub const CLOSING: usize = names::FREE + 23;

// ---- columns

pub const ROUTER: usize = names::FREE + 24;

pub const COLUMN: usize = names::FREE + 25;

pub const CLOSED_COLUMN: usize = names::FREE + 26;

pub const LANE: usize = names::FREE + 27;

pub const ROUTER_LANE: usize = names::FREE + 28;

pub const SHUT: usize = names::FREE + 29;

pub const WAIT: usize = names::FREE + 30;

pub const OWED: usize = names::FREE + 31;

// ---- a step

pub const QUESTION: usize = names::FREE + 32;

pub const ANSWER: usize = names::FREE + 33;

pub const RIGHT_HEAD: usize = names::FREE + 34;

pub const LEFT_HEAD: usize = names::FREE + 35;

pub const TYPE_LABEL: usize = names::FREE + 36;

pub const CODE_LABEL: usize = names::FREE + 37;

pub const THREAD: usize = names::FREE + 38;

pub const THREAD_NUMBER: usize = names::FREE + 39;

pub const CROSS: usize = names::FREE + 40;

pub const SWALLOW: usize = names::FREE + 41;

pub const RING: usize = names::FREE + 42;

pub const STEP: usize = names::FREE + 43;

pub const MARGIN_MARK: usize = names::FREE + 44;

pub const MARGIN_NUMBER: usize = names::FREE + 45;

// ---- the words beside a step

pub const PASSED: usize = names::FREE + 46;

pub const ANSWERED: usize = names::FREE + 47;

pub const TURNED: usize = names::FREE + 48;

pub const GIVEN: usize = names::FREE + 49;

pub const SWALLOWED: usize = names::FREE + 50;

pub const EVENT: usize = names::FREE + 51;

pub const RESET: usize = names::FREE + 52;

pub const OF_TYPE: usize = names::FREE + 53;

pub const WITH_CODE: usize = names::FREE + 54;

pub const REASON: usize = names::FREE + 55;

pub const TOTALS: usize = names::FREE + 56;

pub const BROKEN: usize = names::FREE + 57;

pub const BAD_TABLE: usize = names::FREE + 58;

pub const TOO_LONG: usize = names::FREE + 59;

pub const LEGEND: usize = names::FREE + 60;

pub const MORE_LEGEND: usize = names::FREE + 61;

pub const MORE_TOTALS: usize = names::FREE + 62;

// The frame of the file.
fn write_frame(sheet: &mut [u8]) {
    show_sheet::engrave(
        sheet,
        RAW,
        b"$|<svg xmlns=\"http://www.w3.org/2000/svg\" viewBox=\"0 0 1120 #\" width=\"1120\" height=\"#\" font-family=\"sans-serif\">\
        |<title>A session of the kiosk</title><style>|#mm}}</style>",
    );
    show_sheet::engrave(
        sheet,
        PAGE,
        b"<g transform=\"translate(0 #)\"><rect class=\"bg\" width=\"1120\" height=\"1584\"/>\
        |<text x=\"40\" y=\"44\">page # of #</text>|</g>|</svg>",
    );
}

// The style sheet: strokes and fills of shapes and words.
fn write_styles(sheet: &mut [u8]) {
    show_sheet::engrave(
        sheet,
        STYLES,
        b"text{font-size:12px}.s{font-size:10.5px;fill:dimgray}.g{fill:gray}.k{text-anchor:end}\
        |.m{text-anchor:middle;font-size:11px;paint-order:stroke;stroke:white;stroke-width:4px}\
        |.n{text-anchor:middle;font-size:10px}path,circle,rect{fill:none;stroke:black}.bg{fill:white;stroke:none}\
        |.lane{stroke:darkgray}.hub{stroke:darkgray;stroke-width:5}.shut{stroke:gainsboro;stroke-width:11}\
        |.w{stroke-width:2}.o{stroke-width:2;stroke-dasharray:2 4}.a{stroke-width:2}\
        |.r{stroke-width:2;stroke-dasharray:8 3}.c{fill:white;stroke-width:2}.x{stroke-width:3}\
        |.no{stroke-width:2}@page{size:A4;margin:0}",
    );
}

// Each thread's colour, and last how wide the picture is on paper; its height follows.
fn write_colours(sheet: &mut [u8]) {
    show_sheet::engrave(
        sheet,
        STYLES + 7,
        b".t0{stroke:black}.f0{fill:black;stroke:none}|.t1{stroke:rgb(0,114,178)}.f1{fill:rgb(0,114,178);stroke:none}\
        |.t2{stroke:rgb(213,94,0)}.f2{fill:rgb(213,94,0);stroke:none}|.t3{stroke:rgb(0,138,100)}.f3{fill:rgb(0,138,100);stroke:none}\
        |.t4{stroke:rgb(184,71,138)}.f4{fill:rgb(184,71,138);stroke:none}|.t5{stroke:rgb(200,130,0)}.f5{fill:rgb(200,130,0);stroke:none}\
        |.t6{stroke:rgb(40,150,220)}.f6{fill:rgb(40,150,220);stroke:none}|.t7{stroke:rgb(130,80,60)}.f7{fill:rgb(130,80,60);stroke:none}\
        |@media print{svg{width:210mm;height:",
    );
}

// The columns, and what stands in them.
fn write_columns(sheet: &mut [u8]) {
    show_sheet::engrave(
        sheet,
        ROUTER,
        b"<text transform=\"translate(# 230) rotate(-60)\">router</text>\
        |<text transform=\"translate(# 230) rotate(-60)\">@ $</text>|<text class=\"g\" transform=\"translate(# 230) rotate(-60)\">@ $, closed</text>\
        |<path class=\"lane\" d=\"M# 238V#\"/>|<path class=\"hub\" d=\"M# 238V#\"/>\
        |<path class=\"shut\" d=\"M# #v30\"/>|<path class=\"w t#\" d=\"M# #v30\"/>|<path class=\"o t#\" d=\"M# #v30\"/>",
    );
}

// The arrow of a step.
fn write_arrows(sheet: &mut [u8]) {
    show_sheet::engrave(
        sheet,
        QUESTION,
        b"<path class=\"a t#\" d=\"M# #H#\"/>|<path class=\"r t#\" d=\"M# #H#\"/>\
        |<path class=\"f#\" d=\"M# #l-11-5v10z\"/>|<path class=\"f#\" d=\"M# #l11-5v10z\"/>\
        |<text class=\"m\" x=\"#\" y=\"#\">^</text>|<text class=\"m\" x=\"#\" y=\"#\">@</text>\
        |<circle class=\"c t#\" cx=\"#\" cy=\"#\" r=\"7\"/>|<text class=\"n\" x=\"#\" y=\"#\">#</text>",
    );
}

// The marks of a step.
fn write_marks(sheet: &mut [u8]) {
    show_sheet::engrave(
        sheet,
        CROSS,
        b"<path class=\"x\" d=\"M# #l12 12m0-12l-12 12\"/>|<path class=\"f#\" d=\"M# #h10v12h-10z\"/>\
        |<circle class=\"c\" cx=\"#\" cy=\"#\" r=\"9\"/>|<text class=\"k\" x=\"68\" y=\"#\">#</text>\
        |<rect class=\"no\" x=\"76\" y=\"#\" width=\"76\" height=\"15\"/>|<text x=\"82\" y=\"#\">refused #</text>",
    );
}

// What is said beside a step.
fn write_words(sheet: &mut [u8]) {
    show_sheet::engrave(
        sheet,
        PASSED,
        b"<text x=\"78\" y=\"#\">passed: @ asks @</text>|<text x=\"78\" y=\"#\">answered: @ to @</text>\
        |<text x=\"78\" y=\"#\">turned back: @ to @, '^'</text>|<text x=\"78\" y=\"#\">given up: question of @ to @</text>\
        |<text x=\"78\" y=\"#\">swallowed: late reply of @</text>|<text x=\"78\" y=\"#\">event: @ to @</text>\
        |<text x=\"78\" y=\"#\">reset: @ was replaced</text>|<text class=\"s\" x=\"78\" y=\"#\">'^' $</text>\
        |<text class=\"s\" x=\"78\" y=\"#\">code @, $</text>|<text class=\"s\" x=\"78\" y=\"#\">$</text>",
    );
}

// How a session ends, and what the signs mean.
fn write_ends(sheet: &mut [u8]) {
    show_sheet::engrave(
        sheet,
        TOTALS,
        b"<text x=\"78\" y=\"#\">end: # passed on, # answered, # given up,</text>\
        |<text x=\"78\" y=\"#\">broken: field # of the file cannot be read</text>|<text x=\"78\" y=\"#\">table refused #: $</text>\
        |<text x=\"78\" y=\"#\">too long: the file has more than 65,536 bytes</text>\
        |full arrow: question; dashed arrow: answer; circle: thread; bar in a column: has to answer; dotted bar: owes a late reply;\
        |cross: turned back or given up; filled square: a late reply ends; ring: replaced; frame: refused; grey: closed\
        |<text x=\"78\" y=\"#\"># still open, # late replies still owed</text>",
    );
}

fn write_file(sheet: &mut [u8]) {
    write_frame(sheet);
    write_styles(sheet);
    write_colours(sheet);
}

fn write_shapes(sheet: &mut [u8]) {
    write_columns(sheet);
    write_arrows(sheet);
    write_marks(sheet);
}

// Writes the names and the shapes onto a sheet.
pub fn write_sheet(sheet: &mut [u8]) {
    names::write_names(sheet);
    write_file(sheet);
    write_shapes(sheet);
    write_words(sheet);
    write_ends(sheet);
}
