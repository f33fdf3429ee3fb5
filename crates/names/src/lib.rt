// Names: TAPA's names on a sheet, and which cell has the name of an address, a type or a code.
//
// Categories and devices are those of Table 2 (with the desk's words for the security module and the
// till driver), message types those of Tables 4 to 6 and section 4.4, response codes those of Table 1
// and of the handlers' own tables, as far as router, event queue and data store make them. Refusals
// have the short words of the support book.
//
// The cells from `FREE` to 255 are left to the program that draws or explains.
#![tactic(auto)]

// The cell of no name is a number like the others, and no Option: a hole that is filled with it stays
// empty, so nobody has to ask whether there is a name.
pub const NOTHING: usize = 0;

// Where the names of each kind begin.
const CATEGORIES: usize = 1;

const DEVICES: usize = 16;

const CODES: usize = 40;

const REFUSALS: usize = 60;

pub const FREE: usize = 96;

const TYPES: usize = 256;

// ---- which cell

// A handler's category; those above 07 are reserved.
pub fn category_name(address: u16) -> usize {
    CATEGORIES + usize::from(tapa::category(address)).min(8)
}

// A device of Table 2, by its handler; most handlers have no name but their category's.
pub fn device_name(address: u16) -> usize {
    let device = tapa::handler(address);
    match device {
        0x0201..=0x0204 => DEVICES + usize::from(device - 0x0200),
        0x0301..=0x0304 => DEVICES + 4 + usize::from(device - 0x0300),
        0x0401..=0x0404 => DEVICES + 8 + usize::from(device - 0x0400),
        _ => NOTHING,
    }
}

// A type that no table has is unknown: its cell is that of type 00.
pub fn type_name(kind: u8) -> usize {
    match kind {
        0x40..=0x48
        | 0x60..=0x61
        | 0x63..=0x6A
        | 0x6C
        | 0x80..=0x82
        | 0x90..=0x98
        | 0xB0..=0xB1
        | 0xC0..=0xC3
        | 0xF0..=0xF1
        | 0xF3..=0xF5
        | 0xFF => TYPES + usize::from(kind),
        _ => TYPES,
    }
}

// The codes that router, queue and store make, in the order of their cells.
const CODES_MADE: [u16; 16] = [
    0x0000, 0xFFF0, 0xFFF1, 0xFFF3, 0xFFF5, 0xFFF6, 0xFFF7, 0xFFFB, 0xFF50, 0xFF51, 0xFF52, 0xFF53,
    0xFF56, 0xFF59, 0xFF72, 0xFF73,
];

// Any other code has the cell behind theirs.
pub fn code_name(code: u16) -> usize {
    let made = CODES_MADE.iter().position(|made| *made == code);
    CODES + made.unwrap_or(CODES_MADE.len())
}

pub fn refusal_name(number: u8) -> usize {
    REFUSALS + usize::from(number)
}

// ---- the names

// Table 2: the categories.
fn write_categories(sheet: &mut [u8]) {
    show_sheet::engrave(
        sheet,
        CATEGORIES,
        b"security module|till driver|card handler|user interface handler\
        |merchant application handler|data store handler\
        |communication handler|event handler|handler of an unknown category",
    );
}

// Table 2: the devices that have an address of their own.
fn write_devices(sheet: &mut [u8]) {
    show_sheet::engrave(
        sheet,
        DEVICES + 1,
        b" (Magnetic stripe Reader)| (Processor Card Reader)\
        | (Memory Card Reader)| (Contactless Card Reader)\
        | (PIN Pad)| (Customer Printer)| (Customer Key Pad)| (Customer Display)\
        | (Merchant Key Pad)| (Merchant Printer)| (Merchant Log)| (Merchant Display)",
    );
}

// Table 4, and the types of section 4.4.
fn write_card_types(sheet: &mut [u8]) {
    show_sheet::engrave(sheet, TYPES, b"an unknown type");
    show_sheet::engrave(
        sheet,
        TYPES + 0x40,
        b"Read Magnetic Stripe|Write Magnetic Stripe|ICC Command|ICC Power-On|ICC Power-Off\
        |ICC Query|Verify Offline PIN|ICC Command partially encrypted|ICC Command fully encrypted",
    );
    show_sheet::engrave(
        sheet,
        TYPES + 0xF0,
        b"Open Handler|Close Handler||Write Handler String|Read Handler String|Get Handler Addresses",
    );
    show_sheet::engrave(sheet, TYPES + 0xFF, b"Response Message");
}

// Table 5: user interface and merchant.
fn write_desk_types(sheet: &mut [u8]) {
    show_sheet::engrave(
        sheet,
        TYPES + 0x60,
        b"Confirm Amount|Display Message||Print Message|Purge Print Buffer|Get Key Check Value\
        |Verify PSAM Public Key Certificate|Get PIN Pad Public Key Record|Submit Initial Key\
        |Initiate PIN Entry|Get PIN||Terminate PIN Entry",
    );
    show_sheet::engrave(
        sheet,
        TYPES + 0x80,
        b"Get Amount|Transaction Completed|Funds Available",
    );
}

// Table 5: the data store.
fn write_store_types(sheet: &mut [u8]) {
    show_sheet::engrave(
        sheet,
        TYPES + 0x90,
        b"Create File|Delete File|Add File Record|Get File Record|Update File Record\
        |Find and Get File Record|Delete File Record|Find and Delete File Record|Clear File",
    );
}

// Table 6.
fn write_event_types(sheet: &mut [u8]) {
    show_sheet::engrave(
        sheet,
        TYPES + 0xB0,
        b"Initiate Communication Session|Terminate Communication Session",
    );
    show_sheet::engrave(
        sheet,
        TYPES + 0xC0,
        b"Add Event to Queue|Get Event from Queue|Find Event on Queue|Flush Event Queue",
    );
}

// Table 1, and the handlers' own tables.
fn write_codes(sheet: &mut [u8]) {
    show_sheet::engrave(
        sheet,
        CODES,
        b"Successful|Invalid Source Address|Invalid Destination Address|Handler Error|Handler busy\
        |Insufficient resources|Handler must be opened|Unsupported operation\
        |Invalid record pointer|Invalid File ID|Record too large|Search key too large\
        |File seek error|Search key already existing|No Events in Queue|No Matching Events in Queue\
        |a code of the device",
    );
}

// What the support book calls each refusal.
fn write_refusals(sheet: &mut [u8]) {
    show_sheet::engrave(
        sheet,
        REFUSALS + 1,
        b"the message is too short|it announces more than 1,024 bytes|it has fewer bytes than it announces\
        |the address is not in the table|the thread is above 7|the response has no code\
        |a stray response|the response is not for its asker|the lent buffer is too small\
        |the event cannot be taken|no row, or more than 16, or one that no table may have\
        |one address stands in two rows|more than 4 security modules and till drivers\
        |nothing to give up|the message is not for this part|it stands in an open question\
        |no source was kept|the status cannot be used|it has more bytes than it announces\
        |it still holds a question of its own",
    );
}

fn write_types(sheet: &mut [u8]) {
    write_card_types(sheet);
    write_desk_types(sheet);
    write_store_types(sheet);
    write_event_types(sheet);
}

// Writes all names onto a sheet.
pub fn write_names(sheet: &mut [u8]) {
    write_categories(sheet);
    write_devices(sheet);
    write_types(sheet);
    write_codes(sheet);
    write_refusals(sheet);
}
