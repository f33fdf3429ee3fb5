// The words of TAPA: addresses, message types, response codes, and the refusals by name.
//
// An address is a category byte and a sub-address byte. The sub-address's top bit asks for an
// enciphered response; the handler is the address with that bit cleared. "Handler" always means
// the cleared form, "exact" always means all sixteen bits.
//
// A refusal has a name here and a number on the page; `number` goes from the one to the other. Numbers in
// bytes have the high byte first, and bytes past an end are 0: `pair`, `byte_at`, `word_at`.
#![tactic(auto)]

ghost use Rattle.std.specs.Prelude.{◌≡◌, ◌+◌, ◌*◌, get_or};
ghost use Rattle.tapa.specs.Address.{category_of, handler_of, multi};
ghost use Rattle.tapa.specs.Refusals.{number_of};
ghost use Rattle.tapa.specs.Numbers.{word_at};

// The refusals 1 to 20, in the order of their numbers. 3 is a message with fewer bytes than it
// announces (a cable lost some), 19 one with more (two came as one, or a stale byte). 14 is a give up
// of an address that has no wait, 20 of one whose handler still holds a question of its own.
#[derive(Clone, Copy)]
pub enum Refusal {
    TooShort = 1,
    TooLong = 2,
    FewerThanAnnounced = 3,
    NotInTable = 4,
    ThreadAbove7 = 5,
    NoResponseCode = 6,
    StrayResponse = 7,
    WrongAsker = 8,
    BufferTooSmall = 9,
    EventCannotBeTaken = 10,
    RowCountOrShape = 11,
    Repeat = 12,
    TooManyMulti = 13,
    NothingToGiveUp = 14,
    NotThisPartsMessage = 15,
    StandsInAWait = 16,
    NoSourceKept = 17,
    StatusNotUsable = 18,
    MoreThanAnnounced = 19,
    HoldsAQuestion = 20,
}

// Response codes, by TAPA's names.
pub const SUCCESSFUL: u16 = 0x0000;

pub const INVALID_DESTINATION: u16 = 0xFFF1;

pub const HANDLER_ERROR: u16 = 0xFFF3;

pub const HANDLER_BUSY: u16 = 0xFFF5;

pub const MUST_BE_OPENED: u16 = 0xFFF7;

pub const UNSUPPORTED_OPERATION: u16 = 0xFFFB;

pub const NO_EVENTS: u16 = 0xFF72;

pub const NO_MATCHING_EVENTS: u16 = 0xFF73;

pub const INSUFFICIENT_RESOURCES: u16 = 0xFFF6;

pub const INVALID_RECORD_POINTER: u16 = 0xFF50;

pub const INVALID_FILE_ID: u16 = 0xFF51;

pub const RECORD_TOO_LARGE: u16 = 0xFF52;

pub const SEARCH_KEY_TOO_LARGE: u16 = 0xFF53;

pub const FILE_SEEK_ERROR: u16 = 0xFF56;

pub const SEARCH_KEY_EXISTING: u16 = 0xFF59;

// Message types that a part of the router knows by name.
pub const RESPONSE: u8 = 0xFF;

pub const ICC_COMMAND: u8 = 0x42;

pub const CREATE_FILE: u8 = 0x90;

pub const DELETE_FILE: u8 = 0x91;

pub const ADD_RECORD: u8 = 0x92;

pub const GET_RECORD: u8 = 0x93;

pub const UPDATE_RECORD: u8 = 0x94;

pub const FIND_RECORD: u8 = 0x95;

pub const DELETE_RECORD: u8 = 0x96;

pub const FIND_AND_DELETE: u8 = 0x97;

pub const CLEAR_FILE: u8 = 0x98;

pub const ADD_EVENT: u8 = 0xC0;

pub const GET_EVENT: u8 = 0xC1;

pub const FIND_EVENT: u8 = 0xC2;

pub const FLUSH_QUEUE: u8 = 0xC3;

pub const OPEN_HANDLER: u8 = 0xF0;

pub const CLOSE_HANDLER: u8 = 0xF1;

// Categories of handlers (Table 2).
pub const PSAM: u8 = 0x00;

pub const TILL_DRIVER: u8 = 0x01;

pub const CARD: u8 = 0x02;

pub const USER_INTERFACE: u8 = 0x03;

pub const MERCHANT: u8 = 0x04;

pub const DATA_STORE: u8 = 0x05;

pub const COMMUNICATION: u8 = 0x06;

pub const EVENT: u8 = 0x07;

// The one address that category 07 may have.
pub const EVENT_HANDLER: u16 = 0x0700;

// The page's number of a refusal.
pub fn number(refusal: Refusal) -> u8
    ensures { result ≡ number_of refusal }
{
    refusal as u8
}

// Two bytes as a number, the high one first.
pub fn pair(high: u8, low: u8) -> u16
    ensures { result ≡ high * 256 + low }
{
    u16::from_be_bytes([high, low])
}

// The byte at a place; 0 past the end.
pub fn byte_at(s: &[u8], i: usize) -> u8
    ensures { result ≡ get_or s.now i 0 }
{
    if i < s.len() { s[i] } else { 0 }
}

// The number whose two bytes stand from a place on, the high one first; a byte past the end is 0.
pub fn word_at(s: &[u8], i: usize) -> u16
    ensures { result ≡ word_at s.now i }
{
    if s.len() <= i {
        return 0;
    }
    pair(s[i], byte_at(s, i + 1))
}

pub fn category(address: u16) -> u8
    ensures { result ≡ category_of address }
{
    let [category, _] = address.to_be_bytes();
    category
}

// The address with the top bit of its sub-address cleared.
pub fn handler(address: u16) -> u16
    ensures { result ≡ handler_of address }
{
    address / 256 * 256 + address % 256 % 128
}

// Whether a handler takes one command a thread, and not one altogether.
pub fn is_multi(address: u16) -> bool
    ensures { result ≡ multi address }
{
    address / 256 <= 1
}
