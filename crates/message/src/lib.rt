// Table 3: what a message is.
//
// A message is a destination, a source, a type, a thread and a data length, eight bytes in all,
// and then the data. Here stand its head, the answers of its reader and of its writer, what bytes read
// as (specs), and the laws of both: reading and writing undo each other (proofs/Back.antt). The code is
// in message_reader and message_writer.
#![tactic(auto)]

use tapa::Refusal;

// What stands before the data.
#[derive(Clone, Copy)]
pub struct Head {
    pub destination: u16,
    pub source: u16,
    pub kind: u8,
    pub thread: u8,
    pub length: usize,
}
