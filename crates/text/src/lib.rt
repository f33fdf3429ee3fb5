// Text: bytes, upper-case hexadecimal and decimals, written into a lent buffer by a writer, which holds
// the buffer and the place of the next byte.
//
// Where the buffer is full, nothing more is written and the place stays; so no method asks anything
// of its caller. `Writes` fixes every byte of the buffer, and says that the writer still holds it.
//
// Calls follow one another as their texts do: proofs/Laws.antt, `more` and `and_then`.
#![tactic(auto, using(crate::proofs::Calls::calls))]

ghost use Rattle.std.specs.Prelude.{◌≡◌, [], ◌∷◌, ◌++◌, ◌<◌};
ghost use Rattle.text.specs.Text.{pen, puts, pen_of, Writes, digit_of, hex_of, hexes_of, word_hex_of, decimal_of};

// The upper-case digit of a number below 16.
fn hex_digit(value: u8) -> u8
    requires { value < 16 }
    ensures { result ≡ digit_of value }
{
    if value < 10 { 48 + value } else { 55 + value }
}

// A lent buffer, and the place where the next byte goes.
#[derive(Drop)]
pub struct Writer<'a> {
    bytes: &'a mut [u8],
    at: usize,
}

impl<'a> Writer<'a> {
    // A buffer that is written from a place on.
    pub fn new(bytes: &'a mut [u8], at: usize) -> Writer<'a>
        ensures lent { result.bytes.ghost_name ≡ bytes.entry.ghost_name }
        ensures text { pen_of result ≡ pen bytes.old at }
    {
        Writer { bytes, at }
    }

    // The place after what was written.
    pub fn place(&self) -> usize
        ensures { result ≡ self.now.at }
    {
        let place = self.at;
        place
    }

    // Writes one byte.
    pub fn put(&mut self, byte: u8)
        ensures { Writes self.old self.new (byte ∷ []) }
    {
        if self.at < self.bytes.len() {
            self.bytes[self.at] = byte;
            self.at += 1;
        }
    }

    // Writes a byte as two digits, the high one first.
    pub fn put_hex(&mut self, byte: u8)
        ensures { Writes self.old self.new (hex_of byte) }
    {
        self.put(hex_digit(byte / 16));
        self.put(hex_digit(byte % 16));
    }

    // Writes a two-byte number, an address or a code, as four digits.
    pub fn put_word_hex(&mut self, word: u16)
        ensures { Writes self.old self.new (word_hex_of word) }
    {
        self.put_all_hex(&word.to_be_bytes());
    }

    // Writes the bytes of a slice as they are.
    #[tactic(auto, using(crate::proofs::Calls::one_more))]
    pub fn put_all(&mut self, bytes: &[u8])
        ensures { Writes self.old self.new bytes.now }
    {
        for byte in bytes {
            self.put(*byte);
        }
    }

    // Writes the bytes of a slice as two digits each.
    #[tactic(auto, using(crate::proofs::Calls::one_more))]
    pub fn put_all_hex(&mut self, bytes: &[u8])
        ensures { Writes self.old self.new (hexes_of bytes.now) }
    {
        for byte in bytes {
            self.put_hex(*byte);
        }
    }

    // Writes a number in decimal, with no leading zero.
    #[tactic(auto, using(crate::proofs::Calls::digits))]
    pub fn put_decimal(&mut self, n: usize)
        ensures { Writes self.old self.new (decimal_of n) }
    {
        if n < 10 {
            return self.put(b'0' + n as u8);
        }
        self.put_decimal(n / 10);
        self.put(b'0' + (n % 10) as u8);
    }

    // Writes a word and a number.
    pub fn put_number(&mut self, word: &[u8], n: usize)
        ensures { Writes self.old self.new (word.now ++ decimal_of n) }
    {
        self.put_all(word);
        self.put_decimal(n);
    }

    // Writes a word and an address.
    pub fn put_address(&mut self, word: &[u8], address: u16)
        ensures { Writes self.old self.new (word.now ++ word_hex_of address) }
    {
        self.put_all(word);
        self.put_word_hex(address);
    }
}

// ---- the same on a buffer and a place, with the place after it as the answer

// Writes one byte.
pub fn put(line: &mut [u8], at: usize, byte: u8) -> usize
    ensures { pen line.new result ≡ puts (pen line.old at) (byte ∷ []) }
{
    let mut out = Writer::new(line, at);
    out.put(byte);
    out.place()
}

// Writes a byte as two digits, the high one first.
pub fn put_hex(line: &mut [u8], at: usize, byte: u8) -> usize
    ensures { pen line.new result ≡ puts (pen line.old at) (hex_of byte) }
{
    let mut out = Writer::new(line, at);
    out.put_hex(byte);
    out.place()
}

// Writes a two-byte number, an address or a code, as four digits.
pub fn put_word_hex(line: &mut [u8], at: usize, word: u16) -> usize
    ensures { pen line.new result ≡ puts (pen line.old at) (word_hex_of word) }
{
    let mut out = Writer::new(line, at);
    out.put_word_hex(word);
    out.place()
}

// Writes the bytes of a slice as they are.
pub fn put_all(line: &mut [u8], at: usize, bytes: &[u8]) -> usize
    ensures { pen line.new result ≡ puts (pen line.old at) bytes.now }
{
    let mut out = Writer::new(line, at);
    out.put_all(bytes);
    out.place()
}

// Writes the bytes of a slice as two digits each.
pub fn put_all_hex(line: &mut [u8], at: usize, bytes: &[u8]) -> usize
    ensures { pen line.new result ≡ puts (pen line.old at) (hexes_of bytes.now) }
{
    let mut out = Writer::new(line, at);
    out.put_all_hex(bytes);
    out.place()
}

// Writes a number in decimal, with no leading zero.
pub fn put_decimal(line: &mut [u8], at: usize, n: usize) -> usize
    ensures { pen line.new result ≡ puts (pen line.old at) (decimal_of n) }
{
    let mut out = Writer::new(line, at);
    out.put_decimal(n);
    out.place()
}
