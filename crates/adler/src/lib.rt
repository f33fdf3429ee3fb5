// Adler-32: the checksum at the end of a store's image, as RFC 1950 has it.
//
// Two sums go over the bytes, both modulo the prime 65521. The low one adds up the bytes, and the
// high one adds up the low one on its way; so a change of a single byte moves the low sum, and is
// seen whatever the bytes are (proofs/Seen.antt, `one-byte-seen`). Of two changed bytes or more
// nothing is claimed. It keeps nobody out who wants to change a file: it has no key.
#![tactic(auto)]

ghost use Rattle.std.specs.Prelude.{◌%◌, ◌+◌, ◌<◌, ◌≤◌, ◌≡◌};
ghost use Rattle.adler.specs.Adler.{adler32};

// The two halves of a checksum.
#[derive(Clone, Copy)]
pub struct Sums {
    pub low: u16,
    pub high: u16,
}

// A sum with one number more, which stays below the prime.
fn added(sum: u32, more: u32) -> u32
    requires { (sum < 65521) × (more < 65521) }
    ensures { (result ≡ (sum + more) % 65521) × (result < 65521) }
{
    (sum + more) % 65521
}

pub fn checksum(bytes: &[u8]) -> Sums
    ensures { result ≡ adler32 bytes.now }
{
    let mut low: u32 = 1;
    let mut high: u32 = 0;
    for &byte in bytes {
        low = added(low, u32::from(byte));
        high = added(high, low);
    }
    Sums {
        low: low as u16,
        high: high as u16,
    }
}
