// Which message types the handlers of a category know (Tables 4 to 6, and section 4.4).
//
// The code is a decision on the category and then on the type, with ranges; specs/Types.antt has
// the rows as the tables print them. That the two agree on every byte is computed, stretch by
// stretch: proofs/Stretch.antt.
#![tactic(auto)]

ghost use Rattle.std.specs.Prelude.{◌≡◌};
ghost use Rattle.known_types.specs.Types.{common, own, known};

// Whether a type is handler-independent (section 4.4): every category knows these.
fn is_common(kind: u8) -> bool
    ensures { result ≡ common kind }
{
    matches!(kind, 0xF0..=0xF1 | 0xF3..=0xF5)
}

// Whether a type is one of a category's own.
fn is_own(category: u8, kind: u8) -> bool
    ensures { result ≡ own category kind }
{
    match category {
        tapa::PSAM => matches!(kind, 0x42..=0x45 | 0x47..=0x48),
        tapa::CARD => matches!(kind, 0x40..=0x47),
        tapa::USER_INTERFACE => matches!(kind, 0x60..=0x61 | 0x63..=0x6A | 0x6C | 0x80 | 0x82),
        tapa::MERCHANT => matches!(kind, 0x61 | 0x63..=0x64 | 0x80..=0x82),
        tapa::DATA_STORE => matches!(kind, 0x90..=0x98),
        tapa::COMMUNICATION => matches!(kind, 0xB0..=0xB1),
        tapa::EVENT => matches!(kind, 0xC0..=0xC3),
        _ => false,
    }
}

// Whether the handlers of a category know a message type (Tables 4 to 6).
pub fn is_known(category: u8, kind: u8) -> bool
    ensures { result ≡ known category kind }
{
    is_own(category, kind) || category <= tapa::EVENT && is_common(kind)
}
