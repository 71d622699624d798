//! Classes of bytes over ASCII.

ghost use Rattle.std.specs.Prelude.{◌≡◌};
ghost use Rattle.sudoers_match_member.specs.Folded.{byte_case_folded_if_wanted, bytes_case_folded_if_wanted};
ghost use Rattle.sudoers_match_member.specs.Class.{bracketed_name_of_class, is_byte_of_class, is_alnum, has_bracketed_class_name_prefix, class_named_at};

/// A class that a set can name.
#[derive(Clone, Copy)]
pub enum PosixByteClass {
    Alnum,
    Alpha,
    Blank,
    Cntrl,
    Digit,
    Graph,
    Lower,
    Print,
    Punct,
    Space,
    Upper,
    Xdigit,
}

const CLASSES: [PosixByteClass; 12] = [
    PosixByteClass::Alnum,
    PosixByteClass::Alpha,
    PosixByteClass::Blank,
    PosixByteClass::Cntrl,
    PosixByteClass::Digit,
    PosixByteClass::Graph,
    PosixByteClass::Lower,
    PosixByteClass::Print,
    PosixByteClass::Punct,
    PosixByteClass::Space,
    PosixByteClass::Upper,
    PosixByteClass::Xdigit,
];

impl PosixByteClass {
    /// Returns the name of the class in a set.
    pub fn to_bracketed_name(self) -> &'static [u8]
        ensures { result.now ≡ bracketed_name_of_class self }
    {
        match self {
            PosixByteClass::Alnum => b"[:alnum:]",
            PosixByteClass::Alpha => b"[:alpha:]",
            PosixByteClass::Blank => b"[:blank:]",
            PosixByteClass::Cntrl => b"[:cntrl:]",
            PosixByteClass::Digit => b"[:digit:]",
            PosixByteClass::Graph => b"[:graph:]",
            PosixByteClass::Lower => b"[:lower:]",
            PosixByteClass::Print => b"[:print:]",
            PosixByteClass::Punct => b"[:punct:]",
            PosixByteClass::Space => b"[:space:]",
            PosixByteClass::Upper => b"[:upper:]",
            PosixByteClass::Xdigit => b"[:xdigit:]",
        }
    }

    /// Returns whether the class has `byte`.
    pub fn has(self, byte: u8) -> bool
        ensures { result ≡ is_byte_of_class self byte }
    {
        match self {
            PosixByteClass::Alnum => is_letter_or_digit_byte(byte),
            PosixByteClass::Alpha => matches!(byte, b'A'..=b'Z' | b'a'..=b'z'),
            PosixByteClass::Blank => matches!(byte, b' ' | b'\t'),
            PosixByteClass::Cntrl => byte <= 31 || byte == 127,
            PosixByteClass::Digit => matches!(byte, b'0'..=b'9'),
            PosixByteClass::Graph => matches!(byte, b'!'..=b'~'),
            PosixByteClass::Lower => matches!(byte, b'a'..=b'z'),
            PosixByteClass::Print => matches!(byte, b' '..=b'~'),
            PosixByteClass::Punct => matches!(byte, b'!'..=b'~') && !is_letter_or_digit_byte(byte),
            PosixByteClass::Space => byte == b' ' || matches!(byte, b'\t'..=b'\r'),
            PosixByteClass::Upper => matches!(byte, b'A'..=b'Z'),
            PosixByteClass::Xdigit => matches!(byte, b'0'..=b'9' | b'A'..=b'F' | b'a'..=b'f'),
        }
    }
}

fn is_letter_or_digit_byte(byte: u8) -> bool
    ensures { result ≡ is_alnum byte }
{
    matches!(byte, b'0'..=b'9' | b'A'..=b'Z' | b'a'..=b'z')
}

/// Returns `byte`, in lower case if `lower`.
#[tactic(auto, unfolding(crate::specs::Folded::byte_case_folded_if_wanted))]
pub fn fold_byte_case_if_wanted(lower: bool, byte: u8) -> u8
    ensures { result ≡ byte_case_folded_if_wanted lower byte }
{
    if lower && matches!(byte, b'A'..=b'Z') {
        byte + 32
    } else {
        byte
    }
}

/// Returns whether `bytes` begin with `name`.
fn begins_with_bracketed_class_name(bytes: &[u8], name: &[u8], lower: bool) -> bool
    ensures { result ≡ has_bracketed_class_name_prefix (bytes_case_folded_if_wanted lower bytes.now) name.now }
{
    for (index, byte) in name.iter().enumerate() {
        if index >= bytes.len() || fold_byte_case_if_wanted(lower, bytes[index]) != *byte {
            return false;
        }
    }
    true
}

/// Returns the class whose name begins `bytes`.
pub fn find_class_named_at(bytes: &[u8], lower: bool) -> Option<PosixByteClass>
    ensures { result ≡ class_named_at (bytes_case_folded_if_wanted lower bytes.now) }
{
    if !begins_with_bracketed_class_name(bytes, b"[:", lower) {
        return None;
    }
    for class in &CLASSES {
        if begins_with_bracketed_class_name(bytes, class.to_bracketed_name(), lower) {
            return Some(*class);
        }
    }
    None
}
