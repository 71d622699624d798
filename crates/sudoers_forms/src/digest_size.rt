//! The sizes of digests.

ghost use Rattle.std.specs.Prelude.{◌≡◌};
ghost use Rattle.std.specs.List.{list_all};
ghost use Rattle.sudoers_forms.specs.Spelling.{has_digest_size, is_digest_of_kind, is_hex_digit};

use sudoers_grammar::ends_with_byte;

/// The sizes of the digests of one kind: in hexadecimal digits, in base64 with `=` at the end, and in base64 without it.
#[derive(Clone, Copy)]
struct DigestSizes {
    hex: usize,
    padded: usize,
    bare: usize,
}

/// Returns whether `byte` is a hexadecimal digit.
fn is_hex_digit(byte: u8) -> bool
    ensures { result ≡ is_hex_digit byte }
{
    byte.is_ascii_digit() || (b'A' <= byte && byte <= b'F') || (b'a' <= byte && byte <= b'f')
}

/// Returns whether all bytes are hexadecimal digits.
fn are_hex_digits(text: &[u8]) -> bool
    ensures { result ≡ list_all is_hex_digit text.now }
{
    text.iter().all(|byte| is_hex_digit(*byte))
}

impl DigestSizes {
    /// Returns whether the digest `text` has one of these sizes.
    fn are_of(self, text: &[u8]) -> bool
        ensures { result ≡ has_digest_size self.hex self.padded self.bare text.now }
    {
        if are_hex_digits(text) {
            text.len() == self.hex
        } else if ends_with_byte(b'=', text) {
            text.len() == self.padded
        } else {
            text.len() == self.bare
        }
    }
}

/// Returns whether the digest `text` has a size of the kind `kind`, as `sha224`.
pub fn is_digest_of_kind(kind: &[u8], text: &[u8]) -> bool
    ensures { result ≡ is_digest_of_kind kind.now text.now }
{
    let (hex, padded, bare) = if kind == b"sha224".as_slice() {
        (56, 40, 38)
    } else if kind == b"sha256".as_slice() {
        (64, 44, 43)
    } else if kind == b"sha384".as_slice() {
        (96, 64, 64)
    } else if kind == b"sha512".as_slice() {
        (128, 88, 86)
    } else {
        return false;
    };
    DigestSizes { hex, padded, bare }.are_of(text)
}
