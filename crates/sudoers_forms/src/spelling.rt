//! How far sudo reads paths, words and arguments.

ghost use Rattle.std.specs.Prelude.{◌≡◌, ◌≤◌, false, length};
ghost use Rattle.sudoers_text.specs.Unit.{begins_digit};
ghost use Rattle.sudoers_grammar.specs.Piece.{has_byte};
ghost use Rattle.sudoers_forms.specs.Spelling.{begins_signed_digit, is_broken_comment, is_byte_of_path, is_byte_of_word, is_escaped_in_argument, is_escaped_in_path, is_numbered, may_be_escaped_in, may_stand_in, size_as_path, size_as_word, spelled_size};

use sudoers_grammar::begins_with_byte;

/// What is spelled: the path of a command, a word, or an argument.
#[derive(Clone, Copy)]
pub enum Spelling {
    Path,
    Word,
    Argument,
}

/// Returns whether sudo knows the escape of `byte` in a path.
fn is_escaped_in_path(byte: u8) -> bool
    ensures { result ≡ is_escaped_in_path byte }
{
    byte == b',' || byte == b':' || byte == b'=' || byte == b' ' || byte == b'\t' || byte == b'#'
}

/// Returns whether sudo knows the escape of `byte` in an argument, or a line may be continued there.
fn is_escaped_in_argument(byte: u8) -> bool
    ensures { result ≡ is_escaped_in_argument byte }
{
    is_escaped_in_path(byte)
        || byte == b'\\'
        || byte == b'*'
        || byte == b'?'
        || byte == b'['
        || byte == b']'
        || byte == b'!'
        || byte == b'^'
        || byte == b'\n'
        || byte == b'\r'
}

/// Returns whether `byte` stands for itself in a path.
fn is_byte_of_path(byte: u8) -> bool
    ensures { result ≡ is_byte_of_path byte }
{
    !(byte == b','
        || byte == b':'
        || byte == b'='
        || byte == b' '
        || byte == b'\t'
        || byte == b'\r'
        || byte == b'\n'
        || byte == b'#')
}

/// Returns whether `byte` stands for itself in a word.
fn is_byte_of_word(byte: u8) -> bool
    ensures { result ≡ is_byte_of_word byte }
{
    is_byte_of_path(byte)
        && !(byte == b'>' || byte == b'!' || byte == b'(' || byte == b')' || byte == b'"')
}

impl Spelling {
    /// Returns whether `byte` may stand behind a backslash.
    fn may_be_escaped(self, byte: u8) -> bool
        ensures { result ≡ may_be_escaped_in self byte }
    {
        match self {
            Spelling::Path => is_escaped_in_path(byte),
            Spelling::Word => !(byte == b'\t' || byte == b'\n'),
            Spelling::Argument => is_escaped_in_argument(byte),
        }
    }

    /// Returns whether `byte` may stand without a backslash.
    fn may_stand(self, byte: u8) -> bool
        ensures { result ≡ may_stand_in self byte }
    {
        match self {
            Spelling::Path => is_byte_of_path(byte),
            Spelling::Word => is_byte_of_word(byte),
            Spelling::Argument => byte != b'#',
        }
    }

    /// Returns how many bytes of `bytes` are spelled so, from the first on.
    pub fn size_of(self, bytes: &[u8]) -> usize
        ensures same { result ≡ spelled_size self false bytes.now }
        ensures within { result ≤ length bytes.now }
    {
        let mut size = 0;
        let mut is_escaped = false;
        for byte in bytes {
            if is_escaped {
                if !self.may_be_escaped(*byte) {
                    return size;
                }
                size += 2;
                is_escaped = false;
            } else if *byte == b'\\' {
                is_escaped = true;
            } else if self.may_stand(*byte) {
                size += 1;
            } else {
                return size;
            }
        }
        size
    }
}

/// Returns whether `byte` stands in `text`.
pub fn has_byte(byte: u8, text: &[u8]) -> bool
    ensures { result ≡ has_byte byte text.now }
{
    text.iter().any(|one| *one == byte)
}

/// Returns the size of the path with which `bytes` begin; 0 if none does.
pub fn size_of_path(bytes: &[u8]) -> usize
    ensures { result ≡ size_as_path bytes.now }
{
    if !begins_with_byte(b'/', bytes) {
        return 0;
    }
    let size = Spelling::Path.size_of(bytes);
    if size > 1 { size } else { 0 }
}

/// Returns the size of the word with which `bytes` begin.
pub fn size_of_word(bytes: &[u8]) -> usize
    ensures { result ≡ size_as_word bytes.now }
{
    if bytes.starts_with(b"%:") {
        2 + Spelling::Word.size_of(&bytes[2..])
    } else {
        Spelling::Word.size_of(bytes)
    }
}

/// Returns whether the comment `text` begins with `#` and a number.
pub fn is_numbered(text: &[u8]) -> bool
    ensures { result ≡ is_numbered text.now }
{
    match text.split_first() {
        Some((b'#', rest)) => begins_signed_digit(rest),
        _ => false,
    }
}

/// Returns whether `text` begins with a digit, perhaps behind `-`.
fn begins_signed_digit(text: &[u8]) -> bool
    ensures { result ≡ begins_signed_digit text.now }
{
    match text.split_first() {
        Some((b'-', rest)) => begins_digit(rest),
        _ => begins_digit(text),
    }
}

/// Returns whether `text` begins with a digit.
pub fn begins_digit(text: &[u8]) -> bool
    ensures { result ≡ begins_digit text.now }
{
    match text.first() {
        Some(byte) => byte.is_ascii_digit(),
        None => false,
    }
}

/// Returns whether the comment `text` is none for sudo: `#` with CR behind it, or with `-` and nothing or CR.
pub fn is_broken_comment(text: &[u8]) -> bool
    ensures { result ≡ is_broken_comment text.now }
{
    match text {
        [_, b'\r', ..] | [_, b'-'] | [_, b'-', b'\r', ..] => true,
        _ => false,
    }
}
