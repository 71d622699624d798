//! Runs of plain bytes, which are read at once.

ghost use Rattle.std.specs.Prelude.{◌≡◌, ◌+◌, ◌<◌, ◌^◌, ◌==◌, ◌&&◌, [], length, if◌then◌else◌};
ghost use Rattle.sudoers_text.specs.Unit.{is_empty};
ghost use Rattle.sudoers_text.specs.internal.Run.{is_plain_unit_byte, plain_prefix_of_bytes, is_blank_or_sign_byte, is_id_position_after_run};

use crate::text_units::{LeftContext, is_blank, is_comma_colon_or_equals, is_sign_before_id};

/// Which bytes are plain.
static PLAIN_BYTES: [u8; 256] = *b"\
    11111111110110111111111111111111\
    11001111111111111111111111111101\
    11111111111111111111111111110111\
    11111111111111111111111111111111\
    11111111111111111111111111111111\
    11111111111111111111111111111111\
    11111111111111111111111111111111\
    11111111111111111111111111111111";

/// Returns whether the byte is a unit of its own, wherever it stands behind a line's beginning, and asks for nothing left of it.
#[inline(always)]
fn is_plain_byte(byte: u8) -> bool
    ensures { result ≡ is_plain_unit_byte byte }
{
    PLAIN_BYTES[byte as usize] >= b'1'
}

/// Returns the plain bytes that begin the text, up to the first that is none.
#[inline(always)]
fn take_plain_prefix(text: &[u8]) -> &[u8]
    ensures { result.now ≡ plain_prefix_of_bytes text.now }
{
    for (i, byte) in text.iter().enumerate() {
        if !is_plain_byte(*byte) {
            return &text[..i];
        }
    }
    text
}

/// Returns whether an ID may begin behind the byte where it may before it.
#[inline(always)]
fn is_blank_or_sign(byte: u8) -> bool
    ensures { result ≡ is_blank_or_sign_byte byte }
{
    is_blank(byte) || is_sign_before_id(byte)
}

/// Returns whether an ID may begin behind plain bytes, where `item` says whether it may before them.
#[inline(always)]
fn may_id_begin_after_run(item: bool, run: &[u8]) -> bool
    ensures { result ≡ is_id_position_after_run item run.now }
{
    let mut end = run.len();
    while end > 0 {
        let byte = run[end - 1];
        if !is_blank_or_sign(byte) {
            return is_comma_colon_or_equals(byte);
        }
        end -= 1;
    }
    item
}

impl LeftContext {
    /// Returns the plain bytes that begin the text and can be passed at once. Before the line has begun there are none: a blank
    /// counts there for nothing.
    #[inline(always)]
    pub fn find_plain_run_to_pass<'a>(self, text: &'a [u8]) -> &'a [u8]
        ensures { result.now ≡ (if self.begun == 0 then [] else plain_prefix_of_bytes text.now) }
    {
        if self.begun == 0 {
            &text[..0]
        } else {
            take_plain_prefix(text)
        }
    }

    /// Returns what stands left after plain bytes.
    #[inline(always)]
    pub fn pass_plain_run(self, run: &[u8]) -> Self
        requires { self.begun + length run.now < 2 ^ 64 }
        ensures item { result.item ≡ is_id_position_after_run self.item run.now }
        ensures continues { result.continues ≡ (is_empty run.now && self.continues) }
        ensures begun { result.begun ≡ self.begun + length run.now }
    {
        LeftContext {
            item: may_id_begin_after_run(self.item, run),
            continues: run.is_empty() && self.continues,
            begun: self.begun + run.len(),
        }
    }
}
