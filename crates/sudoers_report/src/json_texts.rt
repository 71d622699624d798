//! Texts as JSON.

ghost use Rattle.std.specs.Prelude.{◌≤◌};

use serde_json::{Value, json};
use std::alloc::{AllocError, Global};

/// Returns the lower-case hexadecimal digit of `value`.
fn hex_digit_of(value: u8) -> char
    requires { value ≤ 15 }
{
    match value {
        0..=9 => (b'0' + value) as char,
        _ => (b'a' + (value - 10)) as char,
    }
}

/// Returns the bytes `bytes` as two hexadecimal digits each.
fn make_hex_digits(alloc: Global, bytes: &[u8]) -> Result<String, AllocError> {
    let mut digits = String::new(alloc);
    for byte in bytes {
        digits.push(hex_digit_of(*byte / 16))?;
        digits.push(hex_digit_of(*byte % 16))?;
    }
    Ok(digits)
}

/// Returns the text `text` as a value: a string, or `{"bytes": "HEX"}` if it is not UTF-8.
///
/// # Errors
///
/// Memory ran out.
pub fn make_text_value(alloc: Global, text: &[u8]) -> Result<Value, AllocError> {
    match str::from_utf8(text) {
        Ok(text) => Value::try_from_str(alloc, text),
        Err(_) => json!(in alloc; {"bytes": make_hex_digits(alloc, text)?}),
    }
}

/// Returns the text `text` as a value; null if there is none.
///
/// # Errors
///
/// Memory ran out.
pub fn make_optional_text_value(alloc: Global, text: Option<&[u8]>) -> Result<Value, AllocError> {
    match text {
        Some(text) => make_text_value(alloc, text),
        None => Ok(Value::Null),
    }
}
