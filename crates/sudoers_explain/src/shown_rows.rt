//! A row of a file as it is printed below an error, and the row with the mark under a place in it.

ghost use Rattle.std.specs.Prelude.{◌≡◌, ◌≤◌, ◌++◌, ◌∷◌, [], length, take, IfOk};
ghost use Rattle.std.specs.List.{flat_map};
ghost use Rattle.sudoers_explain.specs.ShownRow.{blanks_of_text, hex_digit, blanks_of_byte, shown_byte};

use std::alloc::{AllocError, Global};

/// Returns the lower-case hexadecimal digit of `value`.
fn hex_digit_of(value: u8) -> u8
    requires { value ≤ 15 }
    ensures { result ≡ hex_digit value }
{
    if value < 10 {
        b'0' + value
    } else {
        b'a' + (value - 10)
    }
}

/// Appends what is printed for `byte`.
fn append_shown_byte(out: &mut Vec<u8>, byte: u8) -> Result<(), AllocError>
    ensures { IfOk result (λ _. out.new.items ≡ out.old.items ++ shown_byte byte) }
{
    if (byte < 32 && byte != b'\t') || byte == 127 {
        out.push(b'\\')?;
        out.push(b'x')?;
        out.push(hex_digit_of(byte / 16))?;
        out.push(hex_digit_of(byte % 16))?;
    } else {
        out.push(byte)?;
    }
    Ok(())
}

/// Appends blanks as wide as what is printed for `byte`.
fn append_blanks_of_byte(out: &mut Vec<u8>, byte: u8) -> Result<(), AllocError>
    ensures { IfOk result (λ _. out.new.items ≡ out.old.items ++ blanks_of_byte byte) }
{
    if byte == b'\t' {
        out.push(b'\t')?;
    } else if byte < 32 || byte == 127 {
        out.push(b' ')?;
        out.push(b' ')?;
        out.push(b' ')?;
        out.push(b' ')?;
    } else if byte < 128 || 192 <= byte {
        out.push(b' ')?;
    }
    Ok(())
}

/// Returns `row` as it is printed: a tab as it is, other control bytes as `\x` and two digits.
///
/// # Errors
///
/// Memory ran out.
pub fn make_shown_row(alloc: Global, row: &[u8]) -> Result<Vec<u8>, AllocError>
    ensures { IfOk result (λ text. text.items ≡ flat_map shown_byte row.now) }
{
    let mut out = Vec::new(alloc);
    for byte in row {
        append_shown_byte(&mut out, *byte)?;
    }
    Ok(out)
}

/// Returns blanks as wide as what is printed for the bytes `before`.
fn make_blanks_of_bytes(alloc: Global, before: &[u8]) -> Result<Vec<u8>, AllocError>
    ensures { IfOk result (λ text. text.items ≡ flat_map blanks_of_byte before.now) }
{
    let mut out = Vec::new(alloc);
    for byte in before {
        append_blanks_of_byte(&mut out, *byte)?;
    }
    Ok(out)
}

/// Returns the row below `row`, which has `^` under the byte `column`, from 0. Before the `^` stands what is printed before that byte, with a
/// blank for each character and the tabs kept.
///
/// # Errors
///
/// Memory ran out.
pub fn make_pointer_row(alloc: Global, row: &[u8], column: usize) -> Result<Vec<u8>, AllocError>
    requires { column ≤ length row.now }
    ensures { IfOk result (λ text. text.items ≡ blanks_of_text (flat_map shown_byte (take column row.now)) ++ 94 ∷ []) }
{
    let mut out = make_blanks_of_bytes(alloc, &row[..column])?;
    out.push(b'^')?;
    Ok(out)
}
