//! What a terminal is shown.

use std::alloc::AllocError;
use std::io;
use std::io::{IsTerminal, Stderr, Stdout, Write};

/// A writer that shows a terminal no control bytes: those below 32 but LF and tab, and 127, are spelled `\xHH`. A file and a pipe get the
/// bytes as they are.
#[derive(Drop)]
pub struct TerminalSafeWriter<W> {
    writer: W,
    is_terminal: bool,
}

/// Returns the standard output.
pub fn open_standard_output(rt: &HostRuntime) -> TerminalSafeWriter<Stdout> {
    let writer = rt.stdout();
    let is_terminal = writer.is_terminal();
    TerminalSafeWriter {
        writer,
        is_terminal,
    }
}

/// Returns the standard error.
pub fn open_standard_error(rt: &HostRuntime) -> TerminalSafeWriter<Stderr> {
    let writer = rt.stderr();
    let is_terminal = writer.is_terminal();
    TerminalSafeWriter {
        writer,
        is_terminal,
    }
}

/// Writes a line of the texts `parts` to standard error, with the name of the program before them. Writes nothing if memory runs out.
///
/// # Errors
///
/// Memory ran out.
pub fn print_error_line(rt: &HostRuntime, parts: &[&[u8]]) -> Result<(), AllocError> {
    let mut message = Vec::from_slice(rt.alloc(), b"sudoers_tool: ")?;
    for part in parts {
        message.extend_from_slice(part)?;
    }
    message.push(b'\n')?;
    let _ = open_standard_error(rt).write_all(message.as_slice());
    Ok(())
}

impl<W: Write> Write for TerminalSafeWriter<W> {
    fn write(&mut self, buf: &[u8]) -> io::Result<usize> {
        let size = if self.is_terminal {
            printable_prefix_len(buf)
        } else {
            buf.len()
        };
        if size > 0 {
            return self.writer.write(&buf[..size.min(buf.len())]);
        }
        match buf.first() {
            Some(byte) => {
                self.writer.write_all(&escape_of_control_byte(*byte))?;
                Ok(1)
            }
            None => self.writer.write(buf),
        }
    }

    fn flush(&mut self) -> io::Result<()> {
        self.writer.flush()
    }
}

/// Returns whether `byte` is a control byte that is spelled.
fn is_control_byte_spelled(byte: u8) -> bool {
    (byte < 32 && byte != b'\n' && byte != b'\t') || byte == 127
}

/// Returns how many bytes stand in `bytes` before the first that is spelled.
fn printable_prefix_len(bytes: &[u8]) -> usize {
    match bytes.iter().position(|byte| is_control_byte_spelled(*byte)) {
        Some(at) => at,
        None => bytes.len(),
    }
}

/// Returns the spelling of `byte`.
fn escape_of_control_byte(byte: u8) -> [u8; 4] {
    [
        b'\\',
        b'x',
        hex_digit_of_nibble(byte / 16),
        hex_digit_of_nibble(byte % 16),
    ]
}

/// Returns the hexadecimal digit `value`, which is below 16.
fn hex_digit_of_nibble(value: u8) -> u8 {
    if value < 10 {
        b'0' + value % 10
    } else {
        b'a' + value % 16 - 10
    }
}
