//! Bytes as text in which none is invisible.

ghost use Rattle.std.specs.Prelude.{◌≡◌, ◌++◌, ℕ, OnOk, IsOk, string_bytes};
ghost use Rattle.uring_text.specs.Visible.{visible, visible_byte, last_byte, visible_line, coded};

use crate::growth::{TextMemory, push_hex, push_text};
use std::alloc::{AllocError, Global};

/// Appends bytes as ASCII in which each one can be seen: a tab as `\t`, a carriage return as `\r`, and any other byte that is no printing one of ASCII as `\x` and two digits.
pub fn push_visible(alloc: Global, text: &mut String, bytes: &[u8]) -> Result<(), AllocError>
    ensures { OnOk result (string_bytes text.new ≡ string_bytes text.old ++ visible bytes.now) }
{
    push_visible_in(&alloc, text, bytes)
}

/// As `push_visible`, by this memory. If it grants whatever is asked for, there is no error.
pub fn push_visible_in<M: TextMemory>(
    memory: &M,
    text: &mut String,
    bytes: &[u8],
) -> Result<(), AllocError>
    ensures bytes { OnOk result (string_bytes text.new ≡ string_bytes text.old ++ visible bytes.now) }
    ensures granted { ((n : ℕ) → M.grants memory.now n) → IsOk result }
{
    for byte in bytes {
        push_byte(memory, text, *byte)?;
    }
    Ok(())
}

/// Appends a line as `push_visible` does, and a blank at its end as `\x20`.
pub fn push_visible_line(alloc: Global, text: &mut String, line: &[u8]) -> Result<(), AllocError>
    ensures { OnOk result (string_bytes text.new ≡ string_bytes text.old ++ visible_line line.now) }
{
    push_visible_line_in(&alloc, text, line)
}

/// As `push_visible_line`, by this memory. If it grants whatever is asked for, there is no error.
pub fn push_visible_line_in<M: TextMemory>(
    memory: &M,
    text: &mut String,
    line: &[u8],
) -> Result<(), AllocError>
    ensures bytes { OnOk result
        (string_bytes text.new ≡ string_bytes text.old ++ visible_line line.now) }
    ensures granted { ((n : ℕ) → M.grants memory.now n) → IsOk result }
{
    let Some((last, before)) = line.split_last() else {
        return Ok(());
    };
    push_visible_in(memory, text, before)?;
    push_last(memory, text, *last)
}

/// Appends the last byte of a line.
fn push_last<M: TextMemory>(memory: &M, text: &mut String, byte: u8) -> Result<(), AllocError>
    ensures bytes { OnOk result (string_bytes text.new ≡ string_bytes text.old ++ last_byte byte) }
    ensures granted { ((n : ℕ) → M.grants memory.now n) → IsOk result }
{
    if byte == b' ' {
        push_coded(memory, text, byte)
    } else {
        push_byte(memory, text, byte)
    }
}

/// Appends one byte.
fn push_byte<M: TextMemory>(memory: &M, text: &mut String, byte: u8) -> Result<(), AllocError>
    ensures bytes { OnOk result (string_bytes text.new ≡ string_bytes text.old ++ visible_byte byte) }
    ensures granted { ((n : ℕ) → M.grants memory.now n) → IsOk result }
{
    if byte == b'\t' {
        return push_text(memory, text, "\\t");
    }
    if byte == b'\r' {
        return push_text(memory, text, "\\r");
    }
    if byte < b' ' || byte > b'~' {
        return push_coded(memory, text, byte);
    }
    memory.reserve_text(text, 1)?;
    text.push(byte as char)
}

/// Appends a byte as `\x` and two lower case hexadecimal digits.
fn push_coded<M: TextMemory>(memory: &M, text: &mut String, byte: u8) -> Result<(), AllocError>
    ensures bytes { OnOk result (string_bytes text.new ≡ string_bytes text.old ++ coded byte) }
    ensures granted { ((n : ℕ) → M.grants memory.now n) → IsOk result }
{
    push_text(memory, text, "\\x")?;
    push_hex(memory, text, &[byte])
}
