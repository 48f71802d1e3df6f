//! Growth of texts and of lists of bytes by a memory.

ghost use Rattle.std.specs.Prelude.{◌≡◌, ◌+◌, ◌<◌, ◌≤◌, ◌++◌, ◌∷◌, [], ℕ, length, codes, slice_index, OnOk, OnErr, IsOk, string_bytes, string_len, string_capacity, decimal};
ghost use Rattle.std.specs.Fmt.{signed_decimal};
ghost use Rattle.hex.specs.Hex.{encode_lower, lower_digits};
ghost use Rattle.uring_text.specs.Tokens.{hex_or_dash};

use itoa::Buffer;
use std::alloc::{AllocError, Global};
use uring_memory::Memory;

/// Memory that texts grow by, too. Our own rule.
pub trait TextMemory: Memory {
    /// Makes room in a text for `more` bytes more. A refusal changes nothing of its bytes and its room.
    fn reserve_text(&self, text: &mut String, more: usize) -> Result<(), AllocError>
        ensures bytes { string_bytes text.new ≡ string_bytes text.old }
        ensures len { string_len text.new ≡ string_len text.old }
        ensures ok { OnOk result (string_len text.new + more ≤ string_capacity text.new) }
        ensures capacity { string_capacity text.old ≤ string_capacity text.new }
        ensures full { OnErr result (string_capacity text.old < string_len text.old + more) }
        ensures granted { (n : ℕ) → Self.grants self.now n → string_len text.old + more ≤ n
            → IsOk result };
}

/// The program's own allocator.
impl TextMemory for Global {
    fn reserve_text(&self, text: &mut String, more: usize) -> Result<(), AllocError> {
        text.reserve(more)
    }
}

/// Appends a text, by this memory. If it grants whatever is asked for, there is no error.
pub fn push_text<M: TextMemory>(memory: &M, text: &mut String, more: &str) -> Result<(), AllocError>
    ensures bytes { OnOk result (string_bytes text.new ≡ string_bytes text.old ++ more.now) }
    ensures granted { ((n : ℕ) → M.grants memory.now n) → IsOk result }
{
    memory.reserve_text(text, more.len())?;
    text.push_str(more)
}

/// Appends bytes to a list, as `push_text` does to a text.
pub fn push_bytes<M: Memory>(memory: &M, list: &mut Vec<u8>, bytes: &[u8]) -> Result<(), AllocError>
    ensures items { OnOk result (list.new.items ≡ list.old.items ++ bytes.now) }
    ensures granted { ((n : ℕ) → M.grants memory.now n) → IsOk result }
{
    memory.reserve(list, bytes.len())?;
    list.extend_from_slice(bytes)
}

/// Appends a number in decimal digits, as `push_text` does.
pub fn push_number<M: TextMemory>(
    memory: &M,
    text: &mut String,
    number: u64,
) -> Result<(), AllocError>
    ensures bytes { OnOk result (string_bytes text.new ≡ string_bytes text.old ++ decimal number) }
    ensures granted { ((n : ℕ) → M.grants memory.now n) → IsOk result }
{
    let mut buffer = Buffer::new();
    push_text(memory, text, buffer.format(number))
}

/// Appends a word, with the blanks around it, and a number, as `push_text` does.
pub fn push_named<M: TextMemory>(
    memory: &M,
    text: &mut String,
    word: &str,
    number: u64,
) -> Result<(), AllocError>
    ensures bytes { OnOk result
        (string_bytes text.new ≡ string_bytes text.old ++ word.now ++ decimal number) }
    ensures granted { ((n : ℕ) → M.grants memory.now n) → IsOk result }
{
    push_text(memory, text, word)?;
    push_number(memory, text, number)
}

/// Appends a number with a sign in decimal digits, as `push_text` does.
pub fn push_signed<M: TextMemory>(
    memory: &M,
    text: &mut String,
    number: i32,
) -> Result<(), AllocError>
    ensures bytes { OnOk result
        (string_bytes text.new ≡ string_bytes text.old ++ signed_decimal number) }
    ensures granted { ((n : ℕ) → M.grants memory.now n) → IsOk result }
{
    let mut buffer = Buffer::new();
    push_text(memory, text, buffer.format(number))
}

/// Appends bytes as two lower case hexadecimal digits each, as `push_text` does.
pub fn push_hex<M: TextMemory>(
    memory: &M,
    text: &mut String,
    bytes: &[u8],
) -> Result<(), AllocError>
    ensures bytes { OnOk result
        (string_bytes text.new ≡ string_bytes text.old ++ encode_lower bytes.now) }
    ensures granted { ((n : ℕ) → M.grants memory.now n) → IsOk result }
{
    for byte in bytes {
        push_text(memory, text, digit(*byte / 16))?;
        push_text(memory, text, digit(*byte % 16))?;
    }
    Ok(())
}

/// Appends bytes as two lower case hexadecimal digits each, or `-` for none, as `push_text` does.
pub fn push_data<M: TextMemory>(
    memory: &M,
    text: &mut String,
    bytes: &[u8],
) -> Result<(), AllocError>
    ensures bytes { OnOk result
        (string_bytes text.new ≡ string_bytes text.old ++ hex_or_dash bytes.now) }
    ensures granted { ((n : ℕ) → M.grants memory.now n) → IsOk result }
{
    if bytes.is_empty() {
        return push_text(memory, text, "-");
    }
    push_hex(memory, text, bytes)
}

/// The hexadecimal digit of a number below 16.
fn digit(number: u8) -> &'static str
    requires { number < 16 }
    ensures { result.now ≡ slice_index lower_digits number ∷ [] }
{
    match number {
        0 => "0",
        1 => "1",
        2 => "2",
        3 => "3",
        4 => "4",
        5 => "5",
        6 => "6",
        7 => "7",
        8 => "8",
        9 => "9",
        10 => "a",
        11 => "b",
        12 => "c",
        13 => "d",
        14 => "e",
        _ => "f",
    }
}
