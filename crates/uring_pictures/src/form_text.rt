//! Forms with values in them, by which texts are written.

ghost use Rattle.std.specs.Prelude.{◌≡◌, ◌++◌, ◌∷◌, ◌<◌, [], ℕ, true, IsOk, OnOk, string_bytes};
ghost use Rattle.uring_pictures.specs.Forms.{form_text, is_known, is_told, value_text};

use itoa::Buffer;
use std::alloc::{AllocError, Global};
use uring_entry::{Sqe, SqeFlags};
use uring_machine::Why;
use uring_text::{
    TextMemory, push_named, push_number, push_operation, push_signed, push_text, push_visible_in,
};
use uring_trace::push_why_in;

/// What stands in a form for a value.
const MARK: u8 = b'@';

/// How wide a column is.
const WIDTH: usize = 9;

/// The flags that are told, each with its letter.
static LETTERS: [(SqeFlags, &str); 5] = [
    (SqeFlags::IO_DRAIN, "D"),
    (SqeFlags::IO_LINK, "L"),
    (SqeFlags::IO_HARDLINK, "H"),
    (SqeFlags::ASYNC, "A"),
    (SqeFlags::CQE_SKIP_SUCCESS, "S"),
];

/// A value in a form.
#[derive(Clone, Copy)]
pub(crate) enum Value<'a> {
    /// A number.
    Number(u64),

    /// A number with a sign.
    Signed(i32),

    /// A text, as it is.
    Text(&'a str),

    /// Printing bytes of ASCII and ends of lines, as a string of JSON has them.
    Quoted(&'a [u8]),

    /// Bytes, each of which can be seen, as a string of JSON has them.
    Seen(Global, &'a [u8]),

    /// This text, then bytes and an end of a string, unless there are no bytes.
    Told(&'a str, &'a [u8]),

    /// The operation of an entry, by its name in the trace language.
    Operation(&'a Sqe),

    /// The flags of an entry, by their letters.
    Flags(&'a Sqe),

    /// This text and a number, if there is one.
    Member(&'a str, Option<u64>),

    /// This text, if the entry has this flag.
    Flag(&'a Sqe, SqeFlags, &'a str),

    /// Why a request stands as it does, in the words of `explain`.
    Reason(Why),

    /// A number, or `-` for none, at the right end of a column.
    Wide(Option<u64>),
}

/// Appends a form, with a value for each `@`, in order. What it writes is told where each value is one of those of a graph. Here and below, and in all that is written by forms: if the memory grants whatever is asked for, there is no error.
pub(crate) fn push_form<M: TextMemory>(
    memory: &M,
    text: &mut String,
    form: &str,
    values: &[Value<'_>],
) -> Result<(), AllocError>
    ensures text { OnOk result
        (is_told form.now values.now ≡ true
        → string_bytes text.new ≡ string_bytes text.old ++ form_text form.now values.now) }
    ensures granted { ((n : ℕ) → M.grants memory.now n) → IsOk result }
{
    let mut place: usize = 0;
    for byte in form.as_bytes() {
        if *byte != MARK {
            push_plain(memory, text, *byte)?;
        } else if let Some(value) = values.get(place) {
            push_value(memory, text, value)?;
            place = place.saturating_add(1);
        }
    }
    Ok(())
}

/// Appends a value.
fn push_value<M: TextMemory>(
    memory: &M,
    text: &mut String,
    value: &Value<'_>,
) -> Result<(), AllocError>
    ensures text { OnOk result
        (is_known value.now ≡ true
        → string_bytes text.new ≡ string_bytes text.old ++ value_text value.now) }
    ensures granted { ((n : ℕ) → M.grants memory.now n) → IsOk result }
{
    match value {
        Value::Number(number) => push_number(memory, text, *number),
        Value::Signed(number) => push_signed(memory, text, *number),
        Value::Text(more) => push_text(memory, text, more),
        Value::Quoted(bytes) => push_quoted(memory, text, bytes),
        Value::Seen(alloc, bytes) => push_seen(memory, *alloc, text, bytes),
        Value::Told(_, bytes) if bytes.is_empty() => Ok(()),
        Value::Told(name, bytes) => {
            push_text(memory, text, name)?;
            push_quoted(memory, text, bytes)?;
            push_plain(memory, text, b'"')
        }
        Value::Operation(entry) => push_operation(memory, text, entry),
        Value::Flags(entry) => push_letters(memory, text, entry),
        Value::Member(name, Some(number)) => push_named(memory, text, name, *number),
        Value::Member(_, None) => Ok(()),
        Value::Flag(entry, flag, name) if entry.has(*flag) => push_text(memory, text, name),
        Value::Flag(..) => Ok(()),
        Value::Reason(why) => push_why_in(memory, text, *why),
        Value::Wide(number) => push_wide(memory, text, *number),
    }
}

/// Appends the letters of the flags that are set.
fn push_letters<M: TextMemory>(memory: &M, text: &mut String, entry: &Sqe) -> Result<(), AllocError>
    ensures { ((n : ℕ) → M.grants memory.now n) → IsOk result }
{
    for (flag, letter) in &LETTERS {
        if entry.has(*flag) {
            push_text(memory, text, letter)?;
        }
    }
    Ok(())
}

/// Appends a number, or `-` for none, at the right end of a column.
fn push_wide<M: TextMemory>(
    memory: &M,
    text: &mut String,
    number: Option<u64>,
) -> Result<(), AllocError>
    ensures { ((n : ℕ) → M.grants memory.now n) → IsOk result }
{
    let mut buffer = Buffer::new();
    let digits = match number {
        Some(number) => buffer.format(number),
        None => "-",
    };
    for _ in digits.len()..WIDTH {
        push_plain(memory, text, b' ')?;
    }
    push_text(memory, text, digits)
}

/// Appends bytes as a string of JSON has them, so that each can be seen, and none ends a script of HTML.
fn push_seen<M: TextMemory>(
    memory: &M,
    alloc: Global,
    text: &mut String,
    bytes: &[u8],
) -> Result<(), AllocError>
    ensures { ((n : ℕ) → M.grants memory.now n) → IsOk result }
{
    let mut seen = String::new(alloc);
    match push_visible_in(memory, &mut seen, bytes) {
        Ok(()) => push_quoted(memory, text, seen.as_bytes()),
        Err(fault) => Err(fault),
    }
}

/// Appends printing bytes of ASCII, and ends of lines, as a string of JSON has them.
fn push_quoted<M: TextMemory>(memory: &M, text: &mut String, bytes: &[u8]) -> Result<(), AllocError>
    ensures { ((n : ℕ) → M.grants memory.now n) → IsOk result }
{
    for byte in bytes {
        let escape = match *byte {
            b'"' => "\\\"",
            b'\\' => "\\\\",
            b'\n' => "\\n",
            b'<' => "\\u003c",
            _ => {
                push_plain(memory, text, *byte)?;
                continue;
            }
        };
        push_text(memory, text, escape)?;
    }
    Ok(())
}

/// Appends the character of this code.
fn push_plain<M: TextMemory>(memory: &M, text: &mut String, code: u8) -> Result<(), AllocError>
    ensures text { OnOk result
        (code < 128 → string_bytes text.new ≡ string_bytes text.old ++ code ∷ []) }
    ensures granted { ((n : ℕ) → M.grants memory.now n) → IsOk result }
{
    memory.reserve_text(text, 2)?;
    text.push(code as char)
}
