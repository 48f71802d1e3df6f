//! An image as text, and what it shows of each write.

ghost use Rattle.std.specs.Prelude.{◌≡◌, ◌++◌, ℕ, OnOk, IsOk, string_bytes};
ghost use Rattle.uring_crash.specs.Crashes.{image_text};

use std::alloc::{AllocError, Global};
use uring_crash_machine::FileLog;
use uring_text::{TextMemory, push_data, push_number, push_text};
use uring_volume::Kept;

/// Appends an image: its length and its bytes, two digits each. If the memory grants whatever is asked for, there is no error.
pub(crate) fn push_image<M: TextMemory>(
    memory: &M,
    text: &mut String,
    image: &[u8],
) -> Result<(), AllocError>
    ensures bytes { OnOk result
        (string_bytes text.new ≡ string_bytes text.old ++ image_text image.now) }
    ensures granted { ((n : ℕ) → M.grants memory.now n) → IsOk result }
{
    push_text(memory, text, "len ")?;
    push_number(memory, text, image.len() as u64)?;
    push_text(memory, text, " data ")?;
    push_data(memory, text, image)?;
    push_text(memory, text, "\n")
}

/// What an image shows of each write of the file: the request that it is, whether it is safe, and how many of its bytes stand in the image. If the memory grants whatever is asked for, there is no error.
pub(crate) fn told_writes<M: TextMemory>(
    memory: &M,
    alloc: Global,
    log: &FileLog,
    image: &[u8],
) -> Result<String, AllocError>
    ensures granted { ((n : ℕ) → M.grants memory.now n) → IsOk result }
{
    let mut text = String::new(alloc);
    for k in log.volume().writes() {
        push_write(memory, &mut text, log, k, image)?;
    }
    Ok(text)
}

/// Appends what an image shows of a write.
fn push_write<M: TextMemory>(
    memory: &M,
    text: &mut String,
    log: &FileLog,
    k: &Kept,
    image: &[u8],
) -> Result<(), AllocError>
    ensures granted { ((n : ℕ) → M.grants memory.now n) → IsOk result }
{
    let write = &k.piece;
    let request = log.request(write.number()).unwrap_or(0);
    let after = image.get(write.off() as usize..).unwrap_or_default();
    let there = after
        .iter()
        .zip(write.bytes())
        .filter(|(found, written)| found == written)
        .count();
    push_text(memory, text, "write ")?;
    push_number(memory, text, request)?;
    push_text(memory, text, " at ")?;
    push_number(memory, text, write.off())?;
    push_text(
        memory,
        text,
        if k.safe_yet {
            ": safe, "
        } else {
            ": not safe, "
        },
    )?;
    push_number(memory, text, there as u64)?;
    push_text(memory, text, " of ")?;
    push_number(memory, text, write.bytes().len() as u64)?;
    push_text(memory, text, " bytes\n")
}
