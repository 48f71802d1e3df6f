//! The parts of an outcome as text: its completions, and its files.

ghost use Rattle.std.specs.Prelude.{◌≡◌, ◌++◌, ◌<◌, ◌≤◌, ℕ, pos, IfOk, OnOk, IsOk, Some, length, string_bytes};
ghost use Rattle.uring_files.specs.Contents.{FileContents};
ghost use Rattle.uring_files.specs.Operations.{file_of, state_of};
ghost use Rattle.uring_text.specs.Tokens.{hex_or_dash};
ghost use Rattle.uring_litmus.specs.Parts.{texts_of, IsShown, completion_parts, state_text, files_texts};

use crate::form::Form;
use crate::lines::push_copy;
use std::alloc::{AllocError, Global};
use uring_entry::Setup;
use uring_files::FileState;
use uring_memory::{Memory, copied, push};
use uring_outcomes::{Cqe, Ending, Files};
use uring_play_text::sort;
use uring_text::{TextMemory, push_completion_in, push_data, push_named, push_text};

/// The parts of an outcome, in order: its completions, and its files if they are asked for.
pub(crate) fn parts_of<M: TextMemory>(
    memory: &M,
    alloc: Global,
    ending: &Ending,
    form: Form,
) -> Result<Vec<String>, AllocError>
    ensures parts { IfOk result (λ parts. IsShown form ending.now (texts_of parts.items)) }
    ensures granted { ((n : ℕ) → M.grants memory.now n) → IsOk result }
{
    let mut completions = copied(memory, alloc, ending.posted())?;
    if form.is_sorted {
        sort(completions.as_mut_slice());
    }
    let mut parts = Vec::new(alloc);
    add_completions(memory, alloc, &mut parts, completions.as_slice())?;
    if form.has_files {
        add_files(memory, alloc, &mut parts, ending.files())?;
    }
    Ok(parts)
}

/// Adds the text of each completion, or `none` if there is none.
pub(crate) fn add_completions<M: TextMemory>(
    memory: &M,
    alloc: Global,
    parts: &mut Vec<String>,
    completions: &[Cqe],
) -> Result<(), AllocError>
    ensures parts { OnOk result
        (texts_of parts.new.items ≡ texts_of parts.old.items ++ completion_parts completions.now) }
    ensures granted { ((n : ℕ) → M.grants memory.now n) → IsOk result }
{
    if completions.is_empty() {
        return push_copy(memory, alloc, parts, "none");
    }
    for completion in completions {
        let mut text = String::new(alloc);
        push_completion_in(memory, &mut text, completion)?;
        push(memory, parts, text)?;
    }
    Ok(())
}

/// Adds the text of each file. Condition: there are no more than a set-up may have.
fn add_files<M: TextMemory>(
    memory: &M,
    alloc: Global,
    parts: &mut Vec<String>,
    files: &Files,
) -> Result<(), AllocError>
    requires { length files.now ≤ 64 }
    ensures parts { OnOk result
        (texts_of parts.new.items ≡ texts_of parts.old.items ++ files_texts 0 files.now) }
    ensures granted { ((n : ℕ) → M.grants memory.now n) → IsOk result }
{
    for fd in 0..Setup::MAX_FILES {
        let Some(state) = state_at(files, fd) else {
            return Ok(());
        };
        let bytes = bytes_of(memory, alloc, files, fd, state.len)?;
        let text = text_of_file(memory, alloc, fd, &state, bytes.as_slice());
        drop(bytes);
        let text = text?;
        push(memory, parts, text)?;
    }
    Ok(())
}

/// How the file of this descriptor stands.
fn state_at(files: &Files, fd: u32) -> Option<FileState>
    requires { fd < 64 }
    ensures { result ≡ state_of files.now (pos fd) }
{
    files.state(fd as i32)
}

/// The text of a file that stands so and has these bytes.
fn text_of_file<M: TextMemory>(
    memory: &M,
    alloc: Global,
    fd: u32,
    state: &FileState,
    bytes: &[u8],
) -> Result<String, AllocError>
    ensures text { IfOk result
        (λ text. string_bytes text ≡ state_text fd state.now ++ hex_or_dash bytes.now) }
    ensures granted { ((n : ℕ) → M.grants memory.now n) → IsOk result }
{
    let mut text = String::new(alloc);
    push_named(memory, &mut text, "file ", u64::from(fd))?;
    push_named(memory, &mut text, " len ", u64::from(state.len))?;
    push_named(memory, &mut text, " writes ", state.writes)?;
    push_named(memory, &mut text, " synced ", state.synced)?;
    push_text(memory, &mut text, " data ")?;
    push_data(memory, &mut text, bytes)?;
    Ok(text)
}

/// The bytes of the file of this descriptor, which has so many.
fn bytes_of<M: Memory>(
    memory: &M,
    alloc: Global,
    files: &Files,
    fd: u32,
    len: u32,
) -> Result<Vec<u8>, AllocError>
    requires { fd < 64 }
    ensures bytes { (file : FileContents) → file_of files.now (pos fd) ≡ Some file
        → length file.bytes ≡ len → IfOk result (λ bytes. bytes.items ≡ file.bytes) }
    ensures granted { ((n : ℕ) → M.grants memory.now n) → IsOk result }
{
    let mut bytes = Vec::new(alloc);
    for at in 0..len {
        if let Some(byte) = files.byte(fd as i32, u64::from(at)) {
            push(memory, &mut bytes, byte)?;
        }
    }
    Ok(bytes)
}
