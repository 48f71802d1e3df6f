//! What is asked of all images that a crash may leave: how many there are, which, and whether each has some bytes.

ghost use Rattle.std.specs.Prelude.{◌≡◌, ◌≢◌, ◌<◌, ◌++◌, [], ℕ, ℤ, Err, map, IfOk, IsOk, OnOk, string_bytes};
ghost use Rattle.uring_entry.specs.Setup.{Setup};
ghost use Rattle.uring_core.specs.Histories.{History};
ghost use Rattle.uring_crash_machine.specs.Logs.{log_of};
ghost use Rattle.uring_crash.specs.Watches.{Watches};
ghost use Rattle.uring_crash.specs.Following.{Follows};
ghost use Rattle.uring_crash.specs.Questions.{Asks, Replies, AreKept, count_text, images_text, kept_text};

use crate::crash_run::{Asked, reads_bad_line};
use crate::follower::Follower;
use crate::image_text::{push_image, told_writes};
use crate::search::{ImageFound, find};
use crate::watch::Watch;
use std::alloc::{AllocError, Global};
use std::io::{Read, Write};
use uring_machine::Setup;
use uring_text::{Calls, TextMemory, TraceFault, push_data, push_number, push_text, write_all};
use uring_volume::ImagesError;

/// A question of all images that a crash may leave of a file.
#[derive(Drop)]
pub enum Question {
    /// How many there are.
    Count,

    /// Which, if there are no more than `most`.
    All { most: u32 },

    /// Whether each has these bytes at an offset. Where that isn't plain, the images are listed, if there are no more than `most`.
    Keeps { off: u64, bytes: Vec<u8>, most: u32 },
}

/// What became of a question.
#[derive(Clone, Copy, Drop)]
pub enum Reply {
    /// It was answered; of bytes, that each image has them.
    Answered,

    /// Not every image has the bytes.
    NotKept,

    /// There are more images than may be listed.
    TooMany,

    /// A line was bad.
    BadLine,
}

/// Reads lines as `crash` does, and writes the answer to a question of all images that a crash after them may leave of the file; the seed is of no account.
///
/// - How many: `images N`, with ` or more` after 2^64 - 1.
/// - Which: a line with the length and the bytes of each, in the order in which they were found, and how many.
/// - Whether each has some bytes: `kept at OFF: HEX`, or else `not kept at OFF: HEX` and an image that hasn't, with its writes, as `crash` writes it.
///
/// With `TooMany` and `BadLine` nothing is written; the first bad line is noted on `errors`. The faults are those of `crash`.
pub fn ask<R: Read, W: Write, E: Write>(
    alloc: Global,
    reader: &mut R,
    writer: &mut W,
    errors: &mut E,
    setup: &Setup,
    asked: &Asked,
    question: &Question,
) -> Result<Reply, TraceFault>
    requires { 0 < asked.now.unit }
    ensures { IfOk result
        (λ reply. Asks question.now asked.now setup.now reply (R.remaining reader.old) (R.remaining reader.new) (W.contents writer.old) (W.contents writer.new)) }
{
    ask_in(
        &alloc, alloc, reader, writer, errors, setup, asked, question,
    )
}

/// As `ask`, by this memory. If it grants whatever is asked for, it never ends with `Memory`.
pub fn ask_in<M: TextMemory, R: Read, W: Write, E: Write>(
    memory: &M,
    alloc: Global,
    reader: &mut R,
    writer: &mut W,
    errors: &mut E,
    setup: &Setup,
    asked: &Asked,
    question: &Question,
) -> Result<Reply, TraceFault>
    requires { 0 < asked.now.unit }
    ensures answered { IfOk result
        (λ reply. Asks question.now asked.now setup.now reply (R.remaining reader.old) (R.remaining reader.new) (W.contents writer.old) (W.contents writer.new)) }
    ensures granted { ((n : ℕ) → M.grants memory.now n) → result ≢ Err TraceFault.Memory }
{
    let mut follower = Follower::new(memory, alloc, setup, asked.unit, asked.fd, asked.lines)?;
    let answered = answer(
        memory,
        alloc,
        &mut follower,
        reader,
        writer,
        errors,
        asked,
        question,
    );
    drop(follower);
    answered
}

/// Takes in all lines, and writes the answer, or the note on a bad line.
fn answer<M: TextMemory, R: Read, W: Write, E: Write>(
    memory: &M,
    alloc: Global,
    follower: &mut Follower,
    reader: &mut R,
    writer: &mut W,
    errors: &mut E,
    asked: &Asked,
    question: &Question,
) -> Result<Reply, TraceFault>
    ensures answered { IfOk result
        (λ reply. (setup : Setup) → Follows asked.now.unit setup asked.now.fd asked.now.lines follower.old []
        → Asks question.now asked.now setup reply (R.remaining reader.old) (R.remaining reader.new) (W.contents writer.old) (W.contents writer.new)) }
    ensures granted { ((n : ℕ) → M.grants memory.now n) → result ≢ Err TraceFault.Memory }
{
    let has_bad = reads_bad_line(memory, follower, reader, errors)?;
    if has_bad {
        return Ok(Reply::BadLine);
    }
    let told = replied(memory, alloc, follower.watch(), asked.unit, question)?;
    write_all(writer, told.1.as_bytes(), &mut Calls::new())?;
    Ok(told.0)
}

/// The reply to a question, and the text that is written.
fn replied<M: TextMemory>(
    memory: &M,
    alloc: Global,
    watch: &Watch,
    unit: u64,
    question: &Question,
) -> Result<(Reply, String), AllocError>
    ensures reply { IfOk result (λ r. (unit : ℕ) (setup : Setup) (fd : ℤ) (h : History)
        → Watches unit setup fd watch.now h
        → Replies question.now unit (log_of unit setup fd h).volume.history r.0 (string_bytes r.1)) }
    ensures granted { ((n : ℕ) → M.grants memory.now n) → IsOk result }
{
    match question {
        Question::Count => {
            let count = watch.log().volume().count_images_in(memory, alloc)?;
            let mut text = String::new(alloc);
            push_count(memory, &mut text, count)?;
            Ok((Reply::Answered, text))
        }
        Question::All { most } => match watch.images(memory, alloc, *most) {
            Ok(images) => Ok((Reply::Answered, text_of_images(memory, alloc, &images)?)),
            Err(ImagesError::TooMany) => Ok((Reply::TooMany, String::new(alloc))),
            Err(ImagesError::OutOfMemory) => Err(AllocError),
        },
        Question::Keeps { off, bytes, most } => kept(
            memory, alloc, watch, unit, *off, bytes, *most,
        ),
    }
}

/// Whether each image has these bytes.
fn kept<M: TextMemory>(
    memory: &M,
    alloc: Global,
    watch: &Watch,
    unit: u64,
    off: u64,
    bytes: &[u8],
    most: u32,
) -> Result<(Reply, String), AllocError>
    ensures reply { IfOk result (λ r. (unit : ℕ) (setup : Setup) (fd : ℤ) (h : History)
        → Watches unit setup fd watch.now h
        → AreKept off bytes.now most unit (log_of unit setup fd h).volume.history r.0 (string_bytes r.1)) }
    ensures granted { ((n : ℕ) → M.grants memory.now n) → IsOk result }
{
    match find(memory, alloc, watch, unit, off, bytes, most)? {
        ImageFound::Nowhere => {
            let mut text = String::new(alloc);
            push_wanted(memory, &mut text, off, bytes)?;
            Ok((Reply::Answered, text))
        }
        ImageFound::Without(image) => {
            let words = told_writes(memory, alloc, watch.log(), &image)?;
            let mut text = String::new(alloc);
            push_text(memory, &mut text, "not ")?;
            push_wanted(memory, &mut text, off, bytes)?;
            push_image(memory, &mut text, &image)?;
            push_text(memory, &mut text, words.as_str())?;
            Ok((Reply::NotKept, text))
        }
        ImageFound::TooMany => Ok((Reply::TooMany, String::new(alloc))),
    }
}

/// Appends how many images there are.
fn push_count<M: TextMemory>(memory: &M, text: &mut String, count: u64) -> Result<(), AllocError>
    ensures bytes { OnOk result
        (string_bytes text.new ≡ string_bytes text.old ++ count_text count) }
    ensures granted { ((n : ℕ) → M.grants memory.now n) → IsOk result }
{
    push_text(memory, text, "images ")?;
    push_number(memory, text, count)?;
    if count == u64::MAX {
        return push_text(memory, text, " or more\n");
    }
    push_text(memory, text, "\n")
}

/// The lines of images, and how many they are.
fn text_of_images<M: TextMemory>(
    memory: &M,
    alloc: Global,
    images: &[Vec<u8>],
) -> Result<String, AllocError>
    ensures text { IfOk result
        (λ text. string_bytes text ≡ images_text (map (λ b. b.items) images.now)) }
    ensures granted { ((n : ℕ) → M.grants memory.now n) → IsOk result }
{
    let mut text = String::new(alloc);
    for image in images {
        push_image(memory, &mut text, image)?;
    }
    let count = images.len() as u64;
    push_count(memory, &mut text, count)?;
    Ok(text)
}

/// Appends the bytes that were asked for, with their offset.
fn push_wanted<M: TextMemory>(
    memory: &M,
    text: &mut String,
    off: u64,
    bytes: &[u8],
) -> Result<(), AllocError>
    ensures bytes { OnOk result
        (string_bytes text.new ≡ string_bytes text.old ++ kept_text off bytes.now) }
    ensures granted { ((n : ℕ) → M.grants memory.now n) → IsOk result }
{
    push_text(memory, text, "kept at ")?;
    push_number(memory, text, off)?;
    push_text(memory, text, ": ")?;
    push_data(memory, text, bytes)?;
    push_text(memory, text, "\n")
}
