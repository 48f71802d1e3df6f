//! Recorded traces in which completions have no data: a check of results alone says nothing of data.

use std::alloc::{AllocError, Global};
use uring_text::{spelled_long, spelled_signed};

/// How a completion is recorded.
const REAPED: &[u8] = b"reap = cqe ";

/// A trace in which each completion with at most as many bytes of data as its result says has none.
pub(crate) fn bare_of(alloc: Global, trace: &[u8]) -> Result<Vec<u8>, AllocError> {
    let mut bare = Vec::with_capacity(alloc, trace.len())?;
    for line in trace.split_inclusive(|byte| *byte == b'\n') {
        match data_of(line) {
            Some(data) => {
                bare.extend_from_slice(&line[..line.len().saturating_sub(data.len())])?;
                bare.extend_from_slice(b"-\n")?;
            }
            None => bare.extend_from_slice(line)?,
        }
    }
    Ok(bare)
}

/// The data of the completion that a line records, up to the line's end, if there are some, and at most as many bytes as its result says.
fn data_of(line: &[u8]) -> Option<&[u8]> {
    let rest = line.strip_prefix(REAPED)?;
    let (user_data, rest) = parted(rest)?;
    let (res, data) = parted(rest)?;
    spelled_long(user_data)?;
    let count = usize::try_from(spelled_signed(res)?).ok()?;
    let digits = data.strip_suffix(b"\n").unwrap_or(data);
    let is_right = !digits.is_empty() && digits.len() % 2 == 0 && digits.len() / 2 <= count;
    let are_digits = digits
        .iter()
        .all(|byte| matches!(byte, b'0'..=b'9' | b'a'..=b'f'));
    (is_right && are_digits).then_some(data)
}

/// What stands before and after the first space.
fn parted(text: &[u8]) -> Option<(&[u8], &[u8])> {
    let place = text.iter().position(|byte| *byte == b' ')?;
    let (before, rest) = text.split_at(place);
    Some((before, rest.strip_prefix(b" ")?))
}
