//! Parts of lines, of answers and of reports.

use uring_text::spelled_signed;

/// The number at the end of a text, 0 if there is none.
pub(crate) fn last_number(text: &[u8]) -> u64 {
    let mut number: u64 = 0;
    for byte in text {
        number = match byte {
            b'0'..=b'9' => number
                .saturating_mul(10)
                .saturating_add(u64::from(byte.wrapping_sub(b'0'))),
            _ => 0,
        };
    }
    number
}

/// The result in the answer of an end.
pub(crate) fn result_of(answer: &[u8]) -> i32 {
    match answer.strip_prefix(b"ended ") {
        Some(result) => spelled_signed(result).unwrap_or(0),
        None => 0,
    }
}

/// What stands before the first of these marks, and what stands after it; a text without one is all before it.
pub(crate) fn split_at_mark<'a>(text: &'a [u8], mark: &[u8]) -> (&'a [u8], &'a [u8]) {
    for place in 0..text.len() {
        let (before, rest) = text.split_at(place);
        if let Some(after) = rest.strip_prefix(mark) {
            return (before, after);
        }
    }
    (text, b"")
}
