//! The texts of items, as the input of a play has them.

use std::alloc::{AllocError, Global};
use std::mem;

/// The lines of each call: an empty line ends a call, and calls of no line are passed over.
pub(crate) fn texts_of(alloc: Global, input: &[u8]) -> Result<Vec<Vec<String>>, AllocError> {
    let mut calls = Vec::new(alloc);
    let mut call = Vec::new(alloc);
    for line in input.split(|byte| *byte == b'\n') {
        if line.is_empty() {
            end_call(alloc, &mut call, &mut calls)?;
        } else if let Ok(text) = str::from_utf8(line) {
            // A line that is no text is none of an item.
            let copy = String::from_str(alloc, text)?;
            call.push(copy)?;
        }
    }
    end_call(alloc, &mut call, &mut calls)?;
    drop(call);
    Ok(calls)
}

/// Ends a call, if it has a line.
fn end_call(
    alloc: Global,
    call: &mut Vec<String>,
    calls: &mut Vec<Vec<String>>,
) -> Result<(), AllocError> {
    if call.is_empty() {
        return Ok(());
    }
    let whole = mem::replace(call, Vec::new(alloc));
    calls.push(whole)?;
    Ok(())
}
